//! The header node and the map nodes of a new tree (Inside Macintosh: Files, chapter 2, "B*-Trees").
ghost use Rattle.std.specs.Prelude.{◌≡◌, ◌+◌, ◌-◌, ◌<◌, ◌≤◌, length};
ghost use Rattle.hfs_format.specs.NewTrees as spec;
ghost use Rattle.hfs_format.specs.NewTrees.{map_node_count, IsNewTree};

use crate::bit_row::push_bits;
use crate::node_block::descriptor;
use hfs_btree::{Header, NodeKind};
use hfs_fields::FieldRow;

/// How many map nodes a tree of `nodes` nodes has. A map node's record is 492 bytes long.
#[tactic(auto, unfolding(crate::specs::NewTrees::map_node_count))]
fn map_node_count(nodes: u32) -> u32
    requires { nodes ≤ 4194304 }
    ensures count { result ≡ map_node_count nodes }
    ensures few { result < 1067 }
    ensures room { result ≤ nodes - 2 }
{
    (nodes.saturating_sub(2_048) + 3_935) / 3_936
}

/// The header record of a tree of `nodes` nodes without a leaf. `key_len` is the length of its index nodes' keys, without their
/// length byte.
#[tactic(auto, unfolding(crate::specs::NewTrees::empty_tree))]
pub fn empty_tree(key_len: u16, nodes: u32) -> Header
    requires some { 1 ≤ nodes }
    requires few { nodes ≤ 4194304 }
    ensures fields { result ≡ spec.empty_tree key_len nodes }
    ensures tree { IsNewTree result }
{
    Header {
        depth: 0,
        root: 0,
        records: 0,
        first_leaf: 0,
        last_leaf: 0,
        node_size: 512,
        key_len,
        nodes,
        free_nodes: nodes - 1 - map_node_count(nodes),
    }
}

/// The header record of a tree of `nodes` nodes with one leaf of `records` records, which follows the header node and the map
/// nodes.
#[tactic(auto, unfolding(crate::specs::NewTrees::one_leaf_tree))]
pub fn one_leaf_tree(key_len: u16, nodes: u32, records: u32) -> Header
    requires some { 2 ≤ nodes }
    requires few { nodes ≤ 4194304 }
    ensures fields { result ≡ spec.one_leaf_tree key_len nodes records }
    ensures tree { IsNewTree result }
{
    let maps = map_node_count(nodes);
    Header {
        depth: 1,
        root: 1 + maps,
        records,
        first_leaf: 1 + maps,
        last_leaf: 1 + maps,
        node_size: 512,
        key_len,
        nodes,
        free_nodes: nodes - 2 - maps,
    }
}

/// The header record's 106 bytes.
#[tactic(auto, unfolding(crate::specs::NewTrees::header_record))]
fn header_record(tree: &Header) -> FieldRow
    ensures bytes { result ≡ spec.header_record tree.now }
    ensures length { length result ≡ 106 }
{
    let mut row = FieldRow::new();
    row.push_u16(tree.depth);
    row.push_u32(tree.root);
    row.push_u32(tree.records);
    row.push_u32(tree.first_leaf);
    row.push_u32(tree.last_leaf);
    row.push_u16(tree.node_size);
    row.push_u16(tree.key_len);
    row.push_u32(tree.nodes);
    row.push_u32(tree.free_nodes);
    row.push_zeros(76);
    row
}

/// The node after node `j` among those that hold the map; 0 after the last.
#[tactic(auto, unfolding(crate::specs::NewTrees::next_map_node))]
fn next_map_node(tree: &Header, j: u32) -> u32
    requires { IsNewTree tree.now }
    ensures { result ≡ spec.next_map_node tree.now j }
{
    if j < map_node_count(tree.nodes) {
        j + 1
    } else {
        0
    }
}

/// The header node of a tree whose first nodes are in use and the others free.
fn header_block(tree: &Header) -> [u8; 512]
    requires { IsNewTree tree.now }
    ensures { result ≡ spec.node_bytes (spec.header_node tree.now) }
{
    let mut row = descriptor(next_map_node(tree, 0), 0, NodeKind::Header, 0, 3);
    row.push_row(&header_record(tree));
    row.push_zeros(128);
    push_bits(&mut row, tree.nodes - tree.free_nodes, 0, 256);
    row.push_u16(504);
    row.push_u16(248);
    row.push_u16(120);
    row.push_u16(14);
    row.into_block()
}

/// Map node `j` of such a tree, from 1 on.
fn map_block(tree: &Header, j: u32) -> [u8; 512]
    requires tree { IsNewTree tree.now }
    requires some { 1 ≤ j }
    requires few { j ≤ map_node_count tree.now.nodes }
    ensures { result ≡ spec.node_bytes (spec.map_node tree.now j) }
{
    let mut row = descriptor(next_map_node(tree, j), j - 1, NodeKind::Map, 0, 1);
    push_bits(
        &mut row,
        tree.nodes - tree.free_nodes,
        256 + 492 * (j - 1),
        492,
    );
    row.push_zeros(2);
    row.push_u16(506);
    row.push_u16(14);
    row.into_block()
}

/// Node `j` of such a tree: its header node, its map nodes, and zeros after them.
#[tactic(auto, unfolding(crate::specs::NewTrees::tree_block))]
pub fn tree_block(tree: &Header, j: u32) -> [u8; 512]
    requires { IsNewTree tree.now }
    ensures { result ≡ spec.tree_block tree.now j }
{
    if j > map_node_count(tree.nodes) {
        [0; 512]
    } else if j > 0 {
        map_block(tree, j)
    } else {
        header_block(tree)
    }
}

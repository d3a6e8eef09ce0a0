//! Reading those nodes of a tree that decide: its header node, its map nodes, and the nodes that its map marks.
ghost use Rattle.std.specs.Prelude.{◌≡◌, ℕ, ◌+◌, ◌*◌, ◌<◌, ◌≤◌, true, [], length, slice_index_or, OnOk, IfOk};
ghost use Rattle.std.specs.List.{flat_map};
ghost use Rattle.std.specs.Vec.{vec_len};
ghost use Rattle.hfs_blocks.specs.Blocks.{run_of, AreRunsWithin};
ghost use Rattle.hfs_btree.specs.Tree.{node_in};
ghost use Rattle.hfs_btree.specs.Header.{header_in, bit_of};
ghost use Rattle.hfs_btree_checks.specs.Shape.{is_map_value};
ghost use Rattle.hfs_image.specs.Marked.{needed_of_tree};
ghost use Rattle.hfs_image.specs.TreeReads.{nodes_of, HasNode, ReadsRuns, IsHeadOf, FindsHead, FindsMapNode, HasChain, TellsChain, FindsMap, HasMapChain, HasMarked, HasMarkedFrom, LieBeside, block_for};
ghost use Rattle.hfs_source.specs.Seen.{SeesMore};
ghost use Rattle.hfs_source.specs.Sparse.{HasEach};

use crate::tree_header::{TreeHead, read_head};
use hfs_blocks::{Run, block_of};
use hfs_btree::{Key, NodeKind, NodeView, bit_at, view};
use hfs_source::{BlockSource, SparseBlocks, SparseFault, fetch, fetch_range};
use std::alloc::Global;

/// Where the nodes of a tree lie, and how many it has.
#[derive(Clone, Copy)]
struct TreeRuns<'a> {
    /// Its file, block for block.
    runs: &'a [Run],
    nodes: u32,
}

/// Reads node `n` of a tree's file, unless it was already read, and copies it.
fn fetch_node<S: BlockSource>(
    source: &mut S,
    read: &mut SparseBlocks,
    runs: &[Run],
    n: u32,
    into: &mut [u8; 512],
) -> Result<(), SparseFault>
    requires within { n < length (flat_map run_of runs.now) }
    requires small { AreRunsWithin runs.now 4294967296 }
    ensures node { OnOk result (into.new ≡ slice_index_or (nodes_of read.new runs.now) n []) }
    ensures has { OnOk result (HasNode read.new runs.now n) }
    ensures reads { ReadsRuns (S.image source.old) runs.now read.old read.new }
    ensures image { S.image source.new ≡ S.image source.old }
    ensures sees { SeesMore (S.Holds source.old) (S.Holds source.new) read.old read.new }
{
    let place = block_of(runs, n);
    fetch(source, read, place)?;
    read.copy_block(place, into);
    Ok(())
}

/// Reads node 0, and what it says about the tree's map. None exactly when it isn't the header node of a tree with these keys in a
/// file of `size` bytes.
fn fetch_head<K: Key, S: BlockSource>(
    alloc: Global,
    source: &mut S,
    read: &mut SparseBlocks,
    runs: &[Run],
    size: u32,
) -> Result<Option<TreeHead>, SparseFault>
    requires within { 0 < length (flat_map run_of runs.now) }
    requires small { AreRunsWithin runs.now 4294967296 }
    ensures found { IfOk result (FindsHead K.Key size (node_in (nodes_of read.new runs.now) 0)) }
    ensures has { OnOk result (HasNode read.new runs.now 0) }
    ensures reads { ReadsRuns (S.image source.old) runs.now read.old read.new }
    ensures image { S.image source.new ≡ S.image source.old }
    ensures sees { SeesMore (S.Holds source.old) (S.Holds source.new) read.old read.new }
{
    let mut block = [0; 512];
    fetch_node(source, read, runs, 0, &mut block)?;
    match read_head::<K>(alloc, &block, size) {
        Ok(head) => Ok(head),
        Err(_) => Err(SparseFault::Memory),
    }
}

/// Whether a node is a map node with a record.
fn is_map(node: &NodeView) -> bool
    ensures { result ≡ is_map_value node.now }
{
    match node.kind() {
        NodeKind::Map => !node.is_empty(),
        NodeKind::Index | NodeKind::Header | NodeKind::Leaf => false,
    }
}

/// Reads node `n`. If it is a map node, appends its part of the node map to `map`, and returns the node after it, or 0. None if
/// it is no map node.
fn fetch_map_node<S: BlockSource>(
    source: &mut S,
    read: &mut SparseBlocks,
    runs: &[Run],
    n: u32,
    map: &mut Vec<u8>,
) -> Result<Option<u32>, SparseFault>
    requires within { n < length (flat_map run_of runs.now) }
    requires small { AreRunsWithin runs.now 4294967296 }
    ensures found { IfOk result
        (FindsMapNode (nodes_of read.new runs.now) n map.old.items map.new.items) }
    ensures has { OnOk result (HasNode read.new runs.now n) }
    ensures reads { ReadsRuns (S.image source.old) runs.now read.old read.new }
    ensures image { S.image source.new ≡ S.image source.old }
    ensures sees { SeesMore (S.Holds source.old) (S.Holds source.new) read.old read.new }
{
    let mut block = [0; 512];
    fetch_node(source, read, runs, n, &mut block)?;
    let Ok(node) = view(&block) else {
        return Ok(None);
    };
    if !is_map(&node) {
        return Ok(None);
    }
    let Ok(()) = map.extend_from_slice(node.record(0)) else {
        return Err(SparseFault::Memory);
    };
    Ok(Some(node.forward()))
}

/// Reads the chain of map nodes of a tree from node `first` on, or none if that is 0. Stops at the first node that is no map
/// node, isn't in the tree, or was met before. Marks each as met, appends their parts of the node map to `map`, and returns
/// whether the chain is right.
#[tactic(auto, using(hfs_source::proofs::Seen::sees_itself))]
fn fetch_chain<S: BlockSource>(
    source: &mut S,
    read: &mut SparseBlocks,
    tree: &TreeRuns<'_>,
    first: u32,
    met: &mut Vec<bool>,
    map: &mut Vec<u8>,
) -> Result<bool, SparseFault>
    requires counted { tree.now.nodes ≡ (header_in (nodes_of read.old tree.now.runs.now)).nodes }
    requires head { HasNode read.old tree.now.runs.now 0 }
    requires within { tree.now.nodes ≤ length (flat_map run_of tree.now.runs.now) }
    requires small { AreRunsWithin tree.now.runs.now 4294967296 }
    requires marks { vec_len met.old ≡ tree.now.nodes }
    ensures has { OnOk result (HasChain read.new tree.now.runs.now tree.now.nodes
        first met.old.items) }
    ensures whole { IfOk result
        (TellsChain (nodes_of read.new tree.now.runs.now) tree.now.nodes first met.old map.old
        map.new) }
    ensures reads { ReadsRuns (S.image source.old) tree.now.runs.now read.old read.new }
    ensures image { S.image source.new ≡ S.image source.old }
    ensures sees { SeesMore (S.Holds source.old) (S.Holds source.new) read.old read.new }
{
    let mut n = first;
    let mut most = tree.nodes;
    while most > 0 {
        if n == 0 {
            return Ok(true);
        }
        if n >= tree.nodes || met[n as usize] {
            return Ok(false);
        }
        most -= 1;
        let Some(next) = fetch_map_node(source, read, tree.runs, n, map)? else {
            return Ok(false);
        };
        met[n as usize] = true;
        n = next;
    }
    Ok(true)
}

/// Reads the map nodes of a tree with this header node, as far as they form a chain, and returns the node map; None only if the
/// map is wrong.
#[tactic(auto, using(hfs_source::proofs::Seen::sees_itself))]
fn fetch_map<S: BlockSource>(
    alloc: Global,
    source: &mut S,
    read: &mut SparseBlocks,
    runs: &[Run],
    head: TreeHead,
) -> Result<Option<Vec<u8>>, SparseFault>
    requires head { IsHeadOf (node_in (nodes_of read.old runs.now) 0) head }
    requires has { HasNode read.old runs.now 0 }
    requires within { head.nodes ≤ length (flat_map run_of runs.now) }
    requires small { AreRunsWithin runs.now 4294967296 }
    ensures has { OnOk result (HasMapChain read.new runs.now) }
    ensures found { IfOk result (FindsMap (nodes_of read.new runs.now) head.nodes) }
    ensures reads { ReadsRuns (S.image source.old) runs.now read.old read.new }
    ensures image { S.image source.new ≡ S.image source.old }
    ensures sees { SeesMore (S.Holds source.old) (S.Holds source.new) read.old read.new }
{
    let TreeHead {
        nodes,
        first,
        mut map,
    } = head;
    let Ok(mut met) = vec![in alloc; false; nodes as usize] else {
        return Err(SparseFault::Memory);
    };
    let tree = TreeRuns { runs, nodes };
    if !fetch_chain(source, read, &tree, first, &mut met, &mut map)? {
        return Ok(None);
    }
    if (nodes as usize).div_ceil(8) > map.len() {
        return Ok(None);
    }
    Ok(Some(map))
}

/// How many nodes from node `n` on, at least that one, of the tree are marked and lie next to each other.
fn marked_beside(tree: &TreeRuns<'_>, map: &[u8], n: u32) -> u32
    requires some { n < tree.now.nodes }
    requires bits { tree.now.nodes ≤ 8 * length map.now }
    requires within { tree.now.nodes ≤ length (flat_map run_of tree.now.runs.now) }
    requires small { AreRunsWithin tree.now.runs.now 4294967296 }
    ensures few { (1 ≤ result) × (n + result ≤ tree.now.nodes) }
    ensures beside { LieBeside tree.now.runs.now n result }
    ensures inside { (total : ℕ) → AreRunsWithin tree.now.runs.now total
        → block_for tree.now.runs.now n + result ≤ total }
{
    let end = tree.nodes;
    let first = u64::from(block_of(tree.runs, n));
    for m in n + 1..end {
        let place = first + u64::from(m - n);
        if !bit_at(map, m as usize) || u64::from(block_of(tree.runs, m)) != place {
            return m - n;
        }
    }
    end - n
}

/// Reads node `n`, if the map marks it, and with it the marked nodes right after it. Returns how many nodes it
/// looked at.
#[tactic(auto, using(hfs_source::proofs::Seen::sees_itself))]
fn fetch_marked_from<S: BlockSource>(
    source: &mut S,
    read: &mut SparseBlocks,
    tree: &TreeRuns<'_>,
    map: &[u8],
    n: u32,
) -> Result<u32, SparseFault>
    requires some { n < tree.now.nodes }
    requires bits { tree.now.nodes ≤ 8 * length map.now }
    requires within { tree.now.nodes ≤ length (flat_map run_of tree.now.runs.now) }
    requires small { AreRunsWithin tree.now.runs.now 4294967296 }
    ensures few { IfOk result (λ step. (1 ≤ step) × (n + step ≤ tree.now.nodes)) }
    ensures has { IfOk result (HasMarkedFrom read.new tree.now.runs.now map.now n) }
    ensures reads { ReadsRuns (S.image source.old) tree.now.runs.now read.old read.new }
    ensures image { S.image source.new ≡ S.image source.old }
    ensures sees { SeesMore (S.Holds source.old) (S.Holds source.new) read.old read.new }
{
    if !bit_at(map, n as usize) {
        return Ok(1);
    }
    let count = marked_beside(tree, map, n);
    fetch_range(source, read, block_of(tree.runs, n), count)?;
    Ok(count)
}

/// Reads those nodes of a tree that the map marks; nodes next to each other are read together.
#[tactic(auto, using(hfs_source::proofs::Seen::sees_itself))]
fn fetch_marked<S: BlockSource>(
    source: &mut S,
    read: &mut SparseBlocks,
    tree: &TreeRuns<'_>,
    map: &[u8],
) -> Result<(), SparseFault>
    requires bits { tree.now.nodes ≤ 8 * length map.now }
    requires within { tree.now.nodes ≤ length (flat_map run_of tree.now.runs.now) }
    requires small { AreRunsWithin tree.now.runs.now 4294967296 }
    ensures has { OnOk result (HasMarked read.new tree.now.runs.now map.now tree.now.nodes) }
    ensures reads { ReadsRuns (S.image source.old) tree.now.runs.now read.old read.new }
    ensures image { S.image source.new ≡ S.image source.old }
    ensures sees { SeesMore (S.Holds source.old) (S.Holds source.new) read.old read.new }
{
    let mut n = 0;
    while n < tree.nodes {
        n += fetch_marked_from(source, read, tree, map, n)?;
    }
    Ok(())
}

/// Reads what decides about a tree with these keys, whose file has `size` bytes and lies in these runs: its header node; if that
/// is right, its map nodes; and if the map can be right, the nodes that it marks.
pub(crate) fn gather_tree<K: Key, S: BlockSource>(
    alloc: Global,
    source: &mut S,
    read: &mut SparseBlocks,
    runs: &[Run],
    size: u32,
) -> Result<(), SparseFault>
    requires some { 512 ≤ size }
    requires within { size ≤ 512 * length (flat_map run_of runs.now) }
    requires small { AreRunsWithin runs.now 4294967296 }
    ensures has { OnOk result (HasEach read.new
        (needed_of_tree K.Key size (nodes_of read.new runs.now) (flat_map run_of runs.now))) }
    ensures reads { ReadsRuns (S.image source.old) runs.now read.old read.new }
    ensures image { S.image source.new ≡ S.image source.old }
    ensures sees { SeesMore (S.Holds source.old) (S.Holds source.new) read.old read.new }
{
    let Some(head) = fetch_head::<K, S>(alloc, source, read, runs, size)? else {
        return Ok(());
    };
    let tree = TreeRuns {
        runs,
        nodes: head.nodes,
    };
    let Some(map) = fetch_map(alloc, source, read, runs, head)? else {
        return Ok(());
    };
    fetch_marked(source, read, &tree, &map)
}

//! The records of a tree's leaves.
ghost use Rattle.std.specs.Prelude.{◌≡◌, ◌*◌, ◌<◌, IfOk, OnOk, length};
ghost use Rattle.std.specs.List.{flat_map, range_with_len};
ghost use Rattle.hfs_btree.specs.Node.{node_of};
ghost use Rattle.hfs_btree.specs.Tree.{node_in};
ghost use Rattle.hfs_space.specs.Forks.{blocks_each};
ghost use Rattle.hfs_remains.specs.TreeFiles.{nodes_of};
ghost use Rattle.hfs_remains.specs.InUse.{TellsUse};
ghost use Rattle.hfs_remains.specs.LeafRecords as spec;

use crate::in_use::NodesInUse;
use crate::nodes::{FileNodes, block_at};
use hfs_blocks::Blocks;
use hfs_btree::{NodeKind, NodeView, view};
use hfs_model::OwnedBytes;
use std::alloc::{AllocError, Global};

/// A record of a leaf, and whether the leaf is old: a node that is not in use, or a block that is no node of the tree.
#[derive(Drop)]
pub struct LeafRecord {
    /// Whether the leaf is old.
    pub old: bool,
    /// The record's bytes, key and body.
    pub bytes: OwnedBytes,
}

/// Whether a node is a leaf of height 1.
pub(crate) fn is_leaf(node: &NodeView) -> bool
    ensures { result ≡ spec.is_leaf node.now }
{
    match node.kind() {
        NodeKind::Leaf => node.height() == 1,
        NodeKind::Index | NodeKind::Header | NodeKind::Map => false,
    }
}

/// Adds all records of a node.
fn push_records(
    alloc: Global,
    node: &NodeView,
    old: bool,
    records: &mut Vec<LeafRecord>,
) -> Result<(), AllocError>
    ensures { OnOk result (spec.Adds (spec.with_age old node.now.records) records.old records.new) }
{
    for i in 0..node.len() {
        let bytes = OwnedBytes::from_slice(alloc, node.record(i))?;
        records.push(LeafRecord { old, bytes })?;
    }
    Ok(())
}

/// Adds the records of 512 bytes, if they can be decoded as a leaf.
pub(crate) fn push_leaf(
    alloc: Global,
    bytes: &[u8; 512],
    old: bool,
    records: &mut Vec<LeafRecord>,
) -> Result<(), AllocError>
    ensures { OnOk result (spec.Adds (spec.with_age old (spec.leaf_records (node_of bytes.now)))
        records.old records.new) }
{
    let Ok(node) = view(bytes) else {
        return Ok(());
    };
    if !is_leaf(&node) {
        return Ok(());
    }
    push_records(alloc, &node, old, records)
}

/// Adds the records of node `n`, if it is a leaf and as old as asked.
fn push_node<B: Blocks>(
    alloc: Global,
    nodes: &FileNodes<'_, B>,
    used: &NodesInUse,
    n: u64,
    old: bool,
    records: &mut Vec<LeafRecord>,
) -> Result<(), AllocError>
    requires { TellsUse (nodes_of (B.blocks nodes.now.blocks.now) nodes.now.mdb.now
        nodes.now.file.now) used.now.map }
    ensures { OnOk result (spec.Adds (spec.records_at
        (nodes_of (B.blocks nodes.now.blocks.now) nodes.now.mdb.now nodes.now.file.now) old n)
        records.old records.new) }
{
    if used.has(n) == old {
        return Ok(());
    }
    let mut bytes = [0; 512];
    nodes.read_node(n, &mut bytes);
    push_leaf(alloc, &bytes, old, records)
}

/// Adds the records of those leaves in the block at a place of the file that are as old as asked.
fn push_block<B: Blocks>(
    alloc: Global,
    nodes: &FileNodes<'_, B>,
    used: &NodesInUse,
    place: usize,
    old: bool,
    records: &mut Vec<LeafRecord>,
) -> Result<(), AllocError>
    requires place { place < length nodes.now.file.now }
    requires used { TellsUse (nodes_of (B.blocks nodes.now.blocks.now) nodes.now.mdb.now
        nodes.now.file.now) used.now.map }
    ensures { OnOk result (spec.Adds (flat_map
        (spec.records_at (nodes_of (B.blocks nodes.now.blocks.now) nodes.now.mdb.now
        nodes.now.file.now) old)
        (range_with_len (place * blocks_each nodes.now.mdb.now) (blocks_each nodes.now.mdb.now)))
        records.old records.new) }
{
    let Some(_block) = block_at(nodes.file, place) else {
        return Ok(());
    };
    let first = nodes.first_of(place);
    for i in 0..nodes.mdb.allocation_block_size / 512 {
        push_node(alloc, nodes, used, first + u64::from(i), old, records)?;
    }
    Ok(())
}

/// Adds the records of all leaves of a tree that are as old as asked, in the order of their numbers. Each node that exists is
/// read at most once; missing blocks cost one step each.
#[tactic(auto, unfolding(crate::specs::LeafRecords::records_of_age))]
fn push_of_age<B: Blocks>(
    alloc: Global,
    nodes: &FileNodes<'_, B>,
    used: &NodesInUse,
    old: bool,
    records: &mut Vec<LeafRecord>,
) -> Result<(), AllocError>
    requires { TellsUse (nodes_of (B.blocks nodes.now.blocks.now) nodes.now.mdb.now
        nodes.now.file.now) used.now.map }
    ensures { OnOk result (spec.Adds (spec.records_of_age
        (nodes_of (B.blocks nodes.now.blocks.now) nodes.now.mdb.now nodes.now.file.now) old)
        records.old records.new) }
{
    for place in 0..nodes.file.len() {
        push_block(alloc, nodes, used, place, old, records)?;
    }
    Ok(())
}

/// The records of all leaves of a tree: those of the leaves in use, in the order of their numbers, and then those of the others.
/// Fails only when out of memory.
#[tactic(auto, unfolding(crate::specs::LeafRecords::all_leaf_records))]
pub fn all_leaf_records<B: Blocks>(
    alloc: Global,
    nodes: &FileNodes<'_, B>,
) -> Result<Vec<LeafRecord>, AllocError>
    ensures { IfOk result (λ records. records.items ≡ spec.all_leaf_records
        (nodes_of (B.blocks nodes.now.blocks.now) nodes.now.mdb.now nodes.now.file.now)) }
{
    let used = NodesInUse::of(alloc, nodes)?;
    let mut records = Vec::new(alloc);
    push_of_age(alloc, nodes, &used, false, &mut records)?;
    push_of_age(alloc, nodes, &used, true, &mut records)?;
    Ok(records)
}

//! The records of the extents tree.
ghost use Rattle.std.specs.Prelude.{◌≡◌, ◌≤◌, ◌++◌, Option, length, IfOk, OnOk};
ghost use Rattle.std.specs.Option.{SomeIff, is_none};
ghost use Rattle.hfs_fields.specs.Mdb.{extents_at};
ghost use Rattle.hfs_btree.specs.Lookups.{first_pair};
ghost use Rattle.hfs_btree.specs.Sound.{HasStructure, HasCounts};
ghost use Rattle.hfs_space.specs.TreeKeys.{ext_keys, overflow_of};
ghost use Rattle.hfs_check.specs.Answers.{Answers};
ghost use Rattle.hfs_check.specs.declared.mount_fault.MountFault.{MountFault};
ghost use Rattle.hfs_remains.specs.OverflowRecords as spec;

use crate::leaf_records::{LeafRecord, all_leaf_records};
use crate::nodes::{FileNodes, FirstNodes, node_count};
use hfs_blocks::Blocks;
use hfs_btree::{Nodes, Walk};
use hfs_check::{MountFault, check_extents_tree};
use hfs_fields::{ExtKey, Extent};
use hfs_model::OwnedBytes;
use hfs_space::is_tree_file;
use std::alloc::{AllocError, Global};
use std::marker::Model;

/// A record of the extents tree. Contracts see its key and its body.
#[derive(Drop)]
pub struct OverflowRecord {
    key: ExtKey,
    body: OwnedBytes,
}

impl Model for OverflowRecord {
    ghost use Rattle.std.specs.Prelude.{ℕ, List};
    ghost use Rattle.hfs_fields.specs.declared.key.ExtKey.{ExtKey};

    ghost Value = { ExtKey × List ℕ };

    ghost view = { λ r. (r.key, r.body) };
}

impl OverflowRecord {
    /// The record with this key and this body.
    fn new(key: ExtKey, body: OwnedBytes) -> Self
        ensures { result ≡ (key, body) }
    {
        OverflowRecord { key, body }
    }

    /// The record's key: a file's number, a fork, and the block of the fork from which the record continues it.
    pub fn key(&self) -> ExtKey
        ensures { result ≡ self.now.0 }
    {
        self.key
    }

    /// The record's three extents; None if its body is too short for them.
    pub fn extents(&self) -> Option<[Extent; 3]>
        ensures { SomeIff result (12 ≤ length self.now.1) (extents_at 0 self.now.1) }
    {
        Extent::read_record(self.body.as_slice())
    }
}

/// Copies the next record of a walk, if there is one.
fn next_record<N: Nodes>(
    alloc: Global,
    walk: &Walk<'_, ExtKey, N>,
) -> Result<Option<OverflowRecord>, AllocError>
    ensures { IfOk result (λ r. r ≡ first_pair walk.now) }
{
    match walk.pair() {
        Some(pair) => {
            let body = OwnedBytes::from_slice(alloc, pair.body)?;
            Ok(Some(OverflowRecord::new(pair.key, body)))
        }
        None => Ok(None),
    }
}

/// The records of a tree that has its shape, in order.
fn records_of_tree<N: Nodes>(alloc: Global, nodes: &N) -> Result<Vec<OverflowRecord>, AllocError>
    requires structure { HasStructure ext_keys (N.nodes nodes.now) }
    requires counts { HasCounts ext_keys (N.nodes nodes.now) }
    ensures { IfOk result (λ records. records.items ≡ overflow_of (N.nodes nodes.now)) }
{
    let mut records = Vec::new(alloc);
    let mut walk = Walk::whole(nodes);
    while let Some(record) = next_record(alloc, &walk)? {
        records.push(record)?;
        walk.advance();
    }
    Ok(records)
}

/// Adds a leaf's record, if it has the form of an extents record.
fn push_overflow(
    alloc: Global,
    bytes: &[u8],
    records: &mut Vec<OverflowRecord>,
) -> Result<(), AllocError>
    ensures { OnOk result (records.new.items ≡ records.old.items ++ spec.overflow_in bytes.now) }
{
    let Some((key, start)) = ExtKey::read_leaf(bytes) else {
        return Ok(());
    };
    let body = OwnedBytes::from_slice(alloc, &bytes[start..])?;
    records.push(OverflowRecord::new(key, body))?;
    Ok(())
}

/// Those records of leaves that have the form of an extents record, in order.
fn records_of_leaves(
    alloc: Global,
    leaves: &[LeafRecord],
) -> Result<Vec<OverflowRecord>, AllocError>
    ensures { IfOk result (λ records. records.items ≡ spec.overflow_in_leaves leaves.now) }
{
    let mut records = Vec::new(alloc);
    for leaf in leaves {
        push_overflow(alloc, leaf.bytes.as_slice(), &mut records)?;
    }
    Ok(records)
}

/// Whether a check found no fault. Fails only when out of memory.
fn has_passed(answer: Result<(), MountFault>) -> Result<bool, AllocError>
    ensures { IfOk result (λ right. (fault : Option MountFault) → Answers fault answer → right ≡
        is_none fault) }
{
    match answer {
        Ok(()) => Ok(true),
        Err(MountFault::Memory) => Err(AllocError),
        Err(
            MountFault::TooLarge
            | MountFault::Short
            | MountFault::NoMacDisk
            | MountFault::BadMdb(_)
            | MountFault::Check { .. },
        ) => Ok(false),
    }
}

/// Whether the extents tree, whose file has these nodes, passes its check. Fails only when out of memory.
#[tactic(auto, unfolding(crate::specs::OverflowRecords::is_extents_tree_right))]
pub fn is_extents_tree_right<B: Blocks>(
    alloc: Global,
    nodes: &FileNodes<'_, B>,
) -> Result<bool, AllocError>
    ensures { IfOk result (λ right. right ≡ spec.is_extents_tree_right nodes.now.mdb.now
        (spec.extents_nodes (B.blocks nodes.now.blocks.now) nodes.now.mdb.now nodes.now.file.now)) }
{
    let mdb = nodes.mdb;
    let size = mdb.extents_file_size;
    if !is_tree_file(mdb, &mdb.extents_file, size) {
        return Ok(false);
    }
    let first = FirstNodes {
        nodes,
        count: node_count(size),
    };
    has_passed(check_extents_tree(alloc, &first, size))
}

/// The records of the extents tree whose file has these nodes. If it passes its check, those of its last level, in order.
/// Otherwise all of its leaves' that have the form of one, first of the leaves that are in use, then of the others, each in the
/// order of their numbers. Fails only when out of memory.
#[tactic(auto, unfolding(crate::specs::OverflowRecords::overflow_records))]
pub fn overflow_records<B: Blocks>(
    alloc: Global,
    nodes: &FileNodes<'_, B>,
) -> Result<Vec<OverflowRecord>, AllocError>
    ensures { IfOk result (λ records. records.items ≡ spec.overflow_records
        (B.blocks nodes.now.blocks.now) nodes.now.mdb.now nodes.now.file.now) }
{
    if is_extents_tree_right(alloc, nodes)? {
        let count = node_count(nodes.mdb.extents_file_size);
        records_of_tree(alloc, &FirstNodes { nodes, count })
    } else {
        let leaves = all_leaf_records(alloc, nodes)?;
        records_of_leaves(alloc, &leaves)
    }
}

//! The records of the extents tree, in memory.
ghost use Rattle.std.specs.Prelude.{◌≡◌, ◌&&◌, ◌<◌, ◌≤◌, ◌++◌, ◌^◌, length, IfOk, OnOk};
ghost use Rattle.std.specs.Option.{SomeIff};
ghost use Rattle.hfs_fields.specs.Mdb.{extents_at};
ghost use Rattle.hfs_space.specs.Extents as spec;
ghost use Rattle.hfs_btree.specs.Lookups.{first_pair};
ghost use Rattle.hfs_space.specs.TreeKeys.{IsExtentsTree, overflow_of};

use crate::extents::block_total;
use hfs_btree::{Nodes, Walk};
use hfs_fields::{ExtKey, Extent};
use std::alloc::{AllocError, Global};
use std::marker::Model;

/// The ID of the catalog file.
pub(crate) const CATALOG_FILE: u32 = 4;

/// The ID of the file that has the bad blocks.
pub(crate) const BAD_BLOCKS: u32 = 5;

/// A record of the extents tree. Contracts see its key and its body.
#[derive(Drop)]
pub(crate) struct OverflowRecord {
    key: ExtKey,
    body: Vec<u8>,
}

impl Model for OverflowRecord {
    ghost use Rattle.std.specs.Prelude.{ℕ, List};
    ghost use Rattle.hfs_fields.specs.declared.key.ExtKey.{ExtKey};

    ghost Value = { ExtKey × List ℕ };

    ghost view = { λ r. (r.key, r.body.items) };
}

impl OverflowRecord {
    /// The record's key.
    pub(crate) fn key(&self) -> ExtKey
        ensures { result ≡ self.now.0 }
    {
        self.key
    }

    /// The record's three extents; None if its body is too short for them.
    pub(crate) fn extents(&self) -> Option<[Extent; 3]>
        ensures { SomeIff result (12 ≤ length self.now.1) (extents_at 0 self.now.1) }
    {
        Extent::read_record(&self.body)
    }
}

/// How many allocation blocks a record of the extents tree has.
pub(crate) fn blocks_in(r: &OverflowRecord) -> u32
    ensures count { result ≡ spec.block_total (spec.record_extents r.now.1) }
    ensures bound { result < 2 ^ 18 }
{
    match r.extents() {
        Some(extents) => block_total(&extents),
        None => 0,
    }
}

/// Adds the extents of a record of the extents tree.
pub(crate) fn push_record(r: &OverflowRecord, extents: &mut Vec<Extent>) -> Result<(), AllocError>
    ensures { OnOk result (extents.new.items ≡ extents.old.items ++ spec.record_extents r.now.1) }
{
    if let Some(more) = r.extents() {
        extents.extend_from_slice(&more)?;
    }
    Ok(())
}

/// A copy of a record.
fn copy_record(alloc: Global, key: ExtKey, body: &[u8]) -> Result<OverflowRecord, AllocError>
    ensures { IfOk result (λ r. r ≡ (key, body.now)) }
{
    Ok(OverflowRecord {
        key,
        body: Vec::from_slice(alloc, body)?,
    })
}

/// Copies the next record of a walk, if there is one.
fn next_record<N: Nodes>(
    alloc: Global,
    walk: &Walk<'_, ExtKey, N>,
) -> Result<Option<OverflowRecord>, AllocError>
    ensures { IfOk result (λ r. r ≡ first_pair walk.now) }
{
    match walk.pair() {
        Some(pair) => Ok(Some(copy_record(alloc, pair.key, pair.body)?)),
        None => Ok(None),
    }
}

/// All records of the extents tree, in order. Reads each leaf once. Fails only when out of memory.
pub(crate) fn overflow_records<N: Nodes>(
    alloc: Global,
    tree: &N,
) -> Result<Vec<OverflowRecord>, AllocError>
    requires { IsExtentsTree (N.nodes tree.now) }
    ensures { IfOk result (λ records. records.items ≡ overflow_of (N.nodes tree.now)) }
{
    let least = ExtKey {
        fork: 0,
        file: 0,
        block: 0,
    };
    let mut records = Vec::new(alloc);
    let mut walk = Walk::from(tree, &least);
    while let Some(r) = next_record(alloc, &walk)? {
        records.push(r)?;
        walk.advance();
    }
    Ok(records)
}

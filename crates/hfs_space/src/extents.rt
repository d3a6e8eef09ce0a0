//! The extents of a fork.

ghost use Rattle.std.specs.Prelude.{◌≡◌, ℕ, ◌+◌, ◌<◌, ◌≤◌, ◌++◌, ◌^◌, [], length, IfOk, IsTrue, ◌↔◌};
ghost use Rattle.hfs_space.specs.Extents as spec;
ghost use Rattle.hfs_space.specs.Results.{GivesItems};
ghost use Rattle.hfs_space.specs.TreeKeys.{IsExtentsTree, ext_keys, overflow_of, GoesOnIn, extents_through};
ghost use Rattle.hfs_btree.specs.Near.{IsLastLeaf};

use crate::fork_kind::{ForkKind, fork_byte};
use hfs_btree::{LastLeaf, Nodes, find_near};
use hfs_fields::{ExtKey, Extent};
use std::alloc::{AllocError, Global};

/// Whether each extent lies within the first `blocks` allocation blocks of the volume (drNmAlBlks). An extent without blocks may
/// lie anywhere. Takes no memory.
pub fn are_within(extents: &[Extent], blocks: u16) -> bool
    ensures { IsTrue result ↔ spec.AreExtentsWithin blocks extents.now }
{
    extents.iter().all(|extent| {
        let end = u32::from(extent.first) + u32::from(extent.count);
        extent.count == 0 || end <= u32::from(blocks)
    })
}

/// How many allocation blocks an extent has.
fn block_count(extent: Extent) -> u32
    ensures count { result ≡ extent.count }
    ensures bound { result < 2 ^ 16 }
{
    u32::from(extent.count)
}

/// How many allocation blocks three extents have.
pub(crate) fn block_total(extents: &[Extent; 3]) -> u32
    ensures total { result ≡ spec.block_total extents.now }
    ensures bound { result < 2 ^ 18 }
{
    let [first, second, third] = *extents;
    block_count(first) + block_count(second) + block_count(third)
}

/// The three extents that continue a fork from its block `block` on, if the tree has a record of them with a block.
fn next_extents<N: Nodes>(
    alloc: Global,
    tree: &N,
    file: u32,
    fork: ForkKind,
    block: u32,
    last: &mut LastLeaf,
) -> Result<Option<[Extent; 3]>, AllocError>
    requires tree { IsExtentsTree (N.nodes tree.now) }
    requires last { IsLastLeaf ext_keys (N.nodes tree.now) last.old }
    ensures found { IfOk result (λ found. GoesOnIn (N.nodes tree.now) file fork block found) }
    ensures last { IsLastLeaf ext_keys (N.nodes tree.now) last.new }
{
    let Ok(block) = u16::try_from(block) else {
        return Ok(None);
    };
    let key = ExtKey {
        fork: fork_byte(fork),
        file,
        block,
    };
    let Some(body) = find_near(alloc, tree, &key, last)? else {
        return Ok(None);
    };
    let Some(extents) = Extent::read_record(&body) else {
        return Ok(None);
    };
    if block_total(&extents) == 0 {
        return Ok(None);
    }
    Ok(Some(extents))
}

/// All extents of a fork: the three of its record, and then, as long as the extents tree has a record of the file and fork with a
/// block whose first block is the number of blocks so far, that record's three.
///
/// The catalog file is file 4, and its data fork begins with the three extents of the master directory block. The extents file
/// itself has only its three there. Fails only when out of memory.
///
/// A leaf of the tree is read once for all records in it that follow one another.
///
/// Source: Inside Macintosh: Files, chapter 2, 'Extents overflow file'.
pub fn fork_extents<N: Nodes>(
    alloc: Global,
    tree: &N,
    file: u32,
    fork: ForkKind,
    first: &[Extent; 3],
) -> Result<Vec<Extent>, AllocError>
    requires { IsExtentsTree (N.nodes tree.now) }
    ensures { GivesItems (extents_through (N.nodes tree.now) file fork first.now) result }
{
    let mut extents = Vec::from_slice(alloc, first)?;
    let mut blocks = block_total(first);
    let mut last = LastLeaf::none();
    while let Some(more) = next_extents(alloc, tree, file, fork, blocks, &mut last)? {
        let count = block_total(&more);
        extents.extend_from_slice(&more)?;
        blocks += count;
    }
    Ok(extents)
}

//! Bytes and zeros over a fork's blocks.

ghost use Rattle.std.specs.Prelude.{ℕ, ◌+◌, ◌*◌, ◌<◌, ◌≤◌, ◌^◌, length, OnOk};
ghost use Rattle.hfs_blocks.specs.Layers.{KeepsWithin};
ghost use Rattle.hfs_space.specs.Extents.{AreExtentsWithin, extent_blocks};
ghost use Rattle.hfs_space.specs.ForkLaws.{block_numbers};
ghost use Rattle.hfs_space.specs.Forks.{HasArea};
ghost use Rattle.hfs_space.specs.Owners.{owners};
ghost use Rattle.hfs_space.specs.Parts.{zeros};
ghost use Rattle.hfs_space.specs.WrittenForks.{HasWritten, KeepsOtherBlocks};

use crate::fork_runs::{clear_runs, write_runs};
use crate::tree_runs;
use hfs_blocks::{Blocks, Patch};
use hfs_fields::{Extent, Mdb};
use std::alloc::{AllocError, Global};

/// Writes bytes over the blocks of a fork with these extents, from its byte `offset` on, into the patch over the volume's blocks.
/// The bytes may reach past the fork's length, but not past its last block. The fork's other bytes stay, and so do all blocks
/// that have none of these bytes.
///
/// The work is going through the extents once, and a search among them for each block that has one of these bytes.
///
/// Errors: `AllocError` if memory was refused. Then some of the bytes may not be written.
///
/// Source: Inside Macintosh: Files, chapter 2, 'Extents overflow file'.
pub fn write_fork<B: Blocks>(
    alloc: Global,
    blocks: &B,
    patch: &mut Patch,
    mdb: &Mdb,
    extents: &[Extent],
    offset: u32,
    bytes: &[u8],
) -> Result<(), AllocError>
    requires area { HasArea mdb.now (B.total blocks.now) }
    requires extents { AreExtentsWithin mdb.now.allocation_blocks extents.now }
    requires once { (b : ℕ) → owners (extent_blocks extents.now) b ≤ 1 }
    requires fits { offset + length bytes.now ≤ 512 * length (block_numbers mdb.now extents.now) }
    requires small { offset + length bytes.now < 2 ^ 32 }
    ensures written { OnOk result (HasWritten (B.blocks blocks.now) mdb.now extents.now
        offset bytes.now patch.old patch.new) }
    ensures beside { KeepsOtherBlocks (B.blocks blocks.now) mdb.now extents.now
        offset (length bytes.now) patch.old patch.new }
    ensures within { KeepsWithin patch.old patch.new (B.total blocks.now) }
{
    if bytes.is_empty() {
        return Ok(());
    }
    let end = offset + bytes.len() as u32;
    let runs = tree_runs(alloc, blocks, mdb, extents, end)?;
    write_runs(blocks, patch, &runs, u64::from(offset), bytes)?;
    Ok(())
}

/// Writes `count` zeros, as `write_fork` writes bytes. The patch holds each of the blocks.
pub(crate) fn clear_part<B: Blocks>(
    alloc: Global,
    blocks: &B,
    patch: &mut Patch,
    mdb: &Mdb,
    extents: &[Extent],
    offset: u32,
    count: u32,
) -> Result<(), AllocError>
    requires area { HasArea mdb.now (B.total blocks.now) }
    requires extents { AreExtentsWithin mdb.now.allocation_blocks extents.now }
    requires once { (b : ℕ) → owners (extent_blocks extents.now) b ≤ 1 }
    requires fits { offset + count ≤ 512 * length (block_numbers mdb.now extents.now) }
    requires small { offset + count < 2 ^ 32 }
    ensures written { OnOk result (HasWritten (B.blocks blocks.now) mdb.now extents.now
        offset (zeros count) patch.old patch.new) }
    ensures beside { KeepsOtherBlocks (B.blocks blocks.now) mdb.now extents.now
        offset count patch.old patch.new }
    ensures within { KeepsWithin patch.old patch.new (B.total blocks.now) }
{
    if count == 0 {
        return Ok(());
    }
    let runs = tree_runs(alloc, blocks, mdb, extents, offset + count)?;
    clear_runs(blocks, patch, &runs, u64::from(offset), u64::from(count))?;
    Ok(())
}

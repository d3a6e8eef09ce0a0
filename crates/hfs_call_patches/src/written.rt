//! The blocks of a fork that are written.

ghost use Rattle.std.specs.Prelude.{◌≡◌, ◌+◌, ◌-◌, ◌<◌, ◌≤◌, ◌^◌, length, IfOk};
ghost use Rattle.std.specs.List.{flat_map};
ghost use Rattle.hfs_blocks.specs.Blocks.{run_of};
ghost use Rattle.hfs_space.specs.Extents.{AreExtentsWithin};
ghost use Rattle.hfs_space.specs.ForkLaws.{block_numbers};
ghost use Rattle.hfs_space.specs.Forks.{HasArea};
ghost use Rattle.hfs_call_patches.specs.Laid.{AreWritten};
ghost use Rattle.hfs_call_patches.specs.Written as spec;

use crate::laying::Laying;
use crate::volume::MountedBlocks;
use hfs_blocks::{Blocks, Run};
use hfs_fields::Extent;
use hfs_space::{runs_from, tree_runs};
use std::alloc::{AllocError, Global};

/// The first of the zeros from `from` up to `end` and of the `count` bytes from `offset` on.
fn first_written(from: u32, end: u32, offset: u32, count: u32) -> u32
    ensures { result ≡ spec.first_written from end offset count }
{
    let zeros = if from < end { from } else { u32::MAX };
    let bytes = if count > 0 { offset } else { u32::MAX };
    zeros.min(bytes)
}

/// The place after the last of these zeros and bytes.
fn last_written(from: u32, end: u32, offset: u32, count: u32) -> u32
    requires { offset + count < 2 ^ 32 }
    ensures { result ≡ spec.last_written from end offset count }
{
    let zeros = if from < end { end } else { 0 };
    let bytes = if count > 0 { offset + count } else { 0 };
    zeros.max(bytes)
}

/// The runs of the blocks of a fork with these extents, from the first to the last that has one of the zeros or of the bytes.
/// Fails only when out of memory.
pub(crate) fn written_runs<B: Blocks>(
    alloc: Global,
    volume: &MountedBlocks<'_, B>,
    extents: &[Extent],
    laying: &Laying<'_>,
) -> Result<Vec<Run>, AllocError>
    requires area { HasArea volume.now.mdb.now (B.total volume.now.blocks.now) }
    requires extents { AreExtentsWithin volume.now.mdb.now.allocation_blocks extents.now }
    requires order { laying.now.from ≤ laying.now.end }
    requires small { laying.now.offset + length laying.now.bytes.now < 2 ^ 32 }
    ensures { IfOk result (λ runs. AreWritten (block_numbers volume.now.mdb.now extents.now)
        laying.now.from (laying.now.end - laying.now.from) laying.now.offset
        (length laying.now.bytes.now) (flat_map run_of runs.items)) }
{
    let count = laying.bytes.len() as u32;
    let first = first_written(laying.from, laying.end, laying.offset, count);
    let last = last_written(laying.from, laying.end, laying.offset, count);
    let runs = tree_runs(alloc, volume.blocks, volume.mdb, extents, last)?;
    runs_from(alloc, &runs, first / 512)
}

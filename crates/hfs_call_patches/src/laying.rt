//! Zeros and bytes that are laid over a fork's blocks.

ghost use Rattle.std.specs.Prelude.{ℕ, ◌+◌, ◌-◌, ◌*◌, ◌<◌, ◌≤◌, ◌^◌, length, IfOk};
ghost use Rattle.std.specs.List.{flat_map};
ghost use Rattle.hfs_blocks.specs.Blocks.{run_of};
ghost use Rattle.hfs_blocks.specs.Layers.{changes, AreWithin};
ghost use Rattle.hfs_space.specs.Extents.{AreExtentsWithin, extent_blocks};
ghost use Rattle.hfs_space.specs.ForkLaws.{block_numbers};
ghost use Rattle.hfs_space.specs.Forks.{HasArea};
ghost use Rattle.hfs_space.specs.Owners.{owners};
ghost use Rattle.hfs_call_patches.specs.Laid.{AreWritten};
ghost use Rattle.hfs_call_patches.specs.Laying.{LaysOver, LaysBoth};
ghost use Rattle.hfs_space.specs.Clearing.{patched};
ghost use Rattle.hfs_space.specs.Zeros.{AreAmong};

use crate::volume::MountedBlocks;
use crate::written::written_runs;
use hfs_blocks::{Blocks, Patch, Run};
use hfs_fields::Extent;
use hfs_space::{Cleared, ZeroRuns, clear_fork, write_fork};
use std::alloc::{AllocError, Global};

/// What is laid over a fork's blocks: zeros from its byte `from` up to `end`, and over these the bytes, from its byte `offset` on.
#[derive(Clone, Copy)]
pub(crate) struct Laying<'a> {
    pub from: u32,
    pub end: u32,
    pub offset: u32,
    pub bytes: &'a [u8],
}

/// What was laid over a fork's blocks: runs of zeros, a patch over these, and the runs of the blocks that were written.
#[derive(Drop)]
pub(crate) struct Laid {
    pub zeros: ZeroRuns,
    pub patch: Patch,
    pub written: Vec<Run>,
}

/// Lays them over the blocks of a fork with these extents. No other byte changes. Fails only when out of memory.
fn lay<B: Blocks>(
    alloc: Global,
    volume: &MountedBlocks<'_, B>,
    extents: &[Extent],
    laying: &Laying<'_>,
) -> Result<Cleared, AllocError>
    requires area { HasArea volume.now.mdb.now (B.total volume.now.blocks.now) }
    requires extents { AreExtentsWithin volume.now.mdb.now.allocation_blocks extents.now }
    requires once { (b : ℕ) → owners (extent_blocks extents.now) b ≤ 1 }
    requires order { laying.now.from ≤ laying.now.end }
    requires fits { laying.now.end
        ≤ 512 * length (block_numbers volume.now.mdb.now extents.now) }
    requires room { laying.now.offset + length laying.now.bytes.now
        ≤ 512 * length (block_numbers volume.now.mdb.now extents.now) }
    requires small { laying.now.offset + length laying.now.bytes.now < 2 ^ 32 }
    ensures lays { IfOk result (LaysOver (B.blocks volume.now.blocks.now) volume.now.mdb.now
        extents.now laying.now.from (laying.now.end - laying.now.from) laying.now.offset
        laying.now.bytes.now) }
    ensures within { IfOk result (λ laid.
        AreWithin (changes laid.patch) (B.total volume.now.blocks.now)) }
    ensures among { IfOk result (λ laid. AreAmong laid.zeros (B.total volume.now.blocks.now)) }
{
    let from = laying.from;
    let count = laying.end - from;
    let Cleared { zeros, mut patch } = clear_fork(
        alloc,
        volume.blocks,
        volume.mdb,
        extents,
        from,
        count,
    )?;
    write_fork(
        alloc,
        &zeros.over(volume.blocks),
        &mut patch,
        volume.mdb,
        extents,
        laying.offset,
        laying.bytes,
    )?;
    Ok(Cleared { zeros, patch })
}

/// The same, with the runs of the blocks from the first to the last that has one of the zeros or of the bytes.
pub(crate) fn lay_fork<B: Blocks>(
    alloc: Global,
    volume: &MountedBlocks<'_, B>,
    extents: &[Extent],
    laying: &Laying<'_>,
) -> Result<Laid, AllocError>
    requires area { HasArea volume.now.mdb.now (B.total volume.now.blocks.now) }
    requires extents { AreExtentsWithin volume.now.mdb.now.allocation_blocks extents.now }
    requires once { (b : ℕ) → owners (extent_blocks extents.now) b ≤ 1 }
    requires order { laying.now.from ≤ laying.now.end }
    requires fits { laying.now.end
        ≤ 512 * length (block_numbers volume.now.mdb.now extents.now) }
    requires room { laying.now.offset + length laying.now.bytes.now
        ≤ 512 * length (block_numbers volume.now.mdb.now extents.now) }
    requires small { laying.now.offset + length laying.now.bytes.now < 2 ^ 32 }
    ensures lays { IfOk result (λ laid. LaysBoth volume.now.mdb.now extents.now
        laying.now.from (laying.now.end - laying.now.from) laying.now.offset laying.now.bytes.now
        (B.blocks volume.now.blocks.now)
        (patched laid.patch laid.zeros (B.blocks volume.now.blocks.now))) }
    ensures written { IfOk result (λ laid. AreWritten
        (block_numbers volume.now.mdb.now extents.now)
        laying.now.from (laying.now.end - laying.now.from) laying.now.offset
        (length laying.now.bytes.now) (flat_map run_of laid.written.items)) }
    ensures within { IfOk result (λ laid.
        AreWithin (changes laid.patch) (B.total volume.now.blocks.now)) }
    ensures among { IfOk result (λ laid. AreAmong laid.zeros (B.total volume.now.blocks.now)) }
{
    let Cleared { zeros, patch } = lay(alloc, volume, extents, laying)?;
    let written = written_runs(alloc, volume, extents, laying)?;
    Ok(Laid {
        zeros,
        patch,
        written,
    })
}

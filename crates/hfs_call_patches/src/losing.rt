//! The edits that take its last blocks from a fork, over whose other blocks zeros and bytes have already been laid.

ghost use Rattle.std.specs.Prelude.{◌≡◌, ◌+◌, ◌<◌, ◌≤◌, ◌^◌, length, IfOk};
ghost use Rattle.hfs_blocks.specs.Layers.{changes, AreWithin};
ghost use Rattle.hfs_space.specs.ForkLaws.{block_numbers};
ghost use Rattle.hfs_call_patches.specs.Patches.{patched};
ghost use Rattle.hfs_model.specs.Forks.{blocks};
ghost use Rattle.hfs_record_edits.specs.Cuts.{cut, surplus};
ghost use Rattle.hfs_call_patches.specs.Edits.{blocks_of, extents_of};
ghost use Rattle.hfs_call_patches.specs.Calls.{IsForkVolumeIn, IsFoundIn};
ghost use Rattle.hfs_call_patches.specs.Gaining.{KeepsBesideBlocks, HasSettled};
ghost use Rattle.hfs_space.specs.Extents.{block_total};

use crate::bits::release_over;
use crate::overflow::shorten_over;
use crate::records::{fork_of, kind_of};
use crate::room::block_count;
use crate::settling::settle_fork;
use crate::volume::{MountedBlocks, Overlay, Resizing, Settled};
use hfs_blocks::Blocks;
use hfs_btree_edits::PatchNodes;
use hfs_fields::{Extent, Mdb};
use hfs_model::BlockSize;
use std::alloc::{AllocError, Global};

/// How many blocks are free once the blocks of these extents are free as well.
fn free_with(mdb: &Mdb, lost: &[Extent]) -> u16
    requires { mdb.now.free_blocks + block_total lost.now ≤ mdb.now.allocation_blocks }
    ensures { result ≡ mdb.now.free_blocks + block_total lost.now }
{
    let used = mdb.allocation_blocks - mdb.free_blocks;
    mdb.allocation_blocks - (used - block_count(lost))
}

/// The bits, the extents, the file's record and the counts of a volume in which the fork keeps its first `count` blocks, and
/// loses those of the extents `lost`. The patch lies over blocks that differ from the volume's only in those that the fork keeps.
/// Fails only when out of memory.
pub(crate) fn lose<B: Blocks, Z: Blocks>(
    alloc: Global,
    volume: &MountedBlocks<'_, B>,
    overlay: Overlay<'_, Z>,
    resizing: &Resizing<'_>,
    block_size: BlockSize,
    lost: &[Extent],
    count: u16,
) -> Result<Settled, AllocError>
    requires volume { IsForkVolumeIn B.total B.blocks volume.now.blocks.now
        volume.now.mdb.now volume.now.extents.now volume.now.catalog.now }
    requires found { IsFoundIn (B.blocks volume.now.blocks.now) resizing.now.found.now }
    requires few { volume.now.mdb.now.allocation_blocks ≤ 65535 }
    requires size { block_size ≡ volume.now.mdb.now.allocation_block_size }
    requires same { Z.total overlay.below.now ≡ B.total volume.now.blocks.now }
    requires inside { AreWithin (changes overlay.patch) (Z.total overlay.below.now) }
    requires lost { lost.now ≡ surplus count (extents_of (B.blocks volume.now.blocks.now)
        resizing.now.fork resizing.now.found.now.file) }
    requires fewer { count ≤ length (blocks_of (B.blocks volume.now.blocks.now) resizing.now.fork
        resizing.now.found.now.file) }
    requires count { count ≡ blocks block_size resizing.now.length }
    requires beside { KeepsBesideBlocks (block_numbers volume.now.mdb.now
        (cut count (extents_of (B.blocks volume.now.blocks.now) resizing.now.fork
        resizing.now.found.now.file)))
        (B.blocks volume.now.blocks.now) (patched (Z.blocks overlay.below.now) overlay.patch) }
    ensures { IfOk result (HasSettled resizing.now.found.now resizing.now.fork resizing.now.length
        resizing.now.moment (cut count (extents_of (B.blocks volume.now.blocks.now) resizing.now.fork
        resizing.now.found.now.file)) (B.total volume.now.blocks.now)
        (B.blocks volume.now.blocks.now) (Z.blocks overlay.entry.below.now)
        overlay.entry.patch) }
{
    let found = resizing.found;
    let mdb = volume.mdb;
    let below = overlay.below;
    let bits = release_over(below, mdb, overlay.patch, lost)?;
    let first = fork_of(resizing.fork, &found.file).extents;
    let shorter = shorten_over(
        alloc,
        PatchNodes {
            below,
            runs: volume.extents,
            patch: bits,
        },
        found.file.id,
        kind_of(resizing.fork),
        &first,
        count,
    )?;
    let free = free_with(mdb, lost);
    let settled = settle_fork(
        alloc,
        volume,
        Overlay {
            below,
            patch: shorter.patch,
        },
        resizing,
        block_size,
        shorter.fork.first,
        free,
    )?;
    Ok(settled)
}

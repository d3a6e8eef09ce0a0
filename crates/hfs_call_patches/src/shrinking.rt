//! A fork that keeps its first blocks, and loses the others.

ghost use Rattle.std.specs.Prelude.{◌≡◌, ◌+◌, ◌<◌, ◌≤◌, ◌^◌, length};
ghost use Rattle.hfs_model.specs.Forks.{blocks};
ghost use Rattle.hfs_call_patches.specs.Edits.{extents_of};
ghost use Rattle.hfs_call_patches.specs.Calls.{IsForkVolumeIn, IsFoundIn, Gives, IsShrunk, HasPlaces};
ghost use Rattle.hfs_space.specs.Extents.{block_total};

use crate::Change;
use crate::laying::{Laid, Laying, lay_fork};
use crate::losing::lose;
use crate::volume::{MountedBlocks, Overlay, Resizing, fork_change};
use hfs_blocks::Blocks;
use hfs_fields::Extent;
use hfs_model::BlockSize;
use hfs_record_edits::{cut_all, surplus};
use std::alloc::{AllocError, Global};

/// What is made of the volume when the fork, whose extents were these, keeps its first `count` blocks, which are fewer. Fails
/// only when out of memory.
pub(crate) fn shrink<B: Blocks>(
    alloc: Global,
    volume: &MountedBlocks<'_, B>,
    resizing: &Resizing<'_>,
    block_size: BlockSize,
    was: Vec<Extent>,
    count: u16,
) -> Result<Change, AllocError>
    requires volume { IsForkVolumeIn B.total B.blocks volume.now.blocks.now
        volume.now.mdb.now volume.now.extents.now volume.now.catalog.now }
    requires found { IsFoundIn (B.blocks volume.now.blocks.now) resizing.now.found.now }
    requires few { volume.now.mdb.now.allocation_blocks ≤ 65535 }
    requires size { block_size ≡ volume.now.mdb.now.allocation_block_size }
    requires was { was.items ≡ extents_of (B.blocks volume.now.blocks.now) resizing.now.fork
        resizing.now.found.now.file }
    requires fewer { count < block_total was.items }
    requires count { count ≡ blocks block_size resizing.now.length }
    requires places { HasPlaces resizing.now.fork resizing.now.found.now.file resizing.now.length
        resizing.now.from resizing.now.offset (length resizing.now.bytes.now) }
    ensures { Gives result (IsShrunk resizing.now.found.now resizing.now.fork resizing.now.length
        resizing.now.offset resizing.now.bytes.now resizing.now.moment)
        B.total B.blocks volume.now.blocks.now }
{
    let lost = surplus(alloc, &was, u32::from(count))?;
    let mut extents = was;
    cut_all(&mut extents, u32::from(count));
    let laying = Laying {
        from: resizing.from.min(resizing.length),
        end: resizing.length,
        offset: resizing.offset,
        bytes: resizing.bytes,
    };
    let Laid {
        zeros,
        patch,
        written,
    } = lay_fork(alloc, volume, &extents, &laying)?;
    let settled = lose(
        alloc,
        volume,
        Overlay {
            below: &zeros.over(volume.blocks),
            patch,
        },
        resizing,
        block_size,
        &lost,
        count,
    )?;
    Ok(fork_change(zeros, written, settled))
}

//! A fork that keeps its blocks, and gets more if it needs them.

ghost use Rattle.std.specs.Prelude.{◌≡◌, ◌+◌, ◌<◌, ◌≤◌, ◌^◌, length};
ghost use Rattle.hfs_model.specs.Forks.{physical_length, blocks};
ghost use Rattle.hfs_call_patches.specs.Edits.{extents_of};
ghost use Rattle.hfs_call_patches.specs.Calls.{IsForkVolumeIn, IsFoundIn, Gives, IsResized, HasPlaces};
ghost use Rattle.hfs_call_patches.specs.Zeros as zeros;
ghost use Rattle.hfs_space.specs.Extents.{block_total};

use crate::Change;
use crate::gaining::gain;
use crate::laying::{Laid, Laying, lay_fork};
use crate::room::find_growing;
use crate::volume::{MountedBlocks, Overlay, Resizing, fork_change};
use hfs_blocks::Blocks;
use hfs_fields::Extent;
use hfs_model::{BlockSize, Want};
use std::alloc::{AllocError, Global};

/// Where the zeros end of a fork that gets `length` bytes and `wanted` more blocks: after its last block, if blocks are added;
/// otherwise at its end, or at `from`, if that is after it.
fn zeros_end(block_size: BlockSize, wanted: u32, from: u32, length: u32) -> u32
    requires { physical_length block_size length < 2 ^ 32 }
    ensures { result ≡ zeros.zeros_end block_size wanted from length }
{
    if wanted > 0 {
        return block_size.physical_length(length) as u32;
    }
    from.max(length)
}

/// What is made of the volume when `wanted` blocks are added to the fork, whose extents were these; or the lack of blocks or of
/// nodes. Fails only when out of memory.
pub(crate) fn grow<B: Blocks>(
    alloc: Global,
    volume: &MountedBlocks<'_, B>,
    resizing: &Resizing<'_>,
    block_size: BlockSize,
    was: Vec<Extent>,
    wanted: u32,
) -> Result<Result<Change, Want>, AllocError>
    requires volume { IsForkVolumeIn B.total B.blocks volume.now.blocks.now
        volume.now.mdb.now volume.now.extents.now volume.now.catalog.now }
    requires found { IsFoundIn (B.blocks volume.now.blocks.now) resizing.now.found.now }
    requires few { volume.now.mdb.now.allocation_blocks ≤ 65535 }
    requires size { block_size ≡ volume.now.mdb.now.allocation_block_size }
    requires was { was.items ≡ extents_of (B.blocks volume.now.blocks.now) resizing.now.fork
        resizing.now.found.now.file }
    requires wants { block_total was.items + wanted ≡ blocks block_size resizing.now.length }
    requires places { HasPlaces resizing.now.fork resizing.now.found.now.file resizing.now.length
        resizing.now.from resizing.now.offset (length resizing.now.bytes.now) }
    ensures { Gives result (IsResized resizing.now.found.now resizing.now.fork resizing.now.length
        resizing.now.offset resizing.now.bytes.now resizing.now.moment)
        B.total B.blocks volume.now.blocks.now }
{
    let grown = match find_growing(alloc, volume.blocks, volume.mdb, was, wanted)? {
        Ok(grown) => grown,
        Err(want) => return Ok(Err(want)),
    };
    let laying = Laying {
        from: resizing.from,
        end: zeros_end(block_size, wanted, resizing.from, resizing.length),
        offset: resizing.offset,
        bytes: resizing.bytes,
    };
    let Laid {
        zeros,
        patch,
        written,
    } = lay_fork(alloc, volume, &grown.extents, &laying)?;
    let made = gain(
        alloc,
        volume,
        Overlay {
            below: &zeros.over(volume.blocks),
            patch,
        },
        resizing,
        block_size,
        &grown.pieces,
        wanted as u16,
    )?;
    match made {
        Ok(settled) => Ok(Ok(fork_change(zeros, written, settled))),
        Err(want) => Ok(Err(want)),
    }
}

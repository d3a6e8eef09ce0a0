//! A fork that gets another length, and given bytes.

ghost use Rattle.std.specs.Prelude.{◌≡◌, length};
ghost use Rattle.hfs_call_patches.specs.Calls.{IsForkVolumeIn, IsFoundIn, Gives, IsResized, HasPlaces};

use crate::Change;
use crate::extents::extents_of;
use crate::growing::grow;
use crate::records::volume_blocks;
use crate::room::block_count;
use crate::shrinking::shrink;
use crate::volume::{MountedBlocks, Resizing};
use hfs_blocks::Blocks;
use hfs_model::{BlockSize, Want};
use std::alloc::{AllocError, Global};

/// What is made of the volume, or the lack of blocks or nodes. Fails only when out of memory.
pub(crate) fn resize<B: Blocks>(
    alloc: Global,
    volume: &MountedBlocks<'_, B>,
    resizing: &Resizing<'_>,
) -> Result<Result<Change, Want>, AllocError>
    requires volume { IsForkVolumeIn B.total B.blocks volume.now.blocks.now
        volume.now.mdb.now volume.now.extents.now volume.now.catalog.now }
    requires found { IsFoundIn (B.blocks volume.now.blocks.now) resizing.now.found.now }
    requires places { HasPlaces resizing.now.fork resizing.now.found.now.file resizing.now.length
        resizing.now.from resizing.now.offset (length resizing.now.bytes.now) }
    ensures { Gives result (IsResized resizing.now.found.now resizing.now.fork resizing.now.length
        resizing.now.offset resizing.now.bytes.now resizing.now.moment)
        B.total B.blocks volume.now.blocks.now }
{
    let Some(block_size) = BlockSize::new(volume.mdb.allocation_block_size) else {
        unreachable!();
    };
    // Once a proof has seen the number of blocks, it knows that it has 16 bits.
    let _blocks = volume_blocks(volume.mdb);
    let file = &resizing.found.file;
    let was = extents_of(alloc, volume.blocks, volume.extents, file, resizing.fork)?;
    let have = u32::from(block_count(&was));
    let count = block_size.blocks(resizing.length);
    if have <= count {
        return grow(alloc, volume, resizing, block_size, was, count - have);
    }
    let change = shrink(alloc, volume, resizing, block_size, was, count as u16)?;
    Ok(Ok(change))
}

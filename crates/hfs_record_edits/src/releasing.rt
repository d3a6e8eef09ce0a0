//! The allocation blocks of a file that is deleted.

ghost use Rattle.std.specs.Prelude.{OnOk};
ghost use Rattle.hfs_blocks.specs.Layers.{KeepsWithin};
ghost use Rattle.hfs_space.specs.Extents.{AreExtentsWithin};
ghost use Rattle.hfs_record_edits.specs.Released.{HasReleasedOver};

use hfs_blocks::{Blocks, Patch};
use hfs_fields::Extent;
use hfs_space::Bitmap;
use std::alloc::AllocError;

/// Clears the bits of the extents' allocation blocks in the bitmap's blocks with the patch over them; the extents are those of a
/// file's two forks, as `file_extents` returns them. An extent without blocks clears nothing, wherever it lies.
///
/// If each block is in one extent only and is marked, as the blocks of a sound volume's file are, there are as many more clear
/// bits afterwards as the extents have blocks.
///
/// Errors: `AllocError` if memory was refused. Then some of the bits may still be set.
///
/// Source: Inside Macintosh: Files, chapter 2, 'Volume bitmap'.
pub fn release_extents<B: Blocks>(
    bitmap: &Bitmap<'_, B>,
    patch: &mut Patch,
    extents: &[Extent],
) -> Result<(), AllocError>
    requires { AreExtentsWithin bitmap.now.count extents.now }
    ensures released { OnOk result (HasReleasedOver (B.blocks bitmap.now.blocks.now)
        bitmap.now.start bitmap.now.count extents.now patch.old patch.new) }
    ensures within { KeepsWithin patch.old patch.new (B.total bitmap.now.blocks.now) }
{
    for i in 0..extents.len() {
        let extent = extents[i];
        if extent.count > 0 {
            bitmap.release(patch, extent.first, extent.count)?;
        }
    }
    Ok(())
}

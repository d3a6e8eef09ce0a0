//! The bits of allocation blocks that are added to a fork.

ghost use Rattle.std.specs.Prelude.{◌≤◌, ◌+◌, OnOk};
ghost use Rattle.hfs_blocks.specs.Layers.{KeepsWithin};
ghost use Rattle.hfs_space.specs.Bitmap.{KeepsOthersIn};
ghost use Rattle.hfs_space.specs.Extents.{AreExtentsWithin};
ghost use Rattle.hfs_space.specs.Claimed.{AreSetIn, HasClaimedOver};

use crate::Bitmap;
use crate::free_bits::set_bits;
use hfs_blocks::{Blocks, Patch};
use hfs_fields::Extent;
use std::alloc::AllocError;

/// How many bits a block of the bitmap has.
const BITS: u32 = 4096;

/// Sets the bits of `count` allocation blocks from `first` on, in the volume's blocks with the patch over them. The blocks of the
/// bitmap that have these bits are in the patch afterwards, and no other block is added to it.
///
/// Errors: `AllocError` if memory was refused. Then some of the bits may not be set; no other bit has changed.
///
/// Source: Inside Macintosh: Files, chapter 2, 'Volume bitmap'.
pub fn claim<B: Blocks>(
    bitmap: &Bitmap<'_, B>,
    patch: &mut Patch,
    first: u16,
    count: u16,
) -> Result<(), AllocError>
    requires { first + count ≤ bitmap.now.count }
    ensures set { OnOk result
        (AreSetIn patch.new (B.blocks bitmap.now.blocks.now) bitmap.now.start first count) }
    ensures others { KeepsOthersIn patch.old patch.new
        (B.blocks bitmap.now.blocks.now) bitmap.now.start first count }
    ensures within { KeepsWithin patch.old patch.new (B.total bitmap.now.blocks.now) }
{
    let first = u32::from(first);
    let end = first + u32::from(count);
    let mut bytes = [0; 512];
    for i in first / BITS..end.div_ceil(BITS) {
        let n = u32::from(bitmap.start) + i;
        patch.over(bitmap.blocks).block(n, &mut bytes);
        let from = first.max(i * BITS) - i * BITS;
        let to = end.min((i + 1) * BITS) - i * BITS;
        set_bits(&mut bytes, from as usize, to as usize);
        patch.put(n, &bytes)?;
    }
    Ok(())
}

/// Sets the bits of the extents' allocation blocks in the bitmap's blocks with the patch over them. An extent without blocks sets
/// nothing, wherever it lies.
///
/// If each block is in one extent only and is free, as those of `blocks_that_come` are, there are as many fewer clear bits
/// afterwards as the extents have blocks.
///
/// Errors: `AllocError` if memory was refused. Then some of the bits may not be set.
///
/// Source: Inside Macintosh: Files, chapter 2, 'Volume bitmap'.
pub fn claim_extents<B: Blocks>(
    bitmap: &Bitmap<'_, B>,
    patch: &mut Patch,
    extents: &[Extent],
) -> Result<(), AllocError>
    requires { AreExtentsWithin bitmap.now.count extents.now }
    ensures claimed { OnOk result (HasClaimedOver (B.blocks bitmap.now.blocks.now)
        bitmap.now.start bitmap.now.count extents.now patch.old patch.new) }
    ensures within { KeepsWithin patch.old patch.new (B.total bitmap.now.blocks.now) }
{
    for i in 0..extents.len() {
        let extent = extents[i];
        if extent.count > 0 {
            claim(bitmap, patch, extent.first, extent.count)?;
        }
    }
    Ok(())
}

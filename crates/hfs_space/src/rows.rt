//! The free blocks directly after a fork's last one.

ghost use Rattle.std.specs.Prelude.{◌≡◌, ◌≢◌, ◌+◌, ◌/◌, ◌%◌, ◌<◌};
ghost use Rattle.hfs_space.specs.Bitmap.{is_used};
ghost use Rattle.hfs_space.specs.Choice as spec;

use crate::Bitmap;
use crate::free_bits::is_set;
use hfs_blocks::Blocks;
use hfs_fields::Extent;

/// How many bits a block of the bitmap has.
pub(crate) const BITS: u16 = 4096;

/// Makes `bytes` those that have an allocation block's bit. They are read if it is the row's first block, or its bit is the first
/// of a block.
pub(crate) fn turn_to<B: Blocks>(
    bitmap: &Bitmap<'_, B>,
    first: u16,
    block: u16,
    bytes: &mut [u8; 512],
)
    requires within { block < bitmap.now.count }
    requires before { block ≢ first → block % 4096 ≢ 0
        → bytes.old ≡ B.blocks bitmap.now.blocks.now (bitmap.now.start + block / 4096) }
    ensures { bytes.new ≡ B.blocks bitmap.now.blocks.now (bitmap.now.start + block / 4096) }
{
    if block == first || block % BITS == 0 {
        bitmap
            .blocks
            .block(u32::from(bitmap.start) + u32::from(block / BITS), bytes);
    }
}

/// How many blocks are free in a row from `first` on, at most as many as are wanted. Looks at no more bits than that, and reads
/// each block that has one of them once.
fn free_row<B: Blocks>(bitmap: &Bitmap<'_, B>, first: u16, wanted: u32) -> u16
    ensures { spec.IsFreeRow (is_used (B.blocks bitmap.now.blocks.now) bitmap.now.start)
        bitmap.now.count first wanted result }
{
    let mut bytes = [0; 512];
    for block in first..bitmap.count {
        let count = block - first;
        if u32::from(count) == wanted {
            return count;
        }
        turn_to(bitmap, first, block, &mut bytes);
        if is_set(&bytes, usize::from(block % BITS)) {
            return count;
        }
    }
    bitmap.count.saturating_sub(first)
}

/// The row of free blocks that begins at `after`, the block directly after a fork's last one, with at most as many as are wanted.
pub(crate) fn row_after<B: Blocks>(
    bitmap: &Bitmap<'_, B>,
    after: Option<u16>,
    wanted: u32,
) -> Extent
    ensures { spec.IsRowAfter (is_used (B.blocks bitmap.now.blocks.now) bitmap.now.start)
        bitmap.now.count after wanted result }
{
    match after {
        Some(first) => Extent {
            first,
            count: free_row(bitmap, first, wanted),
        },
        None => Extent { first: 0, count: 0 },
    }
}

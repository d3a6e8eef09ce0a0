//! The lowest run of free allocation blocks that is long enough.

ghost use Rattle.std.specs.Prelude.{◌≡◌, ◌+◌, ◌/◌, ◌%◌, ◌<◌, ◌≤◌, min, if◌then◌else◌, IfSome};
ghost use Rattle.hfs_space.specs.Bitmap as bits;
ghost use Rattle.hfs_space.specs.Choice.{IsLowest};
ghost use Rattle.hfs_space.specs.FreeRuns as spec;

use crate::Bitmap;
use crate::free_run_lists::{is_taken, meets};
use crate::rows::BITS;
use hfs_blocks::Blocks;
use hfs_fields::Extent;

/// How far a search has come that begins at the first block.
#[derive(Clone, Copy)]
pub(crate) struct Walked {
    /// The block that it comes to next.
    pub end: u16,
    /// How many blocks are free directly before that one.
    pub free: u16,
}

/// How many blocks are free directly before a block, where `free` were before the one that was passed.
fn free_after(taken: bool, free: u16) -> u16
    requires { free < 65535 }
    ensures { result ≡ (if taken then 0 else free + 1) }
{
    if taken { 0 } else { free + 1 }
}

/// Goes through the blocks of a byte of the bitmap one by one, until `count` are free in a row.
fn walk_bits<B: Blocks>(
    bitmap: &Bitmap<'_, B>,
    bytes: &[u8; 512],
    taken: Extent,
    count: u32,
    walked: Walked,
) -> Walked
    requires whole { walked.end % 8 ≡ 0 }
    requires within { walked.end < bitmap.now.count }
    requires here { bytes.now ≡ B.blocks bitmap.now.blocks.now
        (bitmap.now.start + walked.end / 4096) }
    requires few { walked.free < count }
    requires searched { spec.IsSearched (spec.is_taken
        (bits.is_used (B.blocks bitmap.now.blocks.now) bitmap.now.start) taken)
        bitmap.now.count count walked.end walked.free }
    ensures searched { spec.IsSearched (spec.is_taken
        (bits.is_used (B.blocks bitmap.now.blocks.now) bitmap.now.start) taken)
        bitmap.now.count count result.end result.free }
    ensures within { result.end ≤ bitmap.now.count }
    ensures all { result.free < count → result.end ≡ min bitmap.now.count (walked.end + 8) }
{
    let first = walked.end;
    let most = (bitmap.count - first).min(8);
    let mut free = walked.free;
    for bit in 0..most {
        let block = first + bit;
        free = free_after(is_taken(bytes, taken, block), free);
        if u32::from(free) >= count {
            return Walked {
                end: block + 1,
                free,
            };
        }
    }
    Walked {
        end: first + most,
        free,
    }
}

/// Goes through the blocks of a byte of the bitmap, at once if all of them are in use or all free, until `count` or more are free in a
/// row.
fn walk_byte<B: Blocks>(
    bitmap: &Bitmap<'_, B>,
    bytes: &[u8; 512],
    taken: Extent,
    count: u32,
    walked: Walked,
) -> Walked
    requires whole { walked.end % 8 ≡ 0 }
    requires within { walked.end < bitmap.now.count }
    requires here { bytes.now ≡ B.blocks bitmap.now.blocks.now
        (bitmap.now.start + walked.end / 4096) }
    requires few { walked.free < count }
    requires searched { spec.IsSearched (spec.is_taken
        (bits.is_used (B.blocks bitmap.now.blocks.now) bitmap.now.start) taken)
        bitmap.now.count count walked.end walked.free }
    ensures searched { spec.IsSearched (spec.is_taken
        (bits.is_used (B.blocks bitmap.now.blocks.now) bitmap.now.start) taken)
        bitmap.now.count count result.end result.free }
    ensures within { result.end ≤ bitmap.now.count }
    ensures all { result.free < count → result.end ≡ min bitmap.now.count (walked.end + 8) }
{
    let byte = bytes[usize::from(walked.end % BITS / 8)];
    let are_eight = bitmap.count - walked.end >= 8;
    if are_eight && byte == 0xFF {
        return Walked {
            end: walked.end + 8,
            free: 0,
        };
    }
    if are_eight && byte == 0 && !meets(taken, walked.end) {
        return Walked {
            end: walked.end + 8,
            free: walked.free + 8,
        };
    }
    walk_bits(bitmap, bytes, taken, count, walked)
}

/// How many bytes in a row, at the beginning of a block of the bitmap and of at most so many, have no free block.
fn full_bytes(bytes: &[u8; 512], most: u16) -> u16
    requires { most ≤ 512 }
    ensures within { result ≤ most }
    ensures full { spec.AreFull bytes.now result }
{
    for i in 0..most {
        if bytes[usize::from(i)] != 0xFF {
            return i;
        }
    }
    most
}

/// Goes through the blocks of a block of the bitmap, until `count` or more are free in a row: first at once through those before
/// the first byte with a free one.
fn walk_block<B: Blocks>(
    bitmap: &Bitmap<'_, B>,
    bytes: &[u8; 512],
    taken: Extent,
    count: u32,
    walked: Walked,
) -> Walked
    requires whole { walked.end % 4096 ≡ 0 }
    requires within { walked.end < bitmap.now.count }
    requires here { bytes.now ≡ B.blocks bitmap.now.blocks.now
        (bitmap.now.start + walked.end / 4096) }
    requires few { walked.free < count }
    requires searched { spec.IsSearched (spec.is_taken
        (bits.is_used (B.blocks bitmap.now.blocks.now) bitmap.now.start) taken)
        bitmap.now.count count walked.end walked.free }
    ensures searched { spec.IsSearched (spec.is_taken
        (bits.is_used (B.blocks bitmap.now.blocks.now) bitmap.now.start) taken)
        bitmap.now.count count result.end result.free }
    ensures within { result.end ≤ bitmap.now.count }
    ensures all { result.free < count → result.end ≡ min bitmap.now.count (walked.end + 4096) }
{
    let most = (bitmap.count - walked.end).min(BITS);
    let full = full_bytes(bytes, most / 8);
    let mut passed = walked;
    if full > 0 {
        passed = Walked {
            end: walked.end + full * 8,
            free: 0,
        };
    }
    let end = walked.end + most;
    while passed.end < end {
        passed = walk_byte(bitmap, bytes, taken, count, passed);
        if u32::from(passed.free) >= count {
            return passed;
        }
    }
    passed
}

/// The first `count` blocks of the lowest run that has so many of the blocks that are free and aren't the extent's. The blocks that
/// follow it aren't looked at.
pub(crate) fn lowest_run<B: Blocks>(
    bitmap: &Bitmap<'_, B>,
    taken: Extent,
    count: u32,
) -> Option<Extent>
    ensures { IfSome result (λ run. IsLowest (bits.is_used (B.blocks bitmap.now.blocks.now)
        bitmap.now.start) bitmap.now.count taken count run) }
{
    if count == 0 {
        return None;
    }
    let mut walked = Walked { end: 0, free: 0 };
    let mut bytes = [0; 512];
    for block in 0..bitmap.count.div_ceil(BITS) {
        bitmap
            .blocks
            .block(u32::from(bitmap.start) + u32::from(block), &mut bytes);
        walked = walk_block(bitmap, &bytes, taken, count, walked);
        if u32::from(walked.free) >= count {
            return Some(Extent {
                first: walked.end - walked.free,
                count: count as u16,
            });
        }
    }
    None
}

//! The runs of free allocation blocks.

ghost use Rattle.std.specs.Prelude.{◌≡◌, ◌+◌, ◌/◌, ◌%◌, ◌<◌, ◌≤◌, ◌++◌, ◌||◌, min, OnOk, IfOk};
ghost use Rattle.hfs_space.specs.Bitmap as bits;
ghost use Rattle.hfs_space.specs.Extents as extents;
ghost use Rattle.hfs_space.specs.FreeRuns as spec;

use crate::Bitmap;
use crate::free_bits::is_set;
use crate::rows::{BITS, turn_to};
use hfs_blocks::Blocks;
use hfs_fields::Extent;
use std::alloc::{AllocError, Global};

/// Whether an allocation block is one of an extent's.
fn is_in(extent: Extent, block: u16) -> bool
    ensures { result ≡ spec.is_in extent block }
{
    let end = u32::from(extent.first) + u32::from(extent.count);
    extent.first <= block && u32::from(block) < end
}

/// Adds the run of `count` blocks directly before `end`, if it has one.
fn push_run(runs: &mut Vec<Extent>, end: u16, count: u16) -> Result<(), AllocError>
    requires { count ≤ end }
    ensures { OnOk result (runs.new.items ≡ runs.old.items ++ spec.run_before end count) }
{
    if count == 0 {
        return Ok(());
    }
    let run = Extent {
        first: end - count,
        count,
    };
    runs.push(run)?;
    Ok(())
}

/// Whether one of the eight blocks from `first` on may be the extent's.
pub(crate) fn meets(extent: Extent, first: u16) -> bool
    ensures { result ≡ spec.meets extent first }
{
    let end = u32::from(extent.first) + u32::from(extent.count);
    u32::from(extent.first) < u32::from(first) + 8 && u32::from(first) < end
}

/// Whether a block is marked, by the bytes that have its bit, or is one of the extent's.
pub(crate) fn is_taken(bytes: &[u8; 512], taken: Extent, block: u16) -> bool
    ensures { result ≡ (bits.is_marked bytes.now (block % 4096) || spec.is_in taken block) }
{
    is_set(bytes, usize::from(block % BITS)) || is_in(taken, block)
}

/// Goes through the blocks of a byte of the bitmap one by one, and returns how many free ones follow the last run. Fails only
/// when out of memory.
fn pass_bits<B: Blocks>(
    runs: &mut Vec<Extent>,
    before: u16,
    bitmap: &Bitmap<'_, B>,
    bytes: &[u8; 512],
    first: u16,
    taken: Extent,
) -> Result<u16, AllocError>
    requires whole { first % 8 ≡ 0 }
    requires within { first < bitmap.now.count }
    requires here { bytes.now ≡ B.blocks bitmap.now.blocks.now (bitmap.now.start + first / 4096) }
    requires running { spec.IsRunning (spec.is_taken
        (bits.is_used (B.blocks bitmap.now.blocks.now) bitmap.now.start) taken)
        bitmap.now.count first before runs.old.items }
    ensures { IfOk result (λ free. spec.IsRunning (spec.is_taken
        (bits.is_used (B.blocks bitmap.now.blocks.now) bitmap.now.start) taken)
        bitmap.now.count (min bitmap.now.count (first + 8)) free runs.new.items) }
{
    let mut free = before;
    for bit in 0..(bitmap.count - first).min(8) {
        let block = first + bit;
        if is_taken(bytes, taken, block) {
            push_run(runs, block, free)?;
            free = 0;
        } else {
            free += 1;
        }
    }
    Ok(free)
}

/// Goes through the blocks of a byte of the bitmap, at once if all of them are in use or all free, and returns how many free ones
/// follow the last run. Fails only when out of memory.
fn pass_byte<B: Blocks>(
    runs: &mut Vec<Extent>,
    before: u16,
    bitmap: &Bitmap<'_, B>,
    bytes: &[u8; 512],
    first: u16,
    taken: Extent,
) -> Result<u16, AllocError>
    requires whole { first % 8 ≡ 0 }
    requires within { first < bitmap.now.count }
    requires here { bytes.now ≡ B.blocks bitmap.now.blocks.now (bitmap.now.start + first / 4096) }
    requires running { spec.IsRunning (spec.is_taken
        (bits.is_used (B.blocks bitmap.now.blocks.now) bitmap.now.start) taken)
        bitmap.now.count first before runs.old.items }
    ensures { IfOk result (λ free. spec.IsRunning (spec.is_taken
        (bits.is_used (B.blocks bitmap.now.blocks.now) bitmap.now.start) taken)
        bitmap.now.count (min bitmap.now.count (first + 8)) free runs.new.items) }
{
    let byte = bytes[usize::from(first % BITS / 8)];
    let are_eight = bitmap.count - first >= 8;
    if are_eight && byte == 0xFF {
        push_run(runs, first, before)?;
        return Ok(0);
    }
    if are_eight && byte == 0 && !meets(taken, first) {
        return Ok(before + 8);
    }
    pass_bits(runs, before, bitmap, bytes, first, taken)
}

/// The runs of blocks that are free, and aren't the extent's.
pub(crate) fn free_runs_beside<B: Blocks>(
    alloc: Global,
    bitmap: &Bitmap<'_, B>,
    taken: Extent,
) -> Result<Vec<Extent>, AllocError>
    ensures runs { IfOk result (λ runs. spec.AreFreeRuns (spec.is_taken
        (bits.is_used (B.blocks bitmap.now.blocks.now) bitmap.now.start) taken)
        bitmap.now.count runs.items) }
    ensures few { IfOk result (λ runs. extents.block_total runs.items < 65536) }
{
    let mut runs = Vec::new(alloc);
    let mut free = 0;
    let mut bytes = [0; 512];
    for byte in 0..bitmap.count.div_ceil(8) {
        let first = byte * 8;
        turn_to(bitmap, 0, first, &mut bytes);
        free = pass_byte(&mut runs, free, bitmap, &bytes, first, taken)?;
    }
    push_run(&mut runs, bitmap.count, free)?;
    Ok(runs)
}

/// The runs of free allocation blocks, in order, each as long as possible. Reads each block of the bitmap once. Fails only when
/// out of memory.
///
/// Source: Inside Macintosh: Files, chapter 2, 'Volume bitmap'.
pub fn free_runs<B: Blocks>(
    alloc: Global,
    bitmap: &Bitmap<'_, B>,
) -> Result<Vec<Extent>, AllocError>
    ensures { IfOk result (λ runs. spec.AreFreeRuns
        (bits.is_used (B.blocks bitmap.now.blocks.now) bitmap.now.start)
        bitmap.now.count runs.items) }
{
    let none = Extent { first: 0, count: 0 };
    let runs = free_runs_beside(alloc, bitmap, none)?;
    Ok(runs)
}

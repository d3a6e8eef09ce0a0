//! Which blocks are added, on bitmaps of one block.

ghost use Rattle.std.specs.Prelude.{◌≡◌, IfOk, vec_len};

use hfs_blocks::ImageBytes;
use hfs_fields::Extent;
use hfs_space::{Bitmap, Room, blocks_that_come, free_runs};
use std::alloc::{AllocError, Global};
use std::test::Fail;

/// A block of the bitmap that has these first bytes, and whose other bits are set.
fn bitmap_block(alloc: Global, front: &[u8; 8]) -> Result<Vec<u8>, AllocError>
    ensures { IfOk result (λ bytes. vec_len bytes ≡ 512) }
{
    let mut bytes = vec![in alloc; 0xff; 512]?;
    for i in 0..8 {
        bytes[i] = front[i];
    }
    Ok(bytes)
}

/// The extents as pairs of their first blocks and counts, at most eight of them, and how many there are.
fn pairs_of(extents: &[Extent]) -> ([(u16, u16); 8], usize) {
    let mut pairs = [(0, 0); 8];
    for i in 0..8 {
        if i < extents.len() {
            pairs[i] = (extents[i].first, extents[i].count);
        }
    }
    (pairs, extents.len())
}

/// Whether the extents are these.
fn are(extents: &[Extent], wanted: &[(u16, u16)]) -> bool {
    let (pairs, count) = pairs_of(extents);
    if count != wanted.len() || count > 8 {
        return false;
    }
    for i in 0..8 {
        if i < wanted.len() && pairs[i] != wanted[i] {
            return false;
        }
    }
    true
}

/// What is added on a volume of 58 allocation blocks whose bitmap has these bytes.
fn comes(
    alloc: Global,
    front: &[u8; 8],
    after: Option<u16>,
    wanted: u32,
) -> Result<Result<Vec<Extent>, Room>, AllocError> {
    let block = bitmap_block(alloc, front)?;
    let blocks = ImageBytes { bytes: &block };
    let bitmap = Bitmap {
        blocks: &blocks,
        start: 0,
        count: 58,
    };
    blocks_that_come(alloc, &bitmap, after, wanted)
}

/// Whether these blocks are added.
fn do_come(
    alloc: Global,
    front: &[u8; 8],
    after: Option<u16>,
    wanted: u32,
    pieces: &[(u16, u16)],
) -> Result<bool, Fail> {
    match comes(alloc, front, after, wanted)? {
        Ok(extents) => Ok(are(&extents, pieces)),
        Err(_) => Ok(false),
    }
}

/// Whether there are too few for this many.
fn is_refused(alloc: Global, front: &[u8; 8], wanted: u32, free: u32) -> Result<bool, Fail> {
    match comes(alloc, front, None, wanted)? {
        Ok(_) => Ok(false),
        Err(room) => Ok(room.free == free && room.wanted == wanted),
    }
}

/// Blocks 0 to 41 are marked, 42 to 57 free.
const NEW: [u8; 8] = [0xff, 0xff, 0xff, 0xff, 0xff, 0xc0, 0, 0];

/// All 58 blocks are marked, and the bits after them clear.
const FULL: [u8; 8] = [0xff, 0xff, 0xff, 0xff, 0xff, 0xff, 0xff, 0xc0];

/// Of blocks 42 to 57 these are free: 43, 45, 47, 49, 51.
const EVERY_OTHER: [u8; 8] = [0xff, 0xff, 0xff, 0xff, 0xff, 0xea, 0xaf, 0xc0];

/// These are free: 42, 53, 55, 57.
const FOUR: [u8; 8] = [0xff, 0xff, 0xff, 0xff, 0xff, 0xdf, 0xfa, 0x80];

/// These are free: 42 and 43, 45 to 48, 50 to 53, 57.
const RUNS: [u8; 8] = [0xff, 0xff, 0xff, 0xff, 0xff, 0xc8, 0x43, 0x80];

#[test]
fn a_new_fork(rt: HostRuntime) -> Result<(), Fail> {
    assert!(rt; do_come(rt.alloc(), &NEW, None, 16, &[(42, 16)])?);
    assert!(rt; do_come(rt.alloc(), &NEW, Some(43), 1, &[(43, 1)])?);
    assert!(rt; do_come(rt.alloc(), &NEW, None, 0, &[])?);
    Ok(())
}

#[test]
fn want_of_room(rt: HostRuntime) -> Result<(), Fail> {
    assert!(rt; is_refused(rt.alloc(), &FULL, 1, 0)?);
    assert!(rt; is_refused(rt.alloc(), &NEW, 17, 16)?);
    Ok(())
}

#[test]
fn single_blocks(rt: HostRuntime) -> Result<(), Fail> {
    let five = [(43, 1), (45, 1), (47, 1), (49, 1), (51, 1)];
    assert!(rt; do_come(rt.alloc(), &EVERY_OTHER, None, 5, &five)?);
    let four = [(42, 1), (53, 1), (55, 1), (57, 1)];
    assert!(rt; do_come(rt.alloc(), &FOUR, None, 4, &four)?);
    Ok(())
}

#[test]
fn the_lowest_run(rt: HostRuntime) -> Result<(), Fail> {
    // The lowest run that has three; then, since none has five, the longest, and of equal ones the lowest.
    assert!(rt; do_come(rt.alloc(), &RUNS, None, 3, &[(45, 3)])?);
    assert!(rt; do_come(rt.alloc(), &RUNS, None, 5, &[(45, 4), (50, 1)])?);
    Ok(())
}

#[test]
fn after_the_last_block(rt: HostRuntime) -> Result<(), Fail> {
    // Those directly after the last block first, and then the lowest run that has the rest.
    assert!(rt; do_come(rt.alloc(), &RUNS, Some(50), 5, &[(50, 4), (42, 1)])?);
    assert!(rt; do_come(rt.alloc(), &RUNS, Some(57), 9, &[(57, 1), (45, 4), (50, 4)])?);
    Ok(())
}

/// Whether the runs of free blocks are these.
fn are_free(alloc: Global, front: &[u8; 8], runs: &[(u16, u16)]) -> Result<bool, AllocError> {
    let block = bitmap_block(alloc, front)?;
    let blocks = ImageBytes { bytes: &block };
    let bitmap = Bitmap {
        blocks: &blocks,
        start: 0,
        count: 58,
    };
    let free = free_runs(alloc, &bitmap)?;
    Ok(are(&free, runs))
}

#[test]
fn runs_of_free_blocks(rt: HostRuntime) -> Result<(), Fail> {
    assert!(rt; are_free(rt.alloc(), &RUNS, &[(42, 2), (45, 4), (50, 4), (57, 1)])?);
    assert!(rt; are_free(rt.alloc(), &FULL, &[])?);
    Ok(())
}

//! The bits of blocks that are added, on a bitmap by hand.

ghost use Rattle.std.specs.Prelude.{◌≡◌, IfOk, vec_len};

use hfs_blocks::{Blocks, ImageBytes, Patch};
use hfs_fields::Extent;
use hfs_space::{Bitmap, are_within, claim, claim_extents};
use std::alloc::{AllocError, Global};
use std::test::Fail;

/// Five blocks of zeros.
fn zeros(alloc: Global) -> Result<Vec<u8>, AllocError>
    ensures { IfOk result (λ bytes. vec_len bytes ≡ 2560) }
{
    vec![in alloc; 0; 2_560]
}

/// Three bytes of a block, from this one on.
fn bytes_at<B: Blocks>(blocks: &B, n: u32, at: usize) -> Option<[u8; 3]> {
    if n >= blocks.count() || at >= 510 {
        return None;
    }
    let mut bytes = [0; 512];
    blocks.block(n, &mut bytes);
    Some([bytes[at], bytes[at + 1], bytes[at + 2]])
}

/// How many bits of a bitmap of 10,000 blocks in blocks 1 to 3 are clear.
fn free_in<B: Blocks>(blocks: &B) -> u32 {
    if blocks.count() != 5 {
        return 0;
    }
    let bitmap = Bitmap {
        blocks,
        start: 1,
        count: 10_000,
    };
    bitmap.free_count()
}

/// Claims blocks 4,090 to 4,109 of a bitmap of zeros, whose first block ends within them.
fn over_an_edge(alloc: Global) -> Result<bool, AllocError> {
    let image = zeros(alloc)?;
    let blocks = ImageBytes { bytes: &image };
    let bitmap = Bitmap {
        blocks: &blocks,
        start: 1,
        count: 10_000,
    };
    let mut patch = Patch::new(alloc);
    claim(&bitmap, &mut patch, 4_090, 20)?;
    let view = patch.over(&blocks);
    Ok(
        patch.len() == 2
            && free_in(&view) == 9_980
            && bytes_at(&view, 1, 509) == Some([0, 0, 0x3f])
            && bytes_at(&view, 2, 0) == Some([0xff, 0xfc, 0]),
    )
}

/// Claims the blocks of two extents, and of one without blocks.
fn of_extents(alloc: Global) -> Result<bool, AllocError> {
    let image = zeros(alloc)?;
    let blocks = ImageBytes { bytes: &image };
    let bitmap = Bitmap {
        blocks: &blocks,
        start: 1,
        count: 10_000,
    };
    let extents = [
        Extent { first: 3, count: 2 },
        Extent {
            first: 65_535,
            count: 0,
        },
        Extent { first: 8, count: 9 },
    ];
    if !are_within(&extents, 10_000) {
        return Ok(false);
    }
    let mut patch = Patch::new(alloc);
    claim_extents(&bitmap, &mut patch, &extents)?;
    let view = patch.over(&blocks);
    Ok(
        patch.len() == 1
            && free_in(&view) == 9_989
            && bytes_at(&view, 1, 0) == Some([0x18, 0xff, 0x80]),
    )
}

#[test]
fn bits_over_an_edge(rt: HostRuntime) -> Result<(), Fail> {
    assert!(rt; over_an_edge(rt.alloc())?);
    Ok(())
}

#[test]
fn bits_of_extents(rt: HostRuntime) -> Result<(), Fail> {
    assert!(rt; of_extents(rt.alloc())?);
    Ok(())
}

//! Bytes and zeros over a fork whose blocks don't follow one another.

ghost use Rattle.std.specs.Prelude.{◌≡◌, IfOk, vec_len};

use hfs_blocks::{Blocks, ImageBytes, Patch};
use hfs_fields::{Extent, Mdb};
use hfs_space::{Cleared, are_within, clear_fork, write_fork};
use std::alloc::{AllocError, Global};
use std::test::Fail;

/// Two bytes of a block, from this one on.
fn pair_at<B: Blocks>(blocks: &B, n: u32, at: usize) -> Option<[u8; 2]> {
    if n >= blocks.count() || at > 510 {
        return None;
    }
    let mut bytes = [0; 512];
    blocks.block(n, &mut bytes);
    Some([bytes[at], bytes[at + 1]])
}

/// A volume of 64 blocks, each byte of which is 7.
fn sevens(alloc: Global) -> Result<Vec<u8>, AllocError>
    ensures { IfOk result (λ bytes. vec_len bytes ≡ 32768) }
{
    vec![in alloc; 7; 64 * 512]
}

/// The fields of a master directory block of a volume of 58 allocation blocks of 512 bytes, which begin at block 4.
fn small_mdb() -> Mdb
    ensures blocks { result.allocation_blocks ≡ 58 }
    ensures size { result.allocation_block_size ≡ 512 }
    ensures start { result.allocation_start ≡ 4 }
{
    Mdb {
        allocation_blocks: 58,
        allocation_block_size: 512,
        allocation_start: 4,
        ..Mdb::read(&[0; 512])
    }
}

/// A fork whose blocks are 10 and 12, that is logical blocks 14 and 16.
const FORK: [Extent; 2] = [
    Extent {
        first: 10,
        count: 1,
    },
    Extent {
        first: 12,
        count: 1,
    },
];

/// Writes bytes over the fork from this one on; false if they don't fit.
fn write_in<B: Blocks>(
    alloc: Global,
    blocks: &B,
    patch: &mut Patch,
    offset: u32,
    bytes: &[u8],
) -> Result<bool, AllocError> {
    if blocks.count() != 64 || !are_within(&FORK, 58) {
        return Ok(false);
    }
    if offset > 1_000 || bytes.len() > 24 {
        return Ok(false);
    }
    write_fork(alloc, blocks, patch, &small_mdb(), &FORK, offset, bytes)?;
    Ok(true)
}

/// Zeros over the fork's bytes from this one to its last; nothing if there are none.
fn clear_from<B: Blocks>(
    alloc: Global,
    blocks: &B,
    offset: u32,
) -> Result<Option<Cleared>, AllocError> {
    if blocks.count() != 64 || !are_within(&FORK, 58) || offset > 1_024 {
        return Ok(None);
    }
    let cleared = clear_fork(alloc, blocks, &small_mdb(), &FORK, offset, 1_024 - offset)?;
    Ok(Some(cleared))
}

/// Writes four bytes from the fork's byte 510 on: the last two of its first block, and the first two of its second.
fn over_two_blocks(alloc: Global) -> Result<bool, AllocError> {
    let image = sevens(alloc)?;
    let blocks = ImageBytes { bytes: &image };
    let mut patch = Patch::new(alloc);
    let written = write_in(alloc, &blocks, &mut patch, 510, &[0xff; 4])?;
    let view = patch.over(&blocks);
    Ok(
        written
            && patch.len() == 2
            && pair_at(&view, 14, 508) == Some([7, 7])
            && pair_at(&view, 14, 510) == Some([0xff, 0xff])
            && pair_at(&view, 16, 0) == Some([0xff, 0xff])
            && pair_at(&view, 16, 2) == Some([7, 7])
            && pair_at(&view, 15, 0) == Some([7, 7]),
    )
}

/// What of the volume is zeros when the fork's bytes from the sixth on are cleared: the rest of its first block, in a patch, and
/// its second as a run of zeros, which is in no patch.
fn behind_five_bytes(alloc: Global) -> Result<bool, AllocError> {
    let image = sevens(alloc)?;
    let blocks = ImageBytes { bytes: &image };
    let Some(cleared) = clear_from(alloc, &blocks, 5)? else {
        return Ok(false);
    };
    let zeroed = cleared.zeros.over(&blocks);
    let view = cleared.patch.over(&zeroed);
    Ok(
        cleared.patch.len() == 1
            && cleared.zeros.has(16)
            && !cleared.zeros.has(14)
            && !cleared.zeros.has(15)
            && pair_at(&view, 14, 4) == Some([7, 0])
            && pair_at(&view, 14, 510) == Some([0, 0])
            && pair_at(&view, 15, 0) == Some([7, 7])
            && pair_at(&view, 16, 0) == Some([0, 0])
            && pair_at(&view, 16, 510) == Some([0, 0])
            && pair_at(&view, 17, 0) == Some([7, 7]),
    )
}

#[test]
fn bytes_over_two_blocks(rt: HostRuntime) -> Result<(), Fail> {
    assert!(rt; over_two_blocks(rt.alloc())?);
    Ok(())
}

#[test]
fn zeros_behind_five_bytes(rt: HostRuntime) -> Result<(), Fail> {
    assert!(rt; behind_five_bytes(rt.alloc())?);
    Ok(())
}

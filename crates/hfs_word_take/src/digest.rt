//! The digest of an image.
ghost use Rattle.std.specs.Prelude.{◌≡◌, ◌≤◌, ◌<◌, ◌+◌, ◌*◌, IfOk, length};
ghost use Rattle.sha2.specs.Hashers.{Holds256};
ghost use Rattle.hfs_source.specs.Images.{OfEach};
ghost use Rattle.hfs_source.specs.Seen.{EachKnown};
ghost use Rattle.hfs_word_take.specs.Digests.{AddsPiece, IsDigestOf};

use crate::blocks::ImageBlocks;
use hfs_bag::SourceFault;
use sha2::{Digest, Sha256};
use std::alloc::{AllocError, Global};

/// How many blocks are read at once.
const BLOCKS: u32 = 128;

/// How many bytes these blocks have.
const PIECE: usize = 65_536;

/// Room for `len` bytes.
fn buffer_of(alloc: Global, len: usize) -> Result<Vec<u8>, AllocError>
    ensures { IfOk result (λ buffer. length buffer.items ≡ len) }
{
    vec![in alloc; 0; len]
}

/// Gives bytes of an image, starting at a block, to the digest: as many of those that are left as there is room for, at least
/// one. Returns how many.
fn add_piece<B: ImageBlocks>(
    image: &mut B,
    first: u32,
    left: u64,
    buffer: &mut [u8],
    digest: &mut Sha256,
) -> Result<u64, SourceFault>
    requires some { 1 ≤ left }
    requires room { length buffer.old ≡ 65536 }
    ensures some { IfOk result (λ count. 1 ≤ count) }
    ensures few { IfOk result (λ count. count ≤ left) }
    ensures whole { IfOk result (λ count. count < left → count ≡ 65536) }
    ensures room { length buffer.new ≡ 65536 }
    ensures each { IfOk result (λ count. EachKnown (B.Holds image.new)
        (λ known. AddsPiece known (512 * first) count (Holds256 digest.old) (Holds256 digest.new))) }
    ensures narrows { OfEach (B.Holds image.new) (B.Holds image.old) }
{
    let count = left.min(buffer.len() as u64);
    let piece = &mut buffer[..count as usize];
    let Ok(()) = image.read_from(first, piece) else {
        return Err(SourceFault::ReadFailed);
    };
    digest.update(&*piece);
    Ok(count)
}

/// The number of the block after those that were read at once. An image has fewer than 2^32 blocks.
fn block_behind(first: u32) -> Result<u32, SourceFault>
    ensures { IfOk result (λ next. next ≡ first + 128) }
{
    match first.checked_add(BLOCKS) {
        Some(next) => Ok(next),
        None => Err(SourceFault::ReadFailed),
    }
}

/// Gives the `len` bytes of an image to the digest.
fn add_all<B: ImageBlocks>(
    image: &mut B,
    len: u64,
    buffer: &mut [u8],
) -> Result<[u8; 32], SourceFault>
    requires room { length buffer.old ≡ 65536 }
    ensures each { IfOk result (λ digest. EachKnown (B.Holds image.new)
        (λ known. IsDigestOf known len digest)) }
    ensures narrows { OfEach (B.Holds image.new) (B.Holds image.old) }
{
    let mut digest = Sha256::new();
    let mut place = 0;
    let mut first: u32 = 0;
    while place < len {
        place += add_piece(image, first, len - place, buffer, &mut digest)?;
        first = block_behind(first)?;
    }
    Ok(digest.finalize())
}

/// The SHA-256 digest of the `len` bytes of an image, which are read in pieces. Errors: a read failed, memory was refused.
pub fn image_digest<B: ImageBlocks>(
    alloc: Global,
    image: &mut B,
    len: u64,
) -> Result<[u8; 32], SourceFault>
    ensures each { IfOk result (λ digest. EachKnown (B.Holds image.new)
        (λ known. IsDigestOf known len digest)) }
    ensures narrows { OfEach (B.Holds image.new) (B.Holds image.old) }
{
    let Ok(mut buffer) = buffer_of(alloc, PIECE) else {
        return Err(SourceFault::Memory);
    };
    add_all(image, len, &mut buffer)
}

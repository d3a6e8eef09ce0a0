//! Writing an image while it is read, with changed blocks in place of its own.
ghost use Rattle.std.specs.Prelude.{◌≡◌, ◌≢◌, ◌+◌, ◌/◌, ◌≤◌, Err, IfOk, OnErr, OnOk, length};
ghost use Rattle.std.specs.Io.KnownBytes.{Appends};
ghost use Rattle.hfs_texts.specs.Writing.{AppendsFront};
ghost use Rattle.hfs_blocks.specs.Layers.{changes, AreWithin};
ghost use Rattle.hfs_source.specs.Images.{OfEach};
ghost use Rattle.hfs_volume.specs.Patched.{OfPatched, OfPiece};

use crate::laying::lay_piece;
use hfs_source::BlockSource;
use hfs_space::ChangedBlocks;
use hfs_texts::put;
use std::alloc::{AllocError, Global};
use std::io::Write;

/// Why an image was not written.
#[derive(Clone, Copy, Debug, PartialEq, Eq)]
pub enum PatchedFault {
    /// Memory was refused, and nothing was written.
    Memory,
    /// A read failed.
    ReadFailed,
    /// The writer failed.
    WriteFailed,
}

/// The most bytes that are read at once.
pub(crate) const MOST_AT_ONCE: u64 = 1_048_576;

/// Writes `count` bytes from block `first` on, with the changed blocks in place of their own.
fn write_piece<S: BlockSource, W: Write>(
    source: &mut S,
    first: u32,
    count: usize,
    changed: &ChangedBlocks,
    buffer: &mut [u8],
    writer: &mut W,
) -> Result<(), PatchedFault>
    requires room { count ≤ length buffer.old }
    requires numbers { first + count / 512 ≤ 4294967295 }
    ensures written { OnOk result (OfPiece (S.Holds source.new) changed.now first count
        (Appends (W.contents writer.old) (W.contents writer.new))) }
    ensures part { OnErr result (OfPiece (S.Holds source.new) changed.now first count
        (AppendsFront (W.contents writer.old) (W.contents writer.new))) }
    ensures memory { result ≢ Err PatchedFault.Memory }
    ensures room { length buffer.new ≡ length buffer.old }
    ensures narrows { OfEach (S.Holds source.new) (S.Holds source.old) }
    ensures image { S.image source.new ≡ S.image source.old }
{
    let piece = &mut buffer[..count];
    let Ok(()) = source.read_blocks(first, piece) else {
        return Err(PatchedFault::ReadFailed);
    };
    lay_piece(changed, first, piece);
    let Ok(()) = put(writer, piece) else {
        return Err(PatchedFault::WriteFailed);
    };
    Ok(())
}

/// Writes the `len` bytes of an image piece by piece, with as many bytes at once as there is room for.
fn write_pieces<S: BlockSource, W: Write>(
    source: &mut S,
    len: u64,
    changed: &ChangedBlocks,
    buffer: &mut [u8],
    writer: &mut W,
) -> Result<(), PatchedFault>
    requires small { len ≤ 2147483648 }
    requires room { 1048576 ≤ length buffer.old }
    requires within { AreWithin (changes changed.now) (len / 512) }
    ensures written { OnOk result (OfPatched (S.Holds source.new) len changed.now
        (Appends (W.contents writer.old) (W.contents writer.new))) }
    ensures part { OnErr result (OfPatched (S.Holds source.new) len changed.now
        (AppendsFront (W.contents writer.old) (W.contents writer.new))) }
    ensures memory { result ≢ Err PatchedFault.Memory }
    ensures narrows { OfEach (S.Holds source.new) (S.Holds source.old) }
    ensures image { S.image source.new ≡ S.image source.old }
{
    let mut done = 0;
    while done < len {
        let count = (len - done).min(MOST_AT_ONCE);
        let first = (done / 512) as u32;
        write_piece(source, first, count as usize, changed, buffer, writer)?;
        done += count;
    }
    Ok(())
}

/// Room for `count` bytes.
pub(crate) fn buffer_of(alloc: Global, count: usize) -> Result<Vec<u8>, AllocError>
    ensures { IfOk result (λ buffer. length buffer.items ≡ count) }
{
    vec![in alloc; 0; count]
}

/// Writes the `len` bytes of an image with the changed blocks in place of its own, at most 1,048,576 at a time, while they are
/// read. What was written holds for every image consistent with the bytes read. Errors: memory was refused, and nothing was
/// written; a read failed, the image ends before that many bytes, or the writer failed: then only the beginning may have been
/// written.
pub fn write_patched<S: BlockSource, W: Write>(
    alloc: Global,
    source: &mut S,
    len: u64,
    changed: &ChangedBlocks,
    writer: &mut W,
) -> Result<(), PatchedFault>
    requires small { len ≤ 2147483648 }
    requires within { AreWithin (changes changed.now) (len / 512) }
    ensures written { OnOk result (OfPatched (S.Holds source.new) len changed.now
        (Appends (W.contents writer.old) (W.contents writer.new))) }
    ensures part { OnErr result (OfPatched (S.Holds source.new) len changed.now
        (AppendsFront (W.contents writer.old) (W.contents writer.new))) }
    ensures memory { result ≡ Err PatchedFault.Memory → writer.new ≡ writer.old }
    ensures narrows { OfEach (S.Holds source.new) (S.Holds source.old) }
    ensures image { S.image source.new ≡ S.image source.old }
{
    let Ok(mut buffer) = buffer_of(alloc, MOST_AT_ONCE as usize) else {
        return Err(PatchedFault::Memory);
    };
    write_pieces(source, len, changed, &mut buffer, writer)?;
    Ok(())
}

//! The bytes of a volume as a file of its own.
ghost use Rattle.std.specs.Prelude.{◌≡◌, ◌≢◌, ◌*◌, true, Err, IfErr, IfOk, IsOk, OnErr, OnOk, length, string_bytes};
ghost use Rattle.hfs_source.specs.Images.{FailsWhere, OfEach};
ghost use Rattle.hfs_commands.specs.Extracts.{IsNoVolume, WritesAll, WritesAt, WritesFront, WritesFrontAt, IsSized, extracted_text, holds_volume};

use crate::contents::{ReadContents, UnwrittenFault};
use crate::fault::Fault;
use hfs_source::{BlockSource, ByteRange, PlacedBytes, volume_name};
use hfs_texts::{push_line, put};
use std::alloc::{AllocError, Global};
use std::io::Write;

/// How many bytes are read at once.
const PIECE: u64 = 65_536;

/// The fault for a block whose number needs more than 32 bits.
const BEHIND_ALL_BLOCKS: UnwrittenFault = UnwrittenFault::ReadFailed;

/// Room for `count` bytes.
fn buffer_of(alloc: Global, count: usize) -> Result<Vec<u8>, AllocError>
    ensures { IfOk result (λ buffer. length buffer.items ≡ count) }
{
    vec![in alloc; 0; count]
}

/// Writes bytes from a block on: as many as `piece` has room for.
fn write_piece<S: BlockSource, W: Write>(
    source: &mut S,
    first: u32,
    piece: &mut [u8],
    writer: &mut W,
) -> Result<(), UnwrittenFault>
    ensures written { OnOk result (WritesAt (S.Holds source.new) (512 * first) (length piece.old)
        (W.contents writer.old) (W.contents writer.new)) }
    ensures part { OnErr result (WritesFrontAt (S.Holds source.new) (512 * first)
        (length piece.old) (W.contents writer.old) (W.contents writer.new)) }
    ensures memory { result ≢ Err UnwrittenFault.Memory }
    ensures narrows { OfEach (S.Holds source.new) (S.Holds source.old) }
    ensures image { S.image source.new ≡ S.image source.old }
    ensures room { length piece.new ≡ length piece.old }
{
    let Ok(()) = source.read_blocks(first, piece) else {
        return Err(UnwrittenFault::ReadFailed);
    };
    let Ok(()) = put(writer, piece) else {
        return Err(UnwrittenFault::WriteFailed);
    };
    Ok(())
}

/// Writes `len` bytes of an image, in pieces that fill `buffer`.
fn write_pieces<S: BlockSource, W: Write>(
    source: &mut S,
    len: u64,
    buffer: &mut [u8],
    writer: &mut W,
) -> Result<(), UnwrittenFault>
    requires room { length buffer.old ≡ 65536 }
    ensures written { OnOk result (WritesAll (S.Holds source.new) len
        (W.contents writer.old) (W.contents writer.new)) }
    ensures part { OnErr result (WritesFront (S.Holds source.new) len
        (W.contents writer.old) (W.contents writer.new)) }
    ensures memory { result ≢ Err UnwrittenFault.Memory }
    ensures narrows { OfEach (S.Holds source.new) (S.Holds source.old) }
    ensures image { S.image source.new ≡ S.image source.old }
{
    let mut done = 0;
    while done < len {
        let count = (len - done).min(PIECE);
        let Ok(first) = u32::try_from(done / 512) else {
            return Err(BEHIND_ALL_BLOCKS);
        };
        write_piece(source, first, &mut buffer[..count as usize], writer)?;
        done += count;
    }
    Ok(())
}

/// Writes `len` bytes of an image while they are read, at most 65,536 at a time. Errors: memory was refused, and nothing was
/// written; a read failed, the image ends before that many bytes or has more than 2^41, or the writer failed: then only some of
/// the first bytes may have been written.
pub fn write_range<S: BlockSource, W: Write>(
    alloc: Global,
    source: &mut S,
    len: u64,
    writer: &mut W,
) -> Result<(), UnwrittenFault>
    ensures written { OnOk result (WritesAll (S.Holds source.new) len
        (W.contents writer.old) (W.contents writer.new)) }
    ensures part { OnErr result (WritesFront (S.Holds source.new) len
        (W.contents writer.old) (W.contents writer.new)) }
    ensures memory { result ≡ Err UnwrittenFault.Memory → writer.new ≡ writer.old }
    ensures narrows { OfEach (S.Holds source.new) (S.Holds source.old) }
    ensures image { S.image source.new ≡ S.image source.old }
{
    let Ok(mut buffer) = buffer_of(alloc, PIECE as usize) else {
        return Err(UnwrittenFault::Memory);
    };
    write_pieces(source, len, &mut buffer, writer)
}

/// The bytes of an image that is read while they are written.
#[derive(Drop)]
pub struct ImageContents<S: BlockSource> {
    pub alloc: Global,
    /// Where the image is read from.
    pub source: S,
    /// How many bytes it has.
    pub len: u64,
}

impl<S: BlockSource> ReadContents for ImageContents<S> {
    ghost use Rattle.std.specs.Prelude.{⊤, ℕ, List, Option};

    ghost Holds = { λ image. IsSized (S.Holds image.source) image.len };

    ghost settled = { λ _. ⊤ };

    ghost Kept = { Option (List ℕ) × ℕ };

    ghost kept = { λ image. (S.image image.source, image.len) };

    fn write_to<W: Write>(&mut self, writer: &mut W) -> Result<(), UnwrittenFault> {
        write_range(self.alloc, &mut self.source, self.len, writer)
    }

    fn leaves_holes(&self) -> bool {
        false
    }
}

/// Checks that a range of a file holds a volume. Faults: `NoVolumes` if it doesn't; a read failed.
pub fn need_volume<'a, S: PlacedBytes>(
    source: &mut S,
    range: ByteRange,
    path: &'a str,
) -> Result<(), Fault<'a>>
    ensures volume { OnOk result (OfEach (S.Holds source.new)
        (λ file. true ≡ holds_volume range file)) }
    ensures fault { IfErr result (IsNoVolume (S.Holds source.new) range path.entry) }
    ensures held { OfEach (S.Holds source.new) (S.Holds source.old) }
    ensures later { FailsWhere (S.Fails source.new) (S.Fails source.old) }
{
    match volume_name(source, range) {
        Ok(Some(_)) => Ok(()),
        Ok(None) => Err(Fault::NoVolumes),
        Err(fault) => Err(Fault::of_sparse(fault, path)),
    }
}

/// What is printed about a volume that was written as a file of `len` bytes.
#[tactic(auto, unfolding(crate::specs::Extracts::extracted_text))]
pub fn extracted_text(alloc: Global, len: u64) -> Result<String, AllocError>
    ensures { IfOk result (λ text. string_bytes text ≡ extracted_text len) }
{
    let mut text = String::new(alloc);
    text.push_str("extracted\n")?;
    push_line(&mut text, "bytes", len)?;
    Ok(text)
}

//! A range of a file with changed blocks in place of its own.
ghost use Rattle.std.specs.Prelude.{◌≡◌, ◌≢◌, ◌+◌, ◌*◌, ◌/◌, ◌≤◌, ◌<◌, ◌^◌, Err, IfErr, IfOk, OnErr, OnOk, length};
ghost use Rattle.std.specs.Io.KnownBytes.{Appends};
ghost use Rattle.hfs_texts.specs.Writing.{AppendsFront};
ghost use Rattle.hfs_blocks.specs.Layers.{changes, AreWithin};
ghost use Rattle.hfs_source.specs.Sums.{sum_from, sum_of};
ghost use Rattle.hfs_source.specs.Images.{OfEach};
ghost use Rattle.hfs_volume.specs.InFile.{OfPatchedRange, OfRangePiece};

use crate::laying::lay_piece;
use crate::writing::{MOST_AT_ONCE, PatchedFault};
use hfs_source::{ByteRange, PlacedBytes, sum_from};
use hfs_space::ChangedBlocks;
use hfs_texts::put;
use std::io::Write;

/// Reads the bytes of a range from its block `first` on, as many as `piece` has room for, and lays the changed blocks over them.
fn read_piece<S: PlacedBytes>(
    source: &mut S,
    range: ByteRange,
    first: u32,
    changed: &ChangedBlocks,
    piece: &mut [u8],
) -> Result<(), PatchedFault>
    requires few { range.start + range.len < 2 ^ 64 }
    requires inside { 512 * first + length piece.old ≤ range.len }
    requires numbers { first + length piece.old / 512 ≤ 4294967295 }
    ensures read { OnOk result (OfRangePiece (S.Holds source.new) range changed.now first
        (length piece.old) (λ bytes. piece.new ≡ bytes)) }
    ensures fault { IfErr result (λ why. why ≡ PatchedFault.ReadFailed) }
    ensures room { length piece.new ≡ length piece.old }
    ensures narrows { OfEach (S.Holds source.new) (S.Holds source.old) }
{
    let place = range.start + u64::from(first) * 512;
    let Ok(()) = source.read_at(place, piece) else {
        return Err(PatchedFault::ReadFailed);
    };
    lay_piece(changed, first, piece);
    Ok(())
}

/// Writes the bytes of a range from its block `first` on, as many as `piece` has room for, with the changed blocks in place of
/// their own.
fn write_piece<S: PlacedBytes, W: Write>(
    source: &mut S,
    range: ByteRange,
    first: u32,
    changed: &ChangedBlocks,
    piece: &mut [u8],
    writer: &mut W,
) -> Result<(), PatchedFault>
    requires few { range.start + range.len < 2 ^ 64 }
    requires inside { 512 * first + length piece.old ≤ range.len }
    requires numbers { first + length piece.old / 512 ≤ 4294967295 }
    ensures written { OnOk result (OfRangePiece (S.Holds source.new) range changed.now first
        (length piece.old) (Appends (W.contents writer.old) (W.contents writer.new))) }
    ensures part { OnErr result (OfRangePiece (S.Holds source.new) range changed.now first
        (length piece.old) (AppendsFront (W.contents writer.old) (W.contents writer.new))) }
    ensures memory { result ≢ Err PatchedFault.Memory }
    ensures room { length piece.new ≡ length piece.old }
    ensures narrows { OfEach (S.Holds source.new) (S.Holds source.old) }
{
    read_piece(source, range, first, changed, piece)?;
    let Ok(()) = put(writer, piece) else {
        return Err(PatchedFault::WriteFailed);
    };
    Ok(())
}

/// Writes the bytes of a range piece by piece, with the changed blocks in place of its own.
pub(crate) fn write_range<S: PlacedBytes, W: Write>(
    source: &mut S,
    range: ByteRange,
    changed: &ChangedBlocks,
    buffer: &mut [u8],
    writer: &mut W,
) -> Result<(), PatchedFault>
    requires room { 1048576 ≤ length buffer.old }
    requires few { range.start + range.len < 2 ^ 64 }
    requires small { range.len ≤ 2147483648 }
    requires within { AreWithin (changes changed.now) (range.len / 512) }
    ensures written { OnOk result (OfPatchedRange (S.Holds source.new) range changed.now
        (Appends (W.contents writer.old) (W.contents writer.new))) }
    ensures part { OnErr result (OfPatchedRange (S.Holds source.new) range changed.now
        (AppendsFront (W.contents writer.old) (W.contents writer.new))) }
    ensures memory { result ≢ Err PatchedFault.Memory }
    ensures room { length buffer.new ≡ length buffer.old }
    ensures narrows { OfEach (S.Holds source.new) (S.Holds source.old) }
{
    let mut done = 0;
    while done < range.len {
        let count = (range.len - done).min(MOST_AT_ONCE);
        let first = (done / 512) as u32;
        write_piece(
            source,
            range,
            first,
            changed,
            &mut buffer[..count as usize],
            writer,
        )?;
        done += count;
    }
    Ok(())
}

/// The sum continued over the bytes of a range from its block `first` on, as many as `piece` has room for, with the changed
/// blocks in place of their own.
fn sum_piece<S: PlacedBytes>(
    source: &mut S,
    range: ByteRange,
    first: u32,
    changed: &ChangedBlocks,
    piece: &mut [u8],
    sum: u32,
) -> Result<u32, PatchedFault>
    requires few { range.start + range.len < 2 ^ 64 }
    requires inside { 512 * first + length piece.old ≤ range.len }
    requires numbers { first + length piece.old / 512 ≤ 4294967295 }
    ensures sum { IfOk result (λ more. OfRangePiece (S.Holds source.new) range changed.now first
        (length piece.old) (λ bytes. more ≡ sum_from sum bytes)) }
    ensures fault { IfErr result (λ why. why ≡ PatchedFault.ReadFailed) }
    ensures room { length piece.new ≡ length piece.old }
    ensures narrows { OfEach (S.Holds source.new) (S.Holds source.old) }
{
    read_piece(source, range, first, changed, piece)?;
    Ok(sum_from(sum, piece))
}

/// The sum of the bytes of a range, with the changed blocks in place of its own. Error: a read failed, or the file ends before
/// the range does.
pub(crate) fn range_sum<S: PlacedBytes>(
    source: &mut S,
    range: ByteRange,
    changed: &ChangedBlocks,
    buffer: &mut [u8],
) -> Result<u32, PatchedFault>
    requires room { 1048576 ≤ length buffer.old }
    requires few { range.start + range.len < 2 ^ 64 }
    requires small { range.len ≤ 2147483648 }
    requires within { AreWithin (changes changed.now) (range.len / 512) }
    ensures sum { IfOk result (λ sum. OfPatchedRange (S.Holds source.new) range changed.now
        (λ bytes. sum ≡ sum_of bytes)) }
    ensures fault { IfErr result (λ why. why ≡ PatchedFault.ReadFailed) }
    ensures room { length buffer.new ≡ length buffer.old }
    ensures narrows { OfEach (S.Holds source.new) (S.Holds source.old) }
{
    let mut sum = 0;
    let mut done = 0;
    while done < range.len {
        let count = (range.len - done).min(MOST_AT_ONCE);
        let first = (done / 512) as u32;
        sum = sum_piece(
            source,
            range,
            first,
            changed,
            &mut buffer[..count as usize],
            sum,
        )?;
        done += count;
    }
    Ok(sum)
}

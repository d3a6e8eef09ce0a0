//! Writing a file while it is read, with changed blocks in place of those of an image in it.
ghost use Rattle.std.specs.Prelude.{◌≡◌, ◌≢◌, ◌+◌, ◌/◌, ◌≤◌, ◌<◌, ◌^◌, Err, IfSome, OnErr, OnOk, length};
ghost use Rattle.std.specs.Io.KnownBytes.{Appends};
ghost use Rattle.hfs_texts.specs.Writing.{AppendsFront};
ghost use Rattle.hfs_blocks.specs.Layers.{changes, AreWithin};
ghost use Rattle.hfs_source.specs.Images.{OfEach};
ghost use Rattle.hfs_volume.specs.InFile.{sum_place, OfFileWith, OfHead, OfSumHead};

use crate::range::{range_sum, write_range};
use crate::span::write_span;
use crate::writing::{MOST_AT_ONCE, PatchedFault, buffer_of};
use hfs_source::{ByteRange, Container, FoundRange, PlacedBytes};
use hfs_space::ChangedBlocks;
use hfs_texts::put;
use std::alloc::Global;
use std::io::Write;

/// Where an image lies in a file.
#[derive(Clone, Copy, Debug, PartialEq, Eq)]
pub struct ImagePlace {
    /// Its bytes.
    pub range: ByteRange,
    /// Where the sum of these bytes is: the first of its four bytes, which are before the image. `None` if the file has no such
    /// sum.
    pub sum_at: Option<u64>,
}

/// Where the sum of a range's bytes is: for a disk copy, in the header before its data.
pub fn sum_place(found: &FoundRange) -> Option<u64>
    ensures { result ≡ sum_place found.now }
{
    match found.container {
        Container::DiskCopy { .. } => Some(found.range.start.saturating_sub(12)),
        Container::Bare | Container::MacBinary | Container::Partition => None,
        Container::RawBare | Container::RawPartition => None,
    }
}

/// Where a range ends, if it lies within `all` bytes.
fn end_within(range: ByteRange, all: u64) -> Option<u64>
    ensures end { IfSome result (λ end. end ≡ range.start + range.len) }
    ensures within { IfSome result (λ end. end ≤ all) }
{
    let end = range.start.checked_add(range.len)?;
    if end <= all { Some(end) } else { None }
}

/// Writes the bytes of a file before a range, with the new sum of that range in place of the four bytes from `sum_at` on.
fn write_sum_head<S: PlacedBytes, W: Write>(
    source: &mut S,
    range: ByteRange,
    sum_at: u64,
    changed: &ChangedBlocks,
    buffer: &mut [u8],
    writer: &mut W,
) -> Result<(), PatchedFault>
    requires room { 1048576 ≤ length buffer.old }
    requires few { range.start + range.len < 2 ^ 64 }
    requires small { range.len ≤ 2147483648 }
    requires within { AreWithin (changes changed.now) (range.len / 512) }
    requires before { sum_at + 4 ≤ range.start }
    ensures written { OnOk result (OfSumHead (S.Holds source.new) range sum_at changed.now
        (Appends (W.contents writer.old) (W.contents writer.new))) }
    ensures part { OnErr result (OfSumHead (S.Holds source.new) range sum_at changed.now
        (AppendsFront (W.contents writer.old) (W.contents writer.new))) }
    ensures memory { result ≢ Err PatchedFault.Memory }
    ensures room { length buffer.new ≡ length buffer.old }
    ensures narrows { OfEach (S.Holds source.new) (S.Holds source.old) }
{
    let sum = range_sum(source, range, changed, buffer)?;
    write_span(source, 0, sum_at, buffer, writer)?;
    let Ok(()) = put(writer, &sum.to_be_bytes()) else {
        return Err(PatchedFault::WriteFailed);
    };
    let behind = sum_at + 4;
    write_span(source, behind, range.start - behind, buffer, writer)
}

/// Writes the bytes of a file before an image in it, with the image's new sum if it is among them.
fn write_head<S: PlacedBytes, W: Write>(
    source: &mut S,
    place: &ImagePlace,
    changed: &ChangedBlocks,
    buffer: &mut [u8],
    writer: &mut W,
) -> Result<(), PatchedFault>
    requires room { 1048576 ≤ length buffer.old }
    requires few { place.now.range.start + place.now.range.len < 2 ^ 64 }
    requires small { place.now.range.len ≤ 2147483648 }
    requires within { AreWithin (changes changed.now) (place.now.range.len / 512) }
    ensures written { OnOk result (OfHead (S.Holds source.new) place.now changed.now
        (Appends (W.contents writer.old) (W.contents writer.new))) }
    ensures part { OnErr result (OfHead (S.Holds source.new) place.now changed.now
        (AppendsFront (W.contents writer.old) (W.contents writer.new))) }
    ensures memory { result ≢ Err PatchedFault.Memory }
    ensures room { length buffer.new ≡ length buffer.old }
    ensures narrows { OfEach (S.Holds source.new) (S.Holds source.old) }
{
    let range = place.range;
    match place.sum_at {
        None => write_span(source, 0, range.start, buffer, writer),
        Some(sum_at) => {
            if range.start < 4 || range.start - 4 < sum_at {
                return Err(PatchedFault::ReadFailed);
            }
            write_sum_head(source, range, sum_at, changed, buffer, writer)
        }
    }
}

/// Writes a file with the changed blocks in place of those of an image in it, and with the image's new sum, for which the image
/// is read once more; every other byte is the file's own. At most 1,048,576 bytes are held at a time. What was written holds for
/// every file consistent with the bytes read. Errors: memory was refused, and nothing was written; a read failed, the image or
/// its sum doesn't lie in the file, or the writer failed: then only the beginning may have been written.
pub fn write_file_with<S: PlacedBytes, W: Write>(
    alloc: Global,
    source: &mut S,
    place: &ImagePlace,
    changed: &ChangedBlocks,
    writer: &mut W,
) -> Result<(), PatchedFault>
    requires small { place.now.range.len ≤ 2147483648 }
    requires within { AreWithin (changes changed.now) (place.now.range.len / 512) }
    ensures written { OnOk result (OfFileWith (S.Holds source.new) place.now changed.now
        (Appends (W.contents writer.old) (W.contents writer.new))) }
    ensures part { OnErr result (OfFileWith (S.Holds source.new) place.now changed.now
        (AppendsFront (W.contents writer.old) (W.contents writer.new))) }
    ensures memory { result ≡ Err PatchedFault.Memory → writer.new ≡ writer.old }
    ensures narrows { OfEach (S.Holds source.new) (S.Holds source.old) }
{
    let all = source.len();
    let Some(end) = end_within(place.range, all) else {
        return Err(PatchedFault::ReadFailed);
    };
    let Ok(mut buffer) = buffer_of(alloc, MOST_AT_ONCE as usize) else {
        return Err(PatchedFault::Memory);
    };
    write_head(source, place, changed, &mut buffer, writer)?;
    write_range(source, place.range, changed, &mut buffer, writer)?;
    write_span(source, end, all - end, &mut buffer, writer)
}

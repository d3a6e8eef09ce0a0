//! Bytes of a file that are written as they are.
ghost use Rattle.std.specs.Prelude.{◌≡◌, ◌≢◌, ◌+◌, ◌≤◌, ◌<◌, ◌^◌, Err, OnErr, OnOk, length};
ghost use Rattle.hfs_source.specs.Images.{OfEach};
ghost use Rattle.hfs_volume.specs.InFile.{WritesAt, WritesFrontAt};

use crate::writing::{MOST_AT_ONCE, PatchedFault};
use hfs_source::PlacedBytes;
use hfs_texts::put;
use std::io::Write;

/// Writes the bytes of a file from `place` on, as many as `piece` has room for.
fn write_at<S: PlacedBytes, W: Write>(
    source: &mut S,
    place: u64,
    piece: &mut [u8],
    writer: &mut W,
) -> Result<(), PatchedFault>
    ensures written { OnOk result (WritesAt (S.Holds source.new) place (length piece.old)
        (W.contents writer.old) (W.contents writer.new)) }
    ensures part { OnErr result (WritesFrontAt (S.Holds source.new) place (length piece.old)
        (W.contents writer.old) (W.contents writer.new)) }
    ensures memory { result ≢ Err PatchedFault.Memory }
    ensures room { length piece.new ≡ length piece.old }
    ensures narrows { OfEach (S.Holds source.new) (S.Holds source.old) }
{
    let Ok(()) = source.read_at(place, piece) else {
        return Err(PatchedFault::ReadFailed);
    };
    let Ok(()) = put(writer, piece) else {
        return Err(PatchedFault::WriteFailed);
    };
    Ok(())
}

/// Writes `count` bytes of a file from `place` on, piece by piece.
pub(crate) fn write_span<S: PlacedBytes, W: Write>(
    source: &mut S,
    place: u64,
    count: u64,
    buffer: &mut [u8],
    writer: &mut W,
) -> Result<(), PatchedFault>
    requires room { 1048576 ≤ length buffer.old }
    requires few { place + count < 2 ^ 64 }
    ensures written { OnOk result (WritesAt (S.Holds source.new) place count
        (W.contents writer.old) (W.contents writer.new)) }
    ensures part { OnErr result (WritesFrontAt (S.Holds source.new) place count
        (W.contents writer.old) (W.contents writer.new)) }
    ensures memory { result ≢ Err PatchedFault.Memory }
    ensures room { length buffer.new ≡ length buffer.old }
    ensures narrows { OfEach (S.Holds source.new) (S.Holds source.old) }
{
    let mut done = 0;
    while done < count {
        let more = (count - done).min(MOST_AT_ONCE);
        write_at(source, place + done, &mut buffer[..more as usize], writer)?;
        done += more;
    }
    Ok(())
}

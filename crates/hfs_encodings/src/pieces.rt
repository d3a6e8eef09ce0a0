//! Pieces of files.
ghost use Rattle.std.specs.Prelude.{◌+◌, ◌≤◌, OnErr, OnOk, length};
ghost use Rattle.hfs_source.specs.Images.{FailsWhere, HasAt, HasLength, OfEach};
ghost use Rattle.hfs_encodings.specs.Failing.{SomeFail};

use hfs_source::PlacedBytes;
use std::io;

/// Reads bytes of a file of `len` bytes.
pub(crate) fn read_piece<S: PlacedBytes>(
    source: &mut S,
    len: u64,
    place: u64,
    into: &mut [u8],
) -> io::Result<()>
    requires within { place + length into.old ≤ len }
    requires long { OfEach (S.Holds source.old) (HasLength len) }
    ensures read { OnOk result (OfEach (S.Holds source.new) (HasAt place into.new)) }
    ensures held { OfEach (S.Holds source.new) (S.Holds source.old) }
    ensures fails { OnErr result (SomeFail (S.Holds source.new) (S.Fails source.old)) }
    ensures later { FailsWhere (S.Fails source.new) (S.Fails source.old) }
{
    source.read_at(place, into)?;
    Ok(())
}

//! Small pieces of a file.
ghost use Rattle.std.specs.Prelude.{◌≡◌, IfOk};
ghost use Rattle.hfs_fields.specs.Mdb.{bytes_at};
ghost use Rattle.hfs_source.specs.Images.{FailsWhere, OfEach};

use crate::{PlacedBytes, SparseFault};

/// The bytes from `place` on, as many as the array has. Error: the read failed, or the file has fewer.
pub fn piece_at<S: PlacedBytes, const N: usize>(
    source: &mut S,
    place: u64,
) -> Result<[u8; N], SparseFault>
    ensures bytes { IfOk result (λ piece. OfEach (S.Holds source.new)
        (λ file. piece ≡ bytes_at place N file)) }
    ensures held { OfEach (S.Holds source.new) (S.Holds source.old) }
    ensures later { FailsWhere (S.Fails source.new) (S.Fails source.old) }
{
    let mut piece = [0; N];
    match source.read_at(place, &mut piece) {
        Ok(()) => Ok(piece),
        Err(_) => Err(SparseFault::ReadFailed),
    }
}

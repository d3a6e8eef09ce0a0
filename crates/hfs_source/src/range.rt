//! A range of an image, as if it were the image.
ghost use Rattle.std.specs.Prelude.{◌≡◌, ◌+◌, ◌<◌, ◌^◌, IfErr, IfOk, IsOk, OnErr, OnOk, length};
ghost use Rattle.hfs_source.specs.Images.{EndsBefore, FailsInRange, FailsWhere, HasAt, IsRangeOf, OfEach, ReachesTo};

use crate::blocks::BlocksOf;
use crate::placed::PlacedBytes;
use std::io;
use std::io::ErrorKind;

/// A range of an image's bytes, and none beyond it.
#[derive(Drop)]
pub struct RangeBytes<S> {
    /// The bytes that the range lies in.
    pub bytes: S,
    /// The byte where it begins, counted from 0.
    pub start: u64,
    /// How many bytes it has.
    pub len: u64,
    ghost few: { start + len < 2 ^ 64 },
}

impl<S: PlacedBytes> RangeBytes<S> {
    /// The range of `len` bytes from `start` on; or the bytes back, if it doesn't lie in them.
    pub fn new(bytes: S, start: u64, len: u64) -> Result<RangeBytes<S>, S>
        ensures bytes { IfOk result (λ range. range.bytes ≡ bytes) }
        ensures range { IfOk result (λ range. (range.start ≡ start) × (range.len ≡ len)) }
        ensures inside { IfOk result (λ _. OfEach (S.Holds bytes) (ReachesTo (start + len))) }
        ensures refused { IfErr result (λ back. back ≡ bytes) }
        ensures outside { IfErr result (λ _. OfEach (S.Holds bytes) (EndsBefore (start + len))) }
    {
        let all = bytes.len();
        if all < start || all - start < len {
            return Err(bytes);
        }
        Ok(RangeBytes { bytes, start, len })
    }
}

/// The blocks of a range.
pub type RangeBlocks<S> = BlocksOf<RangeBytes<S>>;

/// Reads bytes of the range of `len` bytes from `start` on, beginning at the range's byte `place`, as [`PlacedBytes::read_at`] does
/// of a whole image. Error: the read failed, or the range ends before the room is full.
pub fn read_in_range<S: PlacedBytes>(
    bytes: &mut S,
    start: u64,
    len: u64,
    place: u64,
    into: &mut [u8],
) -> io::Result<()>
    requires { start + len < 2 ^ 64 }
    ensures read { OnOk result (OfEach (IsRangeOf (S.Holds bytes.new) start len) (HasAt place into.new)) }
    ensures held { OfEach (S.Holds bytes.new) (S.Holds bytes.old) }
    ensures fails { OnErr result (FailsInRange (S.Fails bytes.old) start len place (length into.old)) }
    ensures later { FailsWhere (S.Fails bytes.new) (S.Fails bytes.old) }
    ensures nothing { length into.old ≡ 0 → IsOk result }
{
    if into.is_empty() {
        return Ok(());
    }
    if len < place || len - place < into.len() as u64 {
        return Err(io::Error::from(ErrorKind::UnexpectedEof));
    }
    bytes.read_at(start + place, into)
}

impl<S: PlacedBytes> PlacedBytes for RangeBytes<S> {
    ghost Holds = { λ range. IsRangeOf (S.Holds range.bytes) range.start range.len };

    ghost Fails = { λ range. FailsInRange (S.Fails range.bytes) range.start range.len };

    fn len(&self) -> u64 {
        self.len
    }

    fn read_at(&mut self, place: u64, into: &mut [u8]) -> io::Result<()> {
        read_in_range(&mut self.bytes, self.start, self.len, place, into)
    }
}

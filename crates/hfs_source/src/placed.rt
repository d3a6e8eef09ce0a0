//! Bytes that are read by position.
ghost use Rattle.std.specs.Prelude.{◌≡◌, List, ℕ, IsOk, OnErr, OnOk, length};
ghost use Rattle.hfs_source.specs.Images.{FailsWhere, HasAt, HasLength, OfEach};

use std::io;

/// An image whose bytes can be read from any place on; each read may fail. What is read from it holds for every image consistent
/// with the bytes read: over memory that is one image, over a file each that the file may be.
pub trait PlacedBytes {
    /// The images consistent with the bytes read so far.
    ghost Holds: { Self → List ℕ → Type 0 };

    /// Where a read may fail: from which place on, and for how many bytes.
    ghost Fails: { Self → ℕ → ℕ → Type 0 };

    /// How many bytes there are.
    fn len(&self) -> u64
        ensures { OfEach (Holds self.now) (HasLength result) };

    /// Reads bytes, starting at `place`, counted from 0: as many as `into` has room for. Error: the read failed, or the bytes end
    /// before the room is full; what `into` holds then isn't specified. If there is no room, nothing is read, and that is no
    /// error at any place.
    fn read_at(&mut self, place: u64, into: &mut [u8]) -> io::Result<()>
        ensures read { OnOk result (OfEach (Holds self.new) (HasAt place into.new)) }
        ensures held { OfEach (Holds self.new) (Holds self.old) }
        ensures fails { OnErr result (Fails self.old place (length into.old)) }
        ensures later { FailsWhere (Fails self.new) (Fails self.old) }
        ensures nothing { length into.old ≡ 0 → IsOk result };
}

//! Where blocks are read from.
ghost use Rattle.std.specs.Prelude.{◌≡◌, ◌*◌, List, ℕ, Option, Some, OnOk};
ghost use Rattle.hfs_source.specs.Images.{HasAt, OfEach};
ghost use Rattle.hfs_source.specs.Sparse.{HoldsFrom};

use std::io;

/// An image whose blocks can be read in any order; each read may fail.
pub trait BlockSource {
    /// The bytes of the whole image, if they are known. For a file on disk they aren't.
    ghost image: { Self → Option (List ℕ) };

    /// The images consistent with the bytes read so far: over memory that is one, over a file each that it may be.
    ghost Holds: { Self → List ℕ → Type 0 };

    /// Reads blocks from number `first` on, counted from 0, as many as `into` has room for, in one read. Error: the read failed,
    /// or the image ends before the room is full; what `into` holds then isn't specified.
    fn read_blocks(&mut self, first: u32, into: &mut [u8]) -> io::Result<()>
        ensures read { OnOk result (HoldsFrom (image self.old) (512 * first) into.new) }
        ensures image { image self.new ≡ image self.old }
        ensures seen { OnOk result (OfEach (Holds self.new) (HasAt (512 * first) into.new)) }
        ensures narrows { OfEach (Holds self.new) (Holds self.old) };

    /// If the bytes are known, their image is one of those consistent with the bytes read.
    ghost known_holds: { (source : Self) (bytes : List ℕ) → image source ≡ Some bytes → Holds source bytes };
}

//! Blocks that are read by their numbers.
ghost use Rattle.std.specs.Prelude.{◌≡◌, ◌*◌, List, ℕ, OnErr, OnOk, length};
ghost use Rattle.hfs_source.specs.Images.{FailsWhere, HasAt, HasLength, OfEach};

use crate::placed::PlacedBytes;
use std::io;

/// An image whose blocks of 512 bytes can be read in any order; each read may fail. What is read from it holds for every image
/// consistent with the bytes read.
pub trait PlacedBlocks {
    /// The images consistent with the bytes read so far.
    ghost Holds: { Self → List ℕ → Type 0 };

    /// Where a read may fail: from which byte on, and for how many bytes.
    ghost Fails: { Self → ℕ → ℕ → Type 0 };

    /// How many bytes there are.
    fn len(&self) -> u64
        ensures { OfEach (Holds self.now) (HasLength result) };

    /// Reads blocks, starting at number `first`, counted from 0: as many bytes as `into` has room for. Error: the read failed, or
    /// the image ends before the room is full; what `into` holds then isn't specified.
    fn read_blocks(&mut self, first: u32, into: &mut [u8]) -> io::Result<()>
        ensures read { OnOk result (OfEach (Holds self.new) (HasAt (512 * first) into.new)) }
        ensures held { OfEach (Holds self.new) (Holds self.old) }
        ensures fails { OnErr result (Fails self.old (512 * first) (length into.old)) }
        ensures later { FailsWhere (Fails self.new) (Fails self.old) };
}

/// The blocks of bytes that are read by position.
#[derive(Drop)]
pub struct BlocksOf<S> {
    /// The bytes.
    pub bytes: S,
}

impl<S: PlacedBytes> PlacedBlocks for BlocksOf<S> {
    ghost Holds = { λ blocks. S.Holds blocks.bytes };

    ghost Fails = { λ blocks. S.Fails blocks.bytes };

    fn len(&self) -> u64 {
        self.bytes.len()
    }

    fn read_blocks(&mut self, first: u32, into: &mut [u8]) -> io::Result<()> {
        self.bytes.read_at(u64::from(first) * 512, into)
    }
}

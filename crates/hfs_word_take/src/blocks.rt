//! What an image's bytes are read from, in blocks.
ghost use Rattle.std.specs.Prelude.{◌*◌, ℕ, List, OnOk};
ghost use Rattle.hfs_source.specs.Images.{HasAt, OfEach};

use hfs_image::SeenImage;
use hfs_source::{PlacedBlocks, SeenBlocks};
use std::io;

/// What an image's bytes are read from, in blocks.
pub trait ImageBlocks {
    /// The images consistent with the bytes read so far.
    ghost Holds: { Self → List ℕ → Type 0 };

    /// Reads blocks from number `first` on, as many as `into` has room for, in one read. Error: the read failed, or the image
    /// ends before the room is full.
    fn read_from(&mut self, first: u32, into: &mut [u8]) -> io::Result<()>
        ensures seen { OnOk result (OfEach (Holds self.new) (HasAt (512 * first) into.new)) }
        ensures narrows { OfEach (Holds self.new) (Holds self.old) };
}

impl<S: PlacedBlocks> ImageBlocks for SeenImage<S> {
    ghost Holds = { λ image. S.Holds image };

    fn read_from(&mut self, first: u32, into: &mut [u8]) -> io::Result<()> {
        self.read_blocks(first, into)
    }
}

impl<S: PlacedBlocks> ImageBlocks for SeenBlocks<S> {
    ghost Holds = { λ seen. S.Holds seen.blocks };

    fn read_from(&mut self, first: u32, into: &mut [u8]) -> io::Result<()> {
        self.blocks.read_blocks(first, into)
    }
}

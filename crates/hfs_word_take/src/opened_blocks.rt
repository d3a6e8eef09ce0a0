//! The blocks of an opened image.
ghost use Rattle.std.specs.Prelude.{None};
ghost use Rattle.std.proofs.lemmas.Option.{none-some};

use hfs_image::SeenImage;
use hfs_source::{BlockSource, PlacedBlocks};
use std::io;

/// The blocks of an opened image, of which forks are read.
#[derive(Drop)]
pub struct OpenedBlocks<S: PlacedBlocks> {
    /// The image.
    pub image: SeenImage<S>,
}

impl<S: PlacedBlocks> BlockSource for OpenedBlocks<S> {
    ghost image = { λ _. None };

    ghost Holds = { λ blocks. S.Holds blocks.image };

    fn read_blocks(&mut self, first: u32, into: &mut [u8]) -> io::Result<()> {
        self.image.read_blocks(first, into)
    }

    ghost known_holds = { λ blocks bytes e. absurd (none-some bytes e) };
}

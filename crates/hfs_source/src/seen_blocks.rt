//! Blocks that are known by what was read of them.
ghost use Rattle.std.specs.Prelude.{None};
ghost use Rattle.std.proofs.lemmas.Option.{none-some};

use crate::PlacedBlocks;
use crate::source::BlockSource;
use std::io;

/// Blocks that are read by their numbers; nothing is known of them but what was read.
#[derive(Drop)]
pub struct SeenBlocks<S> {
    /// What they are read from.
    pub blocks: S,
}

impl<S: PlacedBlocks> BlockSource for SeenBlocks<S> {
    ghost image = { λ _. None };

    ghost Holds = { λ seen. S.Holds seen.blocks };

    fn read_blocks(&mut self, first: u32, into: &mut [u8]) -> io::Result<()> {
        self.blocks.read_blocks(first, into)
    }

    ghost known_holds = { λ seen bytes e. absurd (none-some bytes e) };
}

//! The blocks that were read as those of a volume.
ghost use Rattle.std.specs.Prelude.{◌≡◌, ◌<◌, ◌^◌};
ghost use Rattle.hfs_blocks.specs.Layers.{changes, length-over, AreWhole};
ghost use Rattle.hfs_source.specs.Sparse.{zero_block, length-zero_block, sparse};

use crate::sparse_blocks::SparseBlocks;
use hfs_blocks::Blocks;

/// `count` blocks, some of which were read, with zeros in place of the others.
#[derive(Drop)]
pub struct SparseVolume<'a> {
    /// Those that were read.
    pub read: &'a SparseBlocks,
    /// How many there are.
    pub count: u32,
    ghost few: { count < 2 ^ 32 },
    ghost whole: { AreWhole (changes read.now) },
}

impl Blocks for SparseVolume<'_> {
    ghost blocks = { λ s. sparse s.read.now };

    ghost total = { λ s. s.count };

    fn count(&self) -> u32 {
        self.count
    }

    fn block(&self, n: u32, into: &mut [u8; 512]) {
        self.read.copy_block(n, into);
    }

    ghost few = { λ s. s.few };

    ghost whole = { λ s n within. length-over (changes s.read.now) (λ _. zero_block) n s.whole length-zero_block };
}

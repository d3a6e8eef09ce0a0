//! Blocks with a patch laid over them.

ghost use Rattle.std.specs.Prelude.{◌≡◌, ◌<◌, length};
ghost use Rattle.hfs_blocks.specs.Layers.{changes, over, AreWhole, length-over};

use crate::blocks::Blocks;
use crate::patch::Patch;

/// The blocks of a patch, and below it those of a volume.
#[derive(Drop)]
pub struct Patched<'a, B: Blocks> {
    /// The blocks of the volume.
    pub below: &'a B,
    /// The blocks in place of those.
    pub patch: &'a Patch,
    ghost whole: { AreWhole (changes patch.now) },
}

impl<B: Blocks> Blocks for Patched<'_, B> {
    ghost blocks = { λ s. over (changes s.patch.now) (B.blocks s.below.now) };

    ghost total = { λ s. B.total s.below.now };

    fn count(&self) -> u32 {
        self.below.count()
    }

    fn block(&self, n: u32, into: &mut [u8; 512]) {
        match self.patch.get(n) {
            Some(block) => *into = *block,
            None => self.below.block(n, into),
        }
    }

    ghost whole = { λ s n within. length-over (changes s.patch.now) (B.blocks s.below.now) n s.whole (B.whole s.below.now n within) };

    ghost few = { λ s. B.few s.below.now };
}

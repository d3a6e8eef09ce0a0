//! Blocks of zeros over the blocks of an image.

ghost use Rattle.std.specs.Prelude.{◌≡◌};
ghost use Rattle.hfs_blocks.specs.Layers.{over, length-over};
ghost use Rattle.hfs_space.specs.Flags.{is_flagged, flagged, AreWhole-flagged};

use hfs_blocks::Blocks;

/// Whether the flag of block `n` is set. A block without a flag counts as one whose flag isn't set.
pub(crate) fn is_flagged(flags: &[bool], n: u32) -> bool
    ensures { result ≡ is_flagged flags.now n }
{
    match flags.get(n as usize) {
        Some(flag) => *flag,
        None => false,
    }
}

/// Blocks of zeros where a flag is set, and elsewhere the blocks of an image.
#[derive(Drop)]
pub(crate) struct Flagged<'a, B: Blocks> {
    /// The blocks of the image.
    pub below: &'a B,
    /// A flag for each block, or for none.
    pub flags: &'a [bool],
}

impl<B: Blocks> Blocks for Flagged<'_, B> {
    ghost blocks = { λ s. over (flagged s.flags.now) (B.blocks s.below.now) };

    ghost total = { λ s. B.total s.below.now };

    fn count(&self) -> u32 {
        self.below.count()
    }

    fn block(&self, n: u32, into: &mut [u8; 512]) {
        if is_flagged(self.flags, n) {
            *into = [0; 512];
        } else {
            self.below.block(n, into);
        }
    }

    ghost whole = { λ s n within. length-over (flagged s.flags.now) (B.blocks s.below.now) n (AreWhole-flagged s.flags.now) (B.whole s.below.now n within) };

    ghost few = { λ s. B.few s.below.now };
}

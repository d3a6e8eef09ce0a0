//! What trees and tables need of the blocks below them.

ghost use Rattle.std.specs.Prelude.{◌≡◌, ℕ, ◌<◌, ◌^◌, List, length};

/// Logical blocks of 512 bytes, by their numbers from 0 on: those of a whole image, or of one with changes laid over it.
pub trait Blocks {
    ghost blocks: { Self → ℕ → List ℕ };

    ghost total: { Self → ℕ };

    /// How many blocks there are.
    fn count(&self) -> u32
        ensures { result ≡ total self.now };

    /// Copies block `n` into 512 bytes.
    fn block(&self, n: u32, into: &mut [u8; 512])
        requires { n < total self.now }
        ensures { into.new ≡ blocks self.now n };

    // There are fewer than 2^32 blocks, of 512 bytes each.
    ghost few: { (s : Self) → total s < 2 ^ 32 };

    ghost whole: { (s : Self) (n : ℕ) → n < total s → length (blocks s n) ≡ 512 };
}

/// Blocks that are borrowed.
impl<B: Blocks> Blocks for &B {
    ghost blocks = { λ s. B.blocks s.now };

    ghost total = { λ s. B.total s.now };

    fn count(&self) -> u32 {
        (**self).count()
    }

    fn block(&self, n: u32, into: &mut [u8; 512]) {
        (**self).block(n, into);
    }

    ghost few = { λ s. B.few s.now };

    ghost whole = { λ s n within. B.whole s.now n within };
}

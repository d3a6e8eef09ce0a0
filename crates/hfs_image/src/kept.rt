//! A range of a file that stays the same range, whatever is read of it.
ghost use Rattle.std.specs.Prelude.{◌≡◌, List, ℕ, ⊤};
ghost use Rattle.hfs_image.specs.Kept.{IsKept};
ghost use Rattle.hfs_source.specs.Images.{FailsInRange, IsRangeOf};

use hfs_source::{BlocksOf, PlacedBytes, RangeBlocks, RangeBytes, SeenBlocks, read_in_range};
use std::io;
use std::marker::{Brand, Model, PhantomData};

/// Where a range lies, and the files that it may lie in, both picked for proofs only: those of a range before anything is read
/// of it.
pub trait PickedRange {
    ghost start: { ℕ };

    ghost len: { ℕ };

    ghost Holds: { List ℕ → Type 0 };
}

impl PickedRange for Brand {
    ghost start = { 0 };

    ghost len = { 0 };

    ghost Holds = { λ _. ⊤ };
}

/// A range that is known to be the picked one. The images of a range say that some file has it, but not where: so code that
/// reads any blocks could hand back another range. Of this type, it has only the one that it was given.
#[derive(Drop)]
pub struct KeptRange<S: PlacedBytes, K: PickedRange> {
    range: RangeBytes<S>,
    of: PhantomData<K>,
}

impl<S: PlacedBytes, K: PickedRange> Model for KeptRange<S, K> {
    ghost use Rattle.hfs_image.specs.Kept.{IsKept};
    ghost use Rattle.hfs_source.specs.declared.range.RangeBytes.{RangeBytes};

    ghost Value = { RangeBytes S };

    ghost view = { λ o. o.range };

    ghost invariant = { λ o. IsKept S.Holds K.start K.len K.Holds o.range };
}

impl<S: PlacedBytes, K: PickedRange> KeptRange<S, K> {
    /// The blocks of a range, which is the picked one.
    pub fn blocks(of: SeenBlocks<RangeBlocks<S>>) -> SeenBlocks<BlocksOf<KeptRange<S, K>>>
        requires { IsKept S.Holds K.start K.len K.Holds of.blocks.bytes }
        ensures { result.blocks.bytes ≡ of.blocks.bytes }
    {
        let bytes = KeptRange {
            range: of.blocks.bytes,
            of: PhantomData,
        };
        SeenBlocks {
            blocks: BlocksOf { bytes },
        }
    }

    /// The blocks of the range itself, which is the picked one still.
    pub fn into_blocks(kept: SeenBlocks<BlocksOf<KeptRange<S, K>>>) -> SeenBlocks<RangeBlocks<S>>
        ensures range { result.blocks.bytes ≡ kept.blocks.bytes }
        ensures kept { IsKept S.Holds K.start K.len K.Holds result.blocks.bytes }
    {
        let KeptRange { range, of: _ } = kept.blocks.bytes;
        SeenBlocks {
            blocks: BlocksOf { bytes: range },
        }
    }
}

impl<S: PlacedBytes, K: PickedRange> PlacedBytes for KeptRange<S, K> {
    ghost Holds = { λ kept. IsRangeOf (S.Holds kept.bytes) kept.start kept.len };

    ghost Fails = { λ kept. FailsInRange (S.Fails kept.bytes) kept.start kept.len };

    fn len(&self) -> u64 {
        self.range.len
    }

    fn read_at(&mut self, place: u64, into: &mut [u8]) -> io::Result<()> {
        let (start, len) = (self.range.start, self.range.len);
        read_in_range(&mut self.range.bytes, start, len, place, into)
    }
}

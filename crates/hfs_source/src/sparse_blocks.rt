//! The blocks of an image that were read.
ghost use Rattle.std.specs.Prelude.{◌≡◌, ℕ, ◌+◌, ◌<◌, ◌≤◌, [], length, is_some, OnOk, IsSome};
ghost use Rattle.std.specs.List.{range_with_len};
ghost use Rattle.hfs_blocks.specs.Layers.{changes, numbers, KeepsWithin};
ghost use Rattle.hfs_source.specs.Held.{HasNone};
ghost use Rattle.hfs_source.specs.Seen.{SeesMore};
ghost use Rattle.hfs_source.specs.Sparse.{sparse, HasEach, HasGrown, StaysOf};

use crate::fetching::SparseFault;
use crate::held::Held;
use crate::source::BlockSource;
use crate::volume::SparseVolume;
use indexmap::IndexMap;
use std::alloc::Global;
use std::marker::Model;

/// The blocks of an image that were read, by their numbers. A block of zeros only takes room for its number.
#[derive(Drop)]
pub struct SparseBlocks {
    held: Held,
}

impl Model for SparseBlocks {
    ghost use Rattle.hfs_blocks.specs.Layers.{Numbered};
    ghost use Rattle.hfs_source.specs.Held.{AreHeld, held_blocks};

    ghost Value = { Numbered };

    ghost view = { λ s. held_blocks s.held };

    ghost invariant = { λ s. AreHeld s.held };
}

impl SparseBlocks {
    /// No blocks. Takes no memory.
    pub fn new(alloc: Global) -> SparseBlocks
        ensures { result ≡ [] }
    {
        SparseBlocks {
            held: Held {
                places: IndexMap::new(alloc),
                bytes: Vec::new(alloc),
                count: 0,
            },
        }
    }

    /// How many blocks were read.
    pub fn len(&self) -> usize
        ensures { result ≡ length self.now }
    {
        self.held.places.len()
    }

    /// Whether block `n` was read.
    pub fn has(&self, n: u32) -> bool
        ensures { result ≡ is_some (changes self.now n) }
    {
        self.held.places.contains_key(&n)
    }

    /// Copies block `n`, or zeros if it wasn't read.
    pub fn copy_block(&self, n: u32, into: &mut [u8; 512])
        ensures { into.new ≡ sparse self.now n }
    {
        self.held.copy_block(n, into);
    }

    /// These blocks as those of a volume of `count` blocks, with zeros in place of the others. Takes no memory.
    pub fn volume(&self, count: u32) -> SparseVolume<'_>
        ensures read { result.read.now ≡ self.now }
        ensures count { result.count ≡ count }
    {
        // Once a proof has seen the blocks, it knows that they have 512 bytes.
        let _held = &self.held;
        SparseVolume { read: self, count }
    }

    /// How many of the `most` blocks from number `first` on weren't read, up to the first that was.
    pub(crate) fn unread(&self, first: u32, most: u32) -> u32
        requires { first + most ≤ 4294967296 }
        ensures few { result ≤ most }
        ensures none { HasNone first result self.now }
        ensures read { result < most → IsSome (changes self.now (first + result)) }
    {
        for i in 0..most {
            if self.has(first + i) {
                return i;
            }
        }
        most
    }

    /// Reads `count` blocks from number `first` on, none of which was read before, in one read. At an error, what was read before
    /// stays.
    pub(crate) fn read_range<S: BlockSource>(
        &mut self,
        source: &mut S,
        first: u32,
        count: u32,
    ) -> Result<(), SparseFault>
        requires few { count ≤ 128 }
        requires numbers { first + count ≤ 4294967296 }
        requires none { HasNone first count self.old }
        ensures has { OnOk result (HasEach self.new (range_with_len first count)) }
        ensures grown { HasGrown self.old self.new }
        ensures stays { StaysOf (S.image source.old) self.old self.new }
        ensures within { (total : ℕ) → first + count ≤ total → KeepsWithin self.old self.new total }
        ensures image { S.image source.new ≡ S.image source.old }
        ensures sees { SeesMore (S.Holds source.old) (S.Holds source.new) self.old self.new }
    {
        self.held.read_in(source, first, count)
    }
}

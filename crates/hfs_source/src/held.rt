//! Blocks that are held by their numbers; those of zeros take no room.
ghost use Rattle.std.specs.Prelude.{◌≡◌, ℕ, ◌+◌, ◌*◌, ◌<◌, ◌≤◌, true, None, length, IfSome, OnOk, OnErr};
ghost use Rattle.std.specs.List.{range_with_len};
ghost use Rattle.hfs_blocks.specs.Blocks.{block_at};
ghost use Rattle.hfs_blocks.specs.Layers.{changes, with_change, KeepsWithin};
ghost use Rattle.hfs_source.specs.Sparse.{zero_block, sparse, HasEach, HasGrown, StaysOf};
ghost use Rattle.hfs_source.specs.Images.{OfEach};
ghost use Rattle.hfs_source.specs.Seen.{SeesBlocks, SeesMore};
ghost use Rattle.hfs_source.specs.Held.{AreHeld, HasNone, HasSame, HoldsBlocks, PutsInAll, PutsInOnly, SameBehind, held_block, held_blocks};

use crate::fetching::SparseFault;
use crate::source::BlockSource;
use indexmap::IndexMap;
use std::alloc::AllocError;

/// Blocks by their numbers.
#[derive(Drop)]
pub(crate) struct Held {
    /// Where each block is among the bytes, counted in blocks; None for a block of zeros.
    pub(crate) places: IndexMap<u32, Option<usize>>,
    /// The bytes of the other blocks, and then what was read and isn't held yet.
    pub(crate) bytes: Vec<u8>,
    /// How many blocks of the bytes are held.
    pub(crate) count: usize,
}

/// Whether a block has only zeros.
#[tactic(auto, unfolding(crate::specs::Sparse::zero_block))]
fn is_zeros(block: &[u8]) -> bool
    ensures { result ≡ true → block.now ≡ zero_block }
{
    block == [0; 512].as_slice()
}

/// Copies the block at place `from` to place `to`, which is not after it.
fn move_block(bytes: &mut Vec<u8>, from: usize, to: usize)
    requires before { to ≤ from }
    requires there { 512 * from + 512 ≤ length bytes.old.items }
    ensures moved { block_at bytes.new.items to ≡ block_at bytes.old.items from }
    ensures before { (k : ℕ) → k < to → block_at bytes.new.items k ≡ block_at bytes.old.items k }
    ensures behind { SameBehind (from + 1) bytes.old.items bytes.new.items }
    ensures len { length bytes.new.items ≡ length bytes.old.items }
{
    if to < from {
        bytes.copy_within(from * 512..from * 512 + 512, to * 512);
    }
}

impl Held {
    /// Adds block `n`, whose bytes are at place `from`, after the blocks that are held.
    fn put_in(&mut self, n: u32, from: usize) -> Result<(), AllocError>
        requires held { AreHeld self.old }
        requires behind { self.old.count ≤ from }
        requires there { 512 * from + 512 ≤ length self.old.bytes.items }
        ensures put { OnOk result (changes (held_blocks self.new)
            ≡ with_change (changes (held_blocks self.old)) n (block_at self.old.bytes.items from)) }
        ensures kept { OnErr result (held_blocks self.new ≡ held_blocks self.old) }
        ensures held { AreHeld self.new }
        ensures count { self.new.count ≤ from + 1 }
        ensures behind { SameBehind (from + 1) self.old.bytes.items self.new.bytes.items }
        ensures len { length self.new.bytes.items ≡ length self.old.bytes.items }
    {
        if is_zeros(&self.bytes[from * 512..from * 512 + 512]) {
            self.places.insert(n, None)?;
            return Ok(());
        }
        self.places.insert(n, Some(self.count))?;
        move_block(&mut self.bytes, from, self.count);
        self.count += 1;
        Ok(())
    }

    /// Adds `count` blocks from number `first` on, whose bytes are right after the blocks that are held.
    fn put_in_all(&mut self, first: u32, count: u32) -> Result<(), AllocError>
        requires held { AreHeld self.old }
        requires there { 512 * (self.old.count + count) ≤ length self.old.bytes.items }
        requires numbers { first + count ≤ 4294967296 }
        requires none { HasNone first count (held_blocks self.old) }
        ensures all { OnOk result (PutsInAll first count self.old.count self.old.bytes.items
            (held_blocks self.new)) }
        ensures only { PutsInOnly first count self.old.count self.old.bytes.items
            (held_blocks self.old) (held_blocks self.new) }
        ensures held { AreHeld self.new }
    {
        let start = self.count;
        for i in 0..count {
            self.put_in(first + i, start + i as usize)?;
        }
        Ok(())
    }

    /// Reads `count` blocks from number `first` on, in one read, to where they will be when they are added: right after those
    /// that are held.
    fn read_behind<S: BlockSource>(
        &mut self,
        source: &mut S,
        first: u32,
        count: u32,
    ) -> Result<(), SparseFault>
        requires held { AreHeld self.old }
        requires few { count ≤ 128 }
        ensures same { HasSame (held_blocks self.old) (held_blocks self.new) }
        ensures held { AreHeld self.new }
        ensures there { OnOk result
            (512 * (self.new.count + count) ≤ length self.new.bytes.items) }
        ensures read { OnOk result (HoldsBlocks (S.image source.old) first count self.new.count
            self.new.bytes.items) }
        ensures image { S.image source.new ≡ S.image source.old }
        ensures seen { OnOk result (SeesBlocks (S.Holds source.new) first count self.new.count
            self.new.bytes.items) }
        ensures narrows { OfEach (S.Holds source.new) (S.Holds source.old) }
    {
        let from = self.count * 512;
        let to = from + count as usize * 512;
        let Ok(()) = self.bytes.resize(to, 0) else {
            return Err(SparseFault::Memory);
        };
        match source.read_blocks(first, &mut self.bytes[from..to]) {
            Ok(()) => Ok(()),
            Err(_) => Err(SparseFault::ReadFailed),
        }
    }

    /// Drops the bytes that are not of a block that is held.
    fn trim(&mut self)
        requires { AreHeld self.old }
        ensures same { HasSame (held_blocks self.old) (held_blocks self.new) }
        ensures held { AreHeld self.new }
    {
        self.bytes.truncate(self.count * 512);
    }

    /// Reads `count` blocks from number `first` on, none of which is held, in one read, and adds them.
    pub(crate) fn read_in<S: BlockSource>(
        &mut self,
        source: &mut S,
        first: u32,
        count: u32,
    ) -> Result<(), SparseFault>
        requires held { AreHeld self.old }
        requires few { count ≤ 128 }
        requires numbers { first + count ≤ 4294967296 }
        requires none { HasNone first count (held_blocks self.old) }
        ensures has { OnOk result
            (HasEach (held_blocks self.new) (range_with_len first count)) }
        ensures grown { HasGrown (held_blocks self.old) (held_blocks self.new) }
        ensures stays { StaysOf (S.image source.old) (held_blocks self.old)
            (held_blocks self.new) }
        ensures within { (total : ℕ) → first + count ≤ total
            → KeepsWithin (held_blocks self.old) (held_blocks self.new) total }
        ensures held { AreHeld self.new }
        ensures image { S.image source.new ≡ S.image source.old }
        ensures sees { SeesMore (S.Holds source.old) (S.Holds source.new) (held_blocks self.old)
            (held_blocks self.new) }
    {
        self.read_behind(source, first, count)?;
        let put_in = self.put_in_all(first, count);
        self.trim();
        let Ok(()) = put_in else {
            return Err(SparseFault::Memory);
        };
        Ok(())
    }

    /// Copies block `n`, or zeros if there is none.
    pub(crate) fn copy_block(&self, n: u32, into: &mut [u8; 512])
        requires { AreHeld self.now }
        ensures { into.new ≡ sparse (held_blocks self.now) n }
    {
        match self.places.get(&n) {
            Some(place) => copy_held(&self.bytes, *place, into),
            None => *into = [0; 512],
        }
    }
}

/// Copies the block at a place, or one of zeros.
#[tactic(auto, unfolding(crate::specs::Sparse::zero_block))]
fn copy_held(bytes: &[u8], place: Option<usize>, into: &mut [u8; 512])
    requires { IfSome place (λ p. 512 * p + 512 ≤ length bytes.now) }
    ensures { into.new ≡ held_block bytes.now place }
{
    match place {
        Some(place) => into.copy_from_slice(&bytes[place * 512..place * 512 + 512]),
        None => *into = [0; 512],
    }
}

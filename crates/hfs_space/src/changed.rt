//! The changed blocks of an image.

ghost use Rattle.std.specs.Prelude.{◌≡◌, ◌<◌, [], length, IfOk, OnOk, OnErr, nat_eq};
ghost use Rattle.std.specs.List.{IsDistinct};
ghost use Rattle.std.specs.Option.{option_copied};
ghost use Rattle.hfs_blocks.specs.Layers.{changes, numbers, over, with_change, AreWhole, AreWithin, KeepsWithin, ShowsLaid, ShowsSame, length-over};
ghost use Rattle.hfs_space.specs.Zeros.{AreAmong};
ghost use Rattle.hfs_space.specs.Changed.{laid_changes, HasBlocksOf};

use crate::counting::count_all;
use crate::flagged::is_flagged;
use crate::flags::{flag_one, flags_wanted, more_flags};
use crate::laying::lay_change;
use crate::putting::is_blank;
use hfs_blocks::{Blocks, Patch, Run};
use std::alloc::{AllocError, Global};
use std::marker::Model;

/// The changed blocks of an image, to be laid over it: blocks that are kept, and blocks of zeros, each of which takes a flag and
/// no bytes. Contracts see all of them by their numbers.
#[derive(Drop)]
pub struct ChangedBlocks {
    kept: Patch,
    /// A flag for each block of the image that is zeros, unless it is kept; none if no block is zeros.
    flags: Vec<bool>,
    /// What a block of zeros is.
    blank: [u8; 512],
}

impl Model for ChangedBlocks {
    ghost use Rattle.std.specs.Prelude.{◌≡◌};
    ghost use Rattle.hfs_blocks.specs.Layers.{Numbered};
    ghost use Rattle.hfs_space.specs.Changed.{all_blocks, blank_block};

    ghost Value = { Numbered };

    ghost view = { λ c. all_blocks c.kept c.flags.items };

    ghost invariant = { λ c. c.blank ≡ blank_block };
}

impl ChangedBlocks {
    /// No block is changed. Takes no memory.
    pub fn new(alloc: Global) -> ChangedBlocks
        ensures { result ≡ [] }
    {
        ChangedBlocks {
            kept: Patch::new(alloc),
            flags: Vec::new(alloc),
            blank: [0; 512],
        }
    }

    /// The blocks of a patch, each of them kept. Takes no memory.
    pub fn of_patch(alloc: Global, patch: Patch) -> ChangedBlocks
        ensures { result ≡ patch }
    {
        ChangedBlocks {
            kept: patch,
            flags: Vec::new(alloc),
            blank: [0; 512],
        }
    }

    /// How many blocks there are, each counted once.
    pub fn len(&self) -> usize
        requires { AreWithin (changes self.now) 4294967296 }
        ensures len { result ≡ length (numbers self.now) }
        ensures different { IsDistinct nat_eq (numbers self.now) }
    {
        count_all(&self.kept, &self.flags)
    }

    /// Block `n`, if it is changed. Takes no memory.
    pub fn get(&self, n: u32) -> Option<&[u8; 512]>
        ensures value { option_copied result ≡ changes self.now n }
        ensures whole { AreWhole (changes self.now) }
    {
        match self.kept.get(n) {
            Some(block) => Some(block),
            None => {
                if is_flagged(&self.flags, n) {
                    Some(&self.blank)
                } else {
                    None
                }
            }
        }
    }

    /// Puts block `n` among the changed ones, in place of the one that may be there: a block of zeros as a flag, unless it is
    /// kept already. At an error the changed blocks are as they were.
    pub fn put(&mut self, n: u32, block: &[u8; 512]) -> Result<(), AllocError>
        requires { n < 4294967295 }
        ensures written { OnOk result
            (changes self.new ≡ with_change (changes self.old) n block.now) }
        ensures kept { OnErr result (changes self.new ≡ changes self.old) }
    {
        if self.kept.get(n).is_none() && is_blank(block) {
            return flag_one(&mut self.flags, n);
        }
        self.kept.put(n, block)
    }

    /// The changed blocks over those of an image. Takes no memory.
    pub fn over<'a, B: Blocks>(&'a self, below: &'a B) -> ChangedOver<'a, B>
        ensures changed { result.changed.now ≡ self.now }
        ensures below { result.below.now ≡ below.now }
    {
        // Once the kept blocks lie over the image, a proof knows that they have 512 bytes. No block is looked up for it.
        let _kept = self.kept.over(below);
        ChangedOver {
            below,
            changed: self,
        }
    }

    /// Lays a patch, with the blocks of these runs as zeros below it, over the changed blocks of an image with these blocks. At
    /// an error more blocks may be changed, but over those of `below` everything is as it was.
    pub fn lay<B: Blocks>(
        &mut self,
        alloc: Global,
        below: &B,
        patch: &Patch,
        zeros: &[Run],
    ) -> Result<(), AllocError>
        requires patch { AreWithin (changes patch.now) (B.total below.now) }
        requires zeros { AreAmong zeros.now (B.total below.now) }
        ensures laid { OnOk result (ShowsLaid (B.blocks below.now)
            (changes self.old) (laid_changes patch.now zeros.now) (changes self.new)) }
        ensures joined { OnOk result (HasBlocksOf
            (changes self.old) (laid_changes patch.now zeros.now) (changes self.new)) }
        ensures kept { OnErr result
            (ShowsSame (B.blocks below.now) (changes self.old) (changes self.new)) }
        ensures within { KeepsWithin self.old self.new (B.total below.now) }
    {
        more_flags(&mut self.flags, flags_wanted(zeros, below.count()))?;
        lay_change(alloc, below, &mut self.kept, &mut self.flags, patch, zeros)
    }
}

/// Changed blocks, and below them those of an image.
#[derive(Drop)]
pub struct ChangedOver<'a, B: Blocks> {
    /// The blocks of the image.
    pub below: &'a B,
    /// The blocks in place of those.
    pub changed: &'a ChangedBlocks,
    ghost whole: { AreWhole (changes changed.now) },
}

impl<B: Blocks> Blocks for ChangedOver<'_, B> {
    ghost blocks = { λ s. over (changes s.changed.now) (B.blocks s.below.now) };

    ghost total = { λ s. B.total s.below.now };

    fn count(&self) -> u32 {
        self.below.count()
    }

    fn block(&self, n: u32, into: &mut [u8; 512]) {
        match self.changed.get(n) {
            Some(block) => *into = *block,
            None => self.below.block(n, into),
        }
    }

    ghost whole = { λ s n within. length-over (changes s.changed.now) (B.blocks s.below.now) n s.whole (B.whole s.below.now n within) };

    ghost few = { λ s. B.few s.below.now };
}

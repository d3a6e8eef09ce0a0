//! Changed blocks.

ghost use Rattle.std.specs.Prelude.{◌≡◌, ◌+◌, ◌^◌, ◌≤◌, [], length, false, OnOk, OnErr, nat_eq};
ghost use Rattle.std.specs.List.{IsDistinct};
ghost use Rattle.std.specs.Option.{option_copied};
ghost use Rattle.hfs_blocks.specs.Layers.{changes, numbers, with_change, AreWhole, AreWithin, HasJoined, ShowsSame, IsLaid, KeepsWithin};
ghost use Rattle.hfs_blocks.specs.Tables.{HasLaid, HasNoneOf};

use crate::blocks::Blocks;
use crate::patched::Patched;
use crate::places::{add_row, add_rows, is_any_placed};
use crate::table::{add_rows_for, append, lay_all, lay_run, make_room, place_in_table};
use indexmap::IndexMap;
use std::alloc::{AllocError, Global};
use std::marker::Model;
use std::slice;

/// Blocks of 512 bytes by number, to be laid over the blocks of a volume: the edits of one call.
#[derive(Drop)]
pub struct Patch {
    /// The numbers of the blocks, in the order in which they came.
    numbers: Vec<u32>,
    /// The blocks, in the same order.
    blocks: Vec<[u8; 512]>,
    /// Where they stand.
    places: IndexMap<u32, [u32; 16]>,
}

impl Model for Patch {
    ghost use Rattle.std.specs.Prelude.{zip};
    ghost use Rattle.hfs_blocks.specs.Layers.{Numbered};
    ghost use Rattle.hfs_blocks.specs.Tables.{IsTable};

    ghost Value = { Numbered };

    ghost view = { λ p. zip p.numbers.items p.blocks.items };

    ghost invariant = { λ p. IsTable p.numbers.items p.blocks.items p.places.entries };
}

impl Patch {
    /// A patch without blocks. Takes no memory.
    pub fn new(alloc: Global) -> Patch
        ensures { result ≡ [] }
    {
        Patch {
            numbers: Vec::new(alloc),
            blocks: Vec::new(alloc),
            places: IndexMap::new(alloc),
        }
    }

    /// How many blocks there are, each counted once.
    pub fn len(&self) -> usize
        ensures len { result ≡ length (numbers self.now) }
        ensures different { IsDistinct nat_eq (numbers self.now) }
    {
        self.numbers.len()
    }

    /// Block `n`, if the patch has it. Takes no memory.
    pub fn get(&self, n: u32) -> Option<&[u8; 512]>
        ensures value { option_copied result ≡ changes self.now n }
        ensures whole { AreWhole (changes self.now) }
    {
        let place = place_in_table(&self.numbers, &self.places, n);
        if place == 0 {
            return None;
        }
        Some(&self.blocks[place as usize - 1])
    }

    /// The patch over the blocks of a volume. Takes no memory.
    pub fn over<'a, B: Blocks>(&'a self, below: &'a B) -> Patched<'a, B>
        ensures patch { result.patch.now ≡ self.now }
        ensures below { result.below.now ≡ below.now }
    {
        // Once a proof has seen the blocks, it knows that they have 512 bytes.
        let _blocks = &self.blocks;
        Patched { below, patch: self }
    }

    /// Puts block `n` into the patch, in place of the one that it may have. At an error the patch is as it was.
    pub fn put(&mut self, n: u32, block: &[u8; 512]) -> Result<(), AllocError>
        ensures written { OnOk result
            (changes self.new ≡ with_change (changes self.old) n block.now) }
        ensures kept { OnErr result (self.new ≡ self.old) }
    {
        let place = place_in_table(&self.numbers, &self.places, n);
        if place > 0 {
            self.blocks[place as usize - 1] = *block;
            return Ok(());
        }
        make_room(&mut self.numbers, &mut self.blocks, 1)?;
        add_row(&mut self.places, n)?;
        append(
            &mut self.numbers,
            &mut self.blocks,
            &mut self.places,
            n,
            slice::from_ref(block),
        );
        Ok(())
    }

    /// Puts blocks that follow one another into the patch, the first as block `first`, in place of those that it has. At an error
    /// the patch is as it was.
    pub fn put_run(&mut self, first: u32, run: &[[u8; 512]]) -> Result<(), AllocError>
        requires { first + length run.now ≤ 2 ^ 32 }
        ensures written { OnOk result (HasLaid first (length run.now) run.now
            (changes self.old) (changes self.new)) }
        ensures kept { OnErr result (self.new ≡ self.old) }
        ensures whole { AreWhole (changes self.new) }
        ensures were_whole { AreWhole (changes self.old) }
    {
        make_room(&mut self.numbers, &mut self.blocks, run.len())?;
        add_rows(&mut self.places, first, run.len())?;
        lay_run(
            &mut self.numbers,
            &mut self.blocks,
            &mut self.places,
            first,
            run,
        );
        Ok(())
    }

    /// Whether the patch may have one of `count` blocks from `first` on. Takes no memory.
    pub fn may_have(&self, first: u32, count: u32) -> bool
        requires { first + count ≤ 2 ^ 32 }
        ensures { result ≡ false → HasNoneOf first count (changes self.now) }
    {
        is_any_placed(&self.places, first, count as usize)
    }

    /// Lays another patch over this one, which lies over the blocks of `below`. Room for all of its blocks is made first, so that
    /// what follows takes no memory: at an error this patch is as it was.
    pub fn lay<B: Blocks>(&mut self, below: &B, patch: &Patch) -> Result<(), AllocError>
        requires { AreWithin (changes patch.now) (B.total below.now) }
        ensures laid { OnOk result (IsLaid (B.blocks below.now) self.old patch.now self.new) }
        ensures kept { OnErr result
            (ShowsSame (B.blocks below.now) (changes self.old) (changes self.new)) }
        ensures joined { OnOk result
            (HasJoined (changes self.old) (changes patch.now) (changes self.new)) }
        ensures within { KeepsWithin self.old self.new (B.total below.now) }
    {
        make_room(&mut self.numbers, &mut self.blocks, patch.numbers.len())?;
        add_rows_for(&mut self.places, &patch.numbers)?;
        lay_all(
            &mut self.numbers,
            &mut self.blocks,
            &mut self.places,
            &patch.numbers,
            &patch.blocks,
        );
        Ok(())
    }
}

//! A file's fork, read from its beginning on.

ghost use Rattle.std.specs.Prelude.{◌≡◌, ◌%◌, length, take, drop, IfOk, OnOk, OnErr};
ghost use Rattle.hfs_blocks.specs.Blocks.{block_count};
ghost use Rattle.hfs_space.specs.Forks.{HasArea};
ghost use Rattle.hfs_space.specs.TreeKeys.{IsExtentsTree};
ghost use Rattle.hfs_volume.specs.ForkParts.{IsForkOf, GivesFork};

use crate::image::ImageBlocks;
use hfs_btree::Nodes;
use hfs_fields::{Extent, ForkRecord, Mdb};
use hfs_model::Reply;
use hfs_space::{ForkKind, ForkPlace, fork_extents, read_on};
use std::alloc::{AllocError, Global};
use std::marker::Model;

/// A file's fork, read from its beginning on. Its extents are collected once. Contracts see the bytes that are left to read.
#[derive(Drop)]
pub struct OpenFork<'a> {
    blocks: ImageBlocks<'a>,
    mdb: &'a Mdb,
    extents: Vec<Extent>,
    /// Where in the extents the next byte is.
    place: ForkPlace,
    /// How many bytes are left.
    left: u32,
}

impl<'a> Model for OpenFork<'a> {
    ghost use Rattle.std.specs.Prelude.{ℕ, List};
    ghost use Rattle.hfs_volume.specs.LeftBytes.{left_bytes, IsOpenFork};

    ghost Value = { List ℕ };

    ghost view = { λ f. left_bytes f.blocks.image.now f.mdb.now f.extents.items f.place f.left };

    ghost invariant = { λ f. IsOpenFork f.blocks.image.now f.mdb.now f.extents.items f.place f.left };
}

/// An open fork, or the reply that refuses it.
#[derive(Drop)]
pub enum Opened<'a> {
    /// The fork, of which nothing has been read yet.
    Fork(OpenFork<'a>),
    /// What a call that reads the fork would answer.
    Refused(Reply),
}

impl<'a> OpenFork<'a> {
    /// A file's fork with all its bytes left to read. `tree` is the extents tree, `fork` what the file's record says about the
    /// fork. Fails only when out of memory.
    pub(crate) fn new<N: Nodes>(
        alloc: Global,
        blocks: ImageBlocks<'a>,
        mdb: &'a Mdb,
        tree: &N,
        file: u32,
        kind: ForkKind,
        fork: &ForkRecord,
    ) -> Result<OpenFork<'a>, AllocError>
        requires area { HasArea mdb.now (block_count blocks.image.now.current) }
        requires whole_size { mdb.now.allocation_block_size % 512 ≡ 0 }
        requires tree { IsExtentsTree (N.nodes tree.now) }
        requires fork { IsForkOf mdb.now (N.nodes tree.now) file kind fork.now }
        ensures { GivesFork blocks.entry mdb.now (N.nodes tree.now) file kind fork.now result }
    {
        let extents = fork_extents(alloc, tree, file, kind, &fork.extents)?;
        Ok(OpenFork {
            blocks,
            mdb,
            extents,
            place: ForkPlace {
                extent: 0,
                passed: 0,
            },
            left: fork.length,
        })
    }
}

impl OpenFork<'_> {
    /// How many bytes are left to read.
    pub fn len(&self) -> u32
        ensures { result ≡ length self.now }
    {
        self.left
    }

    /// Reads the next `count` bytes, or as many as are left. Fails only when out of memory, and then reads none.
    pub fn read(&mut self, alloc: Global, count: u32) -> Result<Vec<u8>, AllocError>
        ensures bytes { IfOk result (λ bytes. bytes.items ≡ take count self.old) }
        ensures left { OnOk result (self.new ≡ drop count self.old) }
        ensures same { OnErr result (self.new ≡ self.old) }
    {
        let count = count.min(self.left);
        let (bytes, place) = read_on(
            alloc,
            &self.blocks,
            self.mdb,
            &self.extents,
            self.place,
            count,
        )?;
        self.place = place;
        self.left -= count;
        Ok(bytes)
    }
}

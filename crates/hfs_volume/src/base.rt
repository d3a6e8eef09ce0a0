//! The bytes of an image, or the blocks that were read from one: they never change, and their readers share them.

ghost use Rattle.std.specs.Prelude.{◌≡◌, ◌/◌, ◌<◌, ◌≤◌, ◌^◌, length, IfOk, IfErr, IfSome, IfNone};
ghost use Rattle.hfs_blocks.specs.Blocks.{block_at, block_count, length-block_at, few-block_count};
ghost use Rattle.hfs_blocks.specs.Layers.{changes, AreWithin};
ghost use Rattle.hfs_space.specs.Results.{GivesItems};
ghost use Rattle.hfs_check.specs.Sound.{IsSound};
ghost use Rattle.hfs_volume.specs.BaseBytes.{EndsInZeros};
ghost use Rattle.hfs_volume.specs.Image.{copy_of};
ghost use Rattle.hfs_volume.specs.Sharing.{part_of_extents, AreExtentsIn};

use crate::extent_bytes::read_extents;
use hfs_blocks::Blocks;
use hfs_check::read_mdb;
use hfs_fields::Extent;
use hfs_source::SparseBlocks;
use std::alloc::{AllocError, AllocFailed, Global};
use std::marker::Model;
use std::sync::Arc;

/// How a base holds its bytes.
#[derive(Drop)]
pub(crate) enum BaseKind {
    /// All of them.
    Whole(Arc<Vec<u8>>),
    /// The blocks that were read from an image of this many bytes; the others are zeros.
    Read(Arc<SparseBlocks>, u64),
}

/// The bytes of an image as it was opened, at most 2,147,483,648 of them: all of them, or zeros except for the blocks that were
/// read. Contracts see the list.
#[derive(Drop)]
pub struct Base {
    kind: BaseKind,
}

impl Model for Base {
    ghost use Rattle.std.specs.Prelude.{ℕ, List};
    ghost use Rattle.hfs_volume.specs.BaseBytes.{base_bytes, IsBase};

    ghost Value = { List ℕ };

    ghost view = { λ b. base_bytes b.kind };

    ghost invariant = { λ b. IsBase b.kind };
}

impl Base {
    /// The base of these bytes. When out of memory, they are handed back.
    pub fn new(alloc: Global, bytes: Vec<u8>) -> Result<Base, AllocFailed<Vec<u8>>>
        requires { length bytes.items ≤ 2147483648 }
        ensures bytes { IfOk result (λ base. base ≡ bytes.items) }
        ensures value_returned { IfErr result (λ failed. failed.value ≡ bytes) }
    {
        let bytes = Arc::new(alloc, bytes)?;
        Ok(Base {
            kind: BaseKind::Whole(bytes),
        })
    }

    /// The base of the blocks that were read from an image of `len` bytes, with zeros in place of the others. When out of memory,
    /// the blocks are handed back.
    pub fn of_read(
        alloc: Global,
        read: SparseBlocks,
        len: u64,
    ) -> Result<Base, AllocFailed<SparseBlocks>>
        requires small { len ≤ 2147483648 }
        requires within { AreWithin (changes read) (len / 512) }
        ensures bytes { IfOk result (λ base. base ≡ copy_of read len) }
        ensures value_returned { IfErr result (λ failed. failed.value ≡ read) }
    {
        let read = Arc::new(alloc, read)?;
        Ok(Base {
            kind: BaseKind::Read(read, len),
        })
    }

    /// All bytes, if they are in memory. None for a base of blocks that were read; its bytes after the last whole block are
    /// zeros.
    pub fn bytes(&self) -> Option<&[u8]>
        ensures bytes { IfSome result (λ bytes. bytes.now ≡ self.now) }
        ensures zeros { IfNone result (EndsInZeros self.now) }
        ensures small { length self.now ≤ 2147483648 }
    {
        match &self.kind {
            BaseKind::Whole(bytes) => Some(bytes.as_slice()),
            BaseKind::Read(_read, _len) => None,
        }
    }

    /// How many bytes there are.
    pub fn len(&self) -> u64
        ensures len { result ≡ length self.now }
        ensures small { length self.now ≤ 2147483648 }
    {
        match &self.kind {
            BaseKind::Whole(bytes) => bytes.len() as u64,
            BaseKind::Read(_read, len) => *len,
        }
    }

    /// The whole blocks.
    pub fn blocks(&self) -> BaseBlocks<'_>
        ensures { result.base.now ≡ self.now }
    {
        // Once the bytes are counted, a proof knows how many there can be.
        let _len = self.len();
        BaseBlocks { base: self }
    }

    /// Copies block `n` into 512 bytes.
    fn copy_block(&self, n: u32, into: &mut [u8; 512])
        requires { n < block_count self.now }
        ensures { into.new ≡ block_at self.now n }
    {
        match &self.kind {
            BaseKind::Whole(bytes) => copy_of_bytes(bytes.as_slice(), n, into),
            BaseKind::Read(read, _len) => read.copy_block(n, into),
        }
    }

    /// The bytes of these extents' allocation blocks, one extent after the other: `count` of them from `offset` on, or as many as
    /// there are. The master directory block says where the allocation blocks lie. Fails only when out of memory.
    pub fn read(
        &self,
        alloc: Global,
        extents: &[Extent],
        offset: u32,
        count: u32,
    ) -> Result<Vec<u8>, AllocError>
        requires sound { IsSound self.now }
        requires extents { AreExtentsIn self.now extents.now }
        ensures { GivesItems (part_of_extents self.now extents.now offset count) result }
    {
        let blocks = self.blocks();
        let mdb = read_mdb(&blocks);
        read_extents(alloc, &blocks, &mdb, extents, offset, count)
    }

    /// Another handle to the same bytes, without copying them. Fails only when out of memory.
    pub fn share(&self) -> Result<Base, AllocError>
        ensures { IfOk result (λ base. base ≡ self.now) }
    {
        match &self.kind {
            BaseKind::Whole(bytes) => {
                let bytes = bytes.clone()?;
                Ok(Base {
                    kind: BaseKind::Whole(bytes),
                })
            }
            BaseKind::Read(read, len) => {
                let read = read.clone()?;
                Ok(Base {
                    kind: BaseKind::Read(read, *len),
                })
            }
        }
    }
}

/// Copies block `n` of some bytes into 512 bytes.
fn copy_of_bytes(bytes: &[u8], n: u32, into: &mut [u8; 512])
    requires { n < block_count bytes.now }
    ensures { into.new ≡ block_at bytes.now n }
{
    let from = n as usize * 512;
    into.copy_from_slice(&bytes[from..from + 512]);
}

/// The whole blocks of a base.
#[derive(Drop)]
pub struct BaseBlocks<'a> {
    /// The base.
    pub base: &'a Base,
    ghost limit: { length base.now ≤ 2 ^ 32 },
}

impl Blocks for BaseBlocks<'_> {
    ghost blocks = { λ s. block_at s.base.now };

    ghost total = { λ s. block_count s.base.now };

    fn count(&self) -> u32 {
        (self.base.len() / 512) as u32
    }

    fn block(&self, n: u32, into: &mut [u8; 512]) {
        self.base.copy_block(n, into);
    }

    ghost few = { λ s. few-block_count s.base.now s.limit };

    ghost whole = { λ s n within. length-block_at s.base.now n within };
}

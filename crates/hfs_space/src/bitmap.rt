//! The volume bitmap.

ghost use Rattle.std.specs.Prelude.{◌≡◌, ◌≢◌, ℕ, ◌+◌, ◌/◌, ◌%◌, ◌<◌, ◌≤◌, ◌^◌, length, OnOk};
ghost use Rattle.hfs_blocks.specs.Layers.{KeepsWithin};
ghost use Rattle.hfs_space.specs.Bitmap as spec;
ghost use Rattle.hfs_space.specs.Results.{GivesItems};

use crate::bits::{clear_bits, clear_in, is_marked};
use hfs_blocks::{Blocks, Patch};
use std::alloc::{AllocError, Global};

/// How many bits a block of the bitmap has.
const BITS: u32 = 4096;

/// The volume bitmap: one bit for each allocation block, set if the block is in use. The most significant bit of the first byte
/// is allocation block 0.
///
/// Source: Inside Macintosh: Files, chapter 2, 'Volume bitmap'.
#[derive(Drop)]
pub struct Bitmap<'a, B: Blocks> {
    /// The blocks of the volume.
    pub blocks: &'a B,
    /// drVBMSt: the logical block where the bitmap begins.
    pub start: u16,
    /// drNmAlBlks: how many allocation blocks the volume has.
    pub count: u16,
    ghost within: { start + spec.bitmap_len count ≤ B.total blocks.now },
}

impl<B: Blocks> Bitmap<'_, B> {
    /// Whether an allocation block is marked as in use. Takes no memory.
    pub fn is_used(&self, block: u16) -> bool
        requires { block < self.now.count }
        ensures { result ≡ spec.is_used (B.blocks self.now.blocks.now) self.now.start block }
    {
        let block = u32::from(block);
        let mut bytes = [0; 512];
        self.blocks
            .block(u32::from(self.start) + block / BITS, &mut bytes);
        is_marked(&bytes, (block % BITS) as usize)
    }

    /// Makes `bytes` those that have an allocation block's bit. They are read if it is the first bit of a block.
    fn turn_to(&self, block: u16, bytes: &mut [u8; 512])
        requires within { block < self.now.count }
        requires before { block % 4096 ≢ 0
            → bytes.old ≡ B.blocks self.now.blocks.now (self.now.start + block / 4096) }
        ensures { bytes.new ≡ B.blocks self.now.blocks.now (self.now.start + block / 4096) }
    {
        let block = u32::from(block);
        if block % BITS == 0 {
            self.blocks
                .block(u32::from(self.start) + block / BITS, bytes);
        }
    }

    /// For each allocation block, whether it is marked as in use. Reads each block of the bitmap once. Fails only when out of
    /// memory.
    pub fn marks(&self, alloc: Global) -> Result<Vec<bool>, AllocError>
        ensures { GivesItems (spec.marks (B.blocks self.now.blocks.now) self.now.start self.now.count)
            result }
    {
        let mut marks = Vec::with_capacity(alloc, usize::from(self.count))?;
        let mut bytes = [0; 512];
        for block in 0..self.count {
            self.turn_to(block, &mut bytes);
            marks.push(is_marked(&bytes, usize::from(block) % 4096))?;
        }
        Ok(marks)
    }

    /// How many allocation blocks are not marked as in use. Takes no memory.
    pub fn free_count(&self) -> u32
        ensures { result ≡ spec.clear_count
            (B.blocks self.now.blocks.now) self.now.start self.now.count }
    {
        let count = u32::from(self.count);
        let mut bytes = [0; 512];
        let mut free = 0;
        for i in 0..count.div_ceil(BITS) {
            self.blocks.block(u32::from(self.start) + i, &mut bytes);
            let bits = BITS.min(count - i * BITS);
            free += clear_in(&bytes, bits as usize);
        }
        free
    }

    /// Clears the bits of `count` allocation blocks from `first` on, in the volume's blocks with the patch over them. The blocks
    /// of the bitmap that have these bits are in the patch afterwards. When out of memory, some of the bits may still be set; no
    /// other bit and no other block has changed. The patch only gets blocks of the bitmap, which are within the volume.
    pub fn release(&self, patch: &mut Patch, first: u16, count: u16) -> Result<(), AllocError>
        requires { first + count ≤ self.now.count }
        ensures cleared { OnOk result
            (spec.AreClearIn patch.new (B.blocks self.now.blocks.now) self.now.start first count) }
        ensures others { spec.KeepsOthersIn patch.old patch.new
            (B.blocks self.now.blocks.now) self.now.start first count }
        ensures within { KeepsWithin patch.old patch.new (B.total self.now.blocks.now) }
    {
        let first = u32::from(first);
        let end = first + u32::from(count);
        let mut bytes = [0; 512];
        for i in first / BITS..end.div_ceil(BITS) {
            let n = u32::from(self.start) + i;
            patch.over(self.blocks).block(n, &mut bytes);
            let from = first.max(i * BITS) - i * BITS;
            let to = end.min((i + 1) * BITS) - i * BITS;
            clear_bits(&mut bytes, from as usize, to as usize);
            patch.put(n, &bytes)?;
        }
        Ok(())
    }
}

//! What a repair of an image writes and reports.

ghost use Rattle.std.specs.Prelude.{◌≡◌, ◌≤◌, IfOk};
ghost use Rattle.hfs_repair.specs.Fixes.{AreFixes};
ghost use Rattle.hfs_repair.specs.Puts.{AreInBlocks, IsMendedBy, puts_of};
ghost use Rattle.hfs_repair.specs.Repair.{wrong_in};
ghost use Rattle.hfs_repair.specs.Wrong as spec;

use crate::byte_put::BytePut;
use crate::exchanging::byte_puts;
use crate::fix_list::fixes;
use crate::fixed::Fix;
use crate::wrong::{wrong_in_blocks, wrong_numbers};
use hfs_blocks::Blocks;
use std::alloc::{AllocError, Global};

/// What a repair of an image writes and reports.
#[derive(Drop)]
pub struct Mending {
    /// The bytes that it writes. With them, `exchange` turns the image into the repaired image.
    pub puts: Vec<BytePut>,
    /// The numbers that are wrong, each once, in the order of `FixPlace`.
    pub fixes: Vec<Fix>,
}

impl Mending {
    /// What a repair of an image writes and reports: the counts that are wrong, if everything checked before them is right;
    /// otherwise nothing. A count that is too large for its field stays. The image isn't changed, and is read a fixed number of
    /// times. Fails only when out of memory.
    ///
    /// Source: Inside Macintosh: Files, chapter 2, 'Data Organization on Volumes'; docs/CHECKS.md has the ten numbers.
    pub fn of(alloc: Global, image: &[u8]) -> Result<Mending, AllocError>
        ensures written { IfOk result (λ mending. IsMendedBy image.now mending.puts.items) }
        ensures told { IfOk result (λ mending. AreFixes (wrong_in image.now) mending.fixes.items) }
    {
        let wrong = wrong_numbers(alloc, image)?;
        let puts = byte_puts(alloc, &wrong)?;
        let fixes = fixes(alloc, &wrong)?;
        Ok(Mending { puts, fixes })
    }

    /// As [`Mending::of`], for the blocks of an image whose length is right.
    pub fn of_blocks<B: Blocks>(alloc: Global, blocks: &B) -> Result<Mending, AllocError>
        requires { 3 ≤ B.total blocks.now }
        ensures written { IfOk result (λ mending. mending.puts.items
            ≡ puts_of (spec.wrong_in_blocks (B.total blocks.now) (B.blocks blocks.now))) }
        ensures within { IfOk result (λ mending. AreInBlocks (B.total blocks.now)
            mending.puts.items) }
        ensures told { IfOk result (λ mending. AreFixes
            (spec.wrong_in_blocks (B.total blocks.now) (B.blocks blocks.now))
            mending.fixes.items) }
    {
        let wrong = wrong_in_blocks(alloc, blocks)?;
        let puts = byte_puts(alloc, &wrong)?;
        let fixes = fixes(alloc, &wrong)?;
        Ok(Mending { puts, fixes })
    }
}

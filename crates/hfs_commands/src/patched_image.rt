//! An image with changed blocks laid over it, as the contents of a file.
ghost use Rattle.std.specs.Prelude.{◌≤◌, ◌/◌};
ghost use Rattle.hfs_blocks.specs.Layers.{changes, AreWithin};
ghost use Rattle.hfs_commands.specs.Images.{IsPatchedOf};

use crate::contents::{ReadContents, UnwrittenFault};
use hfs_source::{BlockSource, Watched};
use hfs_space::ChangedBlocks;
use hfs_volume::write_patched;
use std::alloc::Global;
use std::io::Write;

/// The bytes of an image that is read while they are written, with changed blocks in place of its own.
#[derive(Drop)]
pub struct PatchedImage<S> {
    pub alloc: Global,
    /// Where the image is read from.
    pub source: S,
    /// How many bytes it has, at most 2,147,483,648.
    pub len: u64,
    /// The changed blocks.
    pub patch: ChangedBlocks,
    ghost small: { len ≤ 2147483648 },
    ghost within: { AreWithin (changes patch) (len / 512) },
}

impl<S: BlockSource + Watched> ReadContents for PatchedImage<S> {
    ghost use Rattle.std.specs.Prelude.{ℕ, List, Option};
    ghost use Rattle.hfs_blocks.specs.Layers.{Numbered};

    ghost Holds = { λ image. IsPatchedOf (S.Holds image.source) image.len image.patch };

    ghost settled = { λ image. S.settled image.source };

    ghost Kept = { Option (List ℕ) × ℕ × Numbered };

    ghost kept = { λ image. (S.image image.source, image.len, image.patch) };

    fn write_to<W: Write>(&mut self, writer: &mut W) -> Result<(), UnwrittenFault> {
        write_patched(self.alloc, &mut self.source, self.len, &self.patch, writer)?;
        match self.source.look_again() {
            Ok(()) => Ok(()),
            Err(_) => Err(UnwrittenFault::ReadFailed),
        }
    }

    fn leaves_holes(&self) -> bool {
        true
    }
}

//! The blocks of a whole image.

ghost use Rattle.std.specs.Prelude.{◌≤◌, ◌^◌, length};
ghost use Rattle.hfs_blocks.specs.Blocks.{block_at, block_count, length-block_at, few-block_count};

use crate::blocks::Blocks;

/// A whole image as bytes. What follows its last whole block of 512 bytes belongs to no block.
#[derive(Clone, Copy)]
pub struct ImageBytes<'a> {
    /// The image's bytes, at most 4,294,967,296 of them.
    pub bytes: &'a [u8],
    ghost limit: { length bytes.now ≤ 2 ^ 32 },
}

impl Blocks for ImageBytes<'_> {
    ghost blocks = { λ s. block_at s.bytes.now };

    ghost total = { λ s. block_count s.bytes.now };

    fn count(&self) -> u32 {
        (self.bytes.len() / 512) as u32
    }

    fn block(&self, n: u32, into: &mut [u8; 512]) {
        let from = n as usize * 512;
        let to = from + 512;
        into.copy_from_slice(&self.bytes[from..to]);
    }

    ghost few = { λ s. few-block_count s.bytes.now s.limit };

    ghost whole = { λ s n within. length-block_at s.bytes.now n within };
}

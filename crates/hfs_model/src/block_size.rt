//! How many bytes an allocation block has.
ghost use Rattle.std.specs.Prelude.{◌≡◌, ◌<◌, ◌≤◌, if◌then◌else◌, Some, None};
ghost use Rattle.hfs_model.specs.Forks.{is_block_size, blocks, physical_length};

use std::marker::Model;

/// How many bytes each allocation block of a volume has (drAlBlkSiz), from 1 to 2,147,483,648. Contracts see the number.
#[derive(Clone, Copy)]
pub struct BlockSize {
    bytes: u32,
}

impl Model for BlockSize {
    ghost use Rattle.std.specs.Prelude.{ℕ, ◌<◌, ◌≤◌, refl};

    ghost Value = { ℕ };

    ghost view = { λ a. a.bytes };

    ghost invariant = { λ a. (0 < a.bytes) × (a.bytes ≤ 2147483648) };

    ghost inverse = { λ n. record { bytes = n } };

    ghost inverse_ok = { λ a h. refl };
}

impl BlockSize {
    /// A block of `bytes` bytes; None for 0 bytes, and for more than 2,147,483,648.
    pub fn new(bytes: u32) -> Option<Self>
        ensures { result ≡ (if is_block_size bytes then Some bytes else None) }
    {
        if bytes >= 1 && bytes <= 2_147_483_648 {
            Some(BlockSize { bytes })
        } else {
            None
        }
    }

    /// How many blocks `length` bytes take.
    pub fn blocks(self, length: u32) -> u32
        ensures { result ≡ blocks self length }
    {
        length.div_ceil(self.bytes)
    }

    /// How many bytes those blocks have.
    pub fn physical_length(self, length: u32) -> u64
        ensures { result ≡ physical_length self length }
    {
        u64::from(self.blocks(length)) * u64::from(self.bytes)
    }
}

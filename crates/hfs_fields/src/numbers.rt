//! Numbers and bytes at their places in a block or a record. A number's highest byte comes first.
ghost use Rattle.std.specs.Prelude.{◌≡◌, ◌+◌, ◌^◌, ◌<◌, ◌≤◌, length};
ghost use Rattle.byteorder.specs.Endian.{big_bytes};
ghost use Rattle.hfs_fields.specs.Numbers.{number_at};
ghost use Rattle.hfs_fields.specs.Puts.{IsPut};

use byteorder::{BigEndian, ByteOrder};

/// The number in the two bytes from `at`, counted from 0.
#[tactic(auto, unfolding(crate::specs::Numbers::number_at))]
pub fn u16_at(bytes: &[u8], at: usize) -> u16
    requires { at + 2 ≤ length bytes.now }
    ensures { result ≡ number_at at 2 bytes.now }
{
    BigEndian::read_u16(&bytes[at..])
}

/// The number in the four bytes from `at`, counted from 0.
#[tactic(auto, unfolding(crate::specs::Numbers::number_at))]
pub fn u32_at(bytes: &[u8], at: usize) -> u32
    requires { at + 4 ≤ length bytes.now }
    ensures { result ≡ number_at at 4 bytes.now }
{
    BigEndian::read_u32(&bytes[at..])
}

/// Writes the number into the two bytes of a block from `at`, counted from 0, and no other byte.
pub fn put_u16(block: &mut [u8; 512], at: usize, number: u16)
    requires { at ≤ 510 }
    ensures put { IsPut at (big_bytes 2 number) block.old block.new }
    ensures range { number < 2 ^ 16 }
{
    let mut bytes = [0; 2];
    BigEndian::write_u16(&mut bytes, number);
    put(block, at, &bytes);
}

/// Writes the number into the four bytes of a block from `at`, counted from 0, and no other byte.
pub fn put_u32(block: &mut [u8; 512], at: usize, number: u32)
    requires { at ≤ 508 }
    ensures put { IsPut at (big_bytes 4 number) block.old block.new }
    ensures range { number < 2 ^ 32 }
{
    let mut bytes = [0; 4];
    BigEndian::write_u32(&mut bytes, number);
    put(block, at, &bytes);
}

/// Writes the bytes into a block from `at` on, counted from 0, and no other byte.
pub fn put(block: &mut [u8; 512], at: usize, bytes: &[u8])
    requires { at + length bytes.now ≤ 512 }
    ensures { IsPut at bytes.now block.old block.new }
{
    block[at..at + bytes.len()].copy_from_slice(bytes);
}

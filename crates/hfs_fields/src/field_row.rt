//! The bytes of a record or a block, while its fields are laid one after the other.
ghost use Rattle.std.specs.Prelude.{◌≡◌, ◌+◌, ◌^◌, ◌<◌, ◌≤◌, ◌↔◌, [], ◌∷◌, ◌++◌, length, replicate, IsTrue};
ghost use Rattle.byteorder.specs.Endian.{big_bytes};
ghost use Rattle.hfs_fields.specs.Laid.{with_front};

use byteorder::{BigEndian, ByteOrder};
use std::marker::Model;

/// The fields that have been laid so far, one after the other: at most the 512 bytes of a block. Takes no memory.
#[derive(Drop)]
pub struct FieldRow {
    length: usize,
    bytes: [u8; 512],
}

impl Model for FieldRow {
    ghost use Rattle.std.specs.Prelude.{ℕ, ◌≤◌, List, take};

    ghost Value = { List ℕ };

    ghost view = { λ row. take row.length row.bytes };

    ghost invariant = { λ row. row.length ≤ 512 };
}

impl FieldRow {
    /// A row without fields.
    pub fn new() -> FieldRow
        ensures { result ≡ [] }
    {
        FieldRow {
            length: 0,
            bytes: [0; 512],
        }
    }

    /// How many bytes have been laid.
    pub fn len(&self) -> usize
        ensures { result ≡ length self.now }
    {
        self.length
    }

    /// Whether no byte has been laid.
    pub fn is_empty(&self) -> bool
        ensures { IsTrue result ↔ (self.now ≡ []) }
    {
        self.length == 0
    }

    /// Lays bytes.
    pub fn push(&mut self, field: &[u8])
        requires { length self.old + length field.now ≤ 512 }
        ensures bytes { self.new ≡ self.old ++ field.now }
        ensures length { length self.new ≡ length self.old + length field.now }
    {
        let start = self.length;
        let end = start + field.len();
        self.bytes[start..end].copy_from_slice(field);
        self.length = end;
    }

    /// Lays a number of one byte.
    pub fn push_u8(&mut self, field: u8)
        requires { length self.old + 1 ≤ 512 }
        ensures bytes { self.new ≡ self.old ++ field ∷ [] }
        ensures length { length self.new ≡ length self.old + 1 }
        ensures range { field < 256 }
    {
        self.push(&[field]);
    }

    /// Lays a number of two bytes.
    pub fn push_u16(&mut self, field: u16)
        requires { length self.old + 2 ≤ 512 }
        ensures bytes { self.new ≡ self.old ++ big_bytes 2 field }
        ensures length { length self.new ≡ length self.old + 2 }
        ensures range { field < 2 ^ 16 }
    {
        let mut bytes = [0; 2];
        BigEndian::write_u16(&mut bytes, field);
        self.push(&bytes);
    }

    /// Lays a number of four bytes.
    pub fn push_u32(&mut self, field: u32)
        requires { length self.old + 4 ≤ 512 }
        ensures bytes { self.new ≡ self.old ++ big_bytes 4 field }
        ensures length { length self.new ≡ length self.old + 4 }
        ensures range { field < 2 ^ 32 }
    {
        let mut bytes = [0; 4];
        BigEndian::write_u32(&mut bytes, field);
        self.push(&bytes);
    }

    /// Lays `count` zero bytes.
    pub fn push_zeros(&mut self, count: usize)
        requires { length self.old + count ≤ 512 }
        ensures bytes { self.new ≡ self.old ++ replicate count 0 }
        ensures length { length self.new ≡ length self.old + count }
    {
        let zeros = [0; 512];
        self.push(&zeros[..count]);
    }

    /// Lays the fields of another row.
    pub fn push_row(&mut self, fields: &FieldRow)
        requires { length self.old + length fields.now ≤ 512 }
        ensures bytes { self.new ≡ self.old ++ fields.now }
        ensures length { length self.new ≡ length self.old + length fields.now }
    {
        self.push(&fields.bytes[..fields.length]);
    }

    /// Writes what has been laid to the beginning of the bytes.
    pub fn copy_to(&self, bytes: &mut [u8])
        requires { length self.now ≤ length bytes.old }
        ensures { bytes.new ≡ with_front self.now bytes.old }
    {
        let row = &self.bytes[..self.length];
        bytes[..row.len()].copy_from_slice(row);
    }

    /// The bytes of a block whose fields have all been laid.
    pub fn into_block(self) -> [u8; 512]
        requires { length self ≡ 512 }
        ensures { result ≡ self }
    {
        self.bytes
    }
}

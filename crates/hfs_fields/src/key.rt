//! The keys of the two trees.
ghost use Rattle.std.specs.Prelude.{◌≡◌, ◌++◌, drop, ◌+◌, ◌≤◌, ◌<◌, length, IsTrue, IfSome};
ghost use Rattle.std.specs.Option.{SomeIff};
ghost use Rattle.hfs_fields.specs.Keys.{name_len, name_at, is_cat_key, cat_key_of, cat_body_start, is_cat_leaf, is_cat_index, is_cat_body_len, cat_child_of, cat_cmp, is_ext_key, ext_key_of, is_ext_leaf, is_ext_index, ext_child_of, ext_cmp, IsCatKeyOrder, IsExtKeyOrder, HoldsName, cat_leaf_of, cat_index_of, ext_index_of};
ghost use Rattle.hfs_fields.specs.KeyForms.{IsCatKeyValue, cat_leaf_bytes, cat_index_record, IsExtKeyValue, ext_key_bytes, ext_index_record, cat_key_fields};
ghost use Rattle.hfs_fields.specs.Laid.{with_front};

use crate::field_row::FieldRow;
use crate::name::{Name, cmp_bytes};
use crate::numbers::{u16_at, u32_at};
use std::cmp::Ordering;

/// The key of a catalog record (Inside Macintosh: Files, chapter 2, "Catalog file keys").
#[derive(Clone, Copy)]
pub struct CatKey {
    /// ckrParID: the ID of the item's folder, or in a thread's key the item's own.
    pub parent: u32,
    /// ckrCName: the item's name, empty in a thread's key. It may have any bytes.
    pub name: Name,
}

/// The key of an extents record (Inside Macintosh: Files, chapter 2, "Extents overflow file keys").
#[derive(Clone, Copy, Debug, PartialEq, Eq)]
pub struct ExtKey {
    /// xkrFkType: $00 for the data fork, $FF for the resource fork. It may be any byte.
    pub fork: u8,
    /// xkrFNum: the file's ID.
    pub file: u32,
    /// xkrFABN: the number of the extents' first allocation block within the fork, counted from 0.
    pub block: u16,
}

/// The characters of the name at `at`, which are at most 31.
fn characters_at(bytes: &[u8], at: usize) -> &[u8]
    requires length { at < length bytes.now }
    requires short { name_len at bytes.now ≤ 31 }
    requires characters { HoldsName at bytes.now }
    ensures { result.now ≡ name_at at bytes.now }
{
    let start = at + 1;
    let end = start + bytes[at] as usize;
    &bytes[start..end]
}

/// The name at `at`: a length byte, and that many characters. None exactly when the length is above 31.
pub(crate) fn name_at(bytes: &[u8], at: usize) -> Option<Name>
    requires length { at < length bytes.now }
    requires characters { HoldsName at bytes.now }
    ensures { SomeIff result (name_len at bytes.now ≤ 31) (name_at at bytes.now) }
{
    if bytes[at] > 31 {
        return None;
    }
    Name::of_bytes(characters_at(bytes, at))
}

#[tactic(auto, unfolding(crate::specs::Keys::is_cat_key))]
fn is_cat_key(bytes: &[u8]) -> bool
    ensures { result ≡ is_cat_key bytes.now }
{
    if bytes.len() < 7 {
        return false;
    }
    let length = bytes[0] as usize;
    let name = bytes[6] as usize;
    name <= 31 && 6 + name <= length && length <= 37 && length + 1 <= bytes.len()
}

/// Whether a body has the length of a thread's record, a directory's or a file's.
fn is_body_length(length: usize) -> bool
    ensures { result ≡ is_cat_body_len length }
{
    length == 46 || length == 70 || length == 102
}

impl CatKey {
    /// The key that the bytes begin with. None exactly when the bytes are too few, the name's length is above 31, or the key's
    /// length has no room for the name or is above 37.
    #[tactic(auto, unfolding(crate::specs::Keys::is_cat_key, crate::specs::Keys::cat_key_of))]
    pub fn read(bytes: &[u8]) -> Option<CatKey>
        ensures { SomeIff result (IsTrue (is_cat_key bytes.now)) (cat_key_of bytes.now) }
    {
        if !is_cat_key(bytes) {
            return None;
        }
        let name = name_at(bytes, 6)?;
        Some(CatKey {
            parent: u32_at(bytes, 2),
            name,
        })
    }

    /// The key of a leaf's record and the place where its body begins, counted in bytes from the record's beginning. None exactly
    /// when the record has no such key or no body of a thread, a directory or a file.
    #[tactic(auto, unfolding(crate::specs::Keys::is_cat_leaf, crate::specs::Keys::is_cat_key, crate::specs::Keys::cat_body_start))]
    pub fn read_leaf(bytes: &[u8]) -> Option<(CatKey, usize)>
        ensures key { SomeIff result (IsTrue (is_cat_leaf bytes.now)) (cat_leaf_of bytes.now) }
        ensures inside { IfSome result (λ read. read.1 ≤ length bytes.now) }
    {
        let key = CatKey::read(bytes)?;
        let start = (bytes[0] as usize + 2) / 2 * 2;
        if start > bytes.len() || !is_body_length(bytes.len() - start) {
            return None;
        }
        Some((key, start))
    }

    /// The key of an index node's record, and the number of the node below it. None exactly when the record isn't 42 bytes long,
    /// the key's length isn't 37, or the name has more than 31 characters.
    #[tactic(auto, unfolding(crate::specs::Keys::is_cat_index, crate::specs::Keys::cat_child_of))]
    pub fn read_index(bytes: &[u8]) -> Option<(CatKey, u32)>
        ensures { SomeIff result (IsTrue (is_cat_index bytes.now)) (cat_index_of bytes.now) }
    {
        let key = CatKey::read(bytes)?;
        if bytes.len() != 42 || bytes[0] != 37 {
            return None;
        }
        Some((key, u32_at(bytes, 38)))
    }

    /// How many bytes the key takes in a leaf, including the zero byte that may pad it to an even length.
    pub fn leaf_length(&self) -> usize
        ensures { result ≡ length (cat_leaf_bytes self.now) }
    {
        (self.name.bytes().len() + 8) / 2 * 2
    }

    /// The key's fields as they stand in a record, up to the name's last character.
    fn laid(&self, key_length: u8) -> FieldRow
        ensures bytes { result ≡ cat_key_fields key_length self.now }
        ensures length { length result ≡ 7 + length self.now.name }
        ensures value { IsCatKeyValue self.now }
    {
        let name = self.name.bytes();
        let mut row = FieldRow::new();
        row.push(&[key_length, 0]);
        row.push_u32(self.parent);
        row.push_u8(name.len() as u8);
        row.push(name);
        row
    }

    /// Writes the key as it is stored in a leaf: its length is 6 and the name's length, and a zero byte follows if the key would
    /// end at an odd place.
    pub fn write(&self, bytes: &mut [u8])
        requires { length (cat_leaf_bytes self.now) ≤ length bytes.old }
        ensures written { bytes.new ≡ with_front (cat_leaf_bytes self.now) bytes.old }
        ensures key { IsTrue (is_cat_key bytes.new) }
        ensures back { cat_key_of bytes.new ≡ self.now }
        ensures value { IsCatKeyValue self.now }
    {
        let length = self.name.bytes().len();
        let mut row = self.laid(6 + length as u8);
        row.push_zeros(1 - length % 2);
        row.copy_to(bytes);
    }

    /// Writes a record of an index node, 42 bytes: the key with the length 37, its name padded with zero bytes, and the number of
    /// the node below.
    pub fn write_index(&self, child: u32, bytes: &mut [u8])
        requires { 42 ≤ length bytes.old }
        ensures written { bytes.new ≡ cat_index_record self.now child ++ drop 42 bytes.old }
        ensures value { IsCatKeyValue self.now }
    {
        let mut row = self.laid(37);
        row.push_zeros(31 - self.name.bytes().len());
        row.push_u32(child);
        row.copy_to(bytes);
    }

    /// The order of two keys: by the parent's ID, then by name order.
    pub fn compare(&self, other: &CatKey) -> Ordering
        ensures { result ≡ cat_cmp self.now other.now }
    {
        match self.parent.cmp(&other.parent) {
            Ordering::Equal => self.name.cmp_folded(&other.name),
            unlike => unlike,
        }
    }

    /// The order of this key and the one that a record of the catalog begins with. The name is read only where the parents
    /// are the same.
    #[tactic(auto, unfolding(crate::specs::Keys::is_cat_key, crate::specs::Keys::cat_key_of))]
    pub fn compare_with(&self, bytes: &[u8]) -> Ordering
        requires { IsTrue (is_cat_key bytes.now) }
        ensures { result ≡ cat_cmp self.now (cat_key_of bytes.now) }
    {
        match self.parent.cmp(&u32_at(bytes, 2)) {
            Ordering::Equal => cmp_bytes(self.name.bytes(), characters_at(bytes, 6)),
            unlike => unlike,
        }
    }
}

impl ExtKey {
    /// The key that the bytes begin with. None exactly when the bytes are fewer than 8, or the key's length is not 7.
    #[tactic(auto, unfolding(crate::specs::Keys::is_ext_key, crate::specs::Keys::ext_key_of))]
    pub fn read(bytes: &[u8]) -> Option<ExtKey>
        ensures { SomeIff result (IsTrue (is_ext_key bytes.now)) (ext_key_of bytes.now) }
    {
        if bytes.len() < 8 || bytes[0] != 7 {
            return None;
        }
        Some(ExtKey {
            fork: bytes[1],
            file: u32_at(bytes, 2),
            block: u16_at(bytes, 6),
        })
    }

    /// The key of a leaf's record. None exactly when the record isn't 20 bytes long, or the key's length isn't 7.
    #[tactic(auto, unfolding(crate::specs::Keys::is_ext_leaf, crate::specs::Keys::is_ext_key))]
    pub fn read_leaf(bytes: &[u8]) -> Option<(ExtKey, usize)>
        ensures key { SomeIff result (IsTrue (is_ext_leaf bytes.now)) (ext_key_of bytes.now, 8) }
        ensures inside { IfSome result (λ read. read.1 ≤ length bytes.now) }
    {
        let key = ExtKey::read(bytes)?;
        if bytes.len() != 20 {
            return None;
        }
        Some((key, 8))
    }

    /// The key of an index node's record, and the number of the node below it. None exactly when the record isn't 12 bytes long,
    /// or the key's length isn't 7.
    #[tactic(auto, unfolding(crate::specs::Keys::is_ext_index, crate::specs::Keys::ext_child_of))]
    pub fn read_index(bytes: &[u8]) -> Option<(ExtKey, u32)>
        ensures { SomeIff result (IsTrue (is_ext_index bytes.now)) (ext_index_of bytes.now) }
    {
        let key = ExtKey::read(bytes)?;
        if bytes.len() != 12 {
            return None;
        }
        Some((key, u32_at(bytes, 8)))
    }

    /// The key's 8 bytes.
    #[tactic(auto, unfolding(crate::specs::KeyForms::ext_key_bytes))]
    fn laid(&self) -> FieldRow
        ensures bytes { result ≡ ext_key_bytes self.now }
        ensures length { length result ≡ 8 }
        ensures value { IsExtKeyValue self.now }
    {
        let mut row = FieldRow::new();
        row.push_u8(7);
        row.push_u8(self.fork);
        row.push_u32(self.file);
        row.push_u16(self.block);
        row
    }

    /// Writes the key's 8 bytes.
    pub fn write(&self, bytes: &mut [u8])
        requires { 8 ≤ length bytes.old }
        ensures written { bytes.new ≡ ext_key_bytes self.now ++ drop 8 bytes.old }
        ensures key { IsTrue (is_ext_key bytes.new) }
        ensures back { ext_key_of bytes.new ≡ self.now }
        ensures value { IsExtKeyValue self.now }
    {
        self.laid().copy_to(bytes);
    }

    /// Writes a record of an index node, 12 bytes: the key and the number of the node below.
    pub fn write_index(&self, child: u32, bytes: &mut [u8])
        requires { 12 ≤ length bytes.old }
        ensures written { bytes.new ≡ ext_index_record self.now child ++ drop 12 bytes.old }
        ensures value { IsExtKeyValue self.now }
    {
        let mut row = self.laid();
        row.push_u32(child);
        row.copy_to(bytes);
    }

    /// The order of two keys: by the file's ID, then the fork, then the block.
    pub fn compare(&self, other: &ExtKey) -> Ordering
        ensures { result ≡ ext_cmp self.now other.now }
    {
        let by_file = self.file.cmp(&other.file);
        let by_fork = self.fork.cmp(&other.fork);
        let by_block = self.block.cmp(&other.block);
        by_file.then(by_fork.then(by_block))
    }
}

/// The laws of the order of catalog keys.
pub fn cat_key_order_laws()
    ensures { IsCatKeyOrder cat_cmp }
{}

/// The laws of the order of extents keys.
pub fn ext_key_order_laws()
    ensures { IsExtKeyOrder ext_cmp }
{}

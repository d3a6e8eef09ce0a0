//! A thread record in the catalog: where an item is, found by its ID.
ghost use Rattle.std.specs.Prelude.{◌≡◌, ◌≤◌, ◌++◌, length, drop, IsTrue};
ghost use Rattle.std.specs.Option.{SomeIff};
ghost use Rattle.hfs_fields.specs.Records.{begins_thread, thread_record_of, thread_kind_of, new_thread};
ghost use Rattle.hfs_fields.specs.RecordForms.{IsThreadRecordValue, thread_type, thread_record_bytes};

use crate::extent::array_at;
use crate::field_row::FieldRow;
use crate::key::name_at;
use crate::name::Name;
use crate::numbers::u32_at;

/// Whose thread it is.
#[derive(Clone, Copy, Debug, PartialEq, Eq)]
pub enum ThreadKind {
    /// Type 3: a folder's thread.
    Folder,
    /// Type 4: a file's thread.
    File,
}

/// A thread record, 46 bytes (Inside Macintosh: Files, chapter 2, "Catalog file data records").
#[derive(Clone, Copy)]
pub struct ThreadRecord {
    /// cdrType: whose thread it is.
    pub kind: ThreadKind,
    /// cdrResrv2: kept as it is.
    pub reserved: u8,
    /// thdResrv: kept as it is.
    pub reserved_area: [u8; 8],
    /// thdParID: the ID of the item's folder.
    pub parent: u32,
    /// thdCName: the item's name. It may have any bytes.
    pub name: Name,
}

impl ThreadRecord {
    /// How many bytes the record has.
    pub const LENGTH: usize = 46;

    /// A new thread, which has zeros in its reserved bytes.
    #[tactic(auto, unfolding(crate::specs::Records::new_thread))]
    pub fn new(kind: ThreadKind, parent: u32, name: Name) -> ThreadRecord
        ensures { result ≡ new_thread kind parent name }
    {
        ThreadRecord {
            kind,
            reserved: 0,
            reserved_area: [0; 8],
            parent,
            name,
        }
    }

    /// The record that the bytes begin with. None exactly when they are fewer than 46, their type is neither 3 nor 4, or the
    /// name's length is above 31.
    #[tactic(auto, unfolding(crate::specs::Records::begins_thread, crate::specs::Records::thread_record_of))]
    pub fn read(bytes: &[u8]) -> Option<ThreadRecord>
        ensures { SomeIff result (IsTrue (begins_thread bytes.now)) (thread_record_of bytes.now) }
    {
        if bytes.len() < ThreadRecord::LENGTH || (bytes[0] != 3 && bytes[0] != 4) {
            return None;
        }
        let name = name_at(bytes, 14)?;
        Some(ThreadRecord {
            kind: kind_of(bytes[0]),
            reserved: bytes[1],
            reserved_area: array_at(bytes, 2),
            parent: u32_at(bytes, 10),
            name,
        })
    }

    /// The record's fields, one after the other.
    #[tactic(auto, unfolding(crate::specs::RecordForms::thread_record_bytes))]
    fn laid(&self) -> FieldRow
        ensures bytes { result ≡ thread_record_bytes self.now }
        ensures value { IsThreadRecordValue self.now }
    {
        let name = self.name.bytes();
        let mut row = FieldRow::new();
        row.push_u8(type_of(self.kind));
        row.push_u8(self.reserved);
        row.push(&self.reserved_area);
        row.push_u32(self.parent);
        row.push_u8(name.len() as u8);
        row.push(name);
        row.push_zeros(31 - name.len());
        row
    }

    /// Writes the record's 46 bytes, with the name padded with zero bytes.
    pub fn write(&self, bytes: &mut [u8])
        requires { 46 ≤ length bytes.old }
        ensures written { bytes.new ≡ thread_record_bytes self.now ++ drop 46 bytes.old }
        ensures begins { IsTrue (begins_thread bytes.new) }
        ensures back { thread_record_of bytes.new ≡ self.now }
        ensures value { IsThreadRecordValue self.now }
    {
        self.laid().copy_to(bytes);
    }
}

/// The type of a thread's record.
fn type_of(kind: ThreadKind) -> u8
    ensures { result ≡ thread_type kind }
{
    match kind {
        ThreadKind::Folder => 3,
        ThreadKind::File => 4,
    }
}

/// Whose thread a record of this type is.
fn kind_of(type_byte: u8) -> ThreadKind
    ensures { result ≡ thread_kind_of type_byte }
{
    if type_byte == 3 {
        ThreadKind::Folder
    } else {
        ThreadKind::File
    }
}

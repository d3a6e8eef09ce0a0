//! A file's record in the catalog.
ghost use Rattle.std.specs.Prelude.{◌≡◌, ◌+◌, ◌^◌, ◌<◌, ◌≤◌, ◌++◌, length, drop, IsTrue};
ghost use Rattle.std.specs.Option.{SomeIff};
ghost use Rattle.hfs_fields.specs.Records.{begins_file, file_record_of, fork_at, empty_fork, new_file};
ghost use Rattle.hfs_fields.specs.RecordForms.{IsFileRecordValue, fork_bytes, file_record_bytes};

use crate::extent::{Extent, array_at, extents_at, laid_extents};
use crate::field_row::FieldRow;
use crate::file_flags::FileFlags;
use crate::numbers::{u16_at, u32_at};
use bitflags::Flags;

/// What a file's record has of one fork.
#[derive(Clone, Copy, Debug, PartialEq, Eq)]
pub struct ForkRecord {
    /// filStBlk, filRStBlk: kept, and not used by this program.
    pub first_block: u16,
    /// filLgLen, filRLgLen: the logical length, in bytes.
    pub length: u32,
    /// filPyLen, filRPyLen: the physical length, in bytes; kept and not checked.
    pub physical_length: u32,
    /// filExtRec, filRExtRec: the fork's first three extents.
    pub extents: [Extent; 3],
}

/// A file's record, 102 bytes (Inside Macintosh: Files, chapter 2, "Catalog file data records").
#[derive(Clone, Copy, Debug, PartialEq, Eq)]
pub struct FileRecord {
    /// cdrResrv2: kept as it is.
    pub reserved: u8,
    /// filFlags: the lock, and whether the file has a thread.
    pub flags: FileFlags,
    /// filTyp: kept as it is.
    pub file_type: u8,
    /// filUsrWds (FInfo): type 4, creator 4, Finder flags 2, location 4, folder 2.
    pub finder_info: [u8; 16],
    /// filFlNum: the file's ID.
    pub id: u32,
    /// The data fork.
    pub data: ForkRecord,
    /// The resource fork.
    pub resource: ForkRecord,
    /// filCrDat: when it was made, in seconds since midnight, 1 January 1904.
    pub created: u32,
    /// filMdDat: when it was last changed, in the same seconds.
    pub modified: u32,
    /// filBkDat: when it was last backed up, in the same seconds.
    pub backup: u32,
    /// filFndrInfo (FXInfo): what else the Finder keeps.
    pub extended_finder_info: [u8; 16],
    /// filClpSize: how many bytes the file grows by; 0 if the file doesn't say.
    pub clump_size: u16,
    /// filResrv: kept as it is.
    pub reserved_area: [u8; 4],
}

impl ForkRecord {
    /// A fork without bytes.
    pub const EMPTY: ForkRecord = ForkRecord {
        first_block: 0,
        length: 0,
        physical_length: 0,
        extents: [Extent { first: 0, count: 0 }; 3],
    };

    /// The fork's three numbers, one after the other.
    fn laid(&self) -> FieldRow
        ensures bytes { result ≡ fork_bytes self.now }
        ensures length { length result ≡ 10 }
        ensures first_block { self.now.first_block < 2 ^ 16 }
        ensures logical { self.now.length < 2 ^ 32 }
        ensures physical { self.now.physical_length < 2 ^ 32 }
    {
        let mut row = FieldRow::new();
        row.push_u16(self.first_block);
        row.push_u32(self.length);
        row.push_u32(self.physical_length);
        row
    }
}

/// A fork's three numbers from `at`, and its extents from `extents`.
fn fork_at(bytes: &[u8], at: usize, extents: usize) -> ForkRecord
    requires numbers { at + 10 ≤ length bytes.now }
    requires extents { extents + 12 ≤ length bytes.now }
    ensures { result ≡ fork_at at extents bytes.now }
{
    ForkRecord {
        first_block: u16_at(bytes, at),
        length: u32_at(bytes, at + 2),
        physical_length: u32_at(bytes, at + 6),
        extents: extents_at(bytes, extents),
    }
}

impl FileRecord {
    /// How many bytes the record has.
    pub const LENGTH: usize = 102;

    /// The record of a new file: its ID, `now` as the date when it was made and last changed, the flag of a record in use, and
    /// zeros.
    #[tactic(auto, unfolding(crate::specs::Records::new_file))]
    pub fn new(id: u32, now: u32) -> FileRecord
        ensures { result ≡ new_file id now }
    {
        FileRecord {
            reserved: 0,
            flags: FileFlags::IN_USE,
            file_type: 0,
            finder_info: [0; 16],
            id,
            data: ForkRecord::EMPTY,
            resource: ForkRecord::EMPTY,
            created: now,
            modified: now,
            backup: 0,
            extended_finder_info: [0; 16],
            clump_size: 0,
            reserved_area: [0; 4],
        }
    }

    /// The record that the bytes begin with. None exactly when they are fewer than 102, or their type is not 2.
    #[tactic(auto, unfolding(crate::specs::Records::begins_file, crate::specs::Records::file_record_of))]
    pub fn read(bytes: &[u8]) -> Option<FileRecord>
        ensures { SomeIff result (IsTrue (begins_file bytes.now)) (file_record_of bytes.now) }
    {
        if bytes.len() < FileRecord::LENGTH || bytes[0] != 2 {
            return None;
        }
        Some(FileRecord {
            reserved: bytes[1],
            flags: FileFlags(bytes[2]),
            file_type: bytes[3],
            finder_info: array_at(bytes, 4),
            id: u32_at(bytes, 20),
            data: fork_at(bytes, 24, 74),
            resource: fork_at(bytes, 34, 86),
            created: u32_at(bytes, 44),
            modified: u32_at(bytes, 48),
            backup: u32_at(bytes, 52),
            extended_finder_info: array_at(bytes, 56),
            clump_size: u16_at(bytes, 72),
            reserved_area: array_at(bytes, 98),
        })
    }

    /// The record's fields, one after the other.
    #[tactic(auto, unfolding(crate::specs::RecordForms::file_record_bytes))]
    fn laid(&self) -> FieldRow
        ensures bytes { result ≡ file_record_bytes self.now }
        ensures value { IsFileRecordValue self.now }
    {
        let mut row = FieldRow::new();
        row.push_u8(2);
        row.push_u8(self.reserved);
        row.push_u8(self.flags.bits());
        row.push_u8(self.file_type);
        row.push(&self.finder_info);
        row.push_u32(self.id);
        row.push_row(&self.data.laid());
        row.push_row(&self.resource.laid());
        row.push_u32(self.created);
        row.push_u32(self.modified);
        row.push_u32(self.backup);
        row.push(&self.extended_finder_info);
        row.push_u16(self.clump_size);
        row.push_row(&laid_extents(&self.data.extents));
        row.push_row(&laid_extents(&self.resource.extents));
        row.push(&self.reserved_area);
        row
    }

    /// Writes the record's 102 bytes.
    pub fn write(&self, bytes: &mut [u8])
        requires { 102 ≤ length bytes.old }
        ensures written { bytes.new ≡ file_record_bytes self.now ++ drop 102 bytes.old }
        ensures begins { IsTrue (begins_file bytes.new) }
        ensures back { file_record_of bytes.new ≡ self.now }
        ensures value { IsFileRecordValue self.now }
    {
        self.laid().copy_to(bytes);
    }
}

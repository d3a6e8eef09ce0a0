//! A folder's record in the catalog.
ghost use Rattle.std.specs.Prelude.{◌≡◌, ◌≤◌, ◌++◌, length, drop, IsTrue};
ghost use Rattle.std.specs.Option.{SomeIff};
ghost use Rattle.hfs_fields.specs.Records.{begins_dir, dir_record_of, new_dir};
ghost use Rattle.hfs_fields.specs.RecordForms.{IsDirRecordValue, dir_record_bytes};

use crate::extent::array_at;
use crate::field_row::FieldRow;
use crate::numbers::{u16_at, u32_at};

/// A folder's record, 70 bytes (Inside Macintosh: Files, chapter 2, "Catalog file data records").
#[derive(Clone, Copy, Debug, PartialEq, Eq)]
pub struct DirRecord {
    /// cdrResrv2: kept as it is.
    pub reserved: u8,
    /// dirFlags: kept as they are.
    pub flags: u16,
    /// dirVal: how many items the folder has.
    pub valence: u16,
    /// dirDirID: the folder's ID.
    pub id: u32,
    /// dirCrDat: when it was made, in seconds since midnight, 1 January 1904.
    pub created: u32,
    /// dirMdDat: when it was last changed, in the same seconds.
    pub modified: u32,
    /// dirBkDat: when it was last backed up, in the same seconds.
    pub backup: u32,
    /// dirUsrInfo (DInfo): what the Finder keeps.
    pub finder_info: [u8; 16],
    /// dirFndrInfo (DXInfo): what else the Finder keeps.
    pub extended_finder_info: [u8; 16],
    /// dirResrv: kept as it is.
    pub reserved_area: [u8; 16],
}

impl DirRecord {
    /// How many bytes the record has.
    pub const LENGTH: usize = 70;

    /// The record of a new folder: its ID, `now` as the date when it was made and last changed, and zeros.
    #[tactic(auto, unfolding(crate::specs::Records::new_dir))]
    pub fn new(id: u32, now: u32) -> DirRecord
        ensures { result ≡ new_dir id now }
    {
        DirRecord {
            reserved: 0,
            flags: 0,
            valence: 0,
            id,
            created: now,
            modified: now,
            backup: 0,
            finder_info: [0; 16],
            extended_finder_info: [0; 16],
            reserved_area: [0; 16],
        }
    }

    /// The record that the bytes begin with. None exactly when they are fewer than 70, or their type is not 1.
    #[tactic(auto, unfolding(crate::specs::Records::begins_dir, crate::specs::Records::dir_record_of))]
    pub fn read(bytes: &[u8]) -> Option<DirRecord>
        ensures { SomeIff result (IsTrue (begins_dir bytes.now)) (dir_record_of bytes.now) }
    {
        if bytes.len() < DirRecord::LENGTH || bytes[0] != 1 {
            return None;
        }
        Some(DirRecord {
            reserved: bytes[1],
            flags: u16_at(bytes, 2),
            valence: u16_at(bytes, 4),
            id: u32_at(bytes, 6),
            created: u32_at(bytes, 10),
            modified: u32_at(bytes, 14),
            backup: u32_at(bytes, 18),
            finder_info: array_at(bytes, 22),
            extended_finder_info: array_at(bytes, 38),
            reserved_area: array_at(bytes, 54),
        })
    }

    /// The record's fields, one after the other.
    #[tactic(auto, unfolding(crate::specs::RecordForms::dir_record_bytes))]
    fn laid(&self) -> FieldRow
        ensures bytes { result ≡ dir_record_bytes self.now }
        ensures value { IsDirRecordValue self.now }
    {
        let mut row = FieldRow::new();
        row.push_u8(1);
        row.push_u8(self.reserved);
        row.push_u16(self.flags);
        row.push_u16(self.valence);
        row.push_u32(self.id);
        row.push_u32(self.created);
        row.push_u32(self.modified);
        row.push_u32(self.backup);
        row.push(&self.finder_info);
        row.push(&self.extended_finder_info);
        row.push(&self.reserved_area);
        row
    }

    /// Writes the record's 70 bytes.
    pub fn write(&self, bytes: &mut [u8])
        requires { 70 ≤ length bytes.old }
        ensures written { bytes.new ≡ dir_record_bytes self.now ++ drop 70 bytes.old }
        ensures begins { IsTrue (begins_dir bytes.new) }
        ensures back { dir_record_of bytes.new ≡ self.now }
        ensures value { IsDirRecordValue self.now }
    {
        self.laid().copy_to(bytes);
    }
}

//! The kept bytes of a record: those that no field of a row has.
ghost use Rattle.std.specs.Prelude.{◌≡◌};
ghost use Rattle.hfs_catalog.specs.Items.{folder_kept, fork_kept, file_kept};

use hfs_fields::{DirRecord, Extent, FileRecord, ForkRecord};

/// Those of a folder's record.
#[tactic(auto, unfolding(hfs_catalog::specs::Items::folder_kept))]
pub fn folder_kept(folder: &DirRecord) -> [u8; 70]
    ensures { result ≡ folder_kept folder.now }
{
    let blank = DirRecord {
        valence: 0,
        id: 0,
        created: 0,
        modified: 0,
        backup: 0,
        finder_info: [0; 16],
        extended_finder_info: [0; 16],
        ..*folder
    };
    let mut bytes = [0; 70];
    blank.write(&mut bytes);
    bytes[0] = 0;
    bytes
}

fn blank_fork(fork: &ForkRecord) -> ForkRecord
    ensures { result ≡ fork_kept fork.now }
{
    ForkRecord {
        length: 0,
        extents: [Extent { first: 0, count: 0 }; 3],
        ..*fork
    }
}

/// Those of a file's record.
#[tactic(auto, unfolding(hfs_catalog::specs::Items::file_kept))]
pub fn file_kept(file: &FileRecord) -> [u8; 102]
    ensures { result ≡ file_kept file.now }
{
    let blank = FileRecord {
        flags: file.flags.with_lock(false),
        finder_info: [0; 16],
        id: 0,
        data: blank_fork(&file.data),
        resource: blank_fork(&file.resource),
        created: 0,
        modified: 0,
        backup: 0,
        extended_finder_info: [0; 16],
        ..*file
    };
    let mut bytes = [0; 102];
    blank.write(&mut bytes);
    bytes[0] = 0;
    bytes
}

//! The counts of a volume with one more item.

ghost use Rattle.std.specs.Prelude.{◌≡◌, ◌≢◌, ◌+◌, ◌==◌, ◌<◌, ◌^◌};
ghost use Rattle.hfs_record_edits.specs.Swaps.{one_if};
ghost use Rattle.hfs_record_edits.specs.CreationLaws.{with_file, with_folder};

use hfs_fields::Mdb;

/// The ID of the root folder.
const ROOT_ID: u32 = 2;

/// By how much a new item of this folder changes the number of the root's items.
fn root_item(dir: u32) -> u16
    ensures { result ≡ one_if (dir == 2) }
{
    if dir == ROOT_ID { 1 } else { 0 }
}

/// The counts after the next ID was given out, changed at `now`.
fn with_next_id(mdb: &Mdb, now: u32) -> Mdb
    requires { mdb.now.next_id ≢ 4294967295 }
    ensures { result ≡ record mdb.now { modified = now; next_id = mdb.now.next_id + 1 } }
{
    Mdb {
        modified: now,
        next_id: mdb.next_id + 1,
        ..*mdb
    }
}

/// The counts with one more file in this folder, with the next ID, changed at `now`.
pub(crate) fn with_file(mdb: &Mdb, dir: u32, now: u32) -> Mdb
    requires next_id { mdb.now.next_id ≢ 4294967295 }
    requires files { mdb.now.files + 1 < 2 ^ 32 }
    requires root { mdb.now.root_files + one_if (dir == 2) < 2 ^ 16 }
    ensures { result ≡ with_file dir now mdb.now }
{
    Mdb {
        root_files: mdb.root_files + root_item(dir),
        files: mdb.files + 1,
        ..with_next_id(mdb, now)
    }
}

/// The counts with one more folder in this one, with the next ID, changed at `now`.
pub(crate) fn with_folder(mdb: &Mdb, dir: u32, now: u32) -> Mdb
    requires next_id { mdb.now.next_id ≢ 4294967295 }
    requires folders { mdb.now.folders + 1 < 2 ^ 32 }
    requires root { mdb.now.root_folders + one_if (dir == 2) < 2 ^ 16 }
    ensures { result ≡ with_folder dir now mdb.now }
{
    Mdb {
        root_folders: mdb.root_folders + root_item(dir),
        folders: mdb.folders + 1,
        ..with_next_id(mdb, now)
    }
}

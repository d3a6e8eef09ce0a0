//! A file's record and the volume's counts, when a fork of the file changes.

ghost use Rattle.std.specs.Prelude.{◌≡◌, ◌<◌, ◌≤◌, ◌^◌};
ghost use Rattle.hfs_model.specs.Forks.{physical_length};
ghost use Rattle.hfs_call_patches.specs.Files as files;
ghost use Rattle.hfs_call_patches.specs.Counts.{counts_with};

use hfs_fields::{Extent, FileRecord, ForkRecord, Mdb};
use hfs_model::{BlockSize, Fork};
use hfs_space::ForkKind;

/// Which fork it is in the extents tree.
pub(crate) fn kind_of(fork: Fork) -> ForkKind
    ensures { result ≡ files.kind_of fork }
{
    match fork {
        Fork::DataFork => ForkKind::Data,
        Fork::ResFork => ForkKind::Resource,
    }
}

/// The fork in a file's record.
pub(crate) fn fork_of(fork: Fork, file: &FileRecord) -> ForkRecord
    ensures { result ≡ files.fork_of fork file.now }
{
    match fork {
        Fork::DataFork => file.data,
        Fork::ResFork => file.resource,
    }
}

/// The file's record with a fork of `length` bytes that has these first extents, modified now. Its first block stays.
pub(crate) fn file_with(
    block_size: BlockSize,
    fork: Fork,
    length: u32,
    first: [Extent; 3],
    now: u32,
    file: &FileRecord,
) -> FileRecord
    requires { physical_length block_size length < 2 ^ 32 }
    ensures { result ≡ files.file_with block_size fork length first now file.now }
{
    let changed = ForkRecord {
        length,
        physical_length: block_size.physical_length(length) as u32,
        extents: first,
        ..fork_of(fork, file)
    };
    match fork {
        Fork::DataFork => FileRecord {
            data: changed,
            modified: now,
            ..*file
        },
        Fork::ResFork => FileRecord {
            resource: changed,
            modified: now,
            ..*file
        },
    }
}

/// The volume's counts with this many free blocks, last changed now.
pub(crate) fn counts_with(mdb: &Mdb, free_blocks: u16, now: u32) -> Mdb
    ensures { result ≡ counts_with free_blocks now mdb.now }
{
    Mdb {
        modified: now,
        free_blocks,
        ..*mdb
    }
}

/// How many allocation blocks a volume has.
pub(crate) fn volume_blocks(mdb: &Mdb) -> u16
    ensures count { result ≡ mdb.now.allocation_blocks }
    ensures few { mdb.now.allocation_blocks ≤ 65535 }
{
    mdb.allocation_blocks
}

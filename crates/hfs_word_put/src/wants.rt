//! How much of a volume a list takes.
ghost use Rattle.std.specs.Prelude.{◌≡◌};
ghost use Rattle.hfs_word_put.specs.Sums.{byte_total, file_total, files_by, folders_by, item_blocks, item_bytes, made_total, put_sums, wanted_blocks, wanted_of};

use crate::lines::PutSums;
use hfs_model::{BlockSize, ItemKind};
use hfs_put_plan::{Placing, PutItem};

/// How many allocation blocks of this size both forks of an item want.
fn item_blocks(size: BlockSize, item: &PutItem) -> u64
    ensures { result ≡ item_blocks size item.now }
{
    u64::from(size.blocks(item.data_len)) + u64::from(size.blocks(item.resource_len))
}

/// How many allocation blocks of this size the forks of a list want.
fn wanted_blocks(size: BlockSize, items: &[PutItem]) -> u64
    ensures { result ≡ wanted_blocks size items.now }
{
    let mut wanted: u64 = 0;
    for item in items {
        wanted = wanted.saturating_add(item_blocks(size, item));
    }
    wanted
}

/// How many allocation blocks of `bytes` bytes the forks of a list want; 0 if a block can't have that size.
pub fn wanted_of(bytes: u32, items: &[PutItem]) -> u64
    ensures { result ≡ wanted_of bytes items.now }
{
    match BlockSize::new(bytes) {
        Some(size) => wanted_blocks(size, items),
        None => 0,
    }
}

/// How many bytes both forks of an item have.
fn item_bytes(item: &PutItem) -> u64
    ensures { result ≡ item_bytes item.now }
{
    u64::from(item.data_len) + u64::from(item.resource_len)
}

/// 1 for a folder that is made, 0 for one that is already there, and for a file.
fn folders_by(kind: ItemKind, placing: Placing) -> u64
    ensures { result ≡ folders_by kind placing }
{
    match kind {
        ItemKind::File => 0,
        ItemKind::Folder => match placing {
            Placing::Kept => 0,
            Placing::New => 1,
            Placing::Replaced { .. } => 1,
            Placing::Taken => 1,
        },
    }
}

/// 1 for a file, 0 for a folder.
fn files_by(kind: ItemKind) -> u64
    ensures { result ≡ files_by kind }
{
    match kind {
        ItemKind::File => 1,
        ItemKind::Folder => 0,
    }
}

/// How many files a list has.
fn files_in(items: &[PutItem]) -> u64
    ensures { result ≡ file_total items.now }
{
    let mut files: u64 = 0;
    for item in items {
        files = files.saturating_add(files_by(item.kind));
    }
    files
}

/// How many folders are made for a list.
fn folders_in(items: &[PutItem]) -> u64
    ensures { result ≡ made_total items.now }
{
    let mut folders: u64 = 0;
    for item in items {
        folders = folders.saturating_add(folders_by(item.kind, item.placing));
    }
    folders
}

/// How many bytes all forks of a list have.
fn bytes_in(items: &[PutItem]) -> u64
    ensures { result ≡ byte_total items.now }
{
    let mut bytes: u64 = 0;
    for item in items {
        bytes = bytes.saturating_add(item_bytes(item));
    }
    bytes
}

/// How much of a list was put, given how many allocation blocks are free afterwards.
pub fn put_sums(items: &[PutItem], free: u32) -> PutSums
    ensures { result ≡ put_sums items.now free }
{
    PutSums {
        files: files_in(items),
        folders: folders_in(items),
        bytes: bytes_in(items),
        free,
    }
}

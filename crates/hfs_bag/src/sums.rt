//! How much a bag holds.
ghost use Rattle.std.specs.Prelude.{◌≡◌, ◌+◌, ◌≤◌, length};
ghost use Rattle.hfs_bag.specs.Items.{BagItem, IsHead, item_entries};
ghost use Rattle.hfs_bag.specs.Bags.{bytes_in, double_number, doubles_told, file_number, files_told};

use crate::item::{BagHead, BagKind, ItemDigests};
use crate::items::double_head;

/// How much a bag holds.
#[derive(Clone, Copy, Debug, PartialEq, Eq)]
pub struct BagSums {
    /// How many items have a file with their data fork.
    pub files: usize,
    /// How many have none, which are the folders of a volume without its root.
    pub folders: usize,
    /// The bytes of all files of the payload.
    pub bytes: u64,
}

/// How many bytes the files of an item have.
pub(crate) fn item_bytes(head: &BagHead) -> u64
    ensures { (item : BagItem) → IsHead head.now item → result ≡ bytes_in (item_entries item) }
{
    let double = double_head(head).len() as u64 + u64::from(head.resource_length);
    match head.kind {
        BagKind::File => u64::from(head.data_length) + double,
        BagKind::Folder | BagKind::DoubleAlone => double,
        BagKind::FolderAlone => 0,
    }
}

/// 1 if there is a file with a data fork, else 0.
fn file_number(told: &ItemDigests) -> usize
    ensures number { result ≡ file_number told.now }
    ensures few { result ≤ 1 }
{
    match told {
        ItemDigests::File(_, _) => 1,
        ItemDigests::Double(_) | ItemDigests::NoFile => 0,
    }
}

/// 1 if there is an AppleDouble file, else 0.
fn double_number(told: &ItemDigests) -> usize
    ensures number { result ≡ double_number told.now }
    ensures few { result ≤ 1 }
{
    match told {
        ItemDigests::File(_, _) | ItemDigests::Double(_) => 1,
        ItemDigests::NoFile => 0,
    }
}

/// How many of these items have a file with their data fork.
pub(crate) fn count_files(digests: &[ItemDigests]) -> usize
    ensures count { result ≡ files_told digests.now }
    ensures few { result ≤ length digests.now }
{
    let mut files = 0;
    let mut rest = digests;
    while let [told, behind @ ..] = rest {
        files += file_number(told);
        rest = behind;
    }
    files
}

/// How many of these items have an AppleDouble file.
fn count_doubles(digests: &[ItemDigests]) -> usize
    ensures count { result ≡ doubles_told digests.now }
    ensures few { result ≤ length digests.now }
{
    let mut doubles = 0;
    let mut rest = digests;
    while let [told, behind @ ..] = rest {
        doubles += double_number(told);
        rest = behind;
    }
    doubles
}

/// How many files these items have in the payload.
pub(crate) fn count_streams(digests: &[ItemDigests]) -> u64
    ensures { result ≡ doubles_told digests.now + files_told digests.now }
{
    (count_doubles(digests) + count_files(digests)) as u64
}

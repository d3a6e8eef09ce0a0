//! Entries of a host's folder, and the items that they make.
ghost use Rattle.std.specs.Prelude.{◌≡◌, ◌+◌, ◌<◌, ◌≤◌, IfOk, drop, length};
ghost use Rattle.std.specs.List.{cons_option};
ghost use Rattle.hfs_put_plan.specs.Entries.{alone, both, entry_cmp, is_double, is_pair, item_of, items_from, stays_behind};

use std::alloc::{AllocError, Global};
use std::cmp::Ordering;

/// What an entry of a host's folder is.
#[derive(Clone, Copy)]
pub enum EntryKind {
    /// A file of this many bytes.
    File(u64),
    Folder,
    /// Neither, such as a link or a device.
    Other,
}

/// An entry of a host's folder.
#[derive(Clone, Copy)]
pub struct Entry<'a> {
    pub name: &'a [u8],
    pub kind: EntryKind,
    /// When it was last changed, in seconds since midnight, 1 January 1904.
    pub modified: u32,
}

/// An item of a folder, by the places of its entries.
#[derive(Clone, Copy)]
pub struct FolderItem {
    /// The entry with its name.
    pub own: Option<usize>,
    /// The entry that belongs to it, which is named `._` and then its name.
    pub double: Option<usize>,
}

/// The file in which a host's system keeps how a folder looks.
const LOOKS: [u8; 9] = *b".DS_Store";

/// Whether an entry belongs to the item whose name follows its `._`.
fn is_double(name: &[u8]) -> bool
    ensures { result ≡ is_double name.now }
{
    name.len() >= 2 && name[0] == b'.' && name[1] == b'_'
}

/// The name of the item that an entry belongs to.
fn item_of(name: &[u8]) -> &[u8]
    ensures { result.now ≡ item_of name.now }
{
    if is_double(name) { &name[2..] } else { name }
}

/// Whether an entry is left out.
fn stays_behind(name: &[u8]) -> bool
    ensures { result ≡ stays_behind name.now }
{
    item_of(name) == LOOKS.as_slice()
}

/// The order in which a folder's entries are taken: by the bytes of the names of their items, and for one item its own entry
/// first.
pub fn entry_order(a: &[u8], b: &[u8]) -> Ordering
    ensures { result ≡ entry_cmp a.now b.now }
{
    item_of(a)
        .cmp(item_of(b))
        .then(is_double(a).cmp(&is_double(b)))
}

/// Whether the second of two entries belongs to the first.
fn is_pair(first: &[u8], second: &[u8]) -> bool
    ensures { result ≡ is_pair first.now second.now }
{
    !is_double(first) && is_double(second) && item_of(second) == first
}

/// The item of a single entry.
fn alone(place: usize, name: &[u8]) -> Option<FolderItem>
    ensures { result ≡ alone place name.now }
{
    if stays_behind(name) {
        None
    } else if is_double(name) {
        Some(FolderItem {
            own: None,
            double: Some(place),
        })
    } else {
        Some(FolderItem {
            own: Some(place),
            double: None,
        })
    }
}

/// The item of an entry and the next one, which belongs to it.
fn both(place: usize, name: &[u8]) -> Option<FolderItem>
    requires { place + 1 < 18446744073709551616 }
    ensures { result ≡ both place name.now }
{
    if stays_behind(name) {
        None
    } else {
        Some(FolderItem {
            own: Some(place),
            double: Some(place + 1),
        })
    }
}

/// The item that the first of some entries makes, together with the second if that belongs to it; and how many of them were
/// taken.
fn first_item(place: usize, entries: &[Entry<'_>]) -> (Option<FolderItem>, usize)
    requires some { 0 < length entries.now }
    requires room { place + length entries.now < 18446744073709551616 }
    ensures item { items_from place entries.now
        ≡ cons_option result.0 (items_from (place + result.1) (drop result.1 entries.now)) }
    ensures least { 1 ≤ result.1 }
    ensures most { result.1 ≤ length entries.now }
{
    match entries {
        [first, second, _rest @ ..] => {
            if is_pair(first.name, second.name) {
                (both(place, first.name), 2)
            } else {
                (alone(place, first.name), 1)
            }
        }
        [first] => (alone(place, first.name), 1),
        [] => unreachable!(),
    }
}

/// The items of a folder, from its entries in the order of [`entry_order`]: an item's own entry and the one that belongs to it
/// make one item.
pub fn folder_items(alloc: Global, entries: &[Entry<'_>]) -> Result<Vec<FolderItem>, AllocError>
    ensures { IfOk result (λ items. items.items ≡ items_from 0 entries.now) }
{
    let mut items = Vec::new(alloc);
    let mut place = 0;
    while place < entries.len() {
        let (item, taken) = first_item(place, &entries[place..]);
        if let Some(item) = item {
            items.push(item)?;
        }
        place += taken;
    }
    Ok(items)
}

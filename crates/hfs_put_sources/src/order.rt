//! The order in which a folder's entries are taken.
ghost use Rattle.std.specs.Prelude.{◌≡◌, IfOk};
ghost use Rattle.hfs_put_plan.specs.Entries.{items_from};
ghost use Rattle.hfs_put_sources.specs.Folders.{AreInOrder, MakesItems, AreNamed};

use crate::entry::{HostEntry, host_date};
use hfs_put_plan::{Entry, FolderItem, entry_order, folder_items};
use std::alloc::{AllocError, Global};

/// Puts a folder's entries in the order in which they are taken.
fn sort_entries(entries: &mut [HostEntry])
    ensures { AreInOrder entries.old entries.new }
{
    entries.sort_unstable_by(|a, b| entry_order(a.name().as_bytes(), b.name().as_bytes()));
}

/// The same entries, in the form from which items are made.
fn named_entries<'a>(alloc: Global, entries: &'a [HostEntry]) -> Result<Vec<Entry<'a>>, AllocError>
    ensures { IfOk result (λ named. AreNamed entries.now named.items) }
{
    let mut named = Vec::new(alloc);
    for entry in entries {
        let look = entry.look();
        named.push(Entry {
            name: entry.name().as_bytes(),
            kind: look.kind,
            modified: host_date(look.modified),
        })?;
    }
    Ok(named)
}

/// The items that entries in order make, by the places of these.
fn items_of(alloc: Global, entries: &[HostEntry]) -> Result<Vec<FolderItem>, AllocError>
    ensures { IfOk result (λ items. MakesItems entries.now items.items) }
{
    let named = named_entries(alloc, entries)?;
    folder_items(alloc, named.as_slice())
}

/// Puts a folder's entries in order, and returns the items that they make.
pub(crate) fn ordered_items(
    alloc: Global,
    entries: &mut [HostEntry],
) -> Result<Vec<FolderItem>, AllocError>
    ensures order { AreInOrder entries.old entries.new }
    ensures items { IfOk result (λ items. MakesItems entries.new items.items) }
{
    sort_entries(entries);
    items_of(alloc, entries)
}

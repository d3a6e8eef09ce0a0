//! The items in a folder.
ghost use Rattle.std.specs.Prelude.{◌≡◌, IfOk, map, IfErr};
ghost use Rattle.hfs_put_sources.specs.Faults.{FailLater, IsFaultOf};
ghost use Rattle.hfs_put_sources.specs.Folders.{AreItemsIn, entry_at, item_in, item_name, look_of, name_of};
ghost use Rattle.hfs_put_sources.specs.Trees.{OfEachTree};

use crate::entry::{HostEntry, Look};
use crate::fault::HostFault;
use crate::host_paths::{behind_mark, double_path, entry_path};
use crate::item::{ItemPlace, SourceItem, read_plan};
use crate::order::ordered_items;
use crate::plan::PutOptions;
use crate::told::ToldItems;
use crate::tree::HostTree;
use hfs_put_plan::FolderItem;
use std::alloc::Global;

/// A folder: its path, and its place in the list of items.
#[derive(Clone, Copy)]
pub(crate) struct FolderPlace<'a> {
    pub(crate) path: &'a str,
    pub(crate) place: Option<usize>,
}

/// What is seen of the entry at a place.
fn look_of(entries: &[HostEntry], place: Option<usize>) -> Option<Look>
    ensures { result ≡ look_of entries.now place }
{
    match place {
        Some(place) => match entries.get(place) {
            Some(entry) => Some(entry.look()),
            None => None,
        },
        None => None,
    }
}

/// The name of the entry at a place; empty if there is none.
fn name_of(entries: &[HostEntry], place: Option<usize>) -> &str
    ensures { result.now ≡ name_of (entry_at entries.now place) }
{
    match place {
        Some(place) => match entries.get(place) {
            Some(entry) => entry.name(),
            None => "",
        },
        None => "",
    }
}

/// The name of an item.
fn item_name(entries: &[HostEntry], item: FolderItem) -> &str
    ensures { result.now ≡ item_name entries.now item }
{
    match look_of(entries, item.own) {
        Some(_) => name_of(entries, item.own),
        None => match behind_mark(name_of(entries, item.double)) {
            Some(name) => name,
            None => "",
        },
    }
}

/// The item at these places of a folder's entries: those of its own entry and of the one that belongs to it.
fn item_in<T: HostTree, B: ToldItems>(
    alloc: Global,
    tree: &mut T,
    told: &B,
    how: PutOptions,
    folder: &FolderPlace<'_>,
    entries: &[HostEntry],
    places: FolderItem,
) -> Result<SourceItem, HostFault>
    ensures item { IfOk result (λ item. OfEachTree (T.Holds tree.new)
        (λ host. item ≡ item_in host (B.told told.now) how folder.now.path.now folder.now.place
        entries.now places)) }
    ensures held { OfEachTree (T.Holds tree.new) (T.Holds tree.old) }
    ensures failed { IfErr result (IsFaultOf (T.Fails tree.old)) }
    ensures later { FailLater (T.Fails tree.new) (T.Fails tree.old) }
{
    let name = item_name(entries, places);
    let path = entry_path(alloc, folder.path, name)?;
    let double_path = double_path(alloc, folder.path, name)?;
    let at = ItemPlace {
        name,
        own: look_of(entries, places.own),
        double: look_of(entries, places.double),
        path: path.as_str(),
        double_path: double_path.as_str(),
    };
    let plan = read_plan(alloc, tree, told, how, &at)?;
    Ok(SourceItem::new(path, double_path, folder.place, plan))
}

/// The items of a folder's entries, in order.
fn read_items<T: HostTree, B: ToldItems>(
    alloc: Global,
    tree: &mut T,
    told: &B,
    how: PutOptions,
    folder: &FolderPlace<'_>,
    entries: &[HostEntry],
    places: &[FolderItem],
) -> Result<Vec<SourceItem>, HostFault>
    ensures items { IfOk result (λ items. OfEachTree (T.Holds tree.new)
        (λ host. items.items ≡ map (item_in host (B.told told.now) how folder.now.path.now folder.now.place
        entries.now) places.now)) }
    ensures held { OfEachTree (T.Holds tree.new) (T.Holds tree.old) }
    ensures failed { IfErr result (IsFaultOf (T.Fails tree.old)) }
    ensures later { FailLater (T.Fails tree.new) (T.Fails tree.old) }
{
    let mut items = Vec::new(alloc);
    for place in places {
        let item = item_in(alloc, tree, told, how, folder, entries, *place)?;
        items.push(item)?;
    }
    Ok(items)
}

/// The items in a folder, in order.
pub(crate) fn items_in<T: HostTree, B: ToldItems>(
    alloc: Global,
    tree: &mut T,
    told: &B,
    how: PutOptions,
    folder: &FolderPlace<'_>,
) -> Result<Vec<SourceItem>, HostFault>
    ensures items { IfOk result (λ items. OfEachTree (T.Holds tree.new)
        (λ host. AreItemsIn host (B.told told.now) how folder.now.path.now folder.now.place items.items)) }
    ensures held { OfEachTree (T.Holds tree.new) (T.Holds tree.old) }
    ensures failed { IfErr result (IsFaultOf (T.Fails tree.old)) }
    ensures later { FailLater (T.Fails tree.new) (T.Fails tree.old) }
{
    let mut entries = tree.list(alloc, folder.path)?;
    let places = ordered_items(alloc, &mut entries)?;
    read_items(alloc, tree, told, how, folder, &entries, &places)
}

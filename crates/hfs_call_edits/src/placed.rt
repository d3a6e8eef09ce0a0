//! Items of the catalog, with the places of their records.

ghost use Rattle.std.specs.Prelude.{◌≡◌, true, Some, IfOk, IfSome};
ghost use Rattle.std.specs.Option.{option_map};
ghost use Rattle.hfs_fields.specs.Keys.{is_cat_leaf};
ghost use Rattle.hfs_btree.specs.Tree.{pair_of};
ghost use Rattle.hfs_catalog.specs.Lookups.{catalog_item, item_at, item_named};
ghost use Rattle.hfs_catalog.specs.Tree.{IsCatalogTree, cat_keys, catalog_of};
ghost use Rattle.hfs_items.specs.Told.{IsCatalog, folder_child, folder_with};
ghost use Rattle.hfs_call_edits.specs.Placed.{item_part, item_chosen, IsItemPlaced};

use hfs_btree::{Key, Nodes, entry_in};
use hfs_btree_edits::{RecordPlace, seek};
use hfs_catalog::{CatalogItem, ItemRecord, item_of, thread};
use hfs_fields::{CatKey, Name};
use hfs_items::folder;
use hfs_model::{NOT_A_FOLDER, NOT_FOUND};

/// An item of the catalog, and where its record is.
#[derive(Clone, Copy)]
pub(crate) struct PlacedItem {
    pub item: CatalogItem,
    pub place: RecordPlace,
}

/// The item of a leaf's record. None if the record is a thread's.
fn item_in(entry: &[u8]) -> Option<CatalogItem>
    requires { is_cat_leaf entry.now ≡ true }
    ensures { result ≡ item_at (Some (pair_of cat_keys entry.now)) }
{
    match CatKey::read_leaf(entry) {
        Some((key, start)) => item_of(key, &entry[start..]),
        None => unreachable!(),
    }
}

/// The item under a key. None if there is none, or if the record under the key is a thread's.
fn seek_item<N: Nodes>(nodes: &N, key: &CatKey) -> Option<PlacedItem>
    requires { IsCatalogTree (N.nodes nodes.now) }
    ensures named { item_part result
        ≡ item_named (catalog_of (N.nodes nodes.now)) key.now.parent key.now.name }
    ensures place { IfSome result (IsItemPlaced (N.nodes nodes.now)) }
{
    let Some(place) = seek(nodes, key) else {
        return None;
    };
    let Some(entry) = entry_in(&place.bytes, place.at) else {
        unreachable!()
    };
    match item_in(entry) {
        Some(item) => Some(PlacedItem { item, place }),
        None => None,
    }
}

/// The folder with that ID, found by its thread, which each folder has: two look-ups.
pub(crate) fn placed_folder<N: Nodes>(nodes: &N, dir: u32) -> Option<PlacedItem>
    requires { IsCatalog (N.nodes nodes.now) }
    ensures folder { item_part result
        ≡ option_map catalog_item (folder_with (catalog_of (N.nodes nodes.now)) dir) }
    ensures place { IfSome result (IsItemPlaced (N.nodes nodes.now)) }
{
    let Some(thread) = thread(nodes, dir) else {
        return None;
    };
    let key = CatKey {
        parent: thread.parent,
        name: thread.name,
    };
    let Some(placed) = seek_item(nodes, &key) else {
        return None;
    };
    match placed.item.body {
        ItemRecord::Folder(_) => Some(placed),
        ItemRecord::File(_) => None,
    }
}

/// The root's parent ID, which is no folder's.
const ABOVE_ROOT: u32 = 1;

/// The folder's item of that name, or the code that says why there is none: -120 if there is no such folder, -43 if it has no
/// such item. An item that exists is found with one look-up, since its parent is a folder, except for 1, which is the root's
/// parent.
pub(crate) fn placed_child<N: Nodes>(nodes: &N, dir: u32, name: &Name) -> Result<PlacedItem, i16>
    requires { IsCatalog (N.nodes nodes.now) }
    ensures chosen { item_chosen result
        ≡ folder_child (catalog_of (N.nodes nodes.now)) dir name.now }
    ensures place { IfOk result (IsItemPlaced (N.nodes nodes.now)) }
{
    let key = CatKey {
        parent: dir,
        name: *name,
    };
    match seek_item(nodes, &key) {
        Some(placed) => {
            if dir == ABOVE_ROOT {
                return Err(NOT_A_FOLDER);
            }
            Ok(placed)
        }
        None => {
            if folder(nodes, dir).is_none() {
                return Err(NOT_A_FOLDER);
            }
            Err(NOT_FOUND)
        }
    }
}

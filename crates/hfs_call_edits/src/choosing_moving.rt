//! What CatMove chooses in the catalog. In each choice, the first code that applies is the reply's.

ghost use Rattle.std.specs.Prelude.{◌≡◌};
ghost use Rattle.hfs_catalog.specs.Tree.{catalog_of};
ghost use Rattle.hfs_items.specs.Told.{IsCatalog};
ghost use Rattle.hfs_call_edits.specs.ChoosingMoving.{up_by_folders, folder_place, is_folder_item, most_steps, moving_to, item_to_move, moving_within};

use crate::choosing::child_to_change;
use crate::choosing_renaming::own_id;
use hfs_btree::Nodes;
use hfs_call_patches::{FolderPlace, Moving, Rekeying};
use hfs_catalog::{CatalogItem, ItemRecord, lookup};
use hfs_fields::{CatKey, Mdb, Name};
use hfs_items::folder;
use hfs_model::{BAD_MOVE, BAD_NAME, DUPLICATE, FOLDER_FULL, NOT_A_FOLDER};

/// Whether `up` is at most `steps` parents up from the folder `dir`. Each step looks up one folder.
fn lies_in<N: Nodes>(nodes: &N, steps: u64, dir: u32, up: u32) -> bool
    requires { IsCatalog (N.nodes nodes.now) }
    ensures { result ≡ up_by_folders (catalog_of (N.nodes nodes.now)) steps dir up }
{
    let mut at = dir;
    let mut left = steps;
    while at != up {
        if left == 0 {
            return false;
        }
        let Some(item) = folder(nodes, at) else {
            return false;
        };
        at = item.key.parent;
        left -= 1;
    }
    true
}

/// The folder with that ID, and its place.
fn folder_place<N: Nodes>(nodes: &N, dir: u32) -> Option<FolderPlace>
    requires { IsCatalog (N.nodes nodes.now) }
    ensures { result ≡ folder_place (catalog_of (N.nodes nodes.now)) dir }
{
    let item = folder(nodes, dir)?;
    let key = item.key;
    match item.body {
        ItemRecord::Folder(record) => Some(FolderPlace {
            key,
            valence: record.valence,
        }),
        ItemRecord::File(_) => None,
    }
}

/// Whether the item is a folder.
fn is_folder(item: &CatalogItem) -> bool
    ensures { result ≡ is_folder_item item.now }
{
    match item.body {
        ItemRecord::Folder(_) => true,
        ItemRecord::File(_) => false,
    }
}

/// The item, to be moved from one folder to the one with this ID, or the code that refuses it.
fn moving_to<N: Nodes>(
    nodes: &N,
    steps: u64,
    item: &CatalogItem,
    name: &Name,
    left: FolderPlace,
    new_dir: u32,
) -> Result<Moving, i16>
    requires { IsCatalog (N.nodes nodes.now) }
    ensures { result ≡ moving_within (N.nodes nodes.now) steps item.now name.now left new_dir }
{
    let id = own_id(item);
    let folder = is_folder(item);
    let Some(entered) = folder_place(nodes, new_dir) else {
        return Err(NOT_A_FOLDER);
    };
    if folder && lies_in(nodes, steps, new_dir, id) {
        return Err(BAD_MOVE);
    }
    if lookup(nodes, new_dir, name).is_some() {
        return Err(DUPLICATE);
    }
    if entered.valence >= 65535 {
        return Err(FOLDER_FULL);
    }
    let to = CatKey {
        parent: new_dir,
        name: item.key.name,
    };
    Ok(Moving {
        item: Rekeying {
            id,
            from: item.key,
            to,
        },
        folder,
        left,
        entered,
    })
}

/// No chain of parents has more folders than the volume has items.
fn most_steps(mdb: &Mdb) -> u64
    ensures { result ≡ most_steps mdb.now }
{
    u64::from(mdb.files) + u64::from(mdb.folders) + 1
}

/// The folder's item of that name, to be moved to another folder, or the code that refuses it.
pub(crate) fn item_to_move<N: Nodes>(
    nodes: &N,
    mdb: &Mdb,
    dir: u32,
    name: &[u8],
    new_dir: u32,
) -> Result<Moving, i16>
    requires { IsCatalog (N.nodes nodes.now) }
    ensures { result ≡ item_to_move mdb.now (catalog_of (N.nodes nodes.now)) dir name.now new_dir }
{
    let item = match child_to_change(nodes, mdb, dir, name) {
        Ok(item) => item,
        Err(code) => return Err(code),
    };
    let Some(name) = Name::new(name) else {
        return Err(BAD_NAME);
    };
    let Some(left) = folder_place(nodes, dir) else {
        return Err(NOT_A_FOLDER);
    };
    moving_to(nodes, most_steps(mdb), &item, &name, left, new_dir)
}

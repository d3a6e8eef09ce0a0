//! What calls that change items choose in the catalog. In each, the first code that applies is the reply's.

ghost use Rattle.std.specs.Prelude.{◌≡◌, IfOk};
ghost use Rattle.hfs_catalog.specs.Tree.{catalog_of};
ghost use Rattle.hfs_call_edits.specs.Choosing.{lock_code, child_to_change, file_to_change, file_to_set, item_to_set, is_locked_item, as_item, as_file, chosen_child, chosen_file};
ghost use Rattle.hfs_call_edits.specs.Placed.{item_chosen, file_chosen, IsItemPlaced, IsFilePlaced};
ghost use Rattle.hfs_items.specs.Told.{IsCatalog};

use crate::placed::{PlacedItem, placed_child};
use bitflags::Flags;
use hfs_btree::Nodes;
use hfs_call_patches::FoundFile;
use hfs_catalog::{CatalogItem, ItemRecord};
use hfs_fields::{Mdb, Name};
use hfs_model::{BAD_NAME, FILE_LOCKED, HARDWARE_LOCKED, NOT_FOUND, SOFTWARE_LOCKED};

/// The code that refuses each change of a locked volume.
pub(crate) fn lock_code(mdb: &Mdb) -> Option<i16>
    ensures { result ≡ lock_code mdb.now }
{
    let attributes = mdb.attributes.bits();
    if attributes / 128 % 2 == 1 {
        return Some(HARDWARE_LOCKED);
    }
    if attributes / 32768 % 2 == 1 {
        return Some(SOFTWARE_LOCKED);
    }
    None
}

/// The folder's item of that name, with the place of its record, or the code that refuses to change it.
fn placed_to_change<N: Nodes>(
    nodes: &N,
    mdb: &Mdb,
    dir: u32,
    name: &[u8],
) -> Result<PlacedItem, i16>
    requires { IsCatalog (N.nodes nodes.now) }
    ensures chosen { item_chosen result ≡ chosen_child mdb.now (N.nodes nodes.now) dir name.now }
    ensures place { IfOk result (IsItemPlaced (N.nodes nodes.now)) }
{
    if let Some(code) = lock_code(mdb) {
        return Err(code);
    }
    let Some(name) = Name::new(name) else {
        return Err(BAD_NAME);
    };
    placed_child(nodes, dir, &name)
}

/// The folder's item of that name, or the code that refuses to change it.
pub(crate) fn child_to_change<N: Nodes>(
    nodes: &N,
    mdb: &Mdb,
    dir: u32,
    name: &[u8],
) -> Result<CatalogItem, i16>
    requires { IsCatalog (N.nodes nodes.now) }
    ensures { result ≡ chosen_child mdb.now (N.nodes nodes.now) dir name.now }
{
    match placed_to_change(nodes, mdb, dir, name) {
        Ok(placed) => Ok(placed.item),
        Err(code) => Err(code),
    }
}

/// The folder's file of that name, with the place of its record, or the code that refuses to change it.
pub(crate) fn file_to_change<N: Nodes>(
    nodes: &N,
    mdb: &Mdb,
    dir: u32,
    name: &[u8],
) -> Result<FoundFile, i16>
    requires { IsCatalog (N.nodes nodes.now) }
    ensures chosen { file_chosen result ≡ chosen_file mdb.now (N.nodes nodes.now) dir name.now }
    ensures place { IfOk result (IsFilePlaced (N.nodes nodes.now)) }
{
    let placed = match placed_to_change(nodes, mdb, dir, name) {
        Ok(placed) => placed,
        Err(code) => return Err(code),
    };
    let place = placed.place;
    let item = placed.item;
    let key = item.key;
    match item.body {
        ItemRecord::Folder(_) => Err(NOT_FOUND),
        ItemRecord::File(file) => Ok(FoundFile { key, file, place }),
    }
}

/// The folder's file of that name, with the place of its record, or the code that refuses to set its dates, Finder bytes or lock.
pub(crate) fn file_to_set<N: Nodes>(
    nodes: &N,
    mdb: &Mdb,
    dir: u32,
    name: &[u8],
) -> Result<FoundFile, i16>
    requires { IsCatalog (N.nodes nodes.now) }
    ensures chosen { file_chosen result
        ≡ as_file (file_to_set mdb.now (catalog_of (N.nodes nodes.now)) dir name.now) }
    ensures place { IfOk result (IsFilePlaced (N.nodes nodes.now)) }
{
    match file_to_change(nodes, mdb, dir, name) {
        Ok(placed) => {
            if placed.file.flags.is_locked() {
                return Err(FILE_LOCKED);
            }
            Ok(placed)
        }
        Err(code) => Err(code),
    }
}

/// Whether the item is a locked file.
pub(crate) fn is_locked(item: &CatalogItem) -> bool
    ensures { result ≡ is_locked_item item.now }
{
    match item.body {
        ItemRecord::Folder(_) => false,
        ItemRecord::File(file) => file.flags.is_locked(),
    }
}

/// The folder's item of that name, with the place of its record, or the code that refuses to set its dates, Finder bytes or lock.
pub(crate) fn item_to_set<N: Nodes>(
    nodes: &N,
    mdb: &Mdb,
    dir: u32,
    name: &[u8],
) -> Result<PlacedItem, i16>
    requires { IsCatalog (N.nodes nodes.now) }
    ensures chosen { item_chosen result
        ≡ as_item (item_to_set mdb.now (catalog_of (N.nodes nodes.now)) dir name.now) }
    ensures place { IfOk result (IsItemPlaced (N.nodes nodes.now)) }
{
    match placed_to_change(nodes, mdb, dir, name) {
        Ok(placed) => {
            if is_locked(&placed.item) {
                return Err(FILE_LOCKED);
            }
            Ok(placed)
        }
        Err(code) => Err(code),
    }
}

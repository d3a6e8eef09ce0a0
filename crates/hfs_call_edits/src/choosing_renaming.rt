//! What Rename chooses in the catalog. The first code that applies is the reply's.

ghost use Rattle.std.specs.Prelude.{◌≡◌};
ghost use Rattle.hfs_catalog.specs.Tree.{catalog_of};
ghost use Rattle.hfs_items.specs.Told.{IsCatalog};
ghost use Rattle.hfs_call_edits.specs.ChoosingRenaming.{own_id, is_taken, item_to_rename, chosen_renaming};

use crate::choosing::{item_to_set, lock_code};
use hfs_btree::Nodes;
use hfs_call_patches::Rekeying;
use hfs_catalog::{CatalogItem, ItemRecord, lookup};
use hfs_fields::{CatKey, Mdb, Name};
use hfs_model::{BAD_NAME, DUPLICATE};

/// The ID of an item.
pub(crate) fn own_id(item: &CatalogItem) -> u32
    ensures { result ≡ own_id item.now }
{
    match item.body {
        ItemRecord::Folder(folder) => folder.id,
        ItemRecord::File(file) => file.id,
    }
}

/// Whether an item of the folder, other than the one with this ID, has the name.
fn is_taken<N: Nodes>(nodes: &N, dir: u32, name: &Name, id: u32) -> bool
    requires { IsCatalog (N.nodes nodes.now) }
    ensures { result ≡ is_taken (catalog_of (N.nodes nodes.now)) dir name.now id }
{
    match lookup(nodes, dir, name) {
        Some(item) => own_id(&item) != id,
        None => false,
    }
}

/// The folder's item of that name, to be renamed, or the code that refuses it.
pub(crate) fn item_to_rename<N: Nodes>(
    nodes: &N,
    mdb: &Mdb,
    dir: u32,
    name: &[u8],
    new_name: &[u8],
) -> Result<Rekeying, i16>
    requires { IsCatalog (N.nodes nodes.now) }
    ensures { result ≡ chosen_renaming mdb.now (N.nodes nodes.now) dir name.now new_name.now }
{
    if let Some(code) = lock_code(mdb) {
        return Err(code);
    }
    let Some(new_name) = Name::new(new_name) else {
        return Err(BAD_NAME);
    };
    let item = match item_to_set(nodes, mdb, dir, name) {
        Ok(placed) => placed.item,
        Err(code) => return Err(code),
    };
    let id = own_id(&item);
    if is_taken(nodes, dir, &new_name, id) {
        return Err(DUPLICATE);
    }
    Ok(Rekeying {
        id,
        from: item.key,
        to: CatKey {
            parent: item.key.parent,
            name: new_name,
        },
    })
}

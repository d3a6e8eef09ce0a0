//! What Delete chooses in the catalog. The first code that applies is the reply's.

ghost use Rattle.std.specs.Prelude.{◌≡◌};
ghost use Rattle.hfs_call_edits.specs.ChoosingDelete.{is_busy_item, item_to_delete, chosen_to_delete};
ghost use Rattle.hfs_items.specs.Told.{IsCatalog};

use crate::choosing::{child_to_change, is_locked};
use hfs_btree::Nodes;
use hfs_catalog::{CatalogItem, ItemRecord};
use hfs_fields::Mdb;
use hfs_model::{BUSY, FILE_LOCKED};

/// Whether the item is a folder with children.
fn is_busy(item: &CatalogItem) -> bool
    ensures { result ≡ is_busy_item item.now }
{
    match item.body {
        ItemRecord::Folder(folder) => 0 < folder.valence,
        ItemRecord::File(_) => false,
    }
}

/// The folder's item of that name, or the code that refuses to delete it.
pub(crate) fn item_to_delete<N: Nodes>(
    nodes: &N,
    mdb: &Mdb,
    dir: u32,
    name: &[u8],
) -> Result<CatalogItem, i16>
    requires { IsCatalog (N.nodes nodes.now) }
    ensures { result ≡ chosen_to_delete mdb.now (N.nodes nodes.now) dir name.now }
{
    match child_to_change(nodes, mdb, dir, name) {
        Ok(item) => {
            if is_busy(&item) {
                return Err(BUSY);
            }
            if is_locked(&item) {
                return Err(FILE_LOCKED);
            }
            Ok(item)
        }
        Err(code) => Err(code),
    }
}

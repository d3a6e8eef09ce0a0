//! Removing an item from its folder, in the nodes of a catalog.

ghost use Rattle.std.specs.Prelude.{◌≡◌, OnOk};
ghost use Rattle.hfs_fields.specs.Each.{Each};
ghost use Rattle.hfs_catalog.specs.Sound.{IsRecord};
ghost use Rattle.hfs_catalog.specs.Tree.{IsCatalogTree, catalog_of};
ghost use Rattle.hfs_call_patches.specs.Deleting.{StaysFolder, ItemDropped, HasIdUnder, IsItemUnder};
ghost use Rattle.hfs_btree_edits.specs.Edits.{Edits};

use crate::valences::FolderPlace;
use hfs_btree_edits::NodesMut;
use hfs_fields::CatKey;
use hfs_record_edits::{drop_item, set_valence};
use std::alloc::{AllocError, Global};

/// The folder that an item is deleted from: its ID, its key, and the number of its children.
#[derive(Clone, Copy)]
pub struct ParentFolder {
    pub id: u32,
    pub key: CatKey,
    pub valence: u16,
}

/// Removes the item under a key, which has this ID, with its thread if it has one; then its folder has as many children as are
/// given, and `now` as the moment of its last change.
///
/// After `AllocError` nothing is known of the nodes.
pub(crate) fn drop_from_folder<N: NodesMut>(
    alloc: Global,
    nodes: &mut N,
    key: &CatKey,
    id: u32,
    folder: &FolderPlace,
    now: u32,
) -> Result<(), AllocError>
    requires tree { IsCatalogTree (N.nodes nodes.old) }
    requires records { Each IsRecord (catalog_of (N.nodes nodes.old)) }
    requires there { IsItemUnder key.now (catalog_of (N.nodes nodes.old)) }
    requires own { HasIdUnder key.now id (catalog_of (N.nodes nodes.old)) }
    requires stays { StaysFolder key.now id folder.now.key (N.nodes nodes.old) }
    ensures dropped { Edits result (ItemDropped key.now id folder.now.key folder.now.valence now)
        N.nodes nodes.old nodes.new }
    ensures kept { OnOk result (N.kept nodes.new ≡ N.kept nodes.old) }
{
    drop_item(alloc, nodes, key, id)?;
    set_valence(alloc, nodes, &folder.key, folder.valence, now)
}

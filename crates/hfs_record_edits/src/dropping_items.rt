//! Removing items.
ghost use Rattle.std.specs.Prelude.{◌≡◌, OnOk};
ghost use Rattle.hfs_fields.specs.Each.{Each};
ghost use Rattle.hfs_catalog.specs.Sound.{IsRecord};
ghost use Rattle.hfs_catalog.specs.Tree.{IsCatalogTree, catalog_of};
ghost use Rattle.hfs_btree_edits.specs.Edits.{Edits};
ghost use Rattle.hfs_record_edits.specs.ItemEdits.{HasIdAt, IsItemAt, ItemWent};

use crate::one_record::take;
use crate::threads::drop_thread;
use hfs_btree_edits::NodesMut;
use hfs_fields::CatKey;
use std::alloc::{AllocError, Global};

/// Removes the item under a key, and the thread of its ID, if it has one; the ID must be the item's.
///
/// Takes no free nodes. After `AllocError` nothing is known of the nodes.
pub fn drop_item<N: NodesMut>(
    alloc: Global,
    nodes: &mut N,
    key: &CatKey,
    id: u32,
) -> Result<(), AllocError>
    requires tree { IsCatalogTree (N.nodes nodes.old) }
    requires records { Each IsRecord (catalog_of (N.nodes nodes.old)) }
    requires there { IsItemAt (N.nodes nodes.old) key.now }
    requires own { HasIdAt (N.nodes nodes.old) key.now id }
    ensures went { Edits result (ItemWent key.now id) N.nodes nodes.old nodes.new }
    ensures kept { OnOk result (N.kept nodes.new ≡ N.kept nodes.old) }
{
    take(alloc, nodes, key)?;
    drop_thread(alloc, nodes, id)
}

//! The valences of two folders between which an item was moved.

ghost use Rattle.std.specs.Prelude.{◌≡◌, ◌+◌, ◌<◌, ◌≤◌, ◌^◌, OnOk};
ghost use Rattle.hfs_catalog.specs.Tree.{IsCatalogTree, catalog_of};
ghost use Rattle.hfs_call_patches.specs.Valences.{StandAt, ValencesSet};
ghost use Rattle.hfs_btree_edits.specs.Edits.{Edits};

use hfs_btree_edits::NodesMut;
use hfs_fields::CatKey;
use hfs_record_edits::set_valence;
use std::alloc::{AllocError, Global};

/// A folder's key, and the number of its children.
#[derive(Clone, Copy)]
pub struct FolderPlace {
    pub key: CatKey,
    pub valence: u16,
}

/// Gives the folder that an item left one child fewer, the one that it entered one more, and both this moment.
pub(crate) fn set_valences<N: NodesMut>(
    alloc: Global,
    nodes: &mut N,
    left: &FolderPlace,
    entered: &FolderPlace,
    now: u32,
) -> Result<(), AllocError>
    requires tree { IsCatalogTree (N.nodes nodes.old) }
    requires stand { StandAt left.now entered.now (catalog_of (N.nodes nodes.old)) }
    requires some { 1 ≤ left.now.valence }
    requires room { entered.now.valence + 1 < 2 ^ 16 }
    ensures set { Edits result (ValencesSet left.now entered.now now) N.nodes nodes.old nodes.new }
    ensures kept { OnOk result (N.kept nodes.new ≡ N.kept nodes.old) }
{
    set_valence(alloc, nodes, &left.key, left.valence - 1, now)?;
    set_valence(alloc, nodes, &entered.key, entered.valence + 1, now)?;
    Ok(())
}

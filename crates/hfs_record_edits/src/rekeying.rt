//! Moving items to another key.
ghost use Rattle.std.specs.Prelude.{◌≡◌, ◌≤◌, false, OnOk, length};
ghost use Rattle.std.specs.Ordering.{is_eq};
ghost use Rattle.hfs_fields.specs.Keys.{cat_cmp};
ghost use Rattle.hfs_fields.specs.Each.{Each};
ghost use Rattle.hfs_catalog.specs.Sound.{IsRecord, AreNamesSound};
ghost use Rattle.hfs_catalog.specs.Tree.{IsCatalogTree, catalog_of};
ghost use Rattle.hfs_btree_edits.specs.Edits.{Edits};
ghost use Rattle.hfs_record_edits.specs.ItemEdits.{HasIdAt, IsItemAt, IsFreeUnlessSame, RecordMoved, ItemRekeyed};
ghost use Rattle.hfs_record_edits.specs.Rooms.{IsInFile, HasRoom};
ghost use Rattle.hfs_record_edits.specs.Roots.{HasRoot};

use crate::one_record::{put, set, take};
use crate::threads::turn_thread;
use hfs_btree::find;
use hfs_btree_edits::NodesMut;
use hfs_fields::CatKey;
use std::alloc::{AllocError, Global};

/// Moves the record of an item to another key; if the keys are equal in order, in place.
fn move_record<N: NodesMut>(
    alloc: Global,
    nodes: &mut N,
    from: &CatKey,
    to: &CatKey,
) -> Result<(), AllocError>
    requires tree { IsCatalogTree (N.nodes nodes.old) }
    requires root { HasRoot (catalog_of (N.nodes nodes.old)) }
    requires there { IsItemAt (N.nodes nodes.old) from.now }
    requires low { 2 ≤ from.now.parent }
    requires dir { 2 ≤ to.now.parent }
    requires absent { IsFreeUnlessSame (N.nodes nodes.old) from.now to.now }
    requires inside { IsInFile (N.nodes nodes.old) }
    requires room { is_eq (cat_cmp from.now to.now) ≡ false → HasRoom (N.nodes nodes.old) }
    ensures moved { Edits result (RecordMoved from.now to.now) N.nodes nodes.old nodes.new }
    ensures kept { OnOk result (N.kept nodes.new ≡ N.kept nodes.old) }
{
    let Some(body) = find(alloc, nodes, from)? else {
        unreachable!()
    };
    let order = from.compare(to);
    if order.is_eq() {
        return set(alloc, nodes, to, &body);
    }
    take(alloc, nodes, from)?;
    put(alloc, nodes, to, &body)
}

/// Moves the item under one key, which has this ID, to another key, with its body as it was; its thread, if it has one, then
/// leads there.
///
/// If the keys are equal in order it takes no free nodes, otherwise at most depth + 1. After `AllocError` nothing is known of the
/// nodes.
pub fn rekey<N: NodesMut>(
    alloc: Global,
    nodes: &mut N,
    id: u32,
    from: &CatKey,
    to: &CatKey,
) -> Result<(), AllocError>
    requires tree { IsCatalogTree (N.nodes nodes.old) }
    requires records { Each IsRecord (catalog_of (N.nodes nodes.old)) }
    requires names { AreNamesSound (catalog_of (N.nodes nodes.old)) }
    requires root { HasRoot (catalog_of (N.nodes nodes.old)) }
    requires there { IsItemAt (N.nodes nodes.old) from.now }
    requires own { HasIdAt (N.nodes nodes.old) from.now id }
    requires low { 2 ≤ from.now.parent }
    requires dir { 2 ≤ to.now.parent }
    requires named { 1 ≤ length to.now.name }
    requires absent { IsFreeUnlessSame (N.nodes nodes.old) from.now to.now }
    requires inside { IsInFile (N.nodes nodes.old) }
    requires room { is_eq (cat_cmp from.now to.now) ≡ false → HasRoom (N.nodes nodes.old) }
    ensures rekeyed { Edits result (ItemRekeyed id from.now to.now) N.nodes nodes.old nodes.new }
    ensures kept { OnOk result (N.kept nodes.new ≡ N.kept nodes.old) }
{
    move_record(alloc, nodes, from, to)?;
    turn_thread(alloc, nodes, id, to)
}

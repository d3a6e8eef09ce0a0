//! Rewriting records of items in place.
ghost use Rattle.std.specs.Prelude.{◌≡◌, OnOk};
ghost use Rattle.hfs_catalog.specs.Tree.{IsCatalogTree, cat_keys};
ghost use Rattle.hfs_btree_edits.specs.Edits.{Edits};
ghost use Rattle.hfs_btree_edits.specs.Entries.{IsPlaceOf};
ghost use Rattle.hfs_record_edits.specs.Bodies.{IsItemValue};
ghost use Rattle.hfs_record_edits.specs.ItemEdits.{IsFolderAt, IsSameKindAt, ItemSet, HasValenceSet};

use crate::bodies::{file_body, folder_body};
use crate::one_record::set_at;
use hfs_btree::{body_of, entry_in};
use hfs_btree_edits::{NodesMut, RecordPlace, find_place};
use hfs_catalog::ItemRecord;
use hfs_fields::{CatKey, DirRecord};
use std::alloc::{AllocError, Global};

/// Writes a folder's or a file's record under its key, where there is one of the same kind, whose place was found. No node is
/// added or removed.
///
/// After `AllocError` nothing is known of the nodes.
pub fn set_record_at<N: NodesMut>(
    alloc: Global,
    nodes: &mut N,
    key: &CatKey,
    item: &ItemRecord,
    place: &RecordPlace,
) -> Result<(), AllocError>
    requires tree { IsCatalogTree (N.nodes nodes.old) }
    requires there { IsSameKindAt (N.nodes nodes.old) key.now item.now }
    requires place { IsPlaceOf cat_keys (N.nodes nodes.old) key.now place.now }
    ensures set { Edits result (ItemSet key.now item.now) N.nodes nodes.old nodes.new }
    ensures value { OnOk result (IsItemValue item.now) }
    ensures kept { OnOk result (N.kept nodes.new ≡ N.kept nodes.old) }
{
    match item {
        ItemRecord::Folder(folder) => set_at(alloc, nodes, key, &folder_body(folder), place),
        ItemRecord::File(file) => set_at(alloc, nodes, key, &file_body(file), place),
    }
}

/// Writes a folder's or a file's record under its key, where there is one of the same kind. No node is added or removed.
///
/// After `AllocError` nothing is known of the nodes.
pub fn set_record<N: NodesMut>(
    alloc: Global,
    nodes: &mut N,
    key: &CatKey,
    item: &ItemRecord,
) -> Result<(), AllocError>
    requires tree { IsCatalogTree (N.nodes nodes.old) }
    requires there { IsSameKindAt (N.nodes nodes.old) key.now item.now }
    ensures set { Edits result (ItemSet key.now item.now) N.nodes nodes.old nodes.new }
    ensures value { OnOk result (IsItemValue item.now) }
    ensures kept { OnOk result (N.kept nodes.new ≡ N.kept nodes.old) }
{
    let place = find_place(nodes, key);
    set_record_at(alloc, nodes, key, item, &place)
}

/// Gives the folder under a key, whose record's place was found, this valence, and `now` as the moment of its last change. The
/// rest of its record stays.
///
/// After `AllocError` nothing is known of the nodes.
pub fn set_valence_at<N: NodesMut>(
    alloc: Global,
    nodes: &mut N,
    key: &CatKey,
    valence: u16,
    now: u32,
    place: &RecordPlace,
) -> Result<(), AllocError>
    requires tree { IsCatalogTree (N.nodes nodes.old) }
    requires there { IsFolderAt (N.nodes nodes.old) key.now }
    requires place { IsPlaceOf cat_keys (N.nodes nodes.old) key.now place.now }
    ensures set { Edits result (HasValenceSet key.now valence now) N.nodes nodes.old nodes.new }
    ensures kept { OnOk result (N.kept nodes.new ≡ N.kept nodes.old) }
{
    let Some(entry) = entry_in(&place.bytes, place.at) else {
        unreachable!()
    };
    let Some(folder) = DirRecord::read(body_of::<CatKey>(entry)) else {
        unreachable!()
    };
    let changed = DirRecord {
        valence,
        modified: now,
        ..folder
    };
    set_at(alloc, nodes, key, &folder_body(&changed), place)
}

/// Gives the folder under a key this valence, and `now` as the moment of its last change. The rest of its record stays.
///
/// After `AllocError` nothing is known of the nodes.
pub fn set_valence<N: NodesMut>(
    alloc: Global,
    nodes: &mut N,
    key: &CatKey,
    valence: u16,
    now: u32,
) -> Result<(), AllocError>
    requires tree { IsCatalogTree (N.nodes nodes.old) }
    requires there { IsFolderAt (N.nodes nodes.old) key.now }
    ensures set { Edits result (HasValenceSet key.now valence now) N.nodes nodes.old nodes.new }
    ensures kept { OnOk result (N.kept nodes.new ≡ N.kept nodes.old) }
{
    let place = find_place(nodes, key);
    set_valence_at(alloc, nodes, key, valence, now, &place)
}

//! Adding new items to a catalog: their records and their folder's.

ghost use Rattle.std.specs.Prelude.{◌≡◌, ◌+◌, ◌<◌, ◌^◌, OnOk};
ghost use Rattle.hfs_catalog.specs.Tree.{IsCatalogTree, cat_keys};
ghost use Rattle.hfs_record_edits.specs.Rooms.{HasRoom, HasRoomForTwo};
ghost use Rattle.hfs_call_patches.specs.NewItems.{TakesItem, TakesFolder, PutsFile, PutsFolder};
ghost use Rattle.hfs_btree_edits.specs.Edits.{Edits};
ghost use Rattle.hfs_btree_edits.specs.Entries.{IsPlaceOf};

use hfs_btree_edits::{NodesMut, RecordPlace};
use hfs_fields::{CatKey, DirRecord, FileRecord, Name};
use hfs_record_edits::{add_dir, add_file, set_valence_at};
use std::alloc::{AllocError, Global};

/// A new item's name, and its folder's key with the number of its children.
#[derive(Clone, Copy)]
pub struct NewPlace {
    pub name: Name,
    pub folder: CatKey,
    pub children: u16,
}

/// Where a new item goes, and where the record of its folder is.
#[derive(Clone, Copy)]
pub struct FoundPlace {
    pub place: NewPlace,
    pub folder_at: RecordPlace,
}

/// Gives the folder one more child, and then adds the record of a new file with this ID to the catalog. It is in this order since
/// adding a record may move others. After `AllocError` nothing is known of the nodes.
pub(crate) fn put_file<N: NodesMut>(
    alloc: Global,
    nodes: &mut N,
    dir: u32,
    found: &FoundPlace,
    id: u32,
    now: u32,
) -> Result<(), AllocError>
    requires tree { IsCatalogTree (N.nodes nodes.old) }
    requires place { TakesItem dir found.now.place (N.nodes nodes.old) }
    requires at { IsPlaceOf cat_keys (N.nodes nodes.old)
        found.now.place.folder found.now.folder_at }
    requires room { HasRoom (N.nodes nodes.old) }
    requires short { found.now.place.children + 1 < 2 ^ 16 }
    ensures put { Edits result (PutsFile id dir found.now.place now) N.nodes nodes.old nodes.new }
    ensures kept { OnOk result (N.kept nodes.new ≡ N.kept nodes.old) }
{
    set_valence_at(
        alloc,
        nodes,
        &found.place.folder,
        found.place.children + 1,
        now,
        &found.folder_at,
    )?;
    let file = FileRecord::new(id, now);
    add_file(alloc, nodes, dir, &found.place.name, &file)?;
    Ok(())
}

/// Gives the folder one more child, and then adds the records of a new folder with this ID and of its thread to the catalog. It
/// is in this order since adding a record may move others. After `AllocError` nothing is known of the nodes.
pub(crate) fn put_folder<N: NodesMut>(
    alloc: Global,
    nodes: &mut N,
    dir: u32,
    found: &FoundPlace,
    id: u32,
    now: u32,
) -> Result<(), AllocError>
    requires tree { IsCatalogTree (N.nodes nodes.old) }
    requires place { TakesFolder id dir found.now.place (N.nodes nodes.old) }
    requires at { IsPlaceOf cat_keys (N.nodes nodes.old)
        found.now.place.folder found.now.folder_at }
    requires room { HasRoomForTwo (N.nodes nodes.old) }
    requires short { found.now.place.children + 1 < 2 ^ 16 }
    ensures put { Edits result (PutsFolder id dir found.now.place now) N.nodes nodes.old nodes.new }
    ensures kept { OnOk result (N.kept nodes.new ≡ N.kept nodes.old) }
{
    set_valence_at(
        alloc,
        nodes,
        &found.place.folder,
        found.place.children + 1,
        now,
        &found.folder_at,
    )?;
    let folder = DirRecord::new(id, now);
    add_dir(alloc, nodes, dir, &found.place.name, &folder)?;
    Ok(())
}

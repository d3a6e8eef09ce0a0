//! What Create and DirCreate make of a volume's blocks.

ghost use Rattle.hfs_model.specs.declared.call.Call.TheVariants as call;
ghost use Rattle.hfs_catalog.specs.Tree.{cat_keys};
ghost use Rattle.hfs_btree_edits.specs.Entries.{IsPlaceOf};
ghost use Rattle.hfs_record_edits.specs.Rooms.{HasRoom, HasRoomForTwo};
ghost use Rattle.hfs_check.specs.Parts.{catalog_nodes};
ghost use Rattle.hfs_call_patches.specs.CallChanges.{IsChangeOf, Makes};
ghost use Rattle.hfs_call_patches.specs.ReadyPlaces.{IsReadyIn};

use crate::catalog_patch::{close_catalog, open_catalog};
use crate::change::Change;
use crate::new_counts::{with_file, with_folder};
use crate::new_items::{FoundPlace, put_file, put_folder};
use crate::volume::MountedBlocks;
use hfs_blocks::Blocks;
use hfs_model::Value;
use std::alloc::{AllocError, Global};

/// What a new file makes of a volume. Fails only when out of memory.
pub fn add_new_file<B: Blocks>(
    alloc: Global,
    volume: &MountedBlocks<'_, B>,
    dir: u32,
    found: &FoundPlace,
    now: u32,
) -> Result<Change, AllocError>
    requires ready { IsReadyIn B.total B.blocks volume.now.blocks.now volume.now.catalog.now
        volume.now.mdb.now dir found.now.place }
    requires at { IsPlaceOf cat_keys (catalog_nodes (B.blocks volume.now.blocks.now))
        found.now.place.folder found.now.folder_at }
    requires room { HasRoom (catalog_nodes (B.blocks volume.now.blocks.now)) }
    ensures { Makes result (IsChangeOf (call.Create dir found.now.place.name now))
        B.total B.blocks volume.now.blocks.now }
{
    let counts = with_file(volume.mdb, dir, now);
    let mut nodes = open_catalog(alloc, volume.blocks, volume.catalog);
    put_file(alloc, &mut nodes, dir, found, volume.mdb.next_id, now)?;
    let patch = close_catalog(volume.blocks, volume.catalog, nodes, &counts)?;
    Ok(Change {
        patch,
        counts,
        written: None,
        value: Value::Id(volume.mdb.next_id),
    })
}

/// What a new folder makes of a volume. Fails only when out of memory.
pub fn add_new_folder<B: Blocks>(
    alloc: Global,
    volume: &MountedBlocks<'_, B>,
    dir: u32,
    found: &FoundPlace,
    now: u32,
) -> Result<Change, AllocError>
    requires ready { IsReadyIn B.total B.blocks volume.now.blocks.now volume.now.catalog.now
        volume.now.mdb.now dir found.now.place }
    requires at { IsPlaceOf cat_keys (catalog_nodes (B.blocks volume.now.blocks.now))
        found.now.place.folder found.now.folder_at }
    requires room { HasRoomForTwo (catalog_nodes (B.blocks volume.now.blocks.now)) }
    ensures { Makes result (IsChangeOf (call.DirCreate dir found.now.place.name now))
        B.total B.blocks volume.now.blocks.now }
{
    let counts = with_folder(volume.mdb, dir, now);
    let mut nodes = open_catalog(alloc, volume.blocks, volume.catalog);
    put_folder(alloc, &mut nodes, dir, found, volume.mdb.next_id, now)?;
    let patch = close_catalog(volume.blocks, volume.catalog, nodes, &counts)?;
    Ok(Change {
        patch,
        counts,
        written: None,
        value: Value::Id(volume.mdb.next_id),
    })
}

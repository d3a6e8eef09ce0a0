//! Putting a folder's or a file's record in place of another, with the volume's counts, as a patch of the volume's blocks.

ghost use Rattle.std.specs.Prelude.{IsTrue, IfOk};
ghost use Rattle.hfs_fields.specs.Names.{is_item_name};
ghost use Rattle.hfs_blocks.specs.Layers.{changes, AreWithin};
ghost use Rattle.hfs_catalog.specs.Tree.{cat_keys};
ghost use Rattle.hfs_btree_edits.specs.Entries.{IsPlaceOf};
ghost use Rattle.hfs_check.specs.Parts.{catalog_in, catalog_nodes};
ghost use Rattle.hfs_check.specs.Sound.{AreBlocksSound};
ghost use Rattle.hfs_call_patches.specs.TreeFiles.{IsCatalogFile};
ghost use Rattle.hfs_call_patches.specs.Settings.{HasSetItem, IsOfKindUnder};
ghost use Rattle.hfs_call_patches.specs.Patches.{GivesPatch};

use crate::catalog_patch::{close_catalog, open_catalog};
use crate::volume::MountedBlocks;
use hfs_blocks::{Blocks, Patch};
use hfs_btree_edits::RecordPlace;
use hfs_catalog::ItemRecord;
use hfs_fields::{CatKey, Mdb};
use hfs_record_edits::set_record_at;
use std::alloc::{AllocError, Global};

/// The patch that puts an item's record in place of the one under this key, which is of its kind and is at this place, and these
/// counts into the master directory block. It has that block and one node. Fails only when out of memory.
pub(crate) fn patch_record<B: Blocks>(
    alloc: Global,
    volume: &MountedBlocks<'_, B>,
    key: &CatKey,
    place: &RecordPlace,
    item: &ItemRecord,
    counts: &Mdb,
) -> Result<Patch, AllocError>
    requires sound { AreBlocksSound (B.total volume.now.blocks.now)
        (B.blocks volume.now.blocks.now) }
    requires nodes { IsCatalogFile volume.now.catalog.now (B.total volume.now.blocks.now)
        (B.blocks volume.now.blocks.now) }
    requires name { IsTrue (is_item_name key.now.name) }
    requires place { IsPlaceOf cat_keys (catalog_nodes (B.blocks volume.now.blocks.now))
        key.now place.now }
    requires there { IsOfKindUnder key.now item.now
        (catalog_in (B.blocks volume.now.blocks.now)) }
    ensures set { GivesPatch result (B.blocks volume.now.blocks.now)
        (HasSetItem key.now item.now counts.now) }
    ensures within { IfOk result (λ patch.
        AreWithin (changes patch) (B.total volume.now.blocks.now)) }
{
    let mut nodes = open_catalog(alloc, volume.blocks, volume.catalog);
    set_record_at(alloc, &mut nodes, key, item, place)?;
    close_catalog(volume.blocks, volume.catalog, nodes, counts)
}

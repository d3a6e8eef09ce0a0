//! What Delete of a folder makes of a volume's blocks.

ghost use Rattle.std.specs.Prelude.{◌≡◌, IfOk};
ghost use Rattle.hfs_blocks.specs.Layers.{changes, AreWithin};
ghost use Rattle.hfs_record_edits.specs.RemovalLaws.{without_folder};
ghost use Rattle.hfs_check.specs.Parts.{mdb_in, catalog_in};
ghost use Rattle.hfs_check.specs.Sound.{AreBlocksSound};
ghost use Rattle.hfs_call_patches.specs.Deleting.{IsParent, IsFolderToDelete};
ghost use Rattle.hfs_call_patches.specs.TreeFiles.{IsCatalogFile};
ghost use Rattle.hfs_call_patches.specs.Patches.{GivesFolderDeletion};

use crate::catalog_patch::{close_catalog, open_catalog};
use crate::dropping::{ParentFolder, drop_from_folder};
use crate::valences::FolderPlace;
use crate::volume::MountedBlocks;
use hfs_blocks::{Blocks, Patch};
use hfs_fields::{CatKey, DirRecord, Mdb};
use std::alloc::{AllocError, Global};

/// The counts of a volume from which a folder in this one is deleted.
pub fn without_folder(mdb: &Mdb, dir: u32, now: u32) -> Mdb
    ensures { result ≡ without_folder dir now mdb.now }
{
    let in_root = dir == 2;
    Mdb {
        modified: now,
        root_folders: mdb.root_folders.saturating_sub(u16::from(in_root)),
        folders: mdb.folders.saturating_sub(1),
        ..*mdb
    }
}

/// The patch that deletes a folder, with this key and this record, from its parent. Fails only when out of memory.
pub fn patch_delete_folder<B: Blocks>(
    alloc: Global,
    volume: &MountedBlocks<'_, B>,
    key: &CatKey,
    folder: &DirRecord,
    parent: &ParentFolder,
    now: u32,
) -> Result<Patch, AllocError>
    requires sound { AreBlocksSound (B.total volume.now.blocks.now)
        (B.blocks volume.now.blocks.now) }
    requires nodes { IsCatalogFile volume.now.catalog.now (B.total volume.now.blocks.now)
        (B.blocks volume.now.blocks.now) }
    requires mdb { volume.now.mdb.now ≡ mdb_in (B.blocks volume.now.blocks.now) }
    requires chosen { IsFolderToDelete (B.blocks volume.now.blocks.now) parent.now.id
        key.now folder.now }
    requires parent { IsParent (catalog_in (B.blocks volume.now.blocks.now)) parent.now.id
        parent.now.key parent.now.valence }
    ensures makes { GivesFolderDeletion result parent.now.id key.now folder.now now
        (B.blocks volume.now.blocks.now) }
    ensures within { IfOk result (λ patch.
        AreWithin (changes patch) (B.total volume.now.blocks.now)) }
{
    let left = FolderPlace {
        key: parent.key,
        valence: parent.valence - 1,
    };
    let mut nodes = open_catalog(alloc, volume.blocks, volume.catalog);
    drop_from_folder(alloc, &mut nodes, key, folder.id, &left, now)?;
    let counts = without_folder(volume.mdb, parent.id, now);
    close_catalog(volume.blocks, volume.catalog, nodes, &counts)
}

//! What CreateFileId and DeleteFileId make of a volume's blocks.

ghost use Rattle.std.specs.Prelude.{◌≡◌, IfOk};
ghost use Rattle.hfs_model.specs.FileIds.{to_create_file_id};
ghost use Rattle.hfs_blocks.specs.Layers.{changes, AreWithin};
ghost use Rattle.hfs_record_edits.specs.Rooms.{IsInFile, HasRoom};
ghost use Rattle.hfs_check.specs.Parts.{mdb_in, catalog_in, catalog_nodes};
ghost use Rattle.hfs_check.specs.Sound.{AreBlocksSound};
ghost use Rattle.hfs_record_edits.specs.OnBlocks.{at_time};
ghost use Rattle.hfs_call_patches.specs.FileIds.{IsFileToLoseId, IsThreadless};
ghost use Rattle.hfs_call_patches.specs.TreeFiles.{IsCatalogFile};
ghost use Rattle.hfs_call_patches.specs.Settings.{IsFileChosenBy};
ghost use Rattle.hfs_call_patches.specs.SettingPatches.{CreatesFileId, DeletesFileId};

use crate::catalog_patch::{close_catalog, open_catalog};
use crate::file_threads::{add_file_thread, drop_file_thread};
use crate::settings::at_time;
use crate::volume::MountedBlocks;
use hfs_blocks::{Blocks, Patch};
use hfs_fields::{CatKey, FileRecord};
use std::alloc::{AllocError, Global};

/// The patch that gives a thread to the file that CreateFileId chooses, with this key and this record. Fails only when out of
/// memory.
pub fn patch_create_file_id<B: Blocks>(
    alloc: Global,
    volume: &MountedBlocks<'_, B>,
    key: &CatKey,
    file: &FileRecord,
    now: u32,
) -> Result<Patch, AllocError>
    requires sound { AreBlocksSound (B.total volume.now.blocks.now)
        (B.blocks volume.now.blocks.now) }
    requires nodes { IsCatalogFile volume.now.catalog.now (B.total volume.now.blocks.now)
        (B.blocks volume.now.blocks.now) }
    requires mdb { volume.now.mdb.now ≡ mdb_in (B.blocks volume.now.blocks.now) }
    requires chosen { IsFileChosenBy to_create_file_id (B.blocks volume.now.blocks.now)
        key.now file.now }
    requires threadless { IsThreadless (catalog_in (B.blocks volume.now.blocks.now))
        key.now file.now }
    requires inside { IsInFile (catalog_nodes (B.blocks volume.now.blocks.now)) }
    requires room { HasRoom (catalog_nodes (B.blocks volume.now.blocks.now)) }
    ensures makes { CreatesFileId result key.now file.now now
        (B.blocks volume.now.blocks.now) }
    ensures within { IfOk result (λ patch.
        AreWithin (changes patch) (B.total volume.now.blocks.now)) }
{
    let mut nodes = open_catalog(alloc, volume.blocks, volume.catalog);
    add_file_thread(alloc, &mut nodes, key, file)?;
    close_catalog(
        volume.blocks,
        volume.catalog,
        nodes,
        &at_time(volume.mdb, now),
    )
}

/// The patch that removes the thread of the file that DeleteFileId chooses, with this key and this record. Fails only when out of
/// memory.
pub fn patch_delete_file_id<B: Blocks>(
    alloc: Global,
    volume: &MountedBlocks<'_, B>,
    key: &CatKey,
    file: &FileRecord,
    now: u32,
) -> Result<Patch, AllocError>
    requires sound { AreBlocksSound (B.total volume.now.blocks.now)
        (B.blocks volume.now.blocks.now) }
    requires nodes { IsCatalogFile volume.now.catalog.now (B.total volume.now.blocks.now)
        (B.blocks volume.now.blocks.now) }
    requires mdb { volume.now.mdb.now ≡ mdb_in (B.blocks volume.now.blocks.now) }
    requires chosen { IsFileToLoseId (B.blocks volume.now.blocks.now) key.now file.now }
    ensures makes { DeletesFileId result key.now file.now now
        (B.blocks volume.now.blocks.now) }
    ensures within { IfOk result (λ patch.
        AreWithin (changes patch) (B.total volume.now.blocks.now)) }
{
    let mut nodes = open_catalog(alloc, volume.blocks, volume.catalog);
    drop_file_thread(alloc, &mut nodes, key, file)?;
    close_catalog(
        volume.blocks,
        volume.catalog,
        nodes,
        &at_time(volume.mdb, now),
    )
}

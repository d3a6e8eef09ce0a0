//! The patches of the calls that set an item's dates, Finder bytes or lock.

ghost use Rattle.std.specs.Prelude.{◌≡◌, IfOk, take, drop};
ghost use Rattle.hfs_model.specs.Choices.{file_to_change, to_set_f_info, to_set_cat_info};
ghost use Rattle.hfs_blocks.specs.Layers.{changes, AreWithin};
ghost use Rattle.hfs_record_edits.specs.OnBlocks.{at_time};
ghost use Rattle.hfs_check.specs.Parts.{mdb_in, catalog_nodes};
ghost use Rattle.hfs_catalog.specs.Tree.{cat_keys};
ghost use Rattle.hfs_btree_edits.specs.Entries.{IsPlaceOf};
ghost use Rattle.hfs_check.specs.Sound.{AreBlocksSound};
ghost use Rattle.hfs_call_patches.specs.TreeFiles.{IsCatalogFile};
ghost use Rattle.hfs_call_patches.specs.Settings.{IsFileChosenBy, IsFolderChosenBy};
ghost use Rattle.hfs_call_patches.specs.SettingPatches.{SetsFInfo, SetsFileInfo, SetsFolderInfo, SetsLock};

use crate::choosing::FoundFile;
use crate::recorded::patch_record;
use crate::volume::MountedBlocks;
use hfs_blocks::{Blocks, Patch};
use hfs_btree_edits::RecordPlace;
use hfs_catalog::ItemRecord;
use hfs_fields::{CatKey, DirRecord, FileRecord, Mdb};
use hfs_model::ItemSettings;
use std::alloc::{AllocError, Global};

/// A folder of the catalog, and where its record is.
#[derive(Clone, Copy)]
pub struct FoundFolder {
    /// The key of its record.
    pub key: CatKey,
    /// Its record.
    pub folder: DirRecord,
    /// The place of its record in the catalog.
    pub place: RecordPlace,
}

/// The two halves of the Finder bytes.
fn halves(info: &[u8; 32]) -> ([u8; 16], [u8; 16])
    ensures { result ≡ (take 16 info.now, drop 16 info.now) }
{
    let mut first = [0; 16];
    let mut second = [0; 16];
    first.copy_from_slice(&info[..16]);
    second.copy_from_slice(&info[16..]);
    (first, second)
}

/// The volume's counts as they are, with another moment of the last change.
pub(crate) fn at_time(mdb: &Mdb, now: u32) -> Mdb
    ensures { result ≡ at_time now mdb.now }
{
    Mdb {
        modified: now,
        ..*mdb
    }
}

/// The patch that gives the file that SetFInfo chooses new first Finder bytes. Fails only when out of memory.
pub fn patch_set_f_info<B: Blocks>(
    alloc: Global,
    volume: &MountedBlocks<'_, B>,
    found: &FoundFile,
    info: &[u8; 16],
    now: u32,
) -> Result<Patch, AllocError>
    requires sound { AreBlocksSound (B.total volume.now.blocks.now)
        (B.blocks volume.now.blocks.now) }
    requires nodes { IsCatalogFile volume.now.catalog.now (B.total volume.now.blocks.now)
        (B.blocks volume.now.blocks.now) }
    requires mdb { volume.now.mdb.now ≡ mdb_in (B.blocks volume.now.blocks.now) }
    requires chosen { IsFileChosenBy to_set_f_info (B.blocks volume.now.blocks.now)
        found.now.key found.now.file }
    requires place { IsPlaceOf cat_keys (catalog_nodes (B.blocks volume.now.blocks.now))
        found.now.key found.now.place }
    ensures makes { SetsFInfo result found.now.key found.now.file info.now now
        (B.blocks volume.now.blocks.now) }
    ensures within { IfOk result (λ patch.
        AreWithin (changes patch) (B.total volume.now.blocks.now)) }
{
    let changed = FileRecord {
        finder_info: *info,
        ..found.file
    };
    patch_record(
        alloc,
        volume,
        &found.key,
        &found.place,
        &ItemRecord::File(changed),
        &at_time(volume.mdb, now),
    )
}

/// The patch that gives the file that SetCatInfo chooses new dates and Finder bytes. Fails only when out of memory.
pub fn patch_set_file_info<B: Blocks>(
    alloc: Global,
    volume: &MountedBlocks<'_, B>,
    found: &FoundFile,
    settings: &ItemSettings,
    now: u32,
) -> Result<Patch, AllocError>
    requires sound { AreBlocksSound (B.total volume.now.blocks.now)
        (B.blocks volume.now.blocks.now) }
    requires nodes { IsCatalogFile volume.now.catalog.now (B.total volume.now.blocks.now)
        (B.blocks volume.now.blocks.now) }
    requires mdb { volume.now.mdb.now ≡ mdb_in (B.blocks volume.now.blocks.now) }
    requires chosen { IsFileChosenBy to_set_cat_info (B.blocks volume.now.blocks.now)
        found.now.key found.now.file }
    requires place { IsPlaceOf cat_keys (catalog_nodes (B.blocks volume.now.blocks.now))
        found.now.key found.now.place }
    ensures makes { SetsFileInfo result found.now.key found.now.file settings.now now
        (B.blocks volume.now.blocks.now) }
    ensures within { IfOk result (λ patch.
        AreWithin (changes patch) (B.total volume.now.blocks.now)) }
{
    let (finder_info, extended_finder_info) = halves(&settings.info);
    let changed = FileRecord {
        created: settings.created,
        modified: settings.modified,
        backup: settings.backup,
        finder_info,
        extended_finder_info,
        ..found.file
    };
    patch_record(
        alloc,
        volume,
        &found.key,
        &found.place,
        &ItemRecord::File(changed),
        &at_time(volume.mdb, now),
    )
}

/// The patch that gives the folder that SetCatInfo chooses new dates and Finder bytes. Fails only when out of memory.
pub fn patch_set_folder_info<B: Blocks>(
    alloc: Global,
    volume: &MountedBlocks<'_, B>,
    found: &FoundFolder,
    settings: &ItemSettings,
    now: u32,
) -> Result<Patch, AllocError>
    requires sound { AreBlocksSound (B.total volume.now.blocks.now)
        (B.blocks volume.now.blocks.now) }
    requires nodes { IsCatalogFile volume.now.catalog.now (B.total volume.now.blocks.now)
        (B.blocks volume.now.blocks.now) }
    requires mdb { volume.now.mdb.now ≡ mdb_in (B.blocks volume.now.blocks.now) }
    requires chosen { IsFolderChosenBy to_set_cat_info (B.blocks volume.now.blocks.now)
        found.now.key found.now.folder }
    requires place { IsPlaceOf cat_keys (catalog_nodes (B.blocks volume.now.blocks.now))
        found.now.key found.now.place }
    ensures makes { SetsFolderInfo result found.now.key found.now.folder settings.now now
        (B.blocks volume.now.blocks.now) }
    ensures within { IfOk result (λ patch.
        AreWithin (changes patch) (B.total volume.now.blocks.now)) }
{
    let (finder_info, extended_finder_info) = halves(&settings.info);
    let changed = DirRecord {
        created: settings.created,
        modified: settings.modified,
        backup: settings.backup,
        finder_info,
        extended_finder_info,
        ..found.folder
    };
    patch_record(
        alloc,
        volume,
        &found.key,
        &found.place,
        &ItemRecord::Folder(changed),
        &at_time(volume.mdb, now),
    )
}

/// The patch that locks or unlocks the file that SetFLock chooses. Fails only when out of memory.
pub fn patch_set_lock<B: Blocks>(
    alloc: Global,
    volume: &MountedBlocks<'_, B>,
    found: &FoundFile,
    locked: bool,
    now: u32,
) -> Result<Patch, AllocError>
    requires sound { AreBlocksSound (B.total volume.now.blocks.now)
        (B.blocks volume.now.blocks.now) }
    requires nodes { IsCatalogFile volume.now.catalog.now (B.total volume.now.blocks.now)
        (B.blocks volume.now.blocks.now) }
    requires mdb { volume.now.mdb.now ≡ mdb_in (B.blocks volume.now.blocks.now) }
    requires chosen { IsFileChosenBy file_to_change (B.blocks volume.now.blocks.now)
        found.now.key found.now.file }
    requires place { IsPlaceOf cat_keys (catalog_nodes (B.blocks volume.now.blocks.now))
        found.now.key found.now.place }
    ensures makes { SetsLock result locked found.now.key found.now.file now
        (B.blocks volume.now.blocks.now) }
    ensures within { IfOk result (λ patch.
        AreWithin (changes patch) (B.total volume.now.blocks.now)) }
{
    let changed = FileRecord {
        flags: found.file.flags.with_lock(locked),
        ..found.file
    };
    patch_record(
        alloc,
        volume,
        &found.key,
        &found.place,
        &ItemRecord::File(changed),
        &at_time(volume.mdb, now),
    )
}

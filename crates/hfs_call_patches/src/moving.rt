//! What CatMove makes of a volume's blocks.

ghost use Rattle.std.specs.Prelude.{◌≡◌, ◌+◌, ◌<◌, ◌==◌, ◌&&◌, IfOk};
ghost use Rattle.hfs_blocks.specs.Layers.{changes, AreWithin};
ghost use Rattle.hfs_record_edits.specs.Swaps.{one_if};
ghost use Rattle.hfs_check.specs.Parts.{mdb_in};
ghost use Rattle.hfs_check.specs.Sound.{AreBlocksSound};
ghost use Rattle.hfs_call_patches.specs.Moving.{CanMove, FitsCounts, MakesMove, counts_moved};
ghost use Rattle.hfs_call_patches.specs.TreeFiles.{IsCatalogFile};
ghost use Rattle.hfs_call_patches.specs.Patches.{Patches};

use crate::catalog_patch::close_catalog;
use crate::rekeying::{Rekeying, open_rekeyed};
use crate::valences::{FolderPlace, set_valences};
use crate::volume::MountedBlocks;
use hfs_blocks::{Blocks, Patch};
use hfs_fields::Mdb;
use std::alloc::{AllocError, Global};

/// An item that is moved to another folder: whether it is a folder, the folder that it leaves, and the one that it enters.
#[derive(Clone, Copy)]
pub struct Moving {
    pub item: Rekeying,
    pub folder: bool,
    pub left: FolderPlace,
    pub entered: FolderPlace,
}

/// 1 if `so`, else 0.
fn one_if(so: bool) -> u16
    ensures { result ≡ one_if so }
{
    if so { 1 } else { 0 }
}

/// The volume's counts after the item was moved.
pub fn counts_moved(mdb: &Mdb, moving: &Moving, now: u32) -> Mdb
    requires { FitsCounts mdb.now moving.now }
    ensures { result ≡ counts_moved moving.now now mdb.now }
{
    let from_root = moving.item.from.parent == 2;
    let to_root = moving.item.to.parent == 2;
    let files = mdb.root_files + one_if(!moving.folder && to_root);
    let folders = mdb.root_folders + one_if(moving.folder && to_root);
    Mdb {
        modified: now,
        root_files: files - one_if(!moving.folder && from_root),
        root_folders: folders - one_if(moving.folder && from_root),
        ..*mdb
    }
}

/// The patch that moves an item to another folder. Fails only when out of memory.
pub fn patch_move<B: Blocks>(
    alloc: Global,
    volume: &MountedBlocks<'_, B>,
    moving: &Moving,
    now: u32,
) -> Result<Patch, AllocError>
    requires sound { AreBlocksSound (B.total volume.now.blocks.now)
        (B.blocks volume.now.blocks.now) }
    requires file { IsCatalogFile volume.now.catalog.now (B.total volume.now.blocks.now)
        (B.blocks volume.now.blocks.now) }
    requires mdb { volume.now.mdb.now ≡ mdb_in (B.blocks volume.now.blocks.now) }
    requires can { CanMove (B.blocks volume.now.blocks.now) moving.now }
    ensures makes { IfOk result
        (Patches (B.blocks volume.now.blocks.now) (MakesMove moving.now now)) }
    ensures within { IfOk result (λ patch.
        AreWithin (changes patch) (B.total volume.now.blocks.now)) }
{
    let counts = counts_moved(volume.mdb, moving, now);
    let mut nodes = open_rekeyed(alloc, volume.blocks, volume.catalog, &moving.item)?;
    set_valences(alloc, &mut nodes, &moving.left, &moving.entered, now)?;
    close_catalog(volume.blocks, volume.catalog, nodes, &counts)
}

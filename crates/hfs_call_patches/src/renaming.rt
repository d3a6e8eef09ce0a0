//! What Rename makes of a volume's blocks.

ghost use Rattle.std.specs.Prelude.{◌≡◌, IfOk};
ghost use Rattle.hfs_blocks.specs.Layers.{changes, AreWithin};
ghost use Rattle.hfs_check.specs.Parts.{mdb_in, catalog_nodes};
ghost use Rattle.hfs_check.specs.Sound.{AreBlocksSound};
ghost use Rattle.hfs_call_patches.specs.Rekeyings.{CanRekey};
ghost use Rattle.hfs_call_patches.specs.Renaming.{IsItemToRename, MakesRename};
ghost use Rattle.hfs_call_patches.specs.TreeFiles.{IsCatalogFile};
ghost use Rattle.hfs_call_patches.specs.Patches.{Patches};

use crate::catalog_patch::close_catalog;
use crate::rekeying::{Rekeying, open_rekeyed};
use crate::settings::at_time;
use crate::volume::MountedBlocks;
use hfs_blocks::{Blocks, Patch};
use std::alloc::{AllocError, Global};

/// The patch that puts the item that Rename chooses under its new name. Fails only when out of memory.
pub fn patch_rename<B: Blocks>(
    alloc: Global,
    volume: &MountedBlocks<'_, B>,
    item: &Rekeying,
    now: u32,
) -> Result<Patch, AllocError>
    requires sound { AreBlocksSound (B.total volume.now.blocks.now)
        (B.blocks volume.now.blocks.now) }
    requires file { IsCatalogFile volume.now.catalog.now (B.total volume.now.blocks.now)
        (B.blocks volume.now.blocks.now) }
    requires mdb { volume.now.mdb.now ≡ mdb_in (B.blocks volume.now.blocks.now) }
    requires chosen { IsItemToRename (B.blocks volume.now.blocks.now) item.now }
    requires can { CanRekey item.now (catalog_nodes (B.blocks volume.now.blocks.now)) }
    ensures makes { IfOk result
        (Patches (B.blocks volume.now.blocks.now) (MakesRename item.now now)) }
    ensures within { IfOk result (λ patch.
        AreWithin (changes patch) (B.total volume.now.blocks.now)) }
{
    let nodes = open_rekeyed(alloc, volume.blocks, volume.catalog, item)?;
    close_catalog(
        volume.blocks,
        volume.catalog,
        nodes,
        &at_time(volume.mdb, now),
    )
}

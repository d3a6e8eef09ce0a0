//! What Delete of a file makes of a volume's blocks: its bits of the bitmap, its records of the extents tree, its record of the
//! catalog, and the counts.

ghost use Rattle.std.specs.Prelude.{◌≡◌, ◌+◌, ◌<◌, ◌≤◌, IfOk};
ghost use Rattle.hfs_blocks.specs.Layers.{changes, AreWithin};
ghost use Rattle.hfs_btree_edits.specs.Files.{beside};
ghost use Rattle.hfs_space.specs.Extents.{AreExtentsWithin, block_total};
ghost use Rattle.hfs_record_edits.specs.Deletion.{without_one_file};
ghost use Rattle.hfs_check.specs.Parts.{mdb_in, catalog_nodes, catalog_in};
ghost use Rattle.hfs_check.specs.Sound.{AreBlocksSound};
ghost use Rattle.hfs_call_patches.specs.Deleting.{StaysFolder, HasIdUnder, IsItemUnder, IsParent, IsFileToDelete};
ghost use Rattle.hfs_call_patches.specs.TreeFiles.{IsExtentsFile, IsCatalogFile};
ghost use Rattle.hfs_call_patches.specs.Patches.{Patches, LeavesExtents, LeavesCatalog, ShowsSameBeside, ReleasesExtents, DropsOverflow, DropsItem, DeletesFile, GivesPatch};
ghost use Rattle.hfs_call_patches.specs.CallChanges.{Makes};

use crate::counts::put_counts;
use crate::dropping::{ParentFolder, drop_from_folder};
use crate::valences::FolderPlace;
use crate::volume::MountedBlocks;
use hfs_blocks::{Blocks, Patch, Run};
use hfs_btree::RunNodes;
use hfs_btree_edits::PatchNodes;
use hfs_fields::{CatKey, Extent, FileRecord, Mdb};
use hfs_record_edits::{drop_overflow, file_extents, release_extents};
use hfs_space::Bitmap;
use std::alloc::{AllocError, Global};

/// How many allocation blocks the extents have together.
fn block_count(extents: &[Extent]) -> u16
    requires { block_total extents.now < 65536 }
    ensures { result ≡ block_total extents.now }
{
    extents.iter().map(|extent| extent.count).sum()
}

/// How many blocks are free once the blocks of these extents are free as well.
fn free_after(mdb: &Mdb, freed: &[Extent]) -> u16
    requires { mdb.now.free_blocks + block_total freed.now ≤ mdb.now.allocation_blocks }
    ensures { result ≡ mdb.now.free_blocks + block_total freed.now }
{
    let used = mdb.allocation_blocks - mdb.free_blocks;
    mdb.allocation_blocks - (used - block_count(freed))
}

/// The counts of a volume from which a file of this folder is deleted, with this many free blocks.
fn without_file(mdb: &Mdb, dir: u32, free_blocks: u16, now: u32) -> Mdb
    ensures { result ≡ without_one_file dir free_blocks now mdb.now }
{
    let in_root = dir == 2;
    Mdb {
        modified: now,
        free_blocks,
        root_files: mdb.root_files.saturating_sub(u16::from(in_root)),
        files: mdb.files.saturating_sub(1),
        ..*mdb
    }
}

/// The patch in which the bits of the extents' blocks are clear. Fails only when out of memory.
fn clear_bits<B: Blocks>(
    alloc: Global,
    below: &B,
    mdb: &Mdb,
    extents: &[Extent],
) -> Result<Patch, AllocError>
    requires sound { AreBlocksSound (B.total below.now) (B.blocks below.now) }
    requires mdb { mdb.now ≡ mdb_in (B.blocks below.now) }
    requires within { AreExtentsWithin (mdb_in (B.blocks below.now)).allocation_blocks extents.now }
    ensures released { IfOk result (Patches (B.blocks below.now) (ReleasesExtents extents.now)) }
    ensures within { IfOk result (λ patch. AreWithin (changes patch) (B.total below.now)) }
{
    let bitmap = Bitmap {
        blocks: below,
        start: mdb.bitmap_start,
        count: mdb.allocation_blocks,
    };
    let mut patch = Patch::new(alloc);
    release_extents(&bitmap, &mut patch, extents)?;
    Ok(patch)
}

/// The patch in which the extents tree has no record of this file. Fails only when out of memory.
fn drop_records<B: Blocks>(
    alloc: Global,
    below: &B,
    runs: &[Run],
    patch: Patch,
    file: u32,
) -> Result<Patch, AllocError>
    requires sound { AreBlocksSound (B.total below.now) (B.blocks below.now) }
    requires file { IsExtentsFile runs.now (B.total below.now) (B.blocks below.now) }
    requires inside { AreWithin (changes patch) (B.total below.now) }
    requires same { LeavesExtents (B.blocks below.now) runs.now patch }
    ensures dropped { IfOk result (Patches (B.blocks below.now) (DropsOverflow file runs.now)) }
    ensures beside { IfOk result (ShowsSameBeside runs.now (B.blocks below.now) patch) }
    ensures within { IfOk result (λ new. AreWithin (changes new) (B.total below.now)) }
{
    let mut nodes = PatchNodes { below, runs, patch };
    drop_overflow(alloc, &mut nodes, file)?;
    Ok(nodes.patch)
}

/// The patch in which the item under a key is removed from the catalog, and then its folder has as many children as are given.
/// Fails only when out of memory.
fn drop_item_over<B: Blocks>(
    alloc: Global,
    mut nodes: PatchNodes<'_, B>,
    key: &CatKey,
    id: u32,
    folder: &FolderPlace,
    now: u32,
) -> Result<Patch, AllocError>
    requires sound { AreBlocksSound (B.total nodes.below.now) (B.blocks nodes.below.now) }
    requires same { LeavesCatalog (B.blocks nodes.below.now) nodes.runs.now nodes.patch }
    requires there { IsItemUnder key.now (catalog_in (B.blocks nodes.below.now)) }
    requires own { HasIdUnder key.now id (catalog_in (B.blocks nodes.below.now)) }
    requires stays { StaysFolder key.now id folder.now.key
        (catalog_nodes (B.blocks nodes.below.now)) }
    ensures dropped { GivesPatch result (B.blocks nodes.entry.below.now)
        (DropsItem key.now id folder.now.key folder.now.valence now nodes.entry.runs.now) }
    ensures beside { IfOk result (ShowsSameBeside nodes.entry.runs.now
        (B.blocks nodes.entry.below.now) nodes.entry.patch) }
    ensures within { IfOk result (λ new. AreWithin (changes new) (B.total nodes.entry.below.now)) }
{
    drop_from_folder(alloc, &mut nodes, key, id, folder, now)?;
    Ok(nodes.patch)
}

/// The patch that deletes a file, with this key and this record, from its parent; and the volume's counts afterwards. Fails only
/// when out of memory.
pub fn patch_delete_file<B: Blocks>(
    alloc: Global,
    volume: &MountedBlocks<'_, B>,
    key: &CatKey,
    file: &FileRecord,
    parent: &ParentFolder,
    now: u32,
) -> Result<(Patch, Mdb), AllocError>
    requires sound { AreBlocksSound (B.total volume.now.blocks.now)
        (B.blocks volume.now.blocks.now) }
    requires extents { IsExtentsFile volume.now.extents.now (B.total volume.now.blocks.now)
        (B.blocks volume.now.blocks.now) }
    requires catalog { IsCatalogFile volume.now.catalog.now (B.total volume.now.blocks.now)
        (B.blocks volume.now.blocks.now) }
    requires mdb { volume.now.mdb.now ≡ mdb_in (B.blocks volume.now.blocks.now) }
    requires chosen { IsFileToDelete (B.blocks volume.now.blocks.now) parent.now.id
        key.now file.now }
    requires parent { IsParent (catalog_in (B.blocks volume.now.blocks.now)) parent.now.id
        parent.now.key parent.now.valence }
    ensures makes { Makes result (DeletesFile parent.now.id key.now file.now now)
        B.total B.blocks volume.now.blocks.now }
    ensures within { IfOk result (λ made.
        AreWithin (changes made.0) (B.total volume.now.blocks.now)) }
{
    let blocks = volume.blocks;
    let nodes = RunNodes {
        blocks,
        runs: volume.extents,
    };
    let freed = file_extents(alloc, &nodes, file)?;
    let bits = clear_bits(alloc, blocks, volume.mdb, &freed)?;
    let records = drop_records(alloc, blocks, volume.extents, bits, file.id)?;
    let left = FolderPlace {
        key: parent.key,
        valence: parent.valence - 1,
    };
    let mut patch = drop_item_over(
        alloc,
        PatchNodes {
            below: blocks,
            runs: volume.catalog,
            patch: records,
        },
        key,
        file.id,
        &left,
        now,
    )?;
    let free = free_after(volume.mdb, &freed);
    let counts = without_file(volume.mdb, parent.id, free, now);
    put_counts(blocks, &mut patch, &counts)?;
    Ok((patch, counts))
}

//! A file's record in the catalog and the counts, over a patch of a volume's blocks.

ghost use Rattle.std.specs.Prelude.{◌≡◌, ◌<◌, ◌^◌, IfOk};
ghost use Rattle.std.specs.List.{flat_map};
ghost use Rattle.hfs_blocks.specs.Blocks.{run_of, AreRunsWithin};
ghost use Rattle.hfs_blocks.specs.Layers.{changes, AreWithin};
ghost use Rattle.hfs_btree.specs.Sound.{IsDistinct};
ghost use Rattle.hfs_btree_edits.specs.Entries.{IsPlaceOf};
ghost use Rattle.hfs_catalog.specs.Tree.{IsCatalogTree, cat_keys};
ghost use Rattle.hfs_model.specs.Forks.{physical_length};
ghost use Rattle.hfs_call_patches.specs.Files.{file_with};
ghost use Rattle.hfs_call_patches.specs.Patches.{patched_nodes};
ghost use Rattle.hfs_call_patches.specs.Counts.{counts_with};
ghost use Rattle.hfs_call_patches.specs.Recorded.{IsFileAt};
ghost use Rattle.hfs_call_patches.specs.Settling.{Settles};

use crate::choosing::FoundFile;
use crate::put_counts;
use crate::recorded_forks::set_file_over;
use crate::records::{counts_with, file_with};
use crate::volume::{MountedBlocks, Overlay, Resizing, Settled};
use hfs_blocks::{Blocks, Patch};
use hfs_btree_edits::PatchNodes;
use hfs_fields::{Extent, FileRecord, Mdb};
use hfs_model::BlockSize;
use std::alloc::{AllocError, Global};

/// The patch that puts a file's record in place of the one that was found, and then these counts into the master directory block
/// of `blocks`, in which no other byte changes. Fails only when out of memory.
fn settle<B: Blocks, Z: Blocks>(
    alloc: Global,
    blocks: &B,
    nodes: PatchNodes<'_, Z>,
    found: &FoundFile,
    file: &FileRecord,
    counts: &Mdb,
) -> Result<Patch, AllocError>
    requires two { 2 < B.total blocks.now }
    requires same { Z.total nodes.below.now ≡ B.total blocks.now }
    requires tree { IsCatalogTree
        (patched_nodes (Z.blocks nodes.below.now) nodes.patch nodes.runs.now) }
    requires there { IsFileAt (patched_nodes (Z.blocks nodes.below.now) nodes.patch nodes.runs.now)
        found.now.key file.now }
    requires place { IsPlaceOf cat_keys
        (patched_nodes (Z.blocks nodes.below.now) nodes.patch nodes.runs.now)
        found.now.key found.now.place }
    ensures settles { IfOk result (Settles found.now.key file.now counts.now (B.blocks blocks.now)
        (Z.blocks nodes.entry.below.now) nodes.entry.runs.now nodes.entry.patch) }
    ensures inside { IfOk result (λ new. AreWithin (changes new) (Z.total nodes.entry.below.now)) }
{
    let mut settled = set_file_over(alloc, nodes, found, file)?;
    put_counts(blocks, &mut settled, counts)?;
    Ok(settled)
}

/// The patch in which the file's record has the fork as it is now, with these first extents, and the volume counts this many free
/// blocks. Fails only when out of memory.
pub(crate) fn settle_fork<B: Blocks, Z: Blocks>(
    alloc: Global,
    volume: &MountedBlocks<'_, B>,
    overlay: Overlay<'_, Z>,
    resizing: &Resizing<'_>,
    block_size: BlockSize,
    first: [Extent; 3],
    free: u16,
) -> Result<Settled, AllocError>
    requires two { 2 < B.total volume.now.blocks.now }
    requires same { Z.total overlay.below.now ≡ B.total volume.now.blocks.now }
    requires within { AreRunsWithin volume.now.catalog.now (Z.total overlay.below.now) }
    requires different { IsDistinct (flat_map run_of volume.now.catalog.now) }
    requires inside { AreWithin (changes overlay.patch) (Z.total overlay.below.now) }
    requires tree { IsCatalogTree
        (patched_nodes (Z.blocks overlay.below.now) overlay.patch volume.now.catalog.now) }
    requires there { IsFileAt
        (patched_nodes (Z.blocks overlay.below.now) overlay.patch volume.now.catalog.now)
        resizing.now.found.now.key resizing.now.found.now.file }
    requires place { IsPlaceOf cat_keys
        (patched_nodes (Z.blocks overlay.below.now) overlay.patch volume.now.catalog.now)
        resizing.now.found.now.key resizing.now.found.now.place }
    requires small { physical_length block_size resizing.now.length < 2 ^ 32 }
    ensures settles { IfOk result (λ made. Settles resizing.now.found.now.key
        (file_with block_size resizing.now.fork resizing.now.length first resizing.now.moment
        resizing.now.found.now.file) made.counts (B.blocks volume.now.blocks.now)
        (Z.blocks overlay.entry.below.now) volume.now.catalog.now overlay.entry.patch made.patch) }
    ensures counts { IfOk result (λ made.
        made.counts ≡ counts_with free resizing.now.moment volume.now.mdb.now) }
    ensures inside { IfOk result (λ made.
        AreWithin (changes made.patch) (Z.total overlay.entry.below.now)) }
{
    let found = resizing.found;
    let file = file_with(
        block_size,
        resizing.fork,
        resizing.length,
        first,
        resizing.moment,
        &found.file,
    );
    let counts = counts_with(volume.mdb, free, resizing.moment);
    let nodes = PatchNodes {
        below: overlay.below,
        runs: volume.catalog,
        patch: overlay.patch,
    };
    let patch = settle(alloc, volume.blocks, nodes, found, &file, &counts)?;
    Ok(Settled { patch, counts })
}

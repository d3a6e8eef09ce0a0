//! The edits that add blocks to a fork, over which zeros and bytes have already been laid.

ghost use Rattle.std.specs.Prelude.{◌≡◌, ◌+◌, ◌≤◌, ◌++◌, length, IfOk};
ghost use Rattle.hfs_blocks.specs.Layers.{changes, AreWithin};
ghost use Rattle.hfs_space.specs.Bitmap.{is_used};
ghost use Rattle.hfs_space.specs.Extents.{extent_blocks};
ghost use Rattle.hfs_space.specs.ForkLaws.{block_numbers};
ghost use Rattle.hfs_space.specs.Choice.{AreFreeOnce};
ghost use Rattle.hfs_model.specs.declared.journal.Want.TheVariants as want;
ghost use Rattle.hfs_call_patches.specs.Patches.{patched};
ghost use Rattle.hfs_model.specs.Forks.{blocks};
ghost use Rattle.hfs_record_edits.specs.Growing.{grown};
ghost use Rattle.hfs_call_patches.specs.Edits.{blocks_of, extents_of};
ghost use Rattle.hfs_call_patches.specs.Calls.{IsForkVolumeIn, IsFoundIn};
ghost use Rattle.hfs_call_patches.specs.Gaining.{KeepsBesideBlocks, GivesGained};

use crate::bits::claim_over;
use crate::overflow::lengthen_over;
use crate::records::{fork_of, kind_of};
use crate::settling::settle_fork;
use crate::volume::{MountedBlocks, Overlay, Resizing, Settled};
use hfs_blocks::Blocks;
use hfs_btree_edits::PatchNodes;
use hfs_fields::Extent;
use hfs_model::{BlockSize, Want};
use hfs_record_edits::NodesWanted;
use std::alloc::{AllocError, Global};

/// What is reported if the extents tree has too few free nodes.
fn nodes_wanted(nodes: NodesWanted) -> Want
    ensures { result ≡ want.ExtentNodes nodes.free nodes.depth }
{
    Want::ExtentNodes {
        free: nodes.free,
        depth: u32::from(nodes.depth),
    }
}

/// The bits, the extents, the file's record and the counts of a volume in which these pieces, of `wanted` free blocks, are added
/// to the fork; or the lack of nodes. The patch lies over blocks that differ from the volume's only in those of the fork.
pub(crate) fn gain<B: Blocks, Z: Blocks>(
    alloc: Global,
    volume: &MountedBlocks<'_, B>,
    overlay: Overlay<'_, Z>,
    resizing: &Resizing<'_>,
    block_size: BlockSize,
    pieces: &[Extent],
    wanted: u16,
) -> Result<Result<Settled, Want>, AllocError>
    requires volume { IsForkVolumeIn B.total B.blocks volume.now.blocks.now
        volume.now.mdb.now volume.now.extents.now volume.now.catalog.now }
    requires found { IsFoundIn (B.blocks volume.now.blocks.now) resizing.now.found.now }
    requires few { volume.now.mdb.now.allocation_blocks ≤ 65535 }
    requires size { block_size ≡ volume.now.mdb.now.allocation_block_size }
    requires same { Z.total overlay.below.now ≡ B.total volume.now.blocks.now }
    requires inside { AreWithin (changes overlay.patch) (Z.total overlay.below.now) }
    requires free { AreFreeOnce
        (is_used (B.blocks volume.now.blocks.now) volume.now.mdb.now.bitmap_start)
        volume.now.mdb.now.allocation_blocks wanted pieces.now }
    requires enough { wanted ≤ volume.now.mdb.now.free_blocks }
    requires count { length (blocks_of (B.blocks volume.now.blocks.now) resizing.now.fork
        resizing.now.found.now.file) + wanted ≡ blocks block_size resizing.now.length }
    requires made { extent_blocks (grown (extents_of (B.blocks volume.now.blocks.now)
        resizing.now.fork resizing.now.found.now.file) pieces.now)
        ≡ blocks_of (B.blocks volume.now.blocks.now) resizing.now.fork
        resizing.now.found.now.file ++ extent_blocks pieces.now }
    requires beside { KeepsBesideBlocks (block_numbers volume.now.mdb.now
        (grown (extents_of (B.blocks volume.now.blocks.now) resizing.now.fork
        resizing.now.found.now.file) pieces.now))
        (B.blocks volume.now.blocks.now) (patched (Z.blocks overlay.below.now) overlay.patch) }
    ensures { IfOk result (GivesGained resizing.now.found.now resizing.now.fork resizing.now.length
        resizing.now.moment pieces.now (B.total volume.now.blocks.now)
        (B.blocks volume.now.blocks.now) (Z.blocks overlay.entry.below.now)
        overlay.entry.patch) }
{
    let found = resizing.found;
    let mdb = volume.mdb;
    let below = overlay.below;
    let bits = claim_over(below, mdb, overlay.patch, pieces)?;
    let first = fork_of(resizing.fork, &found.file).extents;
    let longer = match lengthen_over(
        alloc,
        PatchNodes {
            below,
            runs: volume.extents,
            patch: bits,
        },
        found.file.id,
        kind_of(resizing.fork),
        &first,
        pieces,
    )? {
        Ok(longer) => longer,
        Err(nodes) => return Ok(Err(nodes_wanted(nodes))),
    };
    let free = mdb.free_blocks - wanted;
    let settled = settle_fork(
        alloc,
        volume,
        Overlay {
            below,
            patch: longer.patch,
        },
        resizing,
        block_size,
        longer.first,
        free,
    )?;
    Ok(Ok(settled))
}

//! Putting a list of items on a mounted copy of an image.
ghost use Rattle.std.specs.Prelude.{◌≡◌, IfOk, IfErr};
ghost use Rattle.hfs_blocks.specs.Blocks.{block_at, block_count};
ghost use Rattle.hfs_blocks.specs.Layers.{changes, AreWithin};
ghost use Rattle.hfs_check.specs.Parts.{mdb_in};
ghost use Rattle.hfs_check.specs.VolumeOf.{volume_of};
ghost use Rattle.hfs_put.specs.ForkRuns.{AreRunsApart};
ghost use Rattle.hfs_put.specs.Laying.{IsFaultOfLaying};
ghost use Rattle.hfs_put.specs.PutImages.{AreGoingOut, HasDirectory, IsPutOver};

use crate::beside::changed_beside;
use crate::{LayFault, fork_runs, lay_items};
use hfs_put_plan::PutItem;
use hfs_put_sources::ForkRun;
use hfs_space::ChangedBlocks;
use hfs_volume::Volume;
use std::alloc::{AllocError, Global};

/// What is written after a list was put on a copy of an image.
#[derive(Drop)]
pub struct PutBlocks {
    /// The blocks to be laid over the image, none of which is in a run.
    pub patch: ChangedBlocks,
    /// Where the bytes of the list's forks go, in the order of their places.
    pub runs: Vec<ForkRun>,
    /// The IDs of the items, in the order of the list.
    pub ids: Vec<u32>,
}

/// The blocks of a volume that are written: each that differs from what it was when the volume was mounted, except those that
/// begin in one of the runs. Fails only when out of memory.
fn going_out(alloc: Global, volume: &Volume, runs: &[ForkRun]) -> Result<ChangedBlocks, AllocError>
    requires { AreRunsApart runs.now }
    ensures { IfOk result (AreGoingOut volume.now runs.now) }
{
    let base = volume.base()?;
    let below = base.blocks();
    let now = volume.changes().over(&below);
    changed_beside(alloc, &now, runs)
}

/// Puts a list of items into folder `target` of a volume that was mounted over a copy of an image, at the moment `now`, with all
/// calls except those that write forks. The image with the bytes of the list's forks laid in the runs, and with the patch over
/// it, holds what the File Manager makes of its volume by the whole list, except for the bytes of forks of other files. No block
/// of the patch begins in a run: a block that a fork has got may differ from what it was in the copy, such as the last block but
/// one of the image, which is read. Faults: those of `lay_items`.
pub fn put_items(
    alloc: Global,
    volume: &mut Volume,
    target: u32,
    now: u32,
    items: &[PutItem],
) -> Result<PutBlocks, LayFault>
    requires { volume.old.current ≡ volume.old.base }
    ensures put { IfOk result (λ put. IsPutOver volume.old.base volume.new.current target now items.now
        put.patch put.runs.items put.ids.items) }
    ensures directory { IfOk result (λ put. HasDirectory volume.old.base items.now
        put.patch put.runs.items (mdb_in (block_at volume.new.current))) }
    ensures within { IfOk result (λ put. AreWithin (changes put.patch) (block_count volume.old.base)) }
    ensures base { volume.new.base ≡ volume.old.base }
    ensures err { IfErr result (IsFaultOfLaying target now items.now
        (volume_of volume.old.base) volume.new.current) }
{
    let ids = lay_items(alloc, volume, target, now, items)?;
    let runs = fork_runs(alloc, volume, items, &ids)?;
    let patch = going_out(alloc, volume, &runs)?;
    Ok(PutBlocks { patch, runs, ids })
}

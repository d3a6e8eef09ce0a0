//! The free blocks of a volume, among them those that calls filled with zeros and that were freed again in the same run.
ghost use Rattle.std.specs.Prelude.{◌≡◌, ◌+◌, ◌≤◌, [], IfOk, IfNone};
ghost use Rattle.hfs_blocks.specs.Blocks.{block_at, block_count};
ghost use Rattle.hfs_space.specs.Bitmap.{bitmap_len, is_used};
ghost use Rattle.hfs_space.specs.FreeRuns.{AreFreeRuns};
ghost use Rattle.hfs_copy.specs.GivenBack.{AreFreeIn};

use crate::extents::push_extents;
use crate::made_files::ScriptFiles;
use hfs_blocks::{Blocks, Run};
use hfs_fields::{Extent, Mdb};
use hfs_space::{Bitmap, free_runs};
use hfs_volume::Volume;
use std::alloc::{AllocError, Global};

/// The runs of free allocation blocks, by the volume's bitmap.
fn free_extents<B: Blocks>(alloc: Global, blocks: &B, mdb: &Mdb) -> Result<Vec<Extent>, AllocError>
    requires { mdb.now.bitmap_start + bitmap_len mdb.now.allocation_blocks ≤ B.total blocks.now }
    ensures { IfOk result (λ runs. AreFreeRuns
        (is_used (B.blocks blocks.now) mdb.now.bitmap_start) mdb.now.allocation_blocks runs.items) }
{
    let bitmap = Bitmap {
        blocks,
        start: mdb.bitmap_start,
        count: mdb.allocation_blocks,
    };
    free_runs(alloc, &bitmap)
}

/// Where the free blocks of a volume lie.
fn free_blocks_in(alloc: Global, volume: &Volume) -> Result<Vec<Run>, AllocError>
    ensures { IfOk result (λ runs. AreFreeIn (block_at volume.now.current)
        (block_count volume.now.current) runs.items) }
{
    let base = volume.base()?;
    let below = base.blocks();
    let now = volume.changes().over(&below);
    let mdb = volume.directory();
    let free = free_extents(alloc, &now, &mdb)?;
    let mut runs = Vec::new(alloc);
    push_extents(&mut runs, &mdb, &free)?;
    Ok(runs)
}

/// Where the free blocks of a volume lie, if there are files whose forks a script may have written. Fails only when out of
/// memory.
pub(crate) fn free_blocks(
    alloc: Global,
    volume: &Volume,
    files: &Option<ScriptFiles>,
) -> Result<Vec<Run>, AllocError>
    ensures free { IfOk result (λ runs. AreFreeIn (block_at volume.now.current)
        (block_count volume.now.current) runs.items) }
    ensures none { IfOk result (λ runs. IfNone files.now (runs.items ≡ [])) }
{
    match files {
        Some(_) => free_blocks_in(alloc, volume),
        None => Ok(Vec::new(alloc)),
    }
}

//! Which free allocation blocks are added to a fork.

ghost use Rattle.std.specs.Prelude.{◌≡◌, ◌<◌, ◌≤◌, ◌++◌, ◌+◌, ◌^◌, List, OnOk, IfOk, MatchResult};
ghost use Rattle.hfs_space.specs.Bitmap.{is_used};
ghost use Rattle.hfs_space.specs.Extents.{block_total};
ghost use Rattle.hfs_space.specs.Choice as spec;

use crate::Bitmap;
use crate::free_run_lists::free_runs_beside;
use crate::lowest::lowest_run;
use crate::pieces::pieces_of;
use crate::rows::row_after;
use hfs_blocks::Blocks;
use hfs_fields::Extent;
use std::alloc::{AllocError, Global};

/// Too little room on a volume.
#[derive(Clone, Copy, Debug, PartialEq, Eq)]
pub struct Room {
    /// How many allocation blocks are free.
    pub free: u32,
    /// How many are wanted, which is more.
    pub wanted: u32,
}

/// How many blocks runs have together.
fn block_count(runs: &[Extent]) -> u32
    requires { block_total runs.now < 2 ^ 32 }
    ensures { result ≡ block_total runs.now }
{
    let mut total = 0;
    for run in runs {
        total += u32::from(run.count);
    }
    total
}

/// An extent, if it has a block.
fn some_of(alloc: Global, extent: Extent) -> Result<Vec<Extent>, AllocError>
    ensures { IfOk result (λ extents. extents.items ≡ spec.some_of extent) }
{
    let mut extents = Vec::new(alloc);
    if extent.count == 0 {
        return Ok(extents);
    }
    extents.push(extent)?;
    Ok(extents)
}

/// What `pieces_beside` gives, out of all runs of free blocks.
fn pieces_of_all<B: Blocks>(
    alloc: Global,
    bitmap: &Bitmap<'_, B>,
    row: Extent,
    count: u32,
) -> Result<Result<Vec<Extent>, u32>, AllocError>
    ensures { IfOk result (spec.GivesBeside (is_used (B.blocks bitmap.now.blocks.now)
        bitmap.now.start) bitmap.now.count row count) }
{
    let runs = free_runs_beside(alloc, bitmap, row)?;
    let free = block_count(&runs);
    if free < count {
        return Ok(Err(free));
    }
    let pieces = pieces_of(alloc, runs, count)?;
    Ok(Ok(pieces))
}

/// `count` blocks from those that are free outside a row: from the lowest run that has them all; if none has, from the runs by
/// their lengths. If there are too few, how many are free. The only other error is running out of memory.
fn pieces_beside<B: Blocks>(
    alloc: Global,
    bitmap: &Bitmap<'_, B>,
    row: Extent,
    count: u32,
) -> Result<Result<Vec<Extent>, u32>, AllocError>
    ensures { IfOk result (spec.GivesBeside (is_used (B.blocks bitmap.now.blocks.now)
        bitmap.now.start) bitmap.now.count row count) }
{
    if let Some(lowest) = lowest_run(bitmap, row, count) {
        let pieces = some_of(alloc, lowest)?;
        return Ok(Ok(pieces));
    }
    pieces_of_all(alloc, bitmap, row, count)
}

/// The free allocation blocks that are added to a fork that wants `wanted` of them, as extents in the order in which they are
/// added. `after` is the block directly after the fork's last one; None for a fork without blocks.
///
/// First come those from `after` on, as many in a row as are free. For the rest come the first blocks of the lowest run of free
/// blocks that has that many; if none has, the runs by their lengths, the longest first and of equal ones the lowest, each whole,
/// except that only as many blocks as are still wanted are taken of the last one.
///
/// If the blocks from `after` on are enough, only their bits are read; otherwise those up to the end of such a run, and if there is
/// none, each block of the bitmap twice.
///
/// Errors: `Room` exactly when fewer blocks are free than are wanted. `AllocError` if memory was refused.
pub fn blocks_that_come<B: Blocks>(
    alloc: Global,
    bitmap: &Bitmap<'_, B>,
    after: Option<u16>,
    wanted: u32,
) -> Result<Result<Vec<Extent>, Room>, AllocError>
    ensures choice { IfOk result (spec.GivesChoice (is_used (B.blocks bitmap.now.blocks.now)
        bitmap.now.start) bitmap.now.count after wanted) }
    ensures blocks { IfOk result (spec.GivesFreeOnce (is_used (B.blocks bitmap.now.blocks.now)
        bitmap.now.start) bitmap.now.count wanted) }
{
    let row = row_after(bitmap, after, wanted);
    let in_row = u32::from(row.count);
    let mut pieces = some_of(alloc, row)?;
    if in_row == wanted {
        return Ok(Ok(pieces));
    }
    match pieces_beside(alloc, bitmap, row, wanted - in_row)? {
        Ok(rest) => {
            pieces.extend_from_slice(&rest)?;
            Ok(Ok(pieces))
        }
        Err(free) => Ok(Err(Room {
            free: in_row + free,
            wanted,
        })),
    }
}

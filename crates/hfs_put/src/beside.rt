//! The changed blocks that lie outside the runs of forks.
ghost use Rattle.std.specs.Prelude.{◌≡◌, ◌<◌, IfOk, OnOk};
ghost use Rattle.hfs_put.specs.ForkRuns.{AreRunsApart};
ghost use Rattle.hfs_put.specs.Beside.{AreChangedBeside, HaveBegun, PutsBeside, is_in_runs};

use hfs_blocks::Blocks;
use hfs_copy::keep_changed;
use hfs_put_sources::ForkRun;
use hfs_space::{ChangedBlocks, ChangedOver};
use std::alloc::{AllocError, Global};

/// How many of the runs begin at or before this byte. A binary search.
fn begun(runs: &[ForkRun], byte: u64) -> usize
    requires { AreRunsApart runs.now }
    ensures { HaveBegun runs.now byte result }
{
    runs.partition_point(|run| run.place <= byte)
}

/// Whether block `n` begins in one of the runs.
fn is_in_runs(runs: &[ForkRun], n: u32) -> bool
    requires { AreRunsApart runs.now }
    ensures { result ≡ is_in_runs runs.now n }
{
    let byte = 512 * u64::from(n);
    let count = begun(runs, byte);
    if count == 0 {
        return false;
    }
    let run = runs[count - 1];
    byte - run.place < run.len
}

/// Keeps block `n`, if it is changed and differs from the one below, unless it begins in one of the runs.
fn keep_block<B: Blocks>(
    kept: &mut ChangedBlocks,
    now: &ChangedOver<'_, B>,
    runs: &[ForkRun],
    n: u32,
) -> Result<(), AllocError>
    requires below { n < B.total now.now.below.now }
    requires apart { AreRunsApart runs.now }
    ensures { OnOk result (PutsBeside runs.now now.now.changed.now (B.blocks now.now.below.now) n
        kept.old kept.new) }
{
    if is_in_runs(runs, n) {
        return Ok(());
    }
    keep_changed(kept, now, n)
}

/// The changed blocks that differ from those below, except those that begin in one of the runs, which aren't looked at. Fails only
/// when out of memory.
pub(crate) fn changed_beside<B: Blocks>(
    alloc: Global,
    now: &ChangedOver<'_, B>,
    runs: &[ForkRun],
) -> Result<ChangedBlocks, AllocError>
    requires apart { AreRunsApart runs.now }
    ensures { IfOk result (AreChangedBeside runs.now now.now.changed.now
        (B.blocks now.now.below.now) (B.total now.now.below.now)) }
{
    let mut kept = ChangedBlocks::new(alloc);
    for n in 0..now.count() {
        keep_block(&mut kept, now, runs, n)?;
    }
    Ok(kept)
}

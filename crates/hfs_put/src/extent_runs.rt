//! The runs of an image that hold the extents of a fork.
ghost use Rattle.std.specs.Prelude.{◌≡◌, ◌<◌, ◌^◌, ◌++◌, [], OnOk};
ghost use Rattle.std.specs.List.{cons_option};
ghost use Rattle.hfs_space.specs.Extents.{block_total};
ghost use Rattle.hfs_put.specs.ForkRuns.{run_at, runs_from};

use hfs_fields::{Extent, Mdb};
use hfs_model::Fork;
use hfs_put_sources::ForkRun;
use std::alloc::AllocError;

/// The run of an extent's blocks, before which the fork has `before` allocation blocks; None for an extent without blocks.
fn run_at(mdb: &Mdb, item: usize, fork: Fork, before: u32, extent: Extent) -> Option<ForkRun>
    ensures { result ≡ run_at mdb.now item fork before extent }
{
    if extent.count == 0 {
        return None;
    }
    let each = u64::from(mdb.allocation_block_size / 512);
    let first = u64::from(mdb.allocation_start) + u64::from(extent.first) * each;
    Some(ForkRun {
        place: 512 * first,
        len: 512 * (u64::from(extent.count) * each),
        item,
        fork,
        offset: 512 * (u64::from(before) * each),
    })
}

/// Appends a run, if there is one.
fn push_run(runs: &mut Vec<ForkRun>, run: Option<ForkRun>) -> Result<(), AllocError>
    ensures { OnOk result (runs.new.items ≡ runs.old.items ++ cons_option run []) }
{
    match run {
        Some(run) => {
            runs.push(run)?;
            Ok(())
        }
        None => Ok(()),
    }
}

/// Appends the runs of a fork's extents.
pub(crate) fn push_extents(
    runs: &mut Vec<ForkRun>,
    mdb: &Mdb,
    item: usize,
    fork: Fork,
    extents: &[Extent],
) -> Result<(), AllocError>
    requires { block_total extents.now < 2 ^ 32 }
    ensures { OnOk result (runs.new.items
        ≡ runs.old.items ++ runs_from mdb.now item fork 0 extents.now) }
{
    let mut before = 0;
    for extent in extents {
        push_run(runs, run_at(mdb, item, fork, before, *extent))?;
        before += u32::from(extent.count);
    }
    Ok(())
}

//! Where the blocks of extents lie.
ghost use Rattle.std.specs.Prelude.{◌≡◌, ℕ, ◌+◌, ◌≤◌, OnOk};
ghost use Rattle.hfs_blocks.specs.Blocks.{run_of};
ghost use Rattle.hfs_space.specs.Extents.{AreExtentsWithin, IsExtentWithin};
ghost use Rattle.hfs_space.specs.Forks.{HasArea, run_in};
ghost use Rattle.hfs_copy.specs.Keeping.{GainsExtents};

use hfs_blocks::Run;
use hfs_fields::{Extent, Mdb};
use std::alloc::AllocError;

/// The run of an extent's blocks.
fn extent_run(mdb: &Mdb, extent: Extent) -> Run
    requires area { HasArea mdb.now 4294967295 }
    requires within { IsExtentWithin mdb.now.allocation_blocks extent }
    ensures blocks { run_of result ≡ run_of (run_in mdb.now extent) }
    ensures inside { (total : ℕ) → HasArea mdb.now total → result.first + result.count ≤ total }
{
    if extent.count == 0 {
        return Run {
            first: 0,
            count: 0,
            before: 0,
        };
    }
    let each = mdb.allocation_block_size / 512;
    Run {
        first: u32::from(mdb.allocation_start) + u32::from(extent.first) * each,
        count: u32::from(extent.count) * each,
        before: 0,
    }
}

/// Appends the runs of the blocks of extents.
pub(crate) fn push_extents(
    runs: &mut Vec<Run>,
    mdb: &Mdb,
    extents: &[Extent],
) -> Result<(), AllocError>
    requires area { HasArea mdb.now 4294967295 }
    requires extents { AreExtentsWithin mdb.now.allocation_blocks extents.now }
    ensures { OnOk result (GainsExtents mdb.now extents.now runs.old.items runs.new.items) }
{
    for extent in extents {
        runs.push(extent_run(mdb, *extent))?;
    }
    Ok(())
}

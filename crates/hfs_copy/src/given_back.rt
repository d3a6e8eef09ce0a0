//! Blocks that calls filled with zeros and that went back to the volume in the same run.
ghost use Rattle.std.specs.Prelude.{◌≡◌, ◌+◌, ◌<◌, ◌≤◌, ◌∷◌, [], OnOk};
ghost use Rattle.std.specs.List.{flat_map, range_with_len};
ghost use Rattle.hfs_blocks.specs.Blocks.{run_of};
ghost use Rattle.hfs_copy.specs.GivenBack.{GainsGivenBack};
ghost use Rattle.hfs_copy.specs.Keeping.{LieIn};

use crate::keeping::is_zeros;
use hfs_blocks::Run;
use hfs_space::ChangedBlocks;
use std::alloc::AllocError;

/// Puts in block `n`, where it is changed and one of zeros.
fn keep_changed_zeros(
    kept: &mut ChangedBlocks,
    changed: &ChangedBlocks,
    n: u32,
) -> Result<(), AllocError>
    requires { n < 4294967295 }
    ensures { OnOk result (GainsGivenBack changed.now (n ∷ []) kept.old kept.new) }
{
    let Some(block) = changed.get(n) else {
        return Ok(());
    };
    if !is_zeros(block) {
        return Ok(());
    }
    kept.put(n, block)
}

/// Puts in those of `count` blocks from number `first` on that are changed and of zeros.
fn keep_changed_zeros_of(
    kept: &mut ChangedBlocks,
    changed: &ChangedBlocks,
    first: u32,
    count: u32,
) -> Result<(), AllocError>
    requires { first + count ≤ 4294967295 }
    ensures { OnOk result (GainsGivenBack changed.now (range_with_len first count)
        kept.old kept.new) }
{
    for i in 0..count {
        keep_changed_zeros(kept, changed, first + i)?;
    }
    Ok(())
}

/// Puts in those of the blocks of these runs that are changed and of zeros: a block that isn't changed may not have been read.
pub(crate) fn keep_given_back(
    kept: &mut ChangedBlocks,
    changed: &ChangedBlocks,
    runs: &[Run],
) -> Result<(), AllocError>
    requires { LieIn 4294967295 runs.now }
    ensures { OnOk result (GainsGivenBack changed.now (flat_map run_of runs.now)
        kept.old kept.new) }
{
    for run in runs {
        keep_changed_zeros_of(kept, changed, run.first, run.count)?;
    }
    Ok(())
}

//! Flags that are set.

ghost use Rattle.std.specs.Prelude.{◌<◌, ◌≤◌, length, OnOk, OnErr};
ghost use Rattle.hfs_space.specs.Flags.{HasFlagged, HasFlaggedRuns, AreSameFlags, IsFlaggedAt};
ghost use Rattle.hfs_space.specs.Zeros.{AreAmong};

use hfs_blocks::Run;
use std::alloc::AllocError;

/// Sets the flags from `first` up to `end`.
fn set_flags(flags: &mut [bool], first: usize, end: usize)
    requires order { first ≤ end }
    requires within { end ≤ length flags.old }
    ensures { HasFlagged first end flags.old flags.new }
{
    for i in first..end {
        flags[i] = true;
    }
}

/// Sets the flags of the blocks of these runs. Takes no memory.
pub(crate) fn flag_runs(flags: &mut [bool], runs: &[Run])
    requires { AreAmong runs.now (length flags.old) }
    ensures { HasFlaggedRuns runs.now flags.old flags.new }
{
    for i in 0..runs.len() {
        let run = runs[i];
        let first = run.first as usize;
        set_flags(flags, first, first + run.count as usize);
    }
}

/// Makes sure that there are at least `count` flags; new ones are not set. At an error there may be some more.
pub(crate) fn more_flags(flags: &mut Vec<bool>, count: u32) -> Result<(), AllocError>
    ensures enough { OnOk result (count ≤ length flags.new.items) }
    ensures same { AreSameFlags flags.old.items flags.new.items }
{
    for _n in flags.len()..count as usize {
        flags.push(false)?;
    }
    Ok(())
}

/// Sets the flag of block `n`. At an error the same flags are set as before.
pub(crate) fn flag_one(flags: &mut Vec<bool>, n: u32) -> Result<(), AllocError>
    requires { n < 4294967295 }
    ensures set { OnOk result (IsFlaggedAt n flags.old.items flags.new.items) }
    ensures same { OnErr result (AreSameFlags flags.old.items flags.new.items) }
{
    more_flags(flags, n + 1)?;
    flags[n as usize] = true;
    Ok(())
}

/// How many flags these runs need in an image of `count` blocks: none if there are no runs.
pub(crate) fn flags_wanted(runs: &[Run], count: u32) -> u32
    ensures { AreAmong runs.now count → AreAmong runs.now result }
{
    if runs.is_empty() {
        return 0;
    }
    count
}

//! The blocks of a patch that become zeros.

ghost use Rattle.std.specs.Prelude.{◌≡◌, ◌+◌, ◌≤◌, IfOk, OnOk};
ghost use Rattle.hfs_space.specs.Again.{AreAgain, GainsRun, is_in};
ghost use Rattle.hfs_space.specs.Zeros.{AreAmong};

use hfs_blocks::{Patch, Run};
use std::alloc::{AllocError, Global};

/// Puts a block of zeros for each block of the run that the kept patch has.
fn put_again(kept: &Patch, run: Run, again: &mut Patch) -> Result<(), AllocError>
    requires { run.first + run.count ≤ 4294967295 }
    ensures { OnOk result (GainsRun run kept.now again.old again.new) }
{
    if !kept.may_have(run.first, run.count) {
        return Ok(());
    }
    let zeros = [0; 512];
    for n in run.first..run.first + run.count {
        if kept.get(n).is_some() {
            again.put(n, &zeros)?;
        }
    }
    Ok(())
}

/// The blocks of these runs that the kept patch has, each of zeros.
pub(crate) fn zeros_again(alloc: Global, kept: &Patch, runs: &[Run]) -> Result<Patch, AllocError>
    requires { AreAmong runs.now 4294967295 }
    ensures { IfOk result (AreAgain (is_in runs.now) kept.now) }
{
    let mut again = Patch::new(alloc);
    for i in 0..runs.len() {
        let run = runs[i];
        put_again(kept, run, &mut again)?;
    }
    Ok(again)
}

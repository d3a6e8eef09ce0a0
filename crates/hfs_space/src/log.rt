//! Which blocks of forks calls wrote, for proofs only: it takes no memory, and its methods do nothing at run time.
ghost use Rattle.std.specs.Prelude.{◌≡◌, ℕ, List, []};
ghost use Rattle.std.specs.Borrow.{ftrue};

use hfs_blocks::Run;
use std::marker::Model;

/// The blocks of forks that calls wrote, the first call's first.
#[derive(Drop)]
pub struct WrittenLog {
    pub ghost blocks: { List ℕ },
}

impl Model for WrittenLog {
    ghost also_owns = { λ _. ftrue };
}

/// Runs of blocks that a call wrote.
#[derive(Clone, Copy, Drop)]
pub struct WrittenRuns<'a> {
    pub runs: &'a [Run],
}

impl WrittenLog {
    ghost use Rattle.hfs_space.specs.Logs.{with_runs};

    /// The list in which no block was written.
    pub fn new() -> WrittenLog
        ensures { result.blocks ≡ [] }
    {
        WrittenLog {}
    }

    /// The list with these runs appended.
    pub fn then(&self, _runs: &WrittenRuns<'_>) -> WrittenLog
        ensures { result.blocks ≡ with_runs self.now.blocks _runs.now }
    {
        WrittenLog {}
    }
}

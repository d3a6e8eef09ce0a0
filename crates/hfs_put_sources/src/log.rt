//! What was asked of the system, for proofs only: it takes no memory, and its methods do nothing at run time.
ghost use Rattle.std.specs.Prelude.{◌≡◌, List, []};
ghost use Rattle.std.specs.Borrow.{ftrue};
ghost use Rattle.hfs_put_sources.specs.HostSteps.{HostStep};

use crate::entry::{HostEntry, Look};
use hfs_source::ReadLog;
use std::marker::Model;

/// The list of what was asked of the system, last step first.
#[derive(Drop)]
pub struct HostLog {
    pub ghost steps: { List HostStep },
}

impl Model for HostLog {
    ghost also_owns = { λ _. ftrue };
}

/// What was asked in one step, and what came of it.
#[derive(Clone, Copy, Drop)]
pub enum Step<'a> {
    /// The entries of the folder at a path.
    Listed(&'a str, &'a [HostEntry]),
    /// What is seen at a path.
    Looked(&'a str, Option<Look>),
    /// What a path leads to.
    Followed(&'a str, Option<Look>),
    /// The file at a path was read in this way.
    Read(&'a str, &'a ReadLog),
}

impl HostLog {
    ghost use Rattle.hfs_put_sources.specs.LoggedSteps.{with_step};

    /// The list in which nothing was asked.
    pub fn new() -> HostLog
        ensures { result.steps ≡ [] }
    {
        HostLog {}
    }

    /// The list with one more step.
    pub fn then(&self, _step: &Step<'_>) -> HostLog
        ensures { result.steps ≡ with_step self.now.steps _step.now }
    {
        HostLog {}
    }
}

//! What was asked of the system, for proofs only: it takes no memory, and its methods do nothing at run time.
ghost use Rattle.std.specs.Prelude.{◌≡◌, List, []};
ghost use Rattle.std.specs.Borrow.{ftrue};
ghost use Rattle.hfs_bag.specs.SystemSteps.{SystemStep};

use std::fs::OpenOptions;
use std::marker::Model;
use std::time::SystemTime;

/// The list of what was asked of the system, last step first.
#[derive(Drop)]
pub struct SystemLog {
    pub ghost steps: { List SystemStep },
}

impl Model for SystemLog {
    ghost also_owns = { λ _. ftrue };
}

/// What was asked in one step.
#[derive(Clone, Copy, Drop)]
pub enum Step<'a> {
    /// A folder is made.
    MadeFolder(&'a str),
    /// A file is opened.
    Opened(&'a OpenOptions, &'a str),
    /// Bytes are appended to the file that was opened last.
    Wrote(&'a [u8]),
    /// The file that was opened last gets this time.
    Timed(SystemTime),
    /// The file that was opened last is closed.
    Closed,
    /// What has the first path gets the second one.
    Moved(&'a str, &'a str),
    /// What isn't a folder is removed.
    RemovedFile(&'a str),
    /// An empty folder is removed.
    RemovedFolder(&'a str),
    /// A folder was found where a file was to be removed.
    FoundFolder(&'a str),
    /// Whether anything has this path.
    Looked(&'a str, bool),
    /// A folder is opened for its names.
    Listed(&'a str),
    /// Names of the folder that was opened last are read.
    Named(&'a [u8]),
}

impl SystemLog {
    ghost use Rattle.hfs_bag.specs.LoggedSteps.{with_step, with_failed};

    /// The list in which nothing was asked.
    pub fn new() -> SystemLog
        ensures { result.steps ≡ [] }
    {
        SystemLog {}
    }

    /// The list with one more step, which was done.
    pub fn then(&self, _step: &Step<'_>) -> SystemLog
        ensures { result.steps ≡ with_step self.now.steps _step.now }
    {
        SystemLog {}
    }

    /// The list with one more step, which failed.
    pub fn then_failed(&self, _step: &Step<'_>) -> SystemLog
        ensures { result.steps ≡ with_failed self.now.steps _step.now }
    {
        SystemLog {}
    }
}

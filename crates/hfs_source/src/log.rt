//! What a reader did, for proofs only: it takes no memory, and its methods do nothing at run time.
ghost use Rattle.std.specs.Prelude.{◌≡◌, List, []};
ghost use Rattle.std.specs.Borrow.{ftrue};
ghost use Rattle.hfs_source.specs.Steps.{ReadStep};

use std::marker::Model;

/// The list of what a reader did, last step first.
#[derive(Drop)]
pub struct ReadLog {
    pub ghost steps: { List ReadStep },
}

impl Model for ReadLog {
    ghost also_owns = { λ _. ftrue };
}

/// What a reader did in one step.
#[derive(Clone, Copy, Drop)]
pub enum Step<'a> {
    /// It went to this place.
    Went(u64),
    /// It went to the end of the bytes, which is this place.
    Ended(u64),
    /// It read these bytes from where it stood.
    Came(&'a [u8]),
    /// The step failed, and where the reader stands isn't known.
    Lost,
}

impl ReadLog {
    ghost use Rattle.hfs_source.specs.Logs.{with_step};

    /// The list in which nothing was done.
    pub fn new() -> ReadLog
        ensures { result.steps ≡ [] }
    {
        ReadLog {}
    }

    /// The list with one more step.
    pub fn then(&self, _step: &Step<'_>) -> ReadLog
        ensures { result.steps ≡ with_step self.now.steps _step.now }
    {
        ReadLog {}
    }
}

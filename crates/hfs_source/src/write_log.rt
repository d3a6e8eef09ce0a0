//! What was done with a new file, for proofs only: it takes no memory, and its methods do nothing at run time.
ghost use Rattle.std.specs.Prelude.{◌≡◌, List, []};
ghost use Rattle.std.specs.Borrow.{ftrue};
ghost use Rattle.hfs_source.specs.Writes.{WriteStep};

use std::marker::Model;

/// The list of what was done with a new file, last step first.
#[derive(Drop)]
pub struct WriteLog {
    pub ghost steps: { List WriteStep },
}

impl Model for WriteLog {
    ghost also_owns = { λ _. ftrue };
}

/// What was done with a new file in one step.
#[derive(Clone, Copy, Drop)]
pub enum WriteNote<'a> {
    /// It went to this place.
    Went(u64),
    /// These bytes were written where it stood.
    Wrote(&'a [u8]),
    /// It got this length.
    Sized(u64),
    /// A step failed that changes no byte, and where the file stands isn't known.
    Strayed,
    /// A step failed, and which bytes the file has isn't known.
    Spoiled,
}

impl WriteLog {
    ghost use Rattle.hfs_source.specs.WriteLogs.{with_note};

    /// The list in which nothing was done.
    pub fn new() -> WriteLog
        ensures { result.steps ≡ [] }
    {
        WriteLog {}
    }

    /// The list with one more step.
    pub fn then(&self, _note: &WriteNote<'_>) -> WriteLog
        ensures { result.steps ≡ with_note self.now.steps _note.now }
    {
        WriteLog {}
    }
}

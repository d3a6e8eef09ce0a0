//! The verdict on a fork.
ghost use Rattle.std.specs.Prelude.{◌≡◌};
ghost use Rattle.hfs_remains_places.specs.Verdicts as spec;

/// What is found of a fork that is taken.
#[derive(Clone, Copy, Debug, PartialEq, Eq)]
pub struct Finding {
    /// How many bytes have blocks, if these are fewer than its length.
    pub cut: Option<u32>,
    /// How many of its bytes are zeros because their blocks are missing.
    pub missing: u32,
    /// Whether a block with some of its bytes also has bytes of others.
    pub shared: bool,
}

impl Finding {
    /// Whether nothing is wrong.
    pub fn is_nothing(&self) -> bool
        ensures { result ≡ spec.finds_nothing self.now }
    {
        self.cut.is_none() && self.missing == 0 && !self.shared
    }
}

/// The verdict on a fork.
#[derive(Clone, Copy, Debug, PartialEq, Eq)]
pub enum Verdict {
    /// It is left out, since with it the bytes taken would exceed the limit.
    Left,
    /// It is taken, with these findings; without any, it is whole.
    Taken(Finding),
}

impl Verdict {
    /// Whether the fork is whole, as far as its blocks show.
    pub fn is_whole(&self) -> bool
        ensures { result ≡ spec.is_whole self.now }
    {
        match self {
            Verdict::Left => false,
            Verdict::Taken(finding) => finding.is_nothing(),
        }
    }
}

//! Forks that lie in a file.

/// Where a fork lies in a file.
#[derive(Clone, Copy)]
pub struct ForkPlace {
    /// The byte where it begins, counted from 0.
    pub start: u64,
    /// How many bytes it has.
    pub len: u32,
}

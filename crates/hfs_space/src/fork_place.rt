//! Places in forks.

/// A place in the bytes of a fork's extents: the extent that has the next byte, counted from 0, and how many of its bytes come
/// before that one.
#[derive(Clone, Copy, Debug, PartialEq, Eq)]
pub struct ForkPlace {
    /// The number of the extent.
    pub extent: usize,
    /// How many bytes of the extent come before the place.
    pub passed: u64,
}

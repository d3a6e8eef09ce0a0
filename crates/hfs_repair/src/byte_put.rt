//! One byte that is written into an image.

/// A byte, and the place in an image where it goes.
#[derive(Clone, Copy, Debug, PartialEq, Eq)]
pub struct BytePut {
    /// The place, counted from 0.
    pub at: usize,
    /// The byte.
    pub byte: u8,
}

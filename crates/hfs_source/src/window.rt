//! A file, with a range of it.

use crate::ranges::ByteRange;

/// A file, with the range of it that is meant.
#[derive(Drop)]
pub struct Window<S> {
    /// The file.
    pub source: S,
    /// The range.
    pub range: ByteRange,
}

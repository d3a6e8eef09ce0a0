//! Rows of a collection.

use hfs_model::OwnedBytes;

/// The tables of a collection.
#[derive(Clone, Copy, Debug, PartialEq, Eq)]
pub enum Table {
    /// Files in which volumes lie.
    Image,
    /// Volumes, each in the image that came last.
    Volume,
    /// Files and folders, each on the volume that came last.
    Item,
}

/// The value of a column of a row.
#[derive(Drop)]
pub enum RowValue {
    /// Nothing.
    Empty,
    /// A number.
    Number(u64),
    /// A text in UTF-8.
    Text(OwnedBytes),
}

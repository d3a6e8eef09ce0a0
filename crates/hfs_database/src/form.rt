//! Which rows are written, and how.

use crate::Table;

/// Which rows are written, and how.
#[derive(Clone, Copy, Debug, PartialEq, Eq)]
pub enum Form {
    /// All rows, in JSON: an object per line, which begins with its table; the rows of an image are followed by its end.
    All,
    /// The rows of one table, in JSON: an object per line.
    Json(Table),
    /// The rows of one table, in CSV (RFC 4180), after a head of column names; lines end with CR LF.
    Csv(Table),
}

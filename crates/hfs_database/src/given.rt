//! What a taker was given, for proofs only: it takes no memory, and its methods do nothing at run time.
ghost use Rattle.std.specs.Prelude.{◌≡◌, List, []};
ghost use Rattle.std.specs.Borrow.{ftrue};
ghost use Rattle.hfs_database.specs.Taken.{TakenRow};

use crate::value::{RowValue, Table};
use std::marker::Model;

/// The list of the rows that a taker was given.
#[derive(Drop)]
pub struct Given {
    pub ghost rows: { List TakenRow },
}

impl Model for Given {
    ghost also_owns = { λ _. ftrue };
}

/// A row, as one call gives it.
#[derive(Clone, Copy, Drop)]
pub struct GivenRow<'a> {
    /// The table that it belongs to.
    pub table: Table,
    /// The values of its columns.
    pub values: &'a [RowValue],
}

impl Given {
    ghost use Rattle.hfs_database.specs.GivenRows.{with_given};

    /// The list in which nothing was given.
    pub fn new() -> Given
        ensures { result.rows ≡ [] }
    {
        Given {}
    }

    /// The list with one more row.
    pub fn then(&self, _row: &GivenRow<'_>) -> Given
        ensures { result.rows ≡ with_given self.now.rows _row.now }
    {
        Given {}
    }
}

//! Looking up rows one after the other.
ghost use Rattle.std.specs.Prelude.{◌≡◌, IfSome, Some};
ghost use Rattle.std.specs.Ordering.{nat_cmp};
ghost use Rattle.std.specs.BTreeMap as tree;
ghost use Rattle.hfs_viewers.specs.Tables.{FindsRow, HasRows, IsTable, IsKindIn};

use crate::row::Row;
use crate::table::Table;
use std::collections::btree_map::Range;

impl Table {
    /// The rows from this ID on, in the order of their IDs.
    pub(crate) fn rows_from(&self, id: u32) -> Range<'_, u32, Row>
        ensures { HasRows self.now result }
    {
        self.by_id.range(id..)
    }

    /// The row of an ID, if it is the next of these.
    fn next_row<'a>(&'a self, rows: &mut Range<'a, u32, Row>, id: u32) -> Option<&'a Row>
        requires { HasRows self.now rows.old }
        ensures rows { HasRows self.now rows.new }
        ensures found { IfSome result (λ r. tree.get nat_cmp self.now.by_id id ≡ Some r.now) }
    {
        let Some((next, row)) = rows.next() else {
            return None;
        };
        if *next == id { Some(row) } else { None }
    }

    /// The row of an ID; `rows` goes on after it. It is found at once if it is their next one, such as the row of an item that
    /// was made right after the one looked up before.
    pub(crate) fn row_among<'a>(
        &'a self,
        rows: &mut Range<'a, u32, Row>,
        id: u32,
    ) -> Option<&'a Row>
        requires table { IsTable self.now }
        requires rows { HasRows self.now rows.old }
        ensures entry { FindsRow self.now id result }
        ensures sound { IfSome result (λ r. IsKindIn self.now id r.now.kind) }
        ensures rows { HasRows self.now rows.new }
    {
        if let Some(row) = self.next_row(rows, id) {
            return Some(row);
        }
        *rows = self.rows_from(id);
        match self.next_row(rows, id) {
            Some(row) => Some(row),
            None => self.row(id),
        }
    }
}

//! The trait of takers.
ghost use Rattle.std.specs.Prelude.{◌≡◌, List, OnErr, OnOk};
ghost use Rattle.std.specs.Borrow.{GName};
ghost use Rattle.hfs_database.specs.Taken.{MayEndWith, TakenRow, with_row};

use crate::row_fault::TakerFault;
use crate::value::{RowValue, Table};

/// What takes the rows of a collection, one after the other: a volume belongs to the image that came last, an item to the volume
/// that came last. Contracts see a taker as the list of what it was given, all of which it took, but maybe for the last; the name
/// of the reference through which it writes, if it has one; and its place, which no row changes.
pub trait RowTaker {
    ghost given: { Self → List TakenRow };

    ghost reference: { Self → GName };

    ghost Place: { Type 0 };

    ghost place: { Self → Place };

    /// Takes a row. At a fault it was not taken: `CannotWrite`, `NoMemory`.
    fn take(&mut self, table: Table, values: &[RowValue]) -> Result<(), TakerFault>
        ensures whole { OnOk result (given self.new ≡ with_row (given self.old) table values.now) }
        ensures refused { OnErr result (MayEndWith (given self.old) table values.now (given self.new)) }
        ensures reference { reference self.new ≡ reference self.old }
        ensures place { place self.new ≡ place self.old };
}

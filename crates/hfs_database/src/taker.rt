//! The taker that is a database.
ghost use Rattle.std.specs.Prelude.{◌≡◌, [], map, IfErr, IfOk, None, OnErr, OnOk, Some};
ghost use Rattle.sqlite.specs.Held.{Held};
ghost use Rattle.hfs_database.specs.GivenRows.{with_given};
ghost use Rattle.hfs_database.specs.Taken.{MayEndWith, with_row};
ghost use Rattle.hfs_database.specs.Refusals.{HasRefusedLast, IsUnput, IsUntaken, RefusesOne, RefusesRow};
ghost use Rattle.hfs_database.specs.Rows.{PutsRow};
ghost use Rattle.hfs_database.specs.Transactions.{HasPutSince, KeepsFile, LeavesFile, PutsAll};
ghost use Rattle.hfs_database.specs.declared.row_fault.TakerFault.TheVariants.{CannotWrite};
ghost use Rattle.hfs_database.specs.Values.{sql_value};

use crate::fault::{DatabaseFault, PutFault};
use crate::statements::{LastRows, put_row};
use crate::{Given, GivenRow, RowSource, RowTaker, RowValue, Table, TakerFault};
use sqlite::{Alter, Connection};
use std::alloc::Global;
use std::snapshot::Snapshot;

/// What was given since a transaction began, for proofs only.
#[derive(Drop)]
pub(crate) struct History<S: Alter> {
    /// The database when the transaction began.
    start: Snapshot<Connection<S>>,
    given: Given,
}

impl<S: Alter> History<S> {
    /// Nothing was given since the database was like this.
    fn of(conn: &Connection<S>) -> History<S>
        ensures start { result.start.value ≡ conn.now }
        ensures nothing { result.given.rows ≡ [] }
    {
        History {
            start: Snapshot::of(conn),
            given: Given::new(),
        }
    }

    /// Adds this row to what was given.
    fn note(&mut self, row: &GivenRow<'_>)
        ensures start { self.new.start.value ≡ self.old.start.value }
        ensures given { self.new.given.rows ≡ with_given self.old.given.rows row.now }
    {
        self.given = self.given.then(row);
    }
}

/// A taker that puts the rows of images into a database, within a transaction; what it held about an image with the same path is
/// removed. After a fault it takes no more, and answers with that fault. Nothing is in the file until the transaction is
/// committed.
pub(crate) struct DatabaseTaker<'t, S: Alter> {
    conn: &'t mut Connection<S>,
    history: &'t mut History<S>,
    alloc: Global,
    last: LastRows,
    failed: Option<TakerFault>,
    ghost keeps: { ∥ KeepsFile S.Store history.now.start.value conn.now ∥₁ },
    ghost put: { ∥ (failed ≡ None → HasPutSince S.Store history.now.start.value
        history.now.given.rows conn.now last) ∥₁ },
    ghost refused: { ∥ (failed ≡ Some CannotWrite → HasRefusedLast S.Store
        history.now.start.value history.now.given.rows conn.now) ∥₁ },
}

impl<'t, S: Alter> DatabaseTaker<'t, S> {
    /// A taker that was given nothing, with an empty history.
    fn over(
        alloc: Global,
        conn: &'t mut Connection<S>,
        history: &'t mut History<S>,
    ) -> DatabaseTaker<'t, S>
        requires start { history.old.start.value ≡ conn.old }
        requires nothing { history.old.given.rows ≡ [] }
        ensures same_reference { result.conn.ghost_name ≡ conn.entry.ghost_name }
        ensures start { result.history.now.start.value ≡ conn.old }
        ensures nothing { result.history.now.given.rows ≡ [] }
    {
        DatabaseTaker {
            conn,
            history,
            alloc,
            last: LastRows {
                image: 0,
                volume: 0,
            },
            failed: None,
        }
    }
}

impl<S: Alter> RowTaker for DatabaseTaker<'_, S> {
    ghost given = { λ taker. taker.history.now.given.rows };

    ghost reference = { λ taker. taker.conn.ghost_name };

    ghost Place = { Held S };

    ghost place = { λ taker. taker.history.now.start.value };

    fn take(&mut self, table: Table, values: &[RowValue]) -> Result<(), TakerFault>
        ensures whole { OnOk result (self.new.history.now.given.rows
            ≡ with_row self.old.history.now.given.rows table values.now) }
        ensures refused { OnErr result (MayEndWith self.old.history.now.given.rows table values.now
            self.new.history.now.given.rows) }
        ensures noted { IfErr result (λ fault. self.new.failed ≡ Some fault) }
        ensures reference { self.new.conn.ghost_name ≡ self.old.conn.ghost_name }
        ensures place { self.new.history.now.start.value ≡ self.old.history.now.start.value }
        ensures put { OnOk result (PutsRow S.Store table (map sql_value values.now)
            self.old.conn.now self.new.conn.now self.old.last self.new.last) }
    {
        if let Some(fault) = self.failed {
            return Err(fault);
        }
        let taken = put_row(self.alloc, self.conn, &mut self.last, table, values);
        self.history.note(&GivenRow { table, values });
        self.failed = taken.err();
        taken
    }
}

/// Puts all rows of a source, one after the other, within the transaction. Faults: that of a row that was not taken, whatever the
/// source says of it; those of the source.
pub(crate) fn put_rows<S: Alter, R: RowSource>(
    alloc: Global,
    conn: &mut Connection<S>,
    source: &mut R,
) -> Result<R::Told, PutFault<R::Fault>>
    ensures put { OnOk result (PutsAll S.Store (R.Gives source.old source.new []) conn.old conn.new) }
    ensures told { IfOk result (R.Tells source.old source.new) }
    ensures fault { IfErr result (IsUnput (R.Fails source.old source.new)
        (RefusesOne S.Store (R.Begins source.old source.new []) conn.old conn.new)) }
    ensures keeps { LeavesFile S.Store conn.old conn.new }
{
    let mut history = History::of(conn);
    let mut taker = DatabaseTaker::over(alloc, conn, &mut history);
    let given = source.give(&mut taker);
    let DatabaseTaker {
        conn: _,
        history: _,
        alloc: _,
        last: _,
        failed,
    } = taker;
    match failed {
        Some(fault) => Err(PutFault::Database(DatabaseFault::from(fault))),
        None => match given {
            Ok(told) => Ok(told),
            Err(fault) => Err(PutFault::Source(fault)),
        },
    }
}

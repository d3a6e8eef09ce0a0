//! The rows of a source in one transaction.
ghost use Rattle.std.specs.Prelude.{◌≡◌, false, [], IfErr, IfOk, OnErr, OnOk};
ghost use Rattle.sqlite.specs.Held.{state};
ghost use Rattle.sqlite.specs.State.{Survives};
ghost use Rattle.hfs_database.specs.Refusals.{FailsToPut, IsNotRolledBack, IsUnbegun, IsUncommitted, IsUnput, IsUnwritten};
ghost use Rattle.hfs_database.specs.Transactions.{EndsAtSource, IsAsBefore, IsBegun, IsCommitted, IsSettled, IsUndone, KeepsAtSource, KeepsFile, LeavesAllOrNone, LeavesAsBefore, PutsAllInOne};

use crate::RowSource;
use crate::fault::{DatabaseFault, PutFault, writing_fault};
use crate::taker::put_rows;
use sqlite::{Alter, Connection};
use std::alloc::Global;

/// Begins a transaction. Faults: `CannotWrite`, also if one is open; `NoMemory`.
#[tactic(auto, using(crate::proofs::Keeping::keeps_itself, crate::proofs::Keeping::as_itself, crate::proofs::Ending::keeps_begin, crate::proofs::Ending::begins, crate::proofs::Ending::settles, crate::proofs::Ending::back_by_begin))]
fn begin<S: Alter>(conn: &mut Connection<S>) -> Result<(), DatabaseFault>
    ensures begun { OnOk result (IsBegun S.Store conn.old conn.new) }
    ensures keeps { KeepsFile S.Store conn.old conn.new }
    ensures settled { OnOk result (IsSettled S.Store conn.old) }
    ensures back { OnErr result (IsAsBefore S.Store conn.old conn.new) }
    ensures fails { IfErr result (IsUnwritten (IsUnbegun S.Store conn.old conn.new)) }
{
    if !conn.is_autocommit() {
        return Err(DatabaseFault::CannotWrite);
    }
    match conn.execute("BEGIN", &[]) {
        Ok(_) => Ok(()),
        Err(error) => Err(writing_fault(&error)),
    }
}

/// Commits the transaction. Faults: `CannotWrite`, also if none is open; `NoMemory`.
#[tactic(auto, using(crate::proofs::Ending::leaves_itself, crate::proofs::Ending::leaves_commit, crate::proofs::Ending::commits, crate::proofs::Ending::undone_already, crate::proofs::Ending::undone_by_commit))]
fn commit<S: Alter>(conn: &mut Connection<S>) -> Result<(), DatabaseFault>
    ensures committed { OnOk result (IsCommitted S.Store conn.old conn.new) }
    ensures leaves { Survives (state S.Store conn.old) (state S.Store conn.new)
        (λ db. db ≡ (state S.Store conn.old).now.trees) }
    ensures undone { OnErr result (IsUndone S.Store conn.old conn.new) }
    ensures fails { IfErr result (IsUnwritten (IsUncommitted S.Store conn.old conn.new)) }
{
    if conn.is_autocommit() {
        return Err(DatabaseFault::CannotWrite);
    }
    match conn.execute("COMMIT", &[]) {
        Ok(_) => Ok(()),
        Err(error) => Err(writing_fault(&error)),
    }
}

/// Rolls back what was given since the transaction began, if a fault has not done so already: afterwards none is open. Faults:
/// `CannotWrite`, also if one still is; `NoMemory`.
#[tactic(auto, using(crate::proofs::Keeping::keeps_itself, crate::proofs::Ending::keeps_undo, crate::proofs::Ending::undoes, crate::proofs::Ending::undone_already))]
fn undo<S: Alter>(conn: &mut Connection<S>) -> Result<(), DatabaseFault>
    ensures keeps { KeepsFile S.Store conn.old conn.new }
    ensures ended { OnOk result (conn.new.in_transaction ≡ false) }
    ensures undone { IsUndone S.Store conn.old conn.new }
    ensures fails { IfErr result (IsUnwritten (IsNotRolledBack S.Store conn.old conn.new)) }
{
    if conn.is_autocommit() {
        return Ok(());
    }
    match conn.execute("ROLLBACK", &[]) {
        Ok(_) if conn.is_autocommit() => Ok(()),
        Ok(_) => Err(DatabaseFault::CannotWrite),
        Err(error) => Err(writing_fault(&error)),
    }
}

/// Puts all rows of a source in one transaction. At a fault of the source, nothing has changed, and no transaction is open. At a
/// fault of the database, the open database shows what it showed before; the file has all rows, or nothing in it has changed.
/// Faults: as for `put_rows`, and if the database can't be written.
#[tactic(auto, using(crate::proofs::RowLemmas::put_in_one, crate::proofs::RowLemmas::left_by_commit, crate::proofs::RowLemmas::left_by_undo, crate::proofs::RowLemmas::kept_by_undo, crate::proofs::RowLemmas::ended_by_undo, crate::proofs::RowLemmas::left_alone, crate::proofs::RowLemmas::back_at_once, crate::proofs::RowLemmas::back_by_undo))]
pub(crate) fn put_all<S: Alter, R: RowSource>(
    alloc: Global,
    conn: &mut Connection<S>,
    source: &mut R,
) -> Result<R::Told, PutFault<R::Fault>>
    ensures put { OnOk result (PutsAllInOne S.Store (R.Gives source.old source.new []) conn.old conn.new) }
    ensures told { IfOk result (R.Tells source.old source.new) }
    ensures fault { IfErr result (IsUnput (R.Fails source.old source.new)
        (FailsToPut S.Store (R.Begins source.old source.new []) (R.Gives source.old source.new [])
        conn.old conn.new)) }
    ensures unread { IfErr result (KeepsAtSource S.Store conn.old conn.new) }
    ensures ended { IfErr result (EndsAtSource conn.new) }
    ensures back { OnErr result (LeavesAsBefore S.Store conn.old conn.new) }
    ensures all_or_none { LeavesAllOrNone S.Store (R.Gives source.old source.new []) conn.old conn.new }
{
    match begin(conn) {
        Ok(()) => {}
        Err(fault) => return Err(PutFault::Database(fault)),
    }
    match put_rows(alloc, conn, source) {
        Ok(told) => match commit(conn) {
            Ok(()) => Ok(told),
            Err(fault) => Err(PutFault::Database(fault)),
        },
        Err(fault) => match undo(conn) {
            Ok(()) => Err(fault),
            Err(fault) => Err(PutFault::Database(fault)),
        },
    }
}

//! A collection that is open.
ghost use Rattle.std.specs.Prelude.{[], IfErr, IfOk, OnErr, OnOk};
ghost use Rattle.hfs_database.specs.Refusals.{FailsToPut, IsUnput};
ghost use Rattle.hfs_database.specs.Tables.{HasTables, IsRefusedFor};
ghost use Rattle.hfs_database.specs.Transactions.{EndsAtSource, KeepsAtSource, LeavesAllOrNone, LeavesAsBefore, PutsAllInOne};

use crate::RowSource;
use crate::fault::{DatabaseFault, Obstacle, PutFault, opening_fault, writing_fault};
use crate::files::DatabaseFiles;
use crate::putting::put_all;
use crate::tables::{Found, find_tables, make_tables};
use sqlite::{Alter, Connection, File, FileStore, Files as OpenedFiles, Unknown};
use std::alloc::Global;

/// A collection in a file.
pub type FileCollection = Collection<FileStore<File>>;

/// A collection that is open.
#[derive(Drop)]
pub struct Collection<S: Alter> {
    alloc: Global,
    pub(crate) conn: Connection<S>,
}

/// Looks for the tables of a collection, or makes them if there are none and this is asked for. Faults: as for
/// [`Collection::over`].
fn want_tables<S: Alter>(conn: &mut Connection<S>, makes_tables: bool) -> Result<(), DatabaseFault>
    ensures tables { OnOk result (HasTables S.Store makes_tables conn.old conn.new) }
    ensures refused { IfErr result (IsRefusedFor S.Store makes_tables conn.old conn.new) }
{
    match find_tables(conn)? {
        Found::All => Ok(()),
        Found::Nothing if makes_tables => make_tables(conn),
        Found::Nothing => Err(DatabaseFault::CannotOpen(Obstacle::NoTables)),
        Found::Other => Err(DatabaseFault::CannotOpen(Obstacle::OtherTables)),
    }
}

impl<S: Alter + Drop> Collection<S> {
    /// The collection in a database. If it has none of a collection's tables, they are made if this is asked for. Faults, with
    /// the database handed back: `CannotOpen` if it has other tables with their names, or only some of them, or none and they are
    /// not to be made; `CannotWrite`, `NoMemory`.
    pub fn over(
        alloc: Global,
        conn: Connection<S>,
        makes_tables: bool,
    ) -> Result<Collection<S>, (DatabaseFault, Connection<S>)>
        ensures tables { IfOk result (λ collection. HasTables S.Store makes_tables conn collection.conn) }
        ensures refused { IfErr result (λ back. IsRefusedFor S.Store makes_tables conn back.1 back.0) }
    {
        let mut conn = conn;
        match want_tables(&mut conn, makes_tables) {
            Ok(()) => Ok(Collection { alloc, conn }),
            Err(fault) => Err((fault, conn)),
        }
    }

    /// Puts all rows of a source into the collection, in one transaction. An image's row replaces the one with the same path,
    /// whose volumes are removed with their items. At a fault of the source, nothing has changed, and no transaction is open. At
    /// a fault of the database, the open database shows what it showed before; the file has all rows, or nothing in it has
    /// changed. Faults: those of the source, and `CannotWrite` or `NoMemory` of the database.
    pub fn put<R: RowSource>(&mut self, source: &mut R) -> Result<R::Told, PutFault<R::Fault>>
        ensures put { OnOk result (PutsAllInOne S.Store (R.Gives source.old source.new []) self.old.conn self.new.conn) }
        ensures told { IfOk result (R.Tells source.old source.new) }
        ensures fault { IfErr result (IsUnput (R.Fails source.old source.new)
            (FailsToPut S.Store (R.Begins source.old source.new []) (R.Gives source.old source.new [])
            self.old.conn self.new.conn)) }
        ensures unread { IfErr result (KeepsAtSource S.Store self.old.conn self.new.conn) }
        ensures ended { IfErr result (EndsAtSource self.new.conn) }
        ensures back { OnErr result (LeavesAsBefore S.Store self.old.conn self.new.conn) }
        ensures all_or_none { LeavesAllOrNone S.Store (R.Gives source.old source.new []) self.old.conn self.new.conn }
    {
        put_all(self.alloc, &mut self.conn, source)
    }
}

/// What is locked of a database that was refused.
type Refused = (DatabaseFault, Option<OpenedFiles<File>>);

/// Opens the collection in a file. A fault comes with the files, if they were opened.
fn open_files(rt: &HostRuntime, path: &str, makes_tables: bool) -> Result<FileCollection, Refused> {
    match Connection::open_from(rt, path, false, Unknown) {
        Ok(conn) => match Collection::over(rt.alloc(), conn, makes_tables) {
            Ok(collection) => Ok(collection),
            Err((fault, conn)) => Err((fault, Some(conn.into_store().close()))),
        },
        Err((error, Some(left))) => Err((opening_fault(&error), Some(left.into_files()))),
        Err((error, None)) => Err((opening_fault(&error), None)),
    }
}

impl Collection<FileStore<File>> {
    /// Opens the collection in a file. Faults: as for [`Collection::over`], and `CannotOpen` if the file is no database, is
    /// damaged, or is open in another program. At a fault no log is left next to it, and no file where there was none.
    pub fn open(
        rt: &HostRuntime,
        files: &DatabaseFiles,
        makes_tables: bool,
    ) -> Result<FileCollection, DatabaseFault> {
        let before = files.before(rt);
        if before.is_no_database() {
            return Err(DatabaseFault::CannotOpen(Obstacle::Unreadable));
        }
        match open_files(rt, files.database.as_str(), makes_tables) {
            Ok(collection) => Ok(collection),
            Err((fault, locked)) => {
                if locked.is_some() {
                    files.restore(rt, before);
                }
                Err(fault)
            }
        }
    }

    /// Closes the files; the database alone then holds everything, and no log is left next to it. Faults: `CannotWrite`,
    /// `NoMemory`.
    pub fn close(self, rt: &HostRuntime, files: &DatabaseFiles) -> Result<(), DatabaseFault> {
        let Collection { conn, .. } = self;
        match conn.close_files() {
            Ok(_locked) => {
                files.remove_log(rt);
                Ok(())
            }
            Err((error, _store)) => Err(writing_fault(&error)),
        }
    }
}

//! Why a database did not do what was asked.
ghost use Rattle.std.specs.Prelude.{◌≡◌};
ghost use Rattle.hfs_database.specs.declared.fault.DatabaseFault.TheVariants.{CannotOpen};
ghost use Rattle.hfs_database.specs.Faults as spec;
ghost use Rattle.hfs_database.specs.Tables.{TellsNoTables};

use crate::TakerFault;
use sqlite::{Error, ErrorCode};

/// Why a database can't be opened.
#[derive(Clone, Copy, Debug, PartialEq, Eq)]
pub enum Obstacle {
    /// Another program has it open.
    Busy,
    /// It has something with the names of a collection's tables and indexes, but not all of them with their texts.
    OtherTables,
    /// It has none of these tables, and they are not to be made.
    NoTables,
    /// It is no database, or has something that is not supported here, such as virtual tables, triggers on a collection's tables,
    /// or rows that violate their tables' constraints.
    Unreadable,
    /// It is damaged.
    Damaged,
    /// The system can't open it, or can't read it.
    System,
}

/// Why a database did not do what was asked.
#[derive(Clone, Copy, Debug, PartialEq, Eq)]
pub enum DatabaseFault {
    /// It is no database, is damaged, is open elsewhere, or has other tables with these names.
    CannotOpen(Obstacle),
    /// A write failed, or reading back what was written.
    CannotWrite,
    /// Memory was refused.
    NoMemory,
}

/// Why the rows of a source were not put.
#[derive(Clone, Copy, Debug, PartialEq, Eq)]
pub enum PutFault<F> {
    /// The source did not give all of them.
    Source(F),
    /// The database did not take them.
    Database(DatabaseFault),
}

impl From<TakerFault> for DatabaseFault {
    ghost from_gives = { λ why fault. fault ≡ spec.untaken_fault why };

    fn from(fault: TakerFault) -> DatabaseFault {
        match fault {
            TakerFault::CannotWrite => DatabaseFault::CannotWrite,
            TakerFault::NoMemory => DatabaseFault::NoMemory,
        }
    }
}

/// Whether memory was refused.
fn is_memory(error: &Error) -> bool
    ensures { result ≡ spec.is_memory error.now }
{
    match error {
        Error::SqliteFailure(ErrorCode::OutOfMemory) => true,
        _ => false,
    }
}

/// Why a database can't be opened, from SQLite's error code.
fn obstacle_of(code: ErrorCode) -> Obstacle
    ensures tables { TellsNoTables (CannotOpen result) }
    ensures obstacle { result ≡ spec.obstacle_of code }
{
    match code {
        ErrorCode::DatabaseBusy => Obstacle::Busy,
        ErrorCode::DatabaseCorrupt => Obstacle::Damaged,
        ErrorCode::CannotOpen | ErrorCode::SystemIoFailure | ErrorCode::Closed => Obstacle::System,
        ErrorCode::ConstraintViolation(_)
        | ErrorCode::TypeMismatch
        | ErrorCode::IntegerOverflow
        | ErrorCode::NoRowid
        | ErrorCode::ForeignKeyMismatch
        | ErrorCode::TooDeep
        | ErrorCode::NoClock
        | ErrorCode::NameTaken
        | ErrorCode::BadName
        | ErrorCode::BadKey
        | ErrorCode::BadText
        | ErrorCode::SchemaTooBig
        | ErrorCode::TransactionState
        | ErrorCode::NoSuchSavepoint
        | ErrorCode::OperationInterrupted
        | ErrorCode::NotADatabase
        | ErrorCode::TooBig
        | ErrorCode::OutOfMemory
        | ErrorCode::DiskFull => Obstacle::Unreadable,
    }
}

/// What an error means when a database is being opened. If there is no room to make it, it can't be written.
pub(crate) fn opening_fault(error: &Error) -> DatabaseFault
    ensures tables { TellsNoTables result }
    ensures fault { result ≡ spec.opening_fault error.now }
{
    match error {
        Error::SqliteFailure(ErrorCode::OutOfMemory) => DatabaseFault::NoMemory,
        Error::SqliteFailure(ErrorCode::DiskFull) => DatabaseFault::CannotWrite,
        Error::SqliteFailure(code) => DatabaseFault::CannotOpen(obstacle_of(*code)),
        _ => DatabaseFault::CannotOpen(Obstacle::Unreadable),
    }
}

/// What an error means when a database is being written.
pub(crate) fn writing_fault(error: &Error) -> DatabaseFault
    ensures tables { TellsNoTables result }
    ensures fault { result ≡ spec.writing_fault error.now }
{
    if is_memory(error) {
        DatabaseFault::NoMemory
    } else {
        DatabaseFault::CannotWrite
    }
}

/// What an error means when a row is being taken.
pub(crate) fn taking_fault(error: &Error) -> TakerFault
    ensures { result ≡ spec.taking_fault error.now }
{
    if is_memory(error) {
        TakerFault::NoMemory
    } else {
        TakerFault::CannotWrite
    }
}

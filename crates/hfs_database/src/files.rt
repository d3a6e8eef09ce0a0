//! The files of a database.
ghost use Rattle.std.specs.Prelude.{◌≡◌};
ghost use Rattle.hfs_database.specs.FileNames.{is_no_file_name};

use std::alloc::{AllocError, Global};
use std::fs::OpenOptions;
use std::os::unix::fs::MetadataExt;
use std::rt::Files;
use std::{fs, io};

/// The paths of a database, and of the files that SQLite keeps next to it.
#[derive(Drop)]
pub struct DatabaseFiles {
    pub(crate) database: String,
    log: String,
    shared: String,
    journal: String,
}

/// What is at the path of a database before it is opened.
#[derive(Clone, Copy, Debug, PartialEq, Eq)]
pub(crate) enum Place {
    /// Nothing.
    Free,
    /// A file of no bytes.
    Empty,
    /// A file with bytes, but fewer than any database has.
    Short,
    /// Anything else.
    Taken,
}

/// How many bytes a database has at least.
const LEAST_BYTES: u64 = 512;

/// What was there of a database before it was opened.
#[derive(Clone, Copy)]
pub(crate) struct Before {
    database: Place,
    has_log: bool,
}

impl Before {
    /// Whether there is a file that is no database, nor one that a run was making, whose log is next to it.
    pub(crate) fn is_no_database(self) -> bool {
        self.database == Place::Short && !self.has_log
    }
}

/// The path of a file next to another.
fn beside(alloc: Global, path: &str, end: &str) -> Result<String, AllocError> {
    format!(in alloc; "{path}-{end}")
}

/// The beginning of names that SQLite reads as addresses.
const ADDRESS: &[u8] = b"file:";

/// Whether SQLite takes a name for something other than a file's: the database in memory, and addresses.
pub fn is_no_file_name(path: &str) -> bool
    ensures { result ≡ is_no_file_name path.now }
{
    if path == ":memory:" {
        return true;
    }
    let bytes = path.as_bytes();
    bytes.len() >= 5 && &bytes[..5] == ADDRESS
}

/// The path by which a database is opened: without links in it, if the system can say. A name that SQLite doesn't take for a
/// file's stays as it is, so that it is refused even if a file has it.
fn opened_path<R: Files + AllocGlobal>(rt: &R, path: &str) -> Result<String, AllocError> {
    if is_no_file_name(path) {
        return String::from_str(rt.alloc(), path);
    }
    real_path(rt, path)
}

/// The path without links in it, if the system can say.
fn real_path<R: Files + AllocGlobal>(rt: &R, path: &str) -> Result<String, AllocError> {
    match fs::canonicalize(rt, path) {
        Ok(real) => String::from_str(rt.alloc(), real.as_str()),
        Err(_) => String::from_str(rt.alloc(), path),
    }
}

/// What is at a path.
fn place_of<R: Files>(rt: &R, path: &str) -> Place {
    match fs::symlink_metadata(rt, path) {
        Ok(found) if found.is_file() && found.len() == 0 => Place::Empty,
        Ok(found) if found.is_file() && found.len() < LEAST_BYTES => Place::Short,
        Ok(_) => Place::Taken,
        Err(error) if error.kind() == io::ErrorKind::NotFound => Place::Free,
        Err(_) => Place::Taken,
    }
}

impl DatabaseFiles {
    /// The files of the database at this path. Fails only when out of memory.
    pub fn of<R: Files + AllocGlobal>(rt: &R, path: &str) -> Result<DatabaseFiles, AllocError> {
        let alloc = rt.alloc();
        let database = opened_path(rt, path)?;
        let log = beside(alloc, database.as_str(), "wal")?;
        let shared = beside(alloc, database.as_str(), "shm")?;
        let journal = beside(alloc, database.as_str(), "journal")?;
        Ok(DatabaseFiles {
            database,
            log,
            shared,
            journal,
        })
    }

    /// Whether a path leads to one of them.
    pub fn contain<R: Files>(&self, rt: &R, path: &str) -> bool {
        is_same_file(rt, path, self.database.as_str())
            || is_same_file(rt, path, self.log.as_str())
            || is_same_file(rt, path, self.shared.as_str())
            || is_same_file(rt, path, self.journal.as_str())
    }

    /// Whether a database can be at this path: there is a file with bytes, or a link to one.
    pub fn are_there<R: Files>(&self, rt: &R) -> bool {
        match place_of(rt, self.database.as_str()) {
            Place::Free | Place::Empty => false,
            Place::Short | Place::Taken => true,
        }
    }

    /// Which of them exist.
    pub(crate) fn before<R: Files>(&self, rt: &R) -> Before {
        Before {
            database: place_of(rt, self.database.as_str()),
            has_log: place_of(rt, self.log.as_str()) != Place::Free,
        }
    }

    /// Removes the log, which holds nothing that isn't in the database, and what other programs keep with a log. Called while the
    /// database is locked; a log that stays does no harm.
    pub(crate) fn remove_log<R: Files>(&self, rt: &R) {
        let _log = fs::remove_file(rt, self.log.as_str());
        let _shared = fs::remove_file(rt, self.shared.as_str());
    }

    /// Restores what was there before a database was refused. Called while the files are locked.
    pub(crate) fn restore<R: Files>(&self, rt: &R, before: Before) {
        match before.database {
            Place::Free => {
                let _made = fs::remove_file(rt, self.database.as_str());
            }
            Place::Empty => {
                let _cut = OpenOptions::new()
                    .write(true)
                    .truncate(true)
                    .open(rt, self.database.as_str());
            }
            Place::Short | Place::Taken => {}
        }
        if !before.has_log {
            let _log = fs::remove_file(rt, self.log.as_str());
        }
    }
}

/// Whether both paths lead to the same file.
fn is_same_file<R: Files>(rt: &R, one: &str, other: &str) -> bool {
    match (fs::metadata(rt, one), fs::metadata(rt, other)) {
        (Ok(one), Ok(other)) => one.dev() == other.dev() && one.ino() == other.ino(),
        _ => false,
    }
}

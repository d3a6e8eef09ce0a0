//! What the word `page` does: the page of a collection on standard output.

use crate::collecting::{close_database, open_collection, refuse};
use crate::reading_page::PageWords;
use hfs_commands::{Fault, ShownPath, Status};
use hfs_console::VERSION;
use hfs_database::{
    CollectionFault, DatabaseFault, is_base, standard_texts, write_collection_page,
};
use hfs_word_collect::{DatabaseFiles, FileCollection, RunFault};
use std::path::Path;

/// Prints the page of a collection. A URL that no link to a server or from a page may begin with is refused, like a wrong command
/// line.
pub fn page<'a>(rt: &HostRuntime, words: &PageWords<'a>) -> Result<u8, Fault<'a>> {
    match words.base {
        Some(base) if !is_base(base.as_bytes()) => Ok(print_refused_base(rt)),
        Some(_) | None => print_page_by(rt, words),
    }
}

/// Prints which URLs links may begin with, and returns the exit status.
fn print_refused_base(rt: &HostRuntime) -> u8 {
    Status::WordsRefused.after(println!(rt;
        "--base wants a URL that begins with http: or https:, or is relative"
    ))
}

/// Prints the page that the command line asks for.
fn print_page_by<'a>(rt: &HostRuntime, words: &PageWords<'a>) -> Result<u8, Fault<'a>> {
    let Ok(files) = DatabaseFiles::of(rt, words.database) else {
        return Err(Fault::NoMemory);
    };
    match open_collection(rt, &files) {
        Ok(database) => print_opened(rt, words, &files, database),
        Err(RunFault::CannotOpen(why)) => refuse(rt, words.database, why),
        Err(RunFault::CannotWrite) => Err(Fault::CannotWrite(words.database)),
        Err(RunFault::NoMemory) => Err(Fault::NoMemory),
    }
}

/// Prints the page of a database that is open, and closes it.
fn print_opened<'a>(
    rt: &HostRuntime,
    words: &PageWords<'a>,
    files: &DatabaseFiles,
    database: FileCollection,
) -> Result<u8, Fault<'a>> {
    let mut database = database;
    let printed = print_page_of(rt, words, &mut database);
    let closed = close_database(rt, files, database);
    printed?;
    match closed {
        Ok(()) => Ok(Status::Done.number()),
        Err(RunFault::NoMemory) => Err(Fault::NoMemory),
        Err(RunFault::CannotOpen(_) | RunFault::CannotWrite) => {
            Err(Fault::CannotWrite(words.database))
        }
    }
}

/// Prints the page of a database that is open.
fn print_page_of<'a>(
    rt: &HostRuntime,
    words: &PageWords<'a>,
    database: &mut FileCollection,
) -> Result<(), Fault<'a>> {
    let last = Path::new(words.database)
        .file_name()
        .unwrap_or(words.database);
    let Ok(name) = format!(in rt.alloc(); "{}", ShownPath(last)) else {
        return Err(Fault::NoMemory);
    };
    let texts = standard_texts(VERSION.as_bytes(), name.as_bytes(), bytes_of(words.base));
    match write_collection_page(rt.alloc(), database, &texts, &mut rt.stdout()) {
        Ok(()) => Ok(()),
        Err(CollectionFault::OutputFailed) => Err(Fault::OutputFailed),
        Err(CollectionFault::Database(DatabaseFault::NoMemory)) => Err(Fault::NoMemory),
        Err(CollectionFault::Database(DatabaseFault::CannotOpen(_) | DatabaseFault::CannotWrite)) =>
            Err(Fault::CannotRead(words.database)),
    }
}

/// The bytes of a text, if there is one.
fn bytes_of<'a>(text: Option<&'a str>) -> Option<&'a [u8]> {
    match text {
        Some(text) => Some(text.as_bytes()),
        None => None,
    }
}

//! What a terminal shows besides the lines that are printed.

use hfs_commands::ShownPath;
use hfs_console::{tell_kind, tell_unread};
use hfs_word_collect::{Obstacle, is_no_file_name};
use std::fs::File;
use std::io::{IsTerminal, Read};

/// How a database of SQLite begins.
const HEAD: &[u8; 16] = b"SQLite format 3\0";

/// Whether the file at this path can be read, and doesn't begin as a database does.
fn is_no_database(rt: &HostRuntime, path: &str) -> bool {
    let mut head = [0; 16];
    match File::open(rt, path) {
        Ok(mut file) => file.read_exact(&mut head).is_err() || head != *HEAD,
        Err(_) => false,
    }
}

/// Prints why a database can't be opened that isn't supported here.
fn tell_unreadable(rt: &HostRuntime, path: &str) {
    // If the terminal takes nothing more, the program goes on.
    let _printed = if is_no_database(rt, path) {
        eprintln!(rt; "it is no database of SQLite")
    } else {
        eprintln!(rt;
            "it has what hfs_collect does not read, as full-text or other virtual tables, or triggers on its tables; keep these in a second database, with ATTACH"
        )
    };
}

/// Prints why a database can't be opened.
fn tell_why(rt: &HostRuntime, path: &str, why: Obstacle) {
    let _printed = match why {
        Obstacle::Busy => eprintln!(rt; "another program has it open: close that first"),
        Obstacle::OtherTables => eprintln!(rt;
            "it has another table or index named image, volume, item, item_data or item_resource, as of another version"
        ),
        Obstacle::NoTables => eprintln!(rt; "there is no collection in it"),
        Obstacle::Damaged => eprintln!(rt; "it is damaged"),
        Obstacle::Unreadable => {
            tell_unreadable(rt, path);
            Ok(())
        }
        Obstacle::System => {
            tell_unread(rt, path);
            Ok(())
        }
    };
}

/// Prints on standard error why the database at this path can't be opened, if that is a terminal.
pub fn tell_obstacle(rt: &HostRuntime, path: &str, why: Obstacle) {
    if !rt.stderr().is_terminal() {
        return;
    }
    if is_no_file_name(path) {
        let _printed = eprintln!(rt; "SQLite takes this name for something else than a file");
        return;
    }
    tell_why(rt, path, why);
}

/// Prints on standard error that nothing was found in an image, and what it is if its bytes say, if that is a terminal.
pub fn tell_found(rt: &HostRuntime, path: &str, volumes: u64) {
    if volumes != 0 || !rt.stderr().is_terminal() {
        return;
    }
    let _printed = eprintln!(rt; "{}: no HFS volume was found", ShownPath(path));
    tell_kind(rt, path, None);
}

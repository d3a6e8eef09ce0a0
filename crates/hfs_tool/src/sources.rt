//! What the words that put files and folders on a volume have in common.

use clap::ArgMatches;
use hfs_commands::Fault;
use hfs_console::{Argument, NoValue, Takes, print_lines, tell_unread};
use hfs_put_sources::PutOptions;
use hfs_word_put::{PutFault, date_of};
use std::time::SystemTime;

/// The choice that MacBinary files are taken apart.
pub const MACBINARY: Argument = Argument {
    name: "macbinary",
    takes: Takes::Flag,
    help: "Unpacks MacBinary files: name, type, creator, lock, dates and both forks",
    excludes: &[],
};

/// The choice that names are changed.
pub const RENAME: Argument = Argument {
    name: "rename",
    takes: Takes::Flag,
    help: "Changes names that HFS doesn't allow: bad characters become _, and what exceeds 31 characters is cut off",
    excludes: &[],
};

/// The moment of every change.
pub const CLOCK_NOW: Argument = Argument {
    name: "now",
    takes: Takes::GivenNumberOption { value: "N" },
    help: "The time to record, in seconds since midnight, 1 January 1904; the current time if left out",
    excludes: &[],
};

/// How the sources are to be read.
pub fn options_of(matches: &ArgMatches<'_>) -> Result<PutOptions, NoValue> {
    Ok(PutOptions {
        macbinary: MACBINARY.is_given(matches)?,
        rename: RENAME.is_given(matches)?,
    })
}

/// The moment of the calls: the given one, or the clock's. A clock that is set before 1970 counts as set to its beginning.
pub fn moment(rt: &HostRuntime, given: Option<u32>) -> u32 {
    match given {
        Some(now) => now,
        None => match SystemTime::now(rt) {
            Ok(time) => date_of(time),
            Err(_) => date_of(SystemTime::UNIX_EPOCH),
        },
    }
}

/// Prints why nothing was put, and returns the exit status. A fault of the image is handed on.
pub fn print_fault<'a>(rt: &HostRuntime, fault: PutFault<'a>) -> Result<u8, Fault<'a>> {
    let status = fault.status();
    match fault {
        PutFault::Image(why) => Err(why),
        PutFault::CannotRead(path) => {
            let printed = println!(rt; "{}", Fault::CannotRead(path.as_str()));
            tell_unread(rt, path.as_str());
            Ok(status.after(printed))
        }
        PutFault::Refused(lines) => {
            print_lines(rt, lines.as_str())?;
            Ok(status.number())
        }
    }
}

//! A program that puts HFS images into one database, compares them to what it has about them, prints its page, or prints their
//! rows as text.
#![tactic(auto)]

mod collecting;
mod page;
mod reading;
mod reading_page;
mod reading_rows;
mod rows;
mod telling;

use crate::collecting::collect;
use crate::page::page;
use crate::reading::{Words, read_words};
use crate::rows::rows;
use hfs_commands::Fault;
use hfs_console::{refused, refused_words};
use std::env;
use std::process::ExitCode;

fn main(rt: HostRuntime) -> ExitCode {
    ExitCode::from(answer(&rt))
}

/// Reads the command line and does what it asks for. Returns the exit status.
fn answer(rt: &HostRuntime) -> u8 {
    let Ok(arguments) = env::args(rt) else {
        return refused(rt, &Fault::WordsNotText);
    };
    let Ok(arguments) = arguments.collect::<Vec<String>>(rt.alloc()) else {
        return refused(rt, &Fault::NoMemory);
    };
    match read_words(rt.alloc(), arguments.as_slice()) {
        Ok(Words::Collect(words)) => match collect(rt, &words) {
            Ok(status) => status,
            Err(fault) => refused(rt, &fault),
        },
        Ok(Words::Page(words)) => match page(rt, &words) {
            Ok(status) => status,
            Err(fault) => refused(rt, &fault),
        },
        Ok(Words::Rows(words)) => rows(rt, &words),
        Err(fault) => refused_words(rt, &fault),
    }
}

//! A program that reads and checks HFS volumes, puts files on them, runs scripts on them, mends their counts, and makes new ones.
#![tactic(auto)]

mod help;
mod places;
mod printing;
mod progress;
mod remaining;
mod saving;
mod sources;
mod word;
mod words;

use crate::words::answer_words;
use hfs_commands::Fault;
use hfs_console::refused;
use std::env;
use std::process::ExitCode;
use std::sync::Wait;
use std::thread::Threads;

fn main(rt: HostRuntime) -> ExitCode {
    ExitCode::from(answer(&rt, &rt))
}

/// Reads the command line and does what it asks for, with threads if it has many callers. Returns the exit status.
fn answer<T: Threads + Wait + Sync>(rt: &HostRuntime, threads: &T) -> u8 {
    let Ok(arguments) = env::args(rt) else {
        return refused(rt, &Fault::WordsNotText);
    };
    let Ok(arguments) = arguments.collect::<Vec<String>>(rt.alloc()) else {
        return refused(rt, &Fault::NoMemory);
    };
    answer_words(rt, threads, arguments.as_slice())
}

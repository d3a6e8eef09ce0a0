//! What goes on after it is refused memory. No run of `hfs_tool` shows this, since it ends there: an image that is handed back, a
//! list of calls and a fork that are continued, a publish that lags, and workers whose calls are made in the end. Each line
//! mounts a volume, twice if memory is refused, and two share it, twice likewise, so that what is handed back serves as well.
//! Whatever met the refusal must have left everything as it was, and the second time it must do what it always does, so that each
//! line reads `as said` whichever allocation is refused.
//!
//! Each line of the input is tried by itself. It has a title, a semicolon, and a word. If a publish lagged, because memory was
//! refused, the title and the call's number are printed on standard error.
//!
//! `tests/refused_memory.sh` gives it line after line, and refuses each allocation in turn.
#![tactic(auto)]

mod bytes;
mod forks;
mod letters;
mod lists;
mod mounting;
mod sharing;
mod showing;
mod trials;
mod working;

use crate::trials::{Outcome, outcome_of};
use anyhow::{Result, bail};
use hfs_volume_fixtures::refused::{input, split_at};
use std::alloc::Global;
use std::str::from_utf8;
use std::sync::Wait;
use std::thread::Threads;

fn main(rt: HostRuntime) -> Result<()> {
    let lines = input(rt.alloc(), &mut rt.stdin())?;
    for line in lines.split(|byte| *byte == b'\n') {
        if !line.is_empty() {
            try_line(&rt, &rt, rt.alloc(), line)?;
        }
    }
    Ok(())
}

/// What is printed for an outcome.
fn words_of(outcome: Outcome) -> &'static str {
    match outcome {
        Outcome::AsSaid | Outcome::Lagged(_) => "as said",
        Outcome::Otherwise => "not as said",
    }
}

/// Tries what a line says, and prints its title and whether everything was as promised.
fn try_line<T: Threads + Wait + Sync>(
    rt: &(impl Print + Eprint),
    threads: &T,
    alloc: Global,
    line: &[u8],
) -> Result<()> {
    let (title, word) = split_at(line, b';');
    let Ok(title) = from_utf8(title) else {
        bail!("no title");
    };
    let outcome = outcome_of(threads, alloc, word)?;
    if let Outcome::Lagged(number) = outcome {
        eprintln!(rt; "{title}: lagged at {number}")?;
    }
    println!(rt; "{title}: {}", words_of(outcome))?;
    Ok(())
}

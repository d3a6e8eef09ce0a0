//! What a line says is to be tried.
use crate::showing::shows_as_said;
use crate::working::works_as_said;
use crate::{forks, lists, mounting};
use anyhow::{Result, bail};
use std::alloc::Global;
use std::sync::Wait;
use std::thread::Threads;

/// Whether everything was as promised.
#[derive(Clone, Copy, Debug, PartialEq, Eq)]
pub enum Outcome {
    AsSaid,
    /// It was, and the publish after the call of this number lagged.
    Lagged(u64),
    Otherwise,
}

/// The outcome if nothing can lag.
fn plain(is_said: bool) -> Outcome {
    if is_said {
        Outcome::AsSaid
    } else {
        Outcome::Otherwise
    }
}

/// The outcome of what a word says.
pub fn outcome_of<T: Threads + Wait + Sync>(
    threads: &T,
    alloc: Global,
    word: &[u8],
) -> Result<Outcome> {
    if word == b"publish".as_slice() {
        return shows_as_said(threads, alloc);
    }
    if word == b"work".as_slice() {
        return Ok(plain(works_as_said(threads, alloc)?));
    }
    Ok(plain(is_as_said(alloc, word)?))
}

/// The same for the words that need no thread.
fn is_as_said(alloc: Global, word: &[u8]) -> Result<bool> {
    if word == b"run".as_slice() {
        return lists::runs(alloc);
    }
    if word == b"open".as_slice() {
        return forks::opens(alloc);
    }
    if word == b"repair".as_slice() {
        return mounting::repairs(alloc);
    }
    bail!("no such word")
}

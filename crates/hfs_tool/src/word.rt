//! What a word of the program is.
ghost use Rattle.std.specs.Thread.{IsSync};

use crate::places::ImageWords;
use clap::ArgMatches;
use hfs_commands::Fault;
use hfs_console::{Declaration, WordsFault};
use std::alloc::Global;
use std::sync::Wait;
use std::thread::Threads;

/// A word of the program, with what its command line asks for. Each word is one type, in a file of `words/`.
pub trait Word<'a>: Sized + Drop {
    /// Its name, help and arguments, as its command is declared to clap. It is the name of a constant of the word's file: no
    /// constant inside an impl holds a list.
    const DECLARATION: Declaration;

    /// What it is asked for, by the values of its arguments. Faults: out of memory, a text that is no value, the program's own.
    fn read(alloc: Global, matches: &ArgMatches<'a>) -> Result<Self, WordsFault>;

    /// The image that it looks at; None if it makes a volume. If that is refused, a terminal is shown what it looks like.
    fn looked_at(&self) -> Option<ImageWords<'a>>;

    /// Does what it is asked for, with threads if it has many callers, and returns the exit status. The `requires` says again
    /// that T is `Sync`: proofs don't see that bound of a trait's method.
    fn obey<T: Threads + Wait + Sync>(&self, rt: &HostRuntime, threads: &T) -> Result<u8, Fault<'a>>
        requires { IsSync T.row };
}

//! Faults, and command lines that are refused, as they are printed.

ghost use Rattle.std.specs.Prelude.{◌≡◌, ◌⊎◌};
ghost use Rattle.hfs_commands.specs.Faults.{status_number, status_of};

use crate::NoValue;
use crate::hints::tell_hint;
use clap::Error;
use clap::error::ErrorKind;
use hfs_commands::{Fault, Status};
use std::alloc::AllocError;
use std::io;

/// Why a command line gives no typed command.
#[derive(Drop)]
pub enum WordsFault {
    /// Clap says why: help was asked for, the command line was refused, or memory ran out; the error's kind says which.
    Clap(Error),
    /// Clap accepted a command line that lacks the value of this name: the program's own fault.
    NoValue(&'static str),
    /// The first word no longer belongs to this program: the program with this name has it.
    Moved {
        word: &'static str,
        program: &'static str,
    },
}

impl From<Error> for WordsFault {
    fn from(error: Error) -> WordsFault {
        WordsFault::Clap(error)
    }
}

impl From<AllocError> for WordsFault {
    fn from(error: AllocError) -> WordsFault {
        WordsFault::Clap(Error::from(error))
    }
}

impl From<NoValue> for WordsFault {
    fn from(missing: NoValue) -> WordsFault {
        WordsFault::NoValue(missing.0)
    }
}

/// Prints why the command line is refused, or the help that was asked for, and returns the exit status.
pub fn refused_words(rt: &HostRuntime, fault: &WordsFault) -> u8 {
    match fault {
        WordsFault::Clap(error) => told_by_clap(rt, error),
        WordsFault::NoValue(name) => Status::WordsRefused.after(println!(rt;
            "no value for {name}"
        )),
        WordsFault::Moved { word, program } => {
            Status::WordsRefused.after(println!(rt; "{word} is a program of its own: {program}"))
        }
    }
}

/// Prints what clap says, and returns the exit status.
fn told_by_clap(rt: &HostRuntime, error: &Error) -> u8 {
    match error.kind() {
        ErrorKind::OutOfMemory => refused(rt, &Fault::NoMemory),
        ErrorKind::DisplayHelp | ErrorKind::DisplayVersion => Status::Done.after(rt.print(error)),
        _ => Status::WordsRefused.after(rt.print(error)),
    }
}

/// Prints a fault, and returns its exit status, or that of a failed device if it was not printed.
pub fn refused(rt: &HostRuntime, fault: &Fault<'_>) -> u8
    ensures { (result ≡ status_number (status_of fault.now)) ⊎ (result ≡ 4) }
{
    fault.status().after(print_fault(rt, fault))
}

/// Prints a fault alone on its line, and what a refusal means on standard error. After standard output has failed, nothing more
/// is printed; after a part of a fork, the fault goes to standard error.
fn print_fault(rt: &HostRuntime, fault: &Fault<'_>) -> io::Result<()> {
    match fault {
        Fault::OutputFailed => Ok(()),
        Fault::BrokenOff(_) => eprintln!(rt; "{fault}"),
        Fault::Refused(why) => {
            println!(rt; "{fault}")?;
            tell_hint(rt, *why);
            Ok(())
        }
        _ => println!(rt; "{fault}"),
    }
}

//! The plain program as a program: `hfs_plain IMAGE SCRIPT [--now N]` makes the calls of a script by the definitions alone, on
//! the volume in an image, and prints the answers as `hfs_tool run` does. After them it prints everything that the volume then
//! has.
#![tactic(auto)]

mod answering;
mod calls;
mod fault;
mod files;
mod items;
mod opening;
mod printing;
mod words;

use crate::answering::image_text;
use crate::calls::calls_of_one;
use crate::fault::Fault;
use crate::files::{load_image, load_script};
use crate::words::{Words, words_of};
use hfs_texts::put;
use std::env;
use std::process::ExitCode;

fn main(rt: HostRuntime) -> ExitCode {
    ExitCode::from(answer(&rt))
}

/// Reads the command line and does what it asks for. Returns the exit status.
fn answer(rt: &HostRuntime) -> u8 {
    let Ok(arguments) = env::args(rt) else {
        return refused(rt, &Fault::Words("the words are not text"));
    };
    let Ok(arguments) = arguments.collect::<Vec<String>>(rt.alloc()) else {
        return refused(rt, &Fault::NoMemory);
    };
    match words_of(arguments.as_slice()) {
        Some(words) => obey(rt, &words),
        None => refused(rt, &Fault::Words("the words are IMAGE SCRIPT [--now N]")),
    }
}

/// Prints the answers and the volume, or why there are none. Returns the exit status.
fn obey(rt: &HostRuntime, words: &Words<'_>) -> u8 {
    match print_answers(rt, words) {
        Ok(()) => 0,
        Err(fault) => refused(rt, &fault),
    }
}

/// Prints a fault, and returns its exit status, or that of a failed device if that fails.
fn refused(rt: &HostRuntime, fault: &Fault<'_>) -> u8 {
    match fault.print(rt) {
        Ok(()) => fault.status(),
        Err(_) => Fault::OutputFailed.status(),
    }
}

/// Prints the answers to a script, and the volume after them. Faults, in this order: the image is not read, the script is not, a
/// line of it can't be read, it has other callers, the image is refused.
fn print_answers<'a>(rt: &HostRuntime, words: &Words<'a>) -> Result<(), Fault<'a>> {
    let image = load_image(rt, words.image)?;
    let script = load_script(rt, words.script)?;
    let calls = calls_of_one(rt.alloc(), &script, words.now)?;
    let text = image_text(rt.alloc(), image, &calls)?;
    match put(&mut rt.stdout(), text.as_bytes()) {
        Ok(()) => Ok(()),
        Err(_) => Err(Fault::OutputFailed),
    }
}

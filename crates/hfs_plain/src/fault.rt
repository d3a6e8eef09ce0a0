//! Why there are no answers.

use hfs_scripts::ScriptFault;
use hfs_texts::LoadFault;
use hfs_volume::MountFault;
use std::alloc::AllocError;
use std::io;

/// Why there are no answers. It is printed as `hfs_tool` prints it.
#[derive(Clone, Copy)]
pub enum Fault<'a> {
    /// The command line, or the script's callers, are none that this program takes.
    Words(&'static str),
    /// A file was not read.
    CannotRead(&'a str),
    /// A script has too many bytes.
    ScriptTooLarge,
    /// The first line of a script that can't be read, counted from 1.
    ScriptLine(u64),
    /// The image is refused.
    Refused(MountFault),
    /// Standard output failed, so nothing more is printed.
    OutputFailed,
    /// Memory was refused.
    NoMemory,
}

impl Fault<'_> {
    /// The exit status after this fault.
    pub fn status(&self) -> u8 {
        match self {
            Fault::Words(_) => 1,
            Fault::ScriptTooLarge | Fault::ScriptLine(_) => 2,
            Fault::Refused(MountFault::Memory) => 5,
            Fault::Refused(_) => 2,
            Fault::CannotRead(_) | Fault::OutputFailed => 4,
            Fault::NoMemory => 5,
        }
    }

    /// Prints the fault alone on its line.
    pub fn print(&self, rt: &impl Print) -> io::Result<()> {
        match self {
            Fault::Words(why) => println!(rt; "{why}"),
            Fault::CannotRead(path) => println!(rt; "cannot read {path}"),
            Fault::ScriptTooLarge => println!(rt; "script too large"),
            Fault::ScriptLine(line) => println!(rt; "script line {line}"),
            Fault::Refused(why) => print_refusal(rt, *why),
            Fault::OutputFailed => Ok(()),
            Fault::NoMemory => println!(rt; "out of memory"),
        }
    }
}

/// Prints why an image is refused.
fn print_refusal(rt: &impl Print, why: MountFault) -> io::Result<()> {
    match why {
        MountFault::TooLarge => println!(rt; "image too large"),
        MountFault::Short => println!(rt; "image too short"),
        MountFault::NoMacDisk => println!(rt; "not an HFS volume (-57)"),
        MountFault::BadMdb(test) => println!(rt; "bad master directory block M{test} (-60)"),
        MountFault::Check { number, place } => println!(rt; "check C{number} at {place}"),
        MountFault::Memory => println!(rt; "out of memory"),
    }
}

impl From<AllocError> for Fault<'_> {
    fn from(_error: AllocError) -> Self {
        Fault::NoMemory
    }
}

impl<'a> Fault<'a> {
    /// The fault for an image's file that was not loaded.
    pub fn of_image(fault: LoadFault, path: &'a str) -> Fault<'a> {
        match fault {
            LoadFault::ReadFailed => Fault::CannotRead(path),
            LoadFault::TooLarge => Fault::Refused(MountFault::TooLarge),
            LoadFault::Memory => Fault::NoMemory,
        }
    }

    /// The fault for a script's file that was not loaded.
    pub fn of_script_file(fault: LoadFault, path: &'a str) -> Fault<'a> {
        match fault {
            LoadFault::ReadFailed => Fault::CannotRead(path),
            LoadFault::TooLarge => Fault::ScriptTooLarge,
            LoadFault::Memory => Fault::NoMemory,
        }
    }

    /// The fault for a script that can't be read.
    pub fn of_script(fault: ScriptFault) -> Fault<'a> {
        match fault {
            ScriptFault::TooLarge => Fault::ScriptTooLarge,
            ScriptFault::Line(line) => Fault::ScriptLine(line),
            ScriptFault::Memory => Fault::NoMemory,
        }
    }
}

//! Why a command was not done, and how the program ends.
ghost use Rattle.std.specs.Prelude.{◌≡◌, ◌≢◌, MatchResult, Some};
ghost use Rattle.hfs_commands.specs.Faults.{IsRefusal, KeepsRefusal, fault_text, status_number, status_of, status_of_run};
ghost use Rattle.hfs_commands.specs.Saving.{IsUnsaved};

use crate::contents::UnwrittenFault;
use crate::paths::ShownPath;
use hfs_check::{MountFault, Refusal};
use hfs_format::FormatFault;
use hfs_image::NeededFault;
use hfs_source::{CopyFault, SparseFault};
use hfs_texts::{InfoFault, LoadFault};
use std::{fmt, io};

/// How the program ends. Scripts read it as the exit status.
#[derive(Clone, Copy, Debug, PartialEq, Eq)]
pub enum Status {
    /// All was done.
    Done,
    /// The command line is refused.
    WordsRefused,
    /// The image, the plan of a new volume, or a script is refused.
    ImageRefused,
    /// A call on the volume answered with a code other than 0.
    CallRefused,
    /// A read or a write failed.
    DeviceFailed,
    /// Memory or a viewer's place was refused, or a line of a script was not answered.
    NoMemory,
}

impl Status {
    /// How the program ends after it printed the answers to a script: `Done` if every line was answered.
    pub fn of_run(whole: bool) -> Status
        ensures { result ≡ status_of_run whole }
    {
        if whole {
            Status::Done
        } else {
            Status::NoMemory
        }
    }

    /// The exit status.
    pub fn number(self) -> u8
        ensures { result ≡ status_number self }
    {
        match self {
            Status::Done => 0,
            Status::WordsRefused => 1,
            Status::ImageRefused => 2,
            Status::CallRefused => 3,
            Status::DeviceFailed => 4,
            Status::NoMemory => 5,
        }
    }

    /// The exit status, if the program ends this way after printing a text: that of a failed device if the text wasn't printed.
    pub fn after(self, printed: io::Result<()>) -> u8
        ensures { MatchResult printed (λ done. result ≡ status_number self) (λ failed. result ≡ 4) }
    {
        match printed {
            Ok(()) => self.number(),
            Err(_) => Status::DeviceFailed.number(),
        }
    }
}

/// Why a command was not done. Its `Display` is the text that the program prints alone on a line, from variant and fields.
#[derive(Clone, Copy, Debug, PartialEq, Eq)]
pub enum Fault<'a> {
    /// The command line isn't UTF-8.
    WordsNotText,
    /// The image is refused, and not for lack of memory.
    Refused(MountFault),
    /// A file has fewer volumes than this number, which is counted from 1.
    NoVolume(u64),
    /// A file has no volumes.
    NoVolumes,
    /// The image is the user data of raw CD sectors, which is never written.
    NotWritten,
    /// The sum in a disk copy's header isn't that of its data, so the disk copy isn't changed.
    SumWrong,
    /// A file has this many volumes inside, and none of them was chosen.
    SeveralVolumes(u64),
    /// A new volume can't have this name.
    BadName,
    /// A new volume can't have this few or this many blocks.
    BadSize,
    /// A new volume can't have this few or this many nodes in one of its two files.
    BadNodeCount,
    /// The two files of a new volume don't fit into it.
    NoRoom,
    /// The first line of a script that can't be read, counted from 1.
    ScriptLine(u64),
    /// A script has too many bytes.
    ScriptTooLarge,
    /// There was no room for another viewer.
    NoPlace,
    /// A file, or `stdin`, could not be read.
    CannotRead(&'a str),
    /// A read failed after a part of a file was printed, so nothing more is printed.
    BrokenOff(&'a str),
    /// A file could not be written.
    CannotWrite(&'a str),
    /// A file was not made, because something has its name already.
    IsThere(&'a str),
    /// Standard output failed, so nothing more is printed.
    OutputFailed,
    /// Memory was refused.
    NoMemory,
}

impl Fault<'_> {
    /// How the program ends after this fault.
    pub fn status(&self) -> Status
        ensures { result ≡ status_of self.now }
    {
        match self {
            Fault::WordsNotText => Status::WordsRefused,
            Fault::Refused(_) | Fault::NoVolume(_) | Fault::NoVolumes => Status::ImageRefused,
            Fault::SeveralVolumes(_) | Fault::NotWritten => Status::ImageRefused,
            Fault::SumWrong => Status::ImageRefused,
            Fault::BadName | Fault::BadSize | Fault::BadNodeCount | Fault::NoRoom => {
                Status::ImageRefused
            }
            Fault::ScriptLine(_) | Fault::ScriptTooLarge => Status::ImageRefused,
            Fault::CannotRead(_) | Fault::BrokenOff(_) => Status::DeviceFailed,
            Fault::CannotWrite(_) | Fault::IsThere(_) => Status::DeviceFailed,
            Fault::OutputFailed => Status::DeviceFailed,
            Fault::NoPlace | Fault::NoMemory => Status::NoMemory,
        }
    }

    /// The fault for a failure to print a master directory block, given the file that it was read from.
    pub fn of_info(fault: InfoFault, file: &str) -> Fault<'_>
        ensures short { fault ≡ InfoFault.Short → IsRefusal MountFault.Short result }
        ensures signature { fault ≡ InfoFault.NoMacDisk → IsRefusal MountFault.NoMacDisk result }
        ensures read { fault ≡ InfoFault.ReadFailed → result ≡ Fault.CannotRead file.entry }
        ensures write { fault ≡ InfoFault.WriteFailed → result ≡ Fault.OutputFailed }
        ensures memory { fault ≡ InfoFault.Memory → result ≡ Fault.NoMemory }
    {
        match fault {
            InfoFault::Short => Fault::Refused(MountFault::Short),
            InfoFault::NoMacDisk => Fault::Refused(MountFault::NoMacDisk),
            InfoFault::ReadFailed => Fault::CannotRead(file),
            InfoFault::WriteFailed => Fault::OutputFailed,
            InfoFault::Memory => Fault::NoMemory,
        }
    }

    /// The fault for a failure to load an image, given its file.
    pub fn of_load(fault: LoadFault, file: &str) -> Fault<'_>
        ensures read { fault ≡ LoadFault.ReadFailed → result ≡ Fault.CannotRead file.entry }
        ensures large { fault ≡ LoadFault.TooLarge → IsRefusal MountFault.TooLarge result }
        ensures memory { fault ≡ LoadFault.Memory → result ≡ Fault.NoMemory }
    {
        match fault {
            LoadFault::ReadFailed => Fault::CannotRead(file),
            LoadFault::TooLarge => Fault::Refused(MountFault::TooLarge),
            LoadFault::Memory => Fault::NoMemory,
        }
    }

    /// The fault for a failure to read blocks of an image, given its file.
    pub fn of_sparse(fault: SparseFault, file: &str) -> Fault<'_>
        ensures read { fault ≡ SparseFault.ReadFailed → result ≡ Fault.CannotRead file.entry }
        ensures memory { fault ≡ SparseFault.Memory → result ≡ Fault.NoMemory }
    {
        match fault {
            SparseFault::ReadFailed => Fault::CannotRead(file),
            SparseFault::Memory => Fault::NoMemory,
        }
    }

    /// The fault for a failure to print a fork, given the image's file.
    pub fn of_copy(fault: CopyFault, file: &str) -> Fault<'_>
        ensures read { fault ≡ CopyFault.ReadFailed → result ≡ Fault.CannotRead file.entry }
        ensures broken { fault ≡ CopyFault.BrokenOff → result ≡ Fault.BrokenOff file.entry }
        ensures write { fault ≡ CopyFault.WriteFailed → result ≡ Fault.OutputFailed }
        ensures memory { fault ≡ CopyFault.Memory → result ≡ Fault.NoMemory }
    {
        match fault {
            CopyFault::Memory => Fault::NoMemory,
            CopyFault::ReadFailed => Fault::CannotRead(file),
            CopyFault::BrokenOff => Fault::BrokenOff(file),
            CopyFault::WriteFailed => Fault::OutputFailed,
        }
    }

    /// The fault for contents that are read from `source` and were not written to `file`.
    pub fn of_unwritten<'a>(fault: UnwrittenFault, source: &'a str, file: &'a str) -> Fault<'a>
        ensures read { fault ≡ UnwrittenFault.ReadFailed → result ≡ Fault.CannotRead source.entry }
        ensures write { fault ≡ UnwrittenFault.WriteFailed → result ≡ Fault.CannotWrite file.entry }
        ensures memory { fault ≡ UnwrittenFault.Memory → result ≡ Fault.NoMemory }
        ensures some { IsUnsaved source.entry file.entry result }
    {
        match fault {
            UnwrittenFault::Memory => Fault::NoMemory,
            UnwrittenFault::ReadFailed => Fault::CannotRead(source),
            UnwrittenFault::WriteFailed => Fault::CannotWrite(file),
        }
    }

    /// The fault for a volume that was not opened by its needed blocks, given the image's file.
    pub fn of_needed(fault: NeededFault, file: &str) -> Fault<'_>
        ensures read { fault ≡ NeededFault.ReadFailed → result ≡ Fault.CannotRead file.entry }
        ensures memory { fault ≡ NeededFault.Memory → result ≡ Fault.NoMemory }
        ensures refused { KeepsRefusal fault result }
    {
        match fault {
            NeededFault::ReadFailed => Fault::CannotRead(file),
            NeededFault::Memory => Fault::NoMemory,
            NeededFault::Refused(why) => Fault::Refused(why),
        }
    }
}

impl Fault<'static> {
    /// The fault for an image that was not mounted.
    pub fn of_mount(fault: MountFault) -> Fault<'static>
        ensures memory { fault ≡ MountFault.Memory → result ≡ Fault.NoMemory }
        ensures refused { fault ≢ MountFault.Memory → result ≡ Fault.Refused fault }
    {
        match fault {
            MountFault::Memory => Fault::NoMemory,
            _ => Fault::Refused(fault),
        }
    }

    /// The fault for a new volume's plan that was refused.
    pub fn of_format(fault: FormatFault) -> Fault<'static>
        ensures name { fault ≡ FormatFault.BadName → result ≡ Fault.BadName }
        ensures size { fault ≡ FormatFault.BadSize → result ≡ Fault.BadSize }
        ensures nodes { fault ≡ FormatFault.BadNodes → result ≡ Fault.BadNodeCount }
        ensures room { fault ≡ FormatFault.NoRoom → result ≡ Fault.NoRoom }
        ensures memory { fault ≡ FormatFault.Memory → result ≡ Fault.NoMemory }
    {
        match fault {
            FormatFault::BadName => Fault::BadName,
            FormatFault::BadSize => Fault::BadSize,
            FormatFault::BadNodes => Fault::BadNodeCount,
            FormatFault::NoRoom => Fault::NoRoom,
            FormatFault::Memory => Fault::NoMemory,
        }
    }
}

impl fmt::Display for Fault<'_> {
    ghost output = { λ fault. Some (fault_text fault) };

    #[tactic(auto, unfolding(crate::specs::Faults::fault_text))]
    fn fmt<W: fmt::Write>(&self, f: &mut fmt::Formatter<W>) -> fmt::Result {
        match self {
            Fault::WordsNotText => write!(f, "the words are not text"),
            Fault::Refused(why) => write!(f, "{}", Refusal(*why)),
            Fault::NoVolume(n) => write!(f, "no volume {n}"),
            Fault::NoVolumes => write!(f, "no HFS volume"),
            Fault::NotWritten => write!(f, "not written here"),
            Fault::SumWrong => write!(f, "sum wrong"),
            Fault::SeveralVolumes(n) => {
                write!(f, "{n} volumes lie inside; name one by --volume")
            }
            Fault::BadName => write!(f, "bad name"),
            Fault::BadSize => write!(f, "bad size"),
            Fault::BadNodeCount => write!(f, "bad node count"),
            Fault::NoRoom => write!(f, "no room"),
            Fault::ScriptLine(line) => write!(f, "script line {line}"),
            Fault::ScriptTooLarge => write!(f, "script too large"),
            Fault::NoPlace => write!(f, "no place for a viewer"),
            Fault::CannotRead(file) => write!(f, "cannot read {}", ShownPath(*file)),
            Fault::BrokenOff(file) => write!(f, "cannot read {}", ShownPath(*file)),
            Fault::CannotWrite(file) => write!(f, "cannot write {}", ShownPath(*file)),
            Fault::IsThere(file) => write!(f, "{} is there already", ShownPath(*file)),
            Fault::OutputFailed => Ok(()),
            Fault::NoMemory => write!(f, "out of memory"),
        }
    }
}

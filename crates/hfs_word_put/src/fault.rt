//! Why nothing was put.
ghost use Rattle.std.specs.Prelude.{◌≡◌, Err, IfErr, IfOk, Ok, Some, string_bytes};
ghost use Rattle.hfs_word_put.specs.Faults.{IsHostFault, SparesImage, TellsBy, fault_lines, put_status};
ghost use Rattle.hfs_word_put.specs.Lines.{refusal_line};

use crate::lines::refusal_line;
use crate::reason::PutReason;
use hfs_commands::{Fault, ShownPath, Status};
use hfs_put_sources::HostFault;
use std::alloc::{AllocError, Global};
use std::fmt;

/// Why nothing was put. Its `Display` is what the program prints, whole lines.
#[derive(Drop)]
pub enum PutFault<'a> {
    /// The image can't be read or is refused; the file can't be written; or memory was refused.
    Image(Fault<'a>),
    /// The source at this path can't be read, or changed while it was.
    CannotRead(String),
    /// Something can't be put, for the reasons in these lines.
    Refused(String),
}

impl PutFault<'_> {
    /// How the program ends after this fault.
    pub fn status(&self) -> Status
        ensures { result ≡ put_status self.now }
    {
        match self {
            PutFault::Image(fault) => fault.status(),
            PutFault::CannotRead(_) => Status::DeviceFailed,
            PutFault::Refused(_) => Status::CallRefused,
        }
    }
}

impl PutFault<'static> {
    /// The fault with these lines, if there was memory for them.
    pub fn of_lines(lines: Result<String, AllocError>) -> PutFault<'static>
        ensures told { IfOk lines (λ text. TellsBy (string_bytes text) result) }
        ensures memory { IfErr lines (λ _. result ≡ PutFault.Image Fault.NoMemory) }
        ensures spares { SparesImage result }
    {
        match lines {
            Ok(lines) => PutFault::Refused(lines),
            Err(_) => PutFault::Image(Fault::NoMemory),
        }
    }

    /// The fault for sources that can't be looked at.
    pub fn of_host(alloc: Global, fault: HostFault) -> PutFault<'static>
        ensures told { IsHostFault fault result }
        ensures spares { SparesImage result }
    {
        match fault {
            HostFault::CannotRead(path) => PutFault::CannotRead(path),
            HostFault::NotUtf8(folder) => {
                let lines = refusal_line(alloc, folder.as_str(), PutReason::NameNotText);
                PutFault::of_lines(lines)
            }
            HostFault::NoMemory => PutFault::Image(Fault::NoMemory),
        }
    }
}

impl<'a> From<AllocError> for PutFault<'a> {
    ghost use Rattle.hfs_commands.specs.declared.fault.Fault.TheVariants.{NoMemory};
    ghost use Rattle.hfs_word_put.specs.declared.fault.PutFault.TheVariants.{Image};

    ghost from_gives = { λ _ fault. fault ≡ Image NoMemory };

    fn from(_: AllocError) -> PutFault<'a> {
        PutFault::Image(Fault::NoMemory)
    }
}

impl fmt::Display for PutFault<'_> {
    ghost output = { λ fault. Some (fault_lines fault) };

    #[tactic(auto, unfolding(crate::specs::Faults::fault_lines))]
    fn fmt<W: fmt::Write>(&self, f: &mut fmt::Formatter<W>) -> fmt::Result {
        match self {
            PutFault::Image(fault) => write!(f, "{}\n", *fault),
            PutFault::CannotRead(path) => write!(f, "cannot read {}\n", ShownPath(path.as_str())),
            PutFault::Refused(lines) => write!(f, "{}", lines.as_str()),
        }
    }
}

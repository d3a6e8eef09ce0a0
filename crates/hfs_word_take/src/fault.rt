//! Why a volume was not taken.
ghost use Rattle.std.specs.Prelude.{◌≡◌, Some};
ghost use Rattle.hfs_word_take.specs.TakeFaults.{fault_of_bag, fault_of_shelf, fault_of_source, take_fault_text, take_status};

use hfs_bag::{BagFault, ShelfFault, SourceFault};
use hfs_check::MountFault;
use hfs_commands::{Fault, ShownPath, Status};
use std::fmt;

/// Why a volume was not taken. Its `Display` is the text that the program prints alone on a line.
#[derive(Drop)]
pub enum TakeFault<'a> {
    /// The image was not read or is refused, or memory was refused.
    Image(Fault<'a>),
    /// Something has the folder's name already.
    IsThere(&'a str),
    /// What belongs at this path was not written.
    CannotWrite(String),
}

impl TakeFault<'_> {
    /// How the program ends after this fault.
    pub fn status(&self) -> Status
        ensures { result ≡ take_status self.now }
    {
        match self {
            TakeFault::Image(fault) => fault.status(),
            TakeFault::IsThere(_) | TakeFault::CannotWrite(_) => Status::DeviceFailed,
        }
    }

    /// The fault for a source that failed, given the image's file.
    pub fn of_source(fault: SourceFault, image: &str) -> TakeFault<'_>
        ensures { result ≡ fault_of_source image.entry fault }
    {
        match fault {
            SourceFault::ReadFailed => TakeFault::Image(Fault::CannotRead(image)),
            SourceFault::Memory => TakeFault::Image(Fault::NoMemory),
        }
    }

    /// The fault for a shelf that failed.
    pub fn of_shelf(fault: ShelfFault) -> TakeFault<'static>
        ensures { result ≡ fault_of_shelf fault }
    {
        match fault {
            ShelfFault::CannotWrite(path) => TakeFault::CannotWrite(path),
            ShelfFault::NoMemory => TakeFault::Image(Fault::NoMemory),
        }
    }

    /// The fault for a bag that was not filled from the image in this file.
    pub fn of_bag(fault: BagFault, image: &str) -> TakeFault<'_>
        ensures { result ≡ fault_of_bag image.entry fault }
    {
        match fault {
            BagFault::Source(fault) => TakeFault::of_source(fault, image),
            BagFault::Shelf(fault) => TakeFault::of_shelf(fault),
            BagFault::TooLarge => TakeFault::Image(Fault::Refused(MountFault::TooLarge)),
        }
    }
}

impl fmt::Display for TakeFault<'_> {
    ghost output = { λ fault. Some (take_fault_text fault) };

    #[tactic(auto, unfolding(crate::specs::TakeFaults::take_fault_text))]
    fn fmt<W: fmt::Write>(&self, f: &mut fmt::Formatter<W>) -> fmt::Result {
        match self {
            TakeFault::Image(fault) => write!(f, "{}", *fault),
            TakeFault::IsThere(path) => write!(f, "{} is there already", ShownPath(*path)),
            TakeFault::CannotWrite(path) => write!(f, "cannot write {}", ShownPath(path.as_str())),
        }
    }
}

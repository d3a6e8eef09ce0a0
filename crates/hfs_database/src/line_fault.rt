//! Why a line was not made.

use crate::TakerFault;
use std::alloc::AllocError;

/// Why a line was not made.
#[derive(Clone, Copy, Debug, PartialEq, Eq)]
pub(crate) enum LineFault {
    /// A value is not UTF-8.
    NotText,
    /// Memory was refused.
    NoMemory,
}

impl From<AllocError> for LineFault {
    fn from(_error: AllocError) -> LineFault {
        LineFault::NoMemory
    }
}

impl From<LineFault> for TakerFault {
    fn from(fault: LineFault) -> TakerFault {
        match fault {
            LineFault::NotText => TakerFault::CannotWrite,
            LineFault::NoMemory => TakerFault::NoMemory,
        }
    }
}

//! Why there is no volume.
use hfs_format::FormatFault;
use std::alloc::AllocError;
use thiserror::Error;

/// Why a volume was not laid or mounted.
#[derive(Clone, Copy, Debug, PartialEq, Eq, Error)]
pub enum FixtureFault {
    /// The bytes lie outside the image.
    #[error("outside the image")]
    Outside,
    /// No new volume was made.
    #[error("no new volume")]
    Plan,
    /// The image was refused when it was mounted.
    #[error("the image isn't sound")]
    Unsound,
    /// Memory was refused.
    #[error("out of memory")]
    Memory,
}

impl From<AllocError> for FixtureFault {
    fn from(_refused: AllocError) -> FixtureFault {
        FixtureFault::Memory
    }
}

impl From<FormatFault> for FixtureFault {
    fn from(fault: FormatFault) -> FixtureFault {
        match fault {
            FormatFault::BadName
            | FormatFault::BadSize
            | FormatFault::BadNodes
            | FormatFault::NoRoom => FixtureFault::Plan,
            FormatFault::Memory => FixtureFault::Memory,
        }
    }
}

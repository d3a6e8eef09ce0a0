//! Why a shelf did not take what it was given.

/// Why a shelf did not take what it was given.
#[derive(Debug, Drop)]
pub enum ShelfFault {
    /// What belongs at this path can't be written, or the system rejects the path.
    CannotWrite(String),
    /// Memory was refused.
    NoMemory,
}

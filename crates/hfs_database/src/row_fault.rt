//! Why a taker did not take a row.

/// Why a taker did not take a row.
#[derive(Clone, Copy, Debug, PartialEq, Eq)]
pub enum TakerFault {
    /// The row can't be written.
    CannotWrite,
    /// Memory was refused.
    NoMemory,
}

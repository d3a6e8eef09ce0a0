//! Why no new volume is planned.
use thiserror::Error;

/// Why no new volume is planned. The first two are faults of what was asked for, and come before any source is looked at.
#[derive(Clone, Copy, Debug, PartialEq, Eq, Error)]
pub enum MakeFault {
    /// The volume has no name, or one that isn't an item name of 1 to 27 characters.
    #[error("bad name")]
    BadName,
    /// The size isn't whole blocks of 512 bytes, from 64 KB to 2 GB.
    #[error("bad size")]
    BadSize,
    /// No volume of up to 2 GB can hold all items, or the size that was asked for has no room even for the trees.
    #[error("no room")]
    NoRoom,
    /// Memory was refused.
    #[error("out of memory")]
    Memory,
}

//! Why a plan of a new volume is refused.
use thiserror::Error;

/// Why no new volume was made. The first four are checked in this order, before any memory is asked for.
#[derive(Clone, Copy, Debug, PartialEq, Eq, Error)]
pub enum FormatFault {
    /// The name isn't an item name of 1 to 27 characters.
    #[error("bad name")]
    BadName,
    /// The volume would have fewer than 8 or more than 4,194,304 logical blocks.
    #[error("bad size")]
    BadSize,
    /// The catalog has fewer than 2 nodes, or the extents file none.
    #[error("bad node count")]
    BadNodes,
    /// The two files need more allocation blocks than the volume has.
    #[error("no room")]
    NoRoom,
    /// Memory was refused. The plan then has none of the other faults.
    #[error("out of memory")]
    Memory,
}

//! Why bytes are no node.
ghost use Rattle.std.specs.Prelude.{◌≡◌};
ghost use Rattle.hfs_btree.specs.Fault.{number_of};

use thiserror::Error;

/// Why 512 bytes are no node, or why the node wasn't copied. The faults of the bytes are found in the order in which they are
/// listed here.
#[derive(Clone, Copy, Debug, PartialEq, Eq, Error)]
pub enum NodeFault {
    /// The type is none of $00, $01, $02 and $FF.
    #[error("the node's type is unknown")]
    Kind,
    /// An offset is below 14 or above the place where the row of offsets begins, or that row doesn't fit into the node.
    #[error("a record lies outside the node's room")]
    Outside,
    /// An offset is below the one before it.
    #[error("the records' offsets don't rise")]
    NotRising,
    /// Memory was refused, which says nothing about the bytes.
    #[error("out of memory")]
    Memory,
}

impl NodeFault {
    /// The fault's number, if it is a fault of the bytes: 3 for the type, 2 for an offset outside, 1 for offsets that don't rise.
    /// None for refused memory.
    pub fn number(self) -> Option<u8>
        ensures { result ≡ number_of self }
    {
        match self {
            NodeFault::Kind => Some(3),
            NodeFault::Outside => Some(2),
            NodeFault::NotRising => Some(1),
            NodeFault::Memory => None,
        }
    }
}

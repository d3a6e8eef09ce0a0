//! Why a list was not laid.
ghost use Rattle.std.specs.Prelude.{◌≡◌};
ghost use Rattle.hfs_put.specs.Faults.{fault_at};
ghost use Rattle.hfs_put.specs.declared.faults.CallFault.TheVariants as call_fault;
ghost use Rattle.hfs_put.specs.declared.faults.LayFault.TheVariants as lay_fault;

use hfs_model::Reply;
use std::alloc::{AllocError, AllocFailed};

/// Why a call was not made.
#[derive(Drop)]
pub enum CallFault {
    /// Memory was refused.
    NoMemory,
    /// It was refused, with this reply.
    Refused(Reply),
}

/// Why a list was not laid.
#[derive(Drop)]
pub enum LayFault {
    /// Memory was refused.
    NoMemory,
    /// The folder at this place of the list was to be kept, and doesn't exist.
    Absent { place: usize },
    /// A call of the item at this place of the list was refused, with this reply.
    Refused { place: usize, reply: Reply },
}

impl From<AllocError> for CallFault {
    ghost from_gives = { λ _ fault. fault ≡ call_fault.NoMemory };

    fn from(_: AllocError) -> CallFault {
        CallFault::NoMemory
    }
}

impl From<AllocError> for LayFault {
    ghost from_gives = { λ _ fault. fault ≡ lay_fault.NoMemory };

    fn from(_: AllocError) -> LayFault {
        LayFault::NoMemory
    }
}

impl<T: Drop> From<AllocFailed<T>> for LayFault {
    ghost from_gives = { λ _ fault. fault ≡ lay_fault.NoMemory };

    fn from(_: AllocFailed<T>) -> LayFault {
        LayFault::NoMemory
    }
}

/// The fault of a call of the item at a place.
pub(crate) fn fault_at(place: usize, fault: CallFault) -> LayFault
    ensures { result ≡ fault_at place fault }
{
    match fault {
        CallFault::NoMemory => LayFault::NoMemory,
        CallFault::Refused(reply) => LayFault::Refused { place, reply },
    }
}

//! Why the rows of an image were not all given.
ghost use Rattle.std.specs.Prelude.{◌≡◌};

use hfs_database::TakerFault;
use hfs_source::SparseFault;
use std::alloc::AllocError;

/// Why the rows of an image were not all given.
#[derive(Clone, Copy, Debug, PartialEq, Eq)]
pub enum CollectFault {
    /// A read of the image failed.
    ReadFailed,
    /// A row can't be written.
    CannotWrite,
    /// Memory was refused.
    NoMemory,
}

impl From<AllocError> for CollectFault {
    ghost use Rattle.hfs_word_collect.specs.declared.fault.CollectFault.TheVariants.{NoMemory};

    ghost from_gives = { λ _ fault. fault ≡ NoMemory };

    fn from(_: AllocError) -> CollectFault {
        CollectFault::NoMemory
    }
}

impl From<SparseFault> for CollectFault {
    ghost use Rattle.hfs_word_collect.specs.Faults.{reading_fault};

    ghost from_gives = { λ why fault. fault ≡ reading_fault why };

    fn from(fault: SparseFault) -> CollectFault {
        match fault {
            SparseFault::ReadFailed => CollectFault::ReadFailed,
            SparseFault::Memory => CollectFault::NoMemory,
        }
    }
}

impl From<TakerFault> for CollectFault {
    ghost use Rattle.hfs_word_collect.specs.Faults.{giving_fault};

    ghost from_gives = { λ why fault. fault ≡ giving_fault why };

    fn from(fault: TakerFault) -> CollectFault {
        match fault {
            TakerFault::CannotWrite => CollectFault::CannotWrite,
            TakerFault::NoMemory => CollectFault::NoMemory,
        }
    }
}

//! Why a bag was not filled.
ghost use Rattle.std.specs.Prelude.{◌≡◌};

use crate::ShelfFault;
use crate::source::SourceFault;
use std::alloc::AllocError;

/// Why a bag was not filled.
#[derive(Debug, Drop)]
pub enum BagFault {
    /// The source failed to give something.
    Source(SourceFault),
    /// The shelf failed to take something.
    Shelf(ShelfFault),
    /// The payload has 2^64 bytes or more.
    TooLarge,
}

impl From<SourceFault> for BagFault {
    ghost use Rattle.hfs_bag.specs.declared.fault.BagFault.TheVariants as bag;

    ghost from_gives = { λ why fault. fault ≡ bag.Source why };

    fn from(fault: SourceFault) -> BagFault {
        BagFault::Source(fault)
    }
}

impl From<ShelfFault> for BagFault {
    ghost use Rattle.hfs_bag.specs.declared.fault.BagFault.TheVariants as bag;

    ghost from_gives = { λ why fault. fault ≡ bag.Shelf why };

    fn from(fault: ShelfFault) -> BagFault {
        BagFault::Shelf(fault)
    }
}

impl From<AllocError> for BagFault {
    ghost use Rattle.hfs_bag.specs.declared.fault.BagFault.TheVariants as bag;
    ghost use Rattle.hfs_bag.specs.declared.source.SourceFault.TheVariants as source;

    ghost from_gives = { λ _ fault. fault ≡ bag.Source source.Memory };

    fn from(_: AllocError) -> BagFault {
        BagFault::Source(SourceFault::Memory)
    }
}

//! Why an image is refused.
ghost use Rattle.std.specs.Prelude.{◌≡◌};
ghost use Rattle.hfs_check.specs.declared.mount_fault.MountFault.TheVariants.{Memory};

use std::alloc::AllocError;
use thiserror::Error;

/// Why an image is not mounted: the first of the checks of docs/CHECKS.md that fails. The variants except `Memory` are in the
/// order of the checks.
#[derive(Clone, Copy, Debug, PartialEq, Eq, Error)]
pub enum MountFault {
    /// The image has more than 2,147,483,648 bytes.
    #[error("too large")]
    TooLarge,
    /// The image has fewer than 1,536 bytes, so that it has no whole master directory block.
    #[error("too short")]
    Short,
    /// The master directory block doesn't begin with the signature $4244.
    #[error("no HFS volume")]
    NoMacDisk,
    /// A field of the master directory block can't be right. The number is that of the first such test: 1 there is no allocation
    /// block; 2 an allocation block is not one or more whole blocks of 512 bytes; 3 the bitmap doesn't lie between block 3 and
    /// the allocation blocks; 4 the allocation blocks don't lie in the image; 5 the next ID is below 16.
    #[error("wrong field of the master directory block ({0})")]
    BadMdb(u8),
    /// Check `number` fails: 3 the extents tree, 4 the shape of the catalog tree, 5 its records, 6 IDs, 7 names, 8 order,
    /// parents and threads, 9 valences, 10 counts, 11 extents, 12 space.
    #[error("check {number} at {place}")]
    Check {
        /// 3 to 12.
        number: u8,
        /// Where it first fails, counted from 0. For check 3 or 4 it is the number of a node, or 0 if what fails is no node of
        /// the tree's levels. For 5 to 9 it is the number of a record among those of the catalog's leaves, or how many there are
        /// if what fails is none of them. For 10 it is the number of the count, 1 to 4. For 11 it is the number of a record among
        /// those of the catalog's leaves and then those of the extents tree's leaves. For 12 it is the number of an allocation
        /// block, or how many there are if the number of free ones is wrong.
        place: u64,
    },
    /// Memory was refused, which says nothing about the image.
    #[error("out of memory")]
    Memory,
}

impl From<AllocError> for MountFault {
    ghost from_gives = { λ _ fault. fault ≡ Memory };

    fn from(_: AllocError) -> MountFault {
        MountFault::Memory
    }
}

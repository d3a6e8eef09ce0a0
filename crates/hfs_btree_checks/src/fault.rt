//! Where a tree is wrong.

ghost use Rattle.std.specs.Prelude.{◌≡◌};
ghost use Rattle.hfs_btree_checks.specs.declared.fault.TreeFault.TheVariants.{Memory};

use std::alloc::{AllocError, AllocFailed};
use thiserror::Error;

/// Why a tree doesn't pass a check.
#[derive(Clone, Copy, Debug, PartialEq, Eq, Error)]
pub enum TreeFault {
    /// The node with this number, counted from 0, is the first that fails the first rule that fails; 0 if what fails is no node
    /// of the levels.
    #[error("node {0} of the tree is wrong")]
    At(u32),
    /// Memory was refused, which says nothing about the tree.
    #[error("out of memory")]
    Memory,
}

impl From<AllocError> for TreeFault {
    ghost from_gives = { λ _ fault. fault ≡ Memory };

    fn from(_: AllocError) -> TreeFault {
        TreeFault::Memory
    }
}

impl<T: Drop> From<AllocFailed<T>> for TreeFault {
    ghost from_gives = { λ _ fault. fault ≡ Memory };

    fn from(_: AllocFailed<T>) -> TreeFault {
        TreeFault::Memory
    }
}

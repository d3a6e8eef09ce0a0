//! Why bytes are no script, and why lines have no text.
ghost use Rattle.std.specs.Prelude.{◌≡◌};

use std::alloc::{AllocError, AllocFailed};

/// Why a script wasn't read.
#[derive(Clone, Copy, Debug, PartialEq, Eq)]
pub enum ScriptFault {
    /// The script has more than 16,777,216 bytes.
    TooLarge,
    /// The line with this number, counted from 1, is the first that can't be read.
    Line(u64),
    /// Memory was refused.
    Memory,
}

impl From<AllocError> for ScriptFault {
    ghost use Rattle.hfs_scripts.specs.declared.fault.ScriptFault.TheVariants.{Memory};

    ghost from_gives = { λ _ fault. fault ≡ Memory };

    fn from(_: AllocError) -> Self {
        ScriptFault::Memory
    }
}

impl<T: Drop> From<AllocFailed<T>> for ScriptFault {
    ghost use Rattle.hfs_scripts.specs.declared.fault.ScriptFault.TheVariants.{Memory};

    ghost from_gives = { λ _ fault. fault ≡ Memory };

    fn from(_: AllocFailed<T>) -> Self {
        ScriptFault::Memory
    }
}

/// Why lines have no text.
#[derive(Clone, Copy, Debug, PartialEq, Eq)]
pub enum TextFault {
    /// The line with this number, counted from 1, is the first that has no text: its caller's number is not from 1 to 8, a viewer
    /// has a call that viewers can't make, a name has a tab or a line feed in it, or its call is made at another moment.
    Unwritable(u64),
    /// The text has more than 16,777,216 bytes, so it is no script.
    TooLarge,
    /// Memory was refused.
    Memory,
}

impl From<AllocError> for TextFault {
    ghost use Rattle.hfs_scripts.specs.declared.fault.TextFault.TheVariants.{Memory};

    ghost from_gives = { λ _ fault. fault ≡ Memory };

    fn from(_: AllocError) -> Self {
        TextFault::Memory
    }
}

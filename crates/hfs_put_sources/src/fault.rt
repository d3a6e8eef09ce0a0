//! Why the sources could not be looked at.
ghost use Rattle.std.specs.Prelude.{◌≡◌};
ghost use Rattle.hfs_put_sources.specs.Faults.{IsUnread};
ghost use Rattle.hfs_put_sources.specs.declared.fault.HostFault.TheVariants.{NoMemory};

use std::alloc::{AllocError, AllocFailed, Global};

/// Why the sources could not be looked at.
#[derive(Debug, Drop)]
pub enum HostFault {
    /// What is at this path can't be read.
    CannotRead(String),
    /// A name in the folder at this path is not UTF-8.
    NotUtf8(String),
    /// Memory was refused.
    NoMemory,
}

impl From<AllocError> for HostFault {
    ghost from_gives = { λ _ fault. fault ≡ NoMemory };

    fn from(_: AllocError) -> HostFault {
        HostFault::NoMemory
    }
}

impl<T: Drop> From<AllocFailed<T>> for HostFault {
    ghost from_gives = { λ _ fault. fault ≡ NoMemory };

    fn from(_: AllocFailed<T>) -> HostFault {
        HostFault::NoMemory
    }
}

/// The fault for what is at a path and can't be read; `NoMemory` if the path can't be kept.
pub fn cannot_read(alloc: Global, path: &str) -> HostFault
    ensures { IsUnread path.now result }
{
    match String::from_str(alloc, path) {
        Ok(path) => HostFault::CannotRead(path),
        Err(_) => HostFault::NoMemory,
    }
}

/// The fault for a folder with a name in it that is not UTF-8.
pub(crate) fn not_utf8(alloc: Global, path: &str) -> HostFault {
    match String::from_str(alloc, path) {
        Ok(path) => HostFault::NotUtf8(path),
        Err(_) => HostFault::NoMemory,
    }
}

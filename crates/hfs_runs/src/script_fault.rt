//! Why a script was not run.
ghost use Rattle.std.specs.Prelude.{◌≡◌, ◌≢◌};
ghost use Rattle.hfs_runs.specs.ScriptFaults.{fault_of_script};

use hfs_check::MountFault;
use std::alloc::{AllocError, AllocFailed};

/// Why a script was not run on an image. Nothing was done then.
#[derive(Clone, Copy, Debug, PartialEq, Eq)]
pub enum ScriptFault {
    /// The script has more than 16,777,216 bytes.
    TooLarge,
    /// The line with this number, counted from 1, is the first that can't be read.
    Line(u64),
    /// The image is refused, and not for lack of memory.
    Refused(MountFault),
    /// There was no room for another viewer. Only of a script in which a viewer has a line.
    NoPlace,
    /// Memory was refused.
    Memory,
}

impl ScriptFault {
    /// What a fault of reading the script means for its run.
    pub fn of_script(fault: hfs_scripts::ScriptFault) -> ScriptFault
        ensures { result ≡ fault_of_script fault }
    {
        match fault {
            hfs_scripts::ScriptFault::TooLarge => ScriptFault::TooLarge,
            hfs_scripts::ScriptFault::Line(line) => ScriptFault::Line(line),
            hfs_scripts::ScriptFault::Memory => ScriptFault::Memory,
        }
    }

    /// What a fault of mounting the image means for the run.
    pub fn of_mount(fault: MountFault) -> ScriptFault
        ensures memory { fault ≡ MountFault.Memory → result ≡ ScriptFault.Memory }
        ensures refused { fault ≢ MountFault.Memory → result ≡ ScriptFault.Refused fault }
    {
        match fault {
            MountFault::Memory => ScriptFault::Memory,
            _ => ScriptFault::Refused(fault),
        }
    }
}

impl From<AllocError> for ScriptFault {
    ghost use Rattle.hfs_runs.specs.declared.script_fault.ScriptFault.TheVariants.{Memory};

    ghost from_gives = { λ _ fault. fault ≡ Memory };

    fn from(_: AllocError) -> Self {
        ScriptFault::Memory
    }
}

impl<T: Drop> From<AllocFailed<T>> for ScriptFault {
    ghost use Rattle.hfs_runs.specs.declared.script_fault.ScriptFault.TheVariants.{Memory};

    ghost from_gives = { λ _ fault. fault ≡ Memory };

    fn from(_: AllocFailed<T>) -> Self {
        ScriptFault::Memory
    }
}

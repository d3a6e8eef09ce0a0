//! Why a script was not run, as the program answers it.
ghost use Rattle.std.specs.Prelude.{◌≡◌};
ghost use Rattle.hfs_runs.specs.RunFaults.{fault_of_run};

use crate::ScriptFault;
use hfs_commands::Fault;

/// What a fault of a script's run means for the program.
pub fn run_fault(fault: ScriptFault) -> Fault<'static>
    ensures { result ≡ fault_of_run fault }
{
    match fault {
        ScriptFault::TooLarge => Fault::ScriptTooLarge,
        ScriptFault::Line(line) => Fault::ScriptLine(line),
        ScriptFault::Refused(why) => Fault::Refused(why),
        ScriptFault::NoPlace => Fault::NoPlace,
        ScriptFault::Memory => Fault::NoMemory,
    }
}

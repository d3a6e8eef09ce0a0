//! Why no new volume is made.
ghost use Rattle.std.specs.Prelude.{◌≡◌};
ghost use Rattle.hfs_word_make.specs.Faults.{told_of};

use hfs_commands::Fault;
use hfs_format::MakeFault;
use hfs_word_put::PutFault;

/// What it means that no new volume is planned.
pub(crate) fn of_make(fault: MakeFault) -> PutFault<'static>
    ensures { result ≡ told_of fault }
{
    PutFault::Image(match fault {
        MakeFault::BadName => Fault::BadName,
        MakeFault::BadSize => Fault::BadSize,
        MakeFault::NoRoom => Fault::NoRoom,
        MakeFault::Memory => Fault::NoMemory,
    })
}

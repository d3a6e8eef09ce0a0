//! Why a run ended early.
ghost use Rattle.std.specs.Prelude.{◌≡◌};
ghost use Rattle.hfs_word_collect.specs.Answers.{image_fault};

use crate::CollectFault;
use hfs_database::{DatabaseFault, Obstacle, TakerFault};

/// Why a run ended early.
#[derive(Clone, Copy, Debug, PartialEq, Eq)]
pub enum RunFault {
    /// The database can't be opened.
    CannotOpen(Obstacle),
    /// The database, or the writer of the text, can't be written.
    CannotWrite,
    /// Memory was refused.
    NoMemory,
}

impl From<DatabaseFault> for RunFault {
    ghost use Rattle.hfs_word_collect.specs.Answers.{database_fault};

    ghost from_gives = { λ why fault. fault ≡ database_fault why };

    fn from(fault: DatabaseFault) -> RunFault {
        match fault {
            DatabaseFault::CannotOpen(obstacle) => RunFault::CannotOpen(obstacle),
            DatabaseFault::CannotWrite => RunFault::CannotWrite,
            DatabaseFault::NoMemory => RunFault::NoMemory,
        }
    }
}

impl From<TakerFault> for RunFault {
    ghost use Rattle.hfs_word_collect.specs.Answers.{taker_fault};

    ghost from_gives = { λ why fault. fault ≡ taker_fault why };

    fn from(fault: TakerFault) -> RunFault {
        match fault {
            TakerFault::CannotWrite => RunFault::CannotWrite,
            TakerFault::NoMemory => RunFault::NoMemory,
        }
    }
}

impl RunFault {
    /// What a failure to give an image's rows means for the run. None if only the image can't be read, and the run goes on with
    /// the next one.
    pub fn of_image(fault: CollectFault) -> Option<RunFault>
        ensures { result ≡ image_fault fault }
    {
        match fault {
            CollectFault::ReadFailed => None,
            CollectFault::CannotWrite => Some(RunFault::CannotWrite),
            CollectFault::NoMemory => Some(RunFault::NoMemory),
        }
    }
}

//! Places that are free for a new file.
ghost use Rattle.std.specs.Prelude.{◌≡◌, IfErr, IfOk, IsErr};
ghost use Rattle.hfs_commands.specs.Saving.{IsNoPlace};

use crate::fault::Fault;
use std::fs::Metadata;
use std::io;
use std::io::ErrorKind;

/// Evidence that a place was looked at and nothing was there, not even a link. It is made in no other way.
#[derive(Drop)]
pub(crate) struct FreePlace {
    _looked: (),
}

impl FreePlace {
    /// The place at a path, from what was found there. Faults: `IsThere`; `CannotWrite` if the path can't be looked up.
    pub(crate) fn of(found: io::Result<Metadata>, path: &str) -> Result<FreePlace, Fault<'_>>
        ensures free { IfOk result (λ _. IsErr found) }
        ensures fault { IfErr result (IsNoPlace path.entry) }
    {
        match found {
            Ok(_) => Err(Fault::IsThere(path)),
            Err(error) => {
                if error.kind() == ErrorKind::NotFound {
                    Ok(FreePlace { _looked: () })
                } else {
                    Err(Fault::CannotWrite(path))
                }
            }
        }
    }
}

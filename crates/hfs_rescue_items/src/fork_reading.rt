//! Forks that were found, as they are read piece by piece.
ghost use Rattle.std.specs.Prelude.{◌≡◌, ℕ, List, true, IfErr, IfOk};
ghost use Rattle.hfs_bag.specs.Forks.{fork_rest};
ghost use Rattle.hfs_remains_forks.specs.ForkBytes.{fork_bytes};
ghost use Rattle.hfs_rescue_items.specs.Faults.{AreInReach, WantsMemory};

use crate::pieces::pieces_of;
use hfs_bag::{ForkReading, SourceFault};
use hfs_fields::Mdb;
use hfs_remains_forks::FoundFork;
use std::alloc::Global;

/// Begins with a fork. Errors: as for [`pieces_of`].
#[tactic(auto, using(crate::proofs::ReadLemmas::fork_begun))]
pub(crate) fn begin_fork(
    alloc: Global,
    mdb: &Mdb,
    fork: &FoundFork,
) -> Result<ForkReading, SourceFault>
    ensures begun { (image : List ℕ) → IfOk result (λ reading. fork_rest true image reading
        ≡ fork_bytes image mdb.now fork.now.length fork.now.places.items) }
    ensures fault { IfErr result (λ fault. AreInReach mdb.now fork.now.places.items
        → WantsMemory fault) }
{
    let pieces = pieces_of(alloc, mdb, &fork.places, fork.length)?;
    Ok(ForkReading::new(pieces, fork.length))
}

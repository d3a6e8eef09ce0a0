//! Forks of an opened image, as they are read piece by piece.
ghost use Rattle.std.specs.Prelude.{◌≡◌, List, ℕ, false, IfOk};
ghost use Rattle.std.specs.List.{flat_map};
ghost use Rattle.hfs_bag.specs.Forks.{fork_rest};
ghost use Rattle.hfs_blocks.specs.Blocks.{AreRunsWithin, run_of};
ghost use Rattle.hfs_word_take.specs.Reading.{first_bytes};

use crate::pieces::pieces_of;
use hfs_bag::ForkReading;
use hfs_image::ForkRuns;
use std::alloc::{AllocError, Global};

/// Begins with a fork, whose bytes lie there. Error: memory was refused.
#[tactic(auto, using(crate::proofs::ReadLemmas::fork_begun))]
pub(crate) fn begin_fork(alloc: Global, found: &ForkRuns) -> Result<ForkReading, AllocError>
    requires { AreRunsWithin found.now.runs.items 4294967296 }
    ensures { (image : List ℕ) → IfOk result (λ fork. fork_rest false image fork
        ≡ first_bytes image found.now.length (flat_map run_of found.now.runs.items)) }
{
    let pieces = pieces_of(alloc, &found.runs)?;
    Ok(ForkReading::new(pieces, found.length))
}

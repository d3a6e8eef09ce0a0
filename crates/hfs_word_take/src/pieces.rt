//! The blocks of a fork in pieces, each of which is read at once.
ghost use Rattle.std.specs.Prelude.{◌≡◌, ◌+◌, ◌≤◌, ◌++◌, List, ℕ, false, IfOk, OnOk};
ghost use Rattle.std.specs.List.{flat_map, range_with_len};
ghost use Rattle.hfs_bag.specs.Forks.{pieces_bytes};
ghost use Rattle.hfs_blocks.specs.Blocks.{AreRunsWithin, run_of};
ghost use Rattle.hfs_source.specs.Writing.{blocks_of};

use hfs_bag::Piece;
use hfs_blocks::Run;
use std::alloc::{AllocError, Global};

/// The most blocks that are read at once, which have 64 KB.
const MOST_AT_ONCE: u32 = 128;

/// Appends the bytes of so many blocks from number `first` on as a piece.
#[tactic(auto, using(crate::proofs::PieceLemmas::piece_pushed))]
fn push_blocks(pieces: &mut Vec<Piece>, first: u32, count: u32) -> Result<(), AllocError>
    requires some { 1 ≤ count }
    requires few { count ≤ 128 }
    ensures { (image : List ℕ) → OnOk result (pieces_bytes false image pieces.new.items
        ≡ pieces_bytes false image pieces.old.items ++ blocks_of image (range_with_len first count)) }
{
    pieces.push(Piece {
        first: Some(first),
        len: count * 512,
    })?;
    Ok(())
}

/// Appends the bytes of a run's blocks, in pieces of at most 128 blocks.
fn push_run(pieces: &mut Vec<Piece>, run: &Run) -> Result<(), AllocError>
    requires { run.now.first + run.now.count ≤ 4294967296 }
    ensures { (image : List ℕ) → OnOk result (pieces_bytes false image pieces.new.items
        ≡ pieces_bytes false image pieces.old.items ++ blocks_of image (run_of run.now)) }
{
    let mut behind = run.count;
    while behind > 0 {
        let count = behind.min(MOST_AT_ONCE);
        let first = run.first + (run.count - behind);
        push_blocks(pieces, first, count)?;
        behind -= count;
    }
    Ok(())
}

/// The bytes of the blocks of these runs, in pieces of at most 128 blocks.
#[tactic(auto, using(crate::proofs::PieceLemmas::runs_whole))]
pub(crate) fn pieces_of(alloc: Global, runs: &[Run]) -> Result<Vec<Piece>, AllocError>
    requires { AreRunsWithin runs.now 4294967296 }
    ensures { (image : List ℕ) → IfOk result (λ pieces. pieces_bytes false image pieces.items
        ≡ blocks_of image (flat_map run_of runs.now)) }
{
    let mut pieces = Vec::new(alloc);
    for run in runs {
        push_run(&mut pieces, run)?;
    }
    Ok(pieces)
}

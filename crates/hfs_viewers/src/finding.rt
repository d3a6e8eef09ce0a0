//! Pieces by their places in a fork.
ghost use Rattle.std.specs.Prelude.{◌≡◌, ◌≤◌, length, take};
ghost use Rattle.std.specs.List.Sorted.{IsNonDecreasingBy};
ghost use Rattle.hfs_viewers.specs.declared.piece.Piece.{Piece};
ghost use Rattle.hfs_viewers.specs.Pieces.{end_of};
ghost use Rattle.hfs_viewers.specs.PieceEdits.{HaveEnded};

use crate::piece::Piece;

/// How many of the pieces end at or before this place. A binary search.
pub(crate) fn ended(pieces: &[Piece], place: u32) -> usize
    requires { IsNonDecreasingBy (λ (p : Piece). p.end) pieces.now }
    ensures { HaveEnded pieces.now place result }
{
    pieces.partition_point(|piece| piece.end <= place)
}

/// Where the piece with that number begins, or where the last one ends.
pub(crate) fn start_of(pieces: &[Piece], number: usize) -> u32
    requires { number ≤ length pieces.now }
    ensures { result ≡ end_of 0 (take number pieces.now) }
{
    if number == 0 {
        return 0;
    }
    pieces[number - 1].end
}

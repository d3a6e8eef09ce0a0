//! Pieces of a file with forks laid into it, each in one run or in none.
ghost use Rattle.std.specs.Prelude.{◌≡◌, ◌-◌, ◌<◌, ◌≤◌, IsTrue, min};
ghost use Rattle.hfs_put.specs.declared.piece.Piece.TheVariants.{OfRun, Own};
ghost use Rattle.hfs_put.specs.Pieces.{IsInRun, IsPieceAt, piece_len};
ghost use Rattle.hfs_put.specs.Runs.{are_apart, end_of};

use crate::order::next_run;
use hfs_put_sources::ForkRun;

/// A piece of the bytes.
#[derive(Clone, Copy)]
pub(crate) enum Piece {
    /// This many of the file's own bytes.
    Own(usize),
    /// Bytes of what is in a run: from a byte of it on, this many.
    OfRun(ForkRun, u64, usize),
}

impl Piece {
    /// How many bytes it has.
    pub(crate) fn len(&self) -> usize
        ensures { result ≡ piece_len self.now }
    {
        match self {
            Piece::Own(count) => *count,
            Piece::OfRun(_, _, count) => *count,
        }
    }
}

/// The lesser of the two.
pub(crate) fn least(room: usize, count: u64) -> usize
    ensures { result ≡ min room count }
{
    if count < room as u64 {
        count as usize
    } else {
        room
    }
}

/// The piece from a byte on that begins before this run or in it.
fn piece_before(run: ForkRun, byte: u64, room: usize) -> Piece
    requires ends { byte < end_of run }
    requires room { 0 < room }
    ensures before { byte < run.place → result ≡ Own (min room (run.place - byte)) }
    ensures some { 0 < piece_len result }
    ensures in_run { run.place ≤ byte → result ≡ OfRun run (byte - run.place) (min room (end_of run - byte)) }
{
    if byte < run.place {
        Piece::Own(least(room, run.place - byte))
    } else {
        let from = byte - run.place;
        Piece::OfRun(run, from, least(room, run.len - from))
    }
}

/// The piece from byte `at` of the file on, with no more bytes than there is room for.
pub(crate) fn piece_at(runs: &[ForkRun], start: u64, at: u64, room: usize) -> Piece
    requires apart { IsTrue (are_apart 0 runs.now) }
    requires room { 0 < room }
    ensures bytes { IsPieceAt start runs.now at result }
    ensures some { 0 < piece_len result }
    ensures few { piece_len result ≤ room }
    ensures inside { IsInRun start runs.now at result }
{
    if at < start {
        return Piece::Own(least(room, start - at));
    }
    let byte = at - start;
    match next_run(runs, byte) {
        Some(run) => piece_before(run, byte, room),
        None => Piece::Own(room),
    }
}

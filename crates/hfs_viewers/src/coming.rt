//! The pieces that are put in when a fork is written or cut.
ghost use Rattle.std.specs.Prelude.{◌≡◌, ◌+◌, ◌<◌, ◌++◌, take, drop, IfOk};
ghost use Rattle.hfs_viewers.specs.declared.piece.Piece.{Piece};
ghost use Rattle.hfs_viewers.specs.Pieces.{end_of};
ghost use Rattle.hfs_viewers.specs.PieceEdits.{HaveEnded, MaySkipTo, front_of, back_of, come_of};

use crate::finding::{ended, start_of};
use crate::piece::{Piece, Source};
use hfs_model::SharedBytes;
use std::alloc::{AllocError, Global};

/// Appends what stays of the pieces from that number on before a place, which the first of them reaches.
pub(crate) fn push_front(
    come: Vec<Piece>,
    pieces: &[Piece],
    number: usize,
    place: u32,
) -> Result<Vec<Piece>, AllocError>
    requires { HaveEnded pieces.now place number }
    ensures { IfOk result (λ all. all.items ≡ come.items ++ front_of (end_of 0 (take number pieces.now)) place (drop number pieces.now)) }
{
    let mut come = come;
    if number == pieces.len() {
        return Ok(come);
    }
    if place <= start_of(pieces, number) {
        return Ok(come);
    }
    come.push(Piece {
        end: place,
        source: pieces[number].source.clone()?,
    })?;
    Ok(come)
}

/// Appends what stays of the piece with that number after a place, before which it begins.
fn push_back(
    come: Vec<Piece>,
    pieces: &[Piece],
    number: usize,
    place: u32,
) -> Result<Vec<Piece>, AllocError>
    requires ended { HaveEnded pieces.now place number }
    requires skip { MaySkipTo (end_of 0 (take number pieces.now)) place (drop number pieces.now) }
    ensures { IfOk result (λ all. all.items ≡ come.items ++ back_of (end_of 0 (take number pieces.now)) place (drop number pieces.now)) }
{
    let mut come = come;
    if number == pieces.len() {
        return Ok(come);
    }
    let count = place - start_of(pieces, number);
    let piece = &pieces[number];
    come.push(Piece {
        end: piece.end,
        source: piece.source.skipped(count)?,
    })?;
    Ok(come)
}

/// The pieces for bytes that are written from a place on: what stays of the piece in which they begin, the bytes, and what stays
/// of the piece in which they end.
pub(crate) fn coming(
    alloc: Global,
    pieces: &[Piece],
    first: usize,
    last: usize,
    offset: u32,
    bytes: &SharedBytes,
    stop: u32,
) -> Result<Vec<Piece>, AllocError>
    requires first { HaveEnded pieces.now offset first }
    requires last { HaveEnded pieces.now stop last }
    requires skip { MaySkipTo (end_of 0 (take last pieces.now)) stop (drop last pieces.now) }
    ensures { IfOk result (λ all. all.items ≡ come_of pieces.now first last offset bytes.now stop) }
{
    let mut come = push_front(Vec::new(alloc), pieces, first, offset)?;
    come.push(Piece {
        end: stop,
        source: Source::Given {
            bytes: bytes.clone()?,
            from: 0,
        },
    })?;
    push_back(come, pieces, last, stop)
}

//! Consecutive blocks.
ghost use Rattle.std.specs.Prelude.{◌≡◌, IfOk, OnOk, reverse};
ghost use Rattle.hfs_remains_page.specs.Pictures as spec;

use hfs_fields::Extent;
use std::alloc::{AllocError, Global};

/// The piece that begins with a block and continues with another piece; None if it doesn't continue there.
fn joined(b: u16, next: Extent) -> Option<Extent>
    ensures { result ≡ spec.joined b next }
{
    if next.first == 0 || next.first - 1 != b || next.count == u16::MAX {
        return None;
    }
    Some(Extent {
        first: b,
        count: next.count + 1,
    })
}

/// Puts a block before pieces, the first of which is the last in the vector.
#[tactic(auto, using(crate::proofs::PieceLemmas::put_first, crate::proofs::PieceLemmas::put_joined, crate::proofs::PieceLemmas::put_apart))]
fn push_block(pieces: &mut Vec<Extent>, b: u16) -> Result<(), AllocError>
    ensures { OnOk result (reverse pieces.new.items ≡ spec.with_block b (reverse pieces.old.items)) }
{
    let own = Extent { first: b, count: 1 };
    let Some(next) = pieces.pop() else {
        pieces.push(own)?;
        return Ok(());
    };
    if let Some(both) = joined(b, next) {
        pieces.push(both)?;
        return Ok(());
    }
    pieces.push(next)?;
    pieces.push(own)?;
    Ok(())
}

/// Puts a block before pieces, if it exists.
fn push_place(pieces: &mut Vec<Extent>, place: Option<u16>) -> Result<(), AllocError>
    ensures { OnOk result (reverse pieces.new.items
        ≡ spec.with_place place (reverse pieces.old.items)) }
{
    match place {
        Some(b) => push_block(pieces, b),
        None => Ok(()),
    }
}

/// The pieces of these blocks, last one first.
#[tactic(auto, using(crate::proofs::PieceLemmas::pieces_more, crate::proofs::PieceLemmas::pieces_none))]
fn turned_pieces(alloc: Global, places: &[Option<u16>]) -> Result<Vec<Extent>, AllocError>
    ensures { IfOk result (λ pieces. reverse pieces.items ≡ spec.pieces places.now) }
{
    let mut pieces = Vec::new(alloc);
    let mut left = places.len();
    while left > 0 {
        left -= 1;
        push_place(&mut pieces, places[left])?;
    }
    Ok(pieces)
}

/// The pieces of these blocks, each of consecutive blocks; those that are missing are in none.
pub(crate) fn pieces_of(alloc: Global, places: &[Option<u16>]) -> Result<Vec<Extent>, AllocError>
    ensures { IfOk result (λ pieces. pieces.items ≡ spec.pieces places.now) }
{
    let mut pieces = turned_pieces(alloc, places)?;
    pieces.reverse();
    Ok(pieces)
}

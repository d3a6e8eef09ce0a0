//! The bytes of a fork in pieces, each of which is read at once.
ghost use Rattle.std.specs.Prelude.{◌≡◌, ◌+◌, ◌*◌, ◌/◌, ◌≤◌, ◌++◌, ℕ, List, take, true, IfErr, IfOk, IfSome, OnOk};
ghost use Rattle.std.specs.Option.{option_map};
ghost use Rattle.hfs_remains.specs.Allocation.{start_of};
ghost use Rattle.hfs_remains_forks.specs.ForkBytes.{fork_bytes, place_bytes};
ghost use Rattle.hfs_bag.specs.Forks.{first_bytes, piece_bytes, pieces_bytes};
ghost use Rattle.hfs_rescue_items.specs.Bytes.{GoesOn};
ghost use Rattle.hfs_rescue_items.specs.Faults.{AreInReach, IsInReach, IsRunInReach, WantsMemory};

use hfs_bag::{Piece, SourceFault};
use hfs_fields::Mdb;
use std::alloc::{AllocError, Global};

/// The most bytes that are read at once.
const MOST_AT_ONCE: u32 = 65_536;

/// The number of the logical block after `len` bytes from a block on; None if they end within one.
fn block_behind(first: u32, len: u32) -> Option<u32>
    ensures { IfSome result (λ next. 512 * next ≡ 512 * first + len) }
{
    if len % 512 != 0 {
        return None;
    }
    first.checked_add(len / 512)
}

/// Whether what begins in this logical block, or is missing, continues where a piece ends.
#[tactic(auto, using(crate::proofs::PieceLemmas::missing_goes_on, crate::proofs::PieceLemmas::block_goes_on))]
fn goes_on(piece: &Piece, first: Option<u32>) -> bool
    ensures { result ≡ true → GoesOn piece.now.first piece.now.len first }
{
    match (piece.first, first) {
        (None, None) => true,
        (Some(one), Some(other)) => block_behind(one, piece.len) == Some(other),
        (None, Some(_)) | (Some(_), None) => false,
    }
}

/// A piece, and bytes that begin in this logical block or are missing, as one piece; None if they aren't next to each other, or
/// are too many.
fn joined(piece: Piece, first: Option<u32>, len: u32) -> Option<Piece>
    ensures { IfSome result (λ both. (image : List ℕ) → piece_bytes true image both
        ≡ piece_bytes true image piece ++ first_bytes true image first len) }
{
    if !goes_on(&piece, first) || MOST_AT_ONCE - piece.len < len {
        return None;
    }
    Some(Piece {
        first: piece.first,
        len: piece.len + len,
    })
}

/// Appends bytes that begin in this logical block, or are missing: to the last piece if they continue it, or as a piece of their
/// own.
#[tactic(auto, using(crate::proofs::PieceLemmas::first_pushed, crate::proofs::PieceLemmas::last_joined, crate::proofs::PieceLemmas::last_kept))]
fn push_part(pieces: &mut Vec<Piece>, first: Option<u32>, len: u32) -> Result<(), AllocError>
    requires some { 1 ≤ len }
    requires few { len ≤ 65536 }
    ensures { (image : List ℕ) → OnOk result (pieces_bytes true image pieces.new.items
        ≡ pieces_bytes true image pieces.old.items ++ first_bytes true image first len) }
{
    let part = Piece { first, len };
    let Some(last) = pieces.pop() else {
        pieces.push(part)?;
        return Ok(());
    };
    if let Some(both) = joined(last, first, len) {
        pieces.push(both)?;
        return Ok(());
    }
    pieces.push(last)?;
    pieces.push(part)?;
    Ok(())
}

/// The logical block after 65,536 bytes that begin in this one; None if they are missing. Error: there is no such block.
#[tactic(auto, using(crate::proofs::PieceLemmas::missing_goes_on, crate::proofs::PieceLemmas::block_goes_on))]
fn first_behind(first: Option<u32>, len: u32) -> Result<Option<u32>, SourceFault>
    requires { len ≤ 65536 }
    ensures goes_on { len ≡ 65536 → IfOk result (GoesOn first len) }
    ensures next { IfOk result (λ next. next ≡ option_map (λ n. n + len / 512) first) }
    ensures fault { IfErr result (λ fault. IsRunInReach first len → WantsMemory fault) }
{
    let Some(block) = first else {
        return Ok(None);
    };
    match block.checked_add(len / 512) {
        Some(next) => Ok(Some(next)),
        None => Err(SourceFault::ReadFailed),
    }
}

/// Appends bytes that begin in this logical block, or are missing. Errors: memory was refused; they lead past the last block that
/// can be read.
fn push_run(pieces: &mut Vec<Piece>, first: Option<u32>, count: u32) -> Result<(), SourceFault>
    ensures bytes { (image : List ℕ) → OnOk result (pieces_bytes true image pieces.new.items
        ≡ pieces_bytes true image pieces.old.items ++ first_bytes true image first count) }
    ensures fault { IfErr result (λ fault. IsRunInReach first count → WantsMemory fault) }
{
    let mut next = first;
    let mut left = count;
    while left > 0 {
        let len = left.min(MOST_AT_ONCE);
        let Ok(()) = push_part(pieces, next, len) else {
            return Err(SourceFault::Memory);
        };
        let behind = first_behind(next, len)?;
        next = behind;
        left -= len;
    }
    Ok(())
}

/// The logical block in which an allocation block begins; None if it is missing. Error: there is no such block.
fn first_of(mdb: &Mdb, place: Option<u16>) -> Result<Option<u32>, SourceFault>
    ensures first { IfOk result (λ first. first ≡ option_map (start_of mdb.now) place) }
    ensures fault { IfErr result (λ fault. IsInReach mdb.now place → WantsMemory fault) }
{
    let Some(block) = place else {
        return Ok(None);
    };
    let each = u64::from(mdb.allocation_block_size / 512);
    let start = u64::from(mdb.allocation_start) + u64::from(block) * each;
    if start > u64::from(u32::MAX) {
        return Err(SourceFault::ReadFailed);
    }
    Ok(Some(start as u32))
}

/// Appends the first bytes of the block at a place of a fork.
fn push_place(
    pieces: &mut Vec<Piece>,
    mdb: &Mdb,
    place: Option<u16>,
    count: u32,
) -> Result<(), SourceFault>
    requires { count ≤ mdb.now.allocation_block_size }
    ensures bytes { (image : List ℕ) → OnOk result (pieces_bytes true image pieces.new.items
        ≡ pieces_bytes true image pieces.old.items ++ take count (place_bytes image mdb.now place)) }
    ensures fault { IfErr result (λ fault. IsInReach mdb.now place → WantsMemory fault) }
{
    let first = first_of(mdb, place)?;
    push_run(pieces, first, count)
}

/// The first bytes of a fork in these blocks, in pieces. Errors: memory was refused; a block lies past everything that can be
/// read.
#[tactic(auto, using(hfs_remains_forks::proofs::ForkByteLemmas::fork_whole))]
pub(crate) fn pieces_of(
    alloc: Global,
    mdb: &Mdb,
    places: &[Option<u16>],
    length: u32,
) -> Result<Vec<Piece>, SourceFault>
    ensures bytes { (image : List ℕ) → IfOk result (λ pieces. pieces_bytes true image pieces.items
        ≡ fork_bytes image mdb.now length places.now) }
    ensures fault { IfErr result (λ fault. AreInReach mdb.now places.now → WantsMemory fault) }
{
    let mut pieces = Vec::new(alloc);
    let mut left = length;
    for place in places {
        let count = left.min(mdb.allocation_block_size);
        push_place(&mut pieces, mdb, *place, count)?;
        left -= count;
    }
    Ok(pieces)
}

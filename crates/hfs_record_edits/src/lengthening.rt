//! Adding blocks to a fork's extents.

ghost use Rattle.std.specs.Prelude.{◌≡◌, ◌+◌, ◌<◌, ◌≤◌, ◌++◌, length, OnOk, IfOk};
ghost use Rattle.std.specs.List.{All};
ghost use Rattle.hfs_space.specs.Extents.{extent_blocks, AreExtentsWithin};
ghost use Rattle.hfs_record_edits.specs.Lengthened as spec;

use hfs_fields::Extent;
use std::alloc::AllocError;

/// The place of an extent that is not in use.
const NONE: Extent = Extent { first: 0, count: 0 };

/// How many places there are up to the last extent that has blocks.
fn used_places(extents: &[Extent]) -> usize
    ensures { result ≡ spec.used_places extents.now }
{
    let mut used = 0;
    for i in 0..extents.len() {
        if extents[i].count > 0 {
            used = i + 1;
        }
    }
    used
}

/// The last of the first `used` extents; one that is not in use if there is none.
fn last_used(extents: &[Extent], used: usize) -> Extent
    requires { used ≤ length extents.now }
    ensures { result ≡ spec.last_used extents.now used }
{
    if used == 0 {
        return NONE;
    }
    extents[used - 1]
}

/// Whether a piece begins directly after an extent's last block.
fn joins(extent: Extent, piece: Extent) -> bool
    ensures { result ≡ spec.joins extent piece }
{
    let end = u32::from(extent.first) + u32::from(extent.count);
    extent.count > 0 && end == u32::from(piece.first)
}

/// Puts a piece at a place; if there is none, into a new record of three.
fn put_at(extents: &mut Vec<Extent>, place: usize, piece: Extent) -> Result<(), AllocError>
    ensures { OnOk result (extents.new.items ≡ spec.with_place extents.old.items place piece) }
{
    if place < extents.len() {
        extents[place] = piece;
        return Ok(());
    }
    extents.push(piece)?;
    extents.push(NONE)?;
    extents.push(NONE)?;
    Ok(())
}

/// Adds a piece after the first `used` extents, and returns how many are then in use.
fn add_piece(extents: &mut Vec<Extent>, used: usize, piece: Extent) -> Result<usize, AllocError>
    requires used { used ≤ length extents.old.items }
    requires within { piece.first + piece.count ≤ 65535 }
    ensures extents { OnOk result
        (extents.new.items ≡ spec.with_piece extents.old.items used piece) }
    ensures used { IfOk result (λ now. now ≡ spec.used_with extents.old.items used piece) }
{
    let last = last_used(extents, used);
    if joins(last, piece) {
        extents[used - 1] = Extent {
            first: last.first,
            count: last.count + piece.count,
        };
        return Ok(used);
    }
    put_at(extents, used, piece)?;
    Ok(used + 1)
}

/// Adds blocks to a fork's extents, those of its record and then those of its records of the extents tree, in threes. A piece
/// that begins directly after the last extent's blocks lengthens that extent. Any other takes the next place, in a new record of
/// three if all places are in use. All other extents keep their places.
///
/// Errors: `AllocError` if memory was refused. Then nothing is known of the extents, which must be thrown away.
///
/// Source: Inside Macintosh: Files, chapter 2, 'Extents overflow file'.
pub fn lengthen(extents: &mut Vec<Extent>, pieces: &[Extent]) -> Result<(), AllocError>
    requires some { All (λ piece. 0 < piece.count) pieces.now }
    requires within { AreExtentsWithin 65535 pieces.now }
    ensures extents { OnOk result (extents.new.items ≡ spec.lengthened extents.old.items
        (spec.used_places extents.old.items) pieces.now) }
    ensures blocks { OnOk result (extent_blocks extents.new.items
        ≡ extent_blocks extents.old.items ++ extent_blocks pieces.now) }
{
    let mut used = used_places(extents);
    for i in 0..pieces.len() {
        used = add_piece(extents, used, pieces[i])?;
    }
    Ok(())
}

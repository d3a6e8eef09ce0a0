//! The extents of a fork that is cut to its first blocks, and those of the blocks that it loses.

ghost use Rattle.std.specs.Prelude.{ℕ, ◌≡◌, ◌≤◌, ◌++◌, IfOk, take, drop, length};
ghost use Rattle.hfs_space.specs.Extents.{extent_blocks, AreExtentsWithin};
ghost use Rattle.hfs_record_edits.specs.Cuts as spec;

use hfs_fields::Extent;
use std::alloc::{AllocError, Global};

/// The first `count` blocks of an extent. One that loses its last block is 0, 0; one that had none stays as it is.
fn first_blocks(extent: Extent, count: u32) -> Extent
    ensures { result ≡ spec.cut_extent count extent }
{
    if u32::from(extent.count) <= count {
        return extent;
    }
    if count == 0 {
        return Extent { first: 0, count: 0 };
    }
    Extent {
        first: extent.first,
        count: count as u16,
    }
}

/// The first `count` blocks of three extents, such as those of a file's record or of a record of the extents tree. Each keeps its
/// place; one that loses its last block becomes 0, 0, and one that had none stays as it is. Takes no memory.
pub fn cut_extents(extents: &[Extent; 3], count: u32) -> [Extent; 3]
    ensures extents { result ≡ spec.cut count extents.now }
    ensures blocks { extent_blocks result ≡ take count (extent_blocks extents.now) }
{
    let [first, second, third] = *extents;
    let rest = count.saturating_sub(u32::from(first.count));
    let last = rest.saturating_sub(u32::from(second.count));
    [
        first_blocks(first, count),
        first_blocks(second, rest),
        first_blocks(third, last),
    ]
}

/// Cuts a fork's extents to their first `count` blocks. Each keeps its place; one that loses its last block becomes 0, 0, and one
/// that had none stays as it is. Takes no memory.
pub fn cut_all(extents: &mut Vec<Extent>, count: u32)
    ensures { extents.new.items ≡ spec.cut count extents.old.items }
{
    let mut stay = count;
    for i in 0..extents.len() {
        let extent = extents[i];
        extents[i] = first_blocks(extent, stay);
        stay = stay.saturating_sub(u32::from(extent.count));
    }
}

/// The blocks of a fork's extents after the first `count`, as extents: those that a fork loses when it is cut.
///
/// Errors: `AllocError` if memory was refused.
pub fn surplus(alloc: Global, extents: &[Extent], count: u32) -> Result<Vec<Extent>, AllocError>
    requires { AreExtentsWithin 65535 extents.now }
    ensures extents { IfOk result (λ rest. rest.items ≡ spec.surplus count extents.now) }
    ensures blocks { IfOk result (λ rest. extent_blocks rest.items
        ≡ drop count (extent_blocks extents.now)) }
    ensures within { (n : ℕ) → AreExtentsWithin n extents.now
        → IfOk result (λ rest. AreExtentsWithin n rest.items) }
{
    let mut surplus = Vec::new(alloc);
    let mut stay = count;
    for i in 0..extents.len() {
        let extent = extents[i];
        let blocks = u32::from(extent.count);
        if stay < blocks {
            surplus.push(Extent {
                first: extent.first + stay as u16,
                count: extent.count - stay as u16,
            })?;
        }
        stay = stay.saturating_sub(blocks);
    }
    Ok(surplus)
}

//! The blocks of a tree's file that exist.
ghost use Rattle.std.specs.Prelude.{◌≡◌, ◌+◌, ◌*◌, ◌≤◌, IfOk, OnOk, length};
ghost use Rattle.std.specs.List.{range_with_len};
ghost use Rattle.hfs_remains.specs.TreeFiles as spec;

use crate::allocation::is_there;
use hfs_fields::{Extent, Mdb};
use std::alloc::{AllocError, Global};

/// A mark for each allocation block of the directory, set if the block exists within `total` logical blocks.
fn marks_of(alloc: Global, total: u32, mdb: &Mdb) -> Result<Vec<bool>, AllocError>
    ensures marks { IfOk result (λ marks. spec.MarkThere total mdb.now marks.items) }
    ensures few { IfOk result (λ marks. length marks.items ≤ 65535) }
{
    let mut marks = Vec::new(alloc);
    for b in 0..mdb.allocation_blocks {
        marks.push(is_there(total, mdb, b))?;
    }
    Ok(marks)
}

/// Block `b` if it is marked; clears its mark.
fn take_block(marks: &mut [bool], b: u32) -> Option<u16>
    requires { length marks.old ≤ 65535 }
    ensures { spec.TakesBlock b marks.old marks.new result }
{
    let place = b as usize;
    if place < marks.len() && marks[place] {
        marks[place] = false;
        Some(b as u16)
    } else {
        None
    }
}

/// Takes the blocks of an extent, in order, after those of a file.
fn take_extent(
    marks: &mut [bool],
    extent: Extent,
    file: &mut Vec<Option<u16>>,
) -> Result<(), AllocError>
    requires { length marks.old ≤ 65535 }
    ensures takes { OnOk result (spec.TakesBlocks (range_with_len extent.first extent.count)
        marks.old marks.new file.old.items file.new.items) }
    ensures few { OnOk result (length file.new.items ≤ length file.old.items + 65535) }
{
    for i in 0..extent.count {
        let b = u32::from(extent.first) + u32::from(i);
        let taken = take_block(marks, b);
        file.push(taken)?;
    }
    Ok(())
}

/// The blocks of the tree file with these extents, in order, in an image of `total` logical blocks, with None in place of each
/// that is missing. A block is missing if it is none of the directory's, if it doesn't lie wholly in the image, or if it came
/// earlier in this file. Fails only when out of memory.
#[tactic(auto, unfolding(crate::specs::TreeFiles::file_blocks))]
pub fn file_blocks(
    alloc: Global,
    total: u32,
    mdb: &Mdb,
    extents: &[Extent],
) -> Result<Vec<Option<u16>>, AllocError>
    ensures blocks { IfOk result (λ file. file.items ≡ spec.file_blocks total mdb.now extents.now) }
    ensures there { IfOk result (λ file. spec.AreThere total mdb.now file.items) }
    ensures few { IfOk result (λ file. length file.items ≤ 65535 * length extents.now) }
{
    let mut file = Vec::new(alloc);
    let mut marks = marks_of(alloc, total, mdb)?;
    for extent in extents {
        take_extent(&mut marks, *extent, &mut file)?;
    }
    Ok(file)
}

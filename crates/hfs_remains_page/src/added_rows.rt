//! The rows of what is no item: folders that only threads name, and what the page adds.
ghost use Rattle.std.specs.Prelude.{OnOk, codes};
ghost use Rattle.hfs_page.specs.Pieces.{Gains};
ghost use Rattle.hfs_remains_page.specs.Rows as spec;

use crate::folder_rows::{FolderRow, push_folder_row};
use crate::steps::Step;
use hfs_remains_places::Thing;
use std::alloc::{AllocError, Global};

/// Appends the row of something that is no item, with a note on it.
fn push_noted_row(
    alloc: Global,
    page: &mut Vec<u8>,
    depth: usize,
    name: &[u8],
    inside: usize,
    note: &[u8],
) -> Result<(), AllocError>
    ensures { OnOk result (Gains page.old page.new
        (spec.folder_row (codes "<li>") depth name.now inside 0 note.now)) }
{
    let row = FolderRow {
        name,
        inside,
        date: 0,
        note,
    };
    push_folder_row(alloc, page, b"<li>", depth, &row)
}

/// Appends the row of what holds the things that are lost, or the old ones.
fn push_apart_row(
    alloc: Global,
    page: &mut Vec<u8>,
    things: &[Thing],
    depth: usize,
    step: Step,
) -> Result<(), AllocError>
    ensures { OnOk result (Gains page.old page.new (spec.apart_row things.now depth step)) }
{
    let inside = step.inside;
    if step.node == things.len() + 1 {
        push_noted_row(
            alloc,
            page,
            depth,
            b"Lost",
            inside,
            b"<em>the folders in which they lay are not found</em>",
        )
    } else {
        push_noted_row(
            alloc,
            page,
            depth,
            b"Old",
            inside,
            b"<em>records that are left behind, as of files that were deleted</em>",
        )
    }
}

/// Appends the row of something that the page adds.
fn push_page_row(
    alloc: Global,
    page: &mut Vec<u8>,
    things: &[Thing],
    depth: usize,
    volume: &[u8],
    step: Step,
) -> Result<(), AllocError>
    ensures { OnOk result (Gains page.old page.new (spec.page_row things.now depth volume.now step)) }
{
    if step.node == things.len() {
        push_noted_row(
            alloc,
            page,
            depth,
            volume,
            step.inside,
            b"<em>the record of the root is lost</em>",
        )
    } else {
        push_apart_row(alloc, page, things, depth, step)
    }
}

/// Appends the row of something that is no item: of a folder that only a thread names, or of what the page adds.
pub(crate) fn push_added_row(
    alloc: Global,
    page: &mut Vec<u8>,
    things: &[Thing],
    depth: usize,
    volume: &[u8],
    step: Step,
) -> Result<(), AllocError>
    ensures { OnOk result (Gains page.old page.new
        (spec.added_row things.now depth volume.now step)) }
{
    if step.node >= things.len() {
        return push_page_row(alloc, page, things, depth, volume, step);
    }
    let name = things[step.node].name;
    push_noted_row(
        alloc,
        page,
        depth,
        name.bytes(),
        step.inside,
        b"<em>its own record is lost</em>",
    )
}

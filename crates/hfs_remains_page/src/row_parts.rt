//! What the rows of files and of folders have in common: how they begin, and their dates.
ghost use Rattle.std.specs.Prelude.{OnOk};
ghost use Rattle.hfs_page.specs.Pieces.{Gains};
ghost use Rattle.hfs_remains_page.specs.Rows as spec;

use hfs_page::{push_bytes, push_date, push_told_count};
use std::alloc::{AllocError, Global};

/// Appends a date.
fn push_dated(alloc: Global, page: &mut Vec<u8>, date: u32) -> Result<(), AllocError>
    ensures { OnOk result (Gains page.old page.new (spec.dated_text date)) }
{
    push_bytes(page, b"<span>")?;
    push_date(alloc, page, date)?;
    push_bytes(page, b"\n(modified)</span>")
}

/// Appends when an item was modified; an empty cell if it has no date.
#[tactic(auto, unfolding(crate::specs::Rows::when_text))]
pub(crate) fn push_when(alloc: Global, page: &mut Vec<u8>, date: u32) -> Result<(), AllocError>
    ensures { OnOk result (Gains page.old page.new (spec.when_text date)) }
{
    if date == 0 {
        push_bytes(page, b"<span></span>")
    } else {
        push_dated(alloc, page, date)
    }
}

/// Appends the beginning of the row of item `i`, with its number.
#[tactic(auto, unfolding(crate::specs::Rows::item_start))]
pub(crate) fn push_start(alloc: Global, page: &mut Vec<u8>, i: usize) -> Result<(), AllocError>
    ensures { OnOk result (Gains page.old page.new (spec.item_start i)) }
{
    push_told_count(alloc, page, b"<li id=\"i", i)?;
    push_bytes(page, b"\">")
}

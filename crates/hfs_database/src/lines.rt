//! The lines of volumes, and of contents that are on several volumes.
ghost use Rattle.std.specs.Prelude.{◌≡◌, ◌++◌, OnOk};
ghost use Rattle.sqlite_value.specs.Order.{column};
ghost use Rattle.sqlite_value.specs.Value.{owned};
ghost use Rattle.hfs_page.specs.Pieces.{Gains};
ghost use Rattle.hfs_database.specs.PageLines.{break_text, cell_text, contents_text, content_text, counts_text, dates_text, span_text, text_of, volume_head, volume_text, volumes_text};

use hfs_page::{push_bytes, push_escaped, push_link_end, push_link_start};
use sqlite::Row;
use sqlite::types::ValueRef;
use std::alloc::{AllocError, Global};

/// A text; empty for any other value.
fn text_of(value: ValueRef<'_>) -> &[u8]
    ensures { result.now ≡ text_of (owned value.entry) }
{
    match value {
        ValueRef::Text(text) => text,
        ValueRef::Null | ValueRef::Int(_) | ValueRef::Real(_) | ValueRef::Blob(_) => &[],
    }
}

/// The text in a column of a row.
fn column_text(row: &Row, at: usize) -> &[u8]
    ensures { result.now ≡ text_of (column row.now at) }
{
    match row.get_ref(at) {
        Ok(value) => text_of(value),
        Err(_) => &[],
    }
}

/// Appends the text in a column, escaped.
fn push_cell(page: &mut Vec<u8>, row: &Row, at: usize) -> Result<(), AllocError>
    ensures { OnOk result (Gains page.old page.new (cell_text row.now at)) }
{
    push_escaped(page, column_text(row, at))
}

/// Appends a column other than the first.
#[tactic(auto, unfolding(crate::specs::PageLines::span_text))]
fn push_span(page: &mut Vec<u8>, row: &Row, at: usize) -> Result<(), AllocError>
    ensures { OnOk result (Gains page.old page.new (span_text row.now at)) }
{
    push_bytes(page, b"<span>")?;
    push_cell(page, row, at)?;
    push_bytes(page, b"</span>")
}

/// Appends the image of a volume, as a link to the volume's page if the folder of these is known.
#[tactic(auto, unfolding(crate::specs::PageLines::volume_head))]
fn push_volume_head(
    alloc: Global,
    page: &mut Vec<u8>,
    base: Option<&[u8]>,
    row: &Row,
) -> Result<(), AllocError>
    ensures { OnOk result (Gains page.old page.new (volume_head base.entry row.now)) }
{
    push_bytes(page, b"<li><b>")?;
    push_link_start(alloc, page, base, column_text(row, 0))?;
    push_cell(page, row, 1)?;
    push_link_end(page, base)?;
    push_bytes(page, b"</b>")
}

/// Appends the volume's name, its files, the damaged ones, and its free space.
#[tactic(auto, unfolding(crate::specs::PageLines::counts_text))]
fn push_counts(page: &mut Vec<u8>, row: &Row) -> Result<(), AllocError>
    ensures { OnOk result (Gains page.old page.new (counts_text row.now)) }
{
    push_span(page, row, 2)?;
    push_span(page, row, 3)?;
    push_span(page, row, 4)?;
    push_span(page, row, 5)
}

/// Appends the volume's dates and its verdict.
#[tactic(auto, unfolding(crate::specs::PageLines::dates_text))]
fn push_dates(page: &mut Vec<u8>, row: &Row) -> Result<(), AllocError>
    ensures { OnOk result (Gains page.old page.new (dates_text row.now)) }
{
    push_span(page, row, 6)?;
    push_span(page, row, 7)?;
    push_span(page, row, 8)
}

/// Appends the line of a volume.
#[tactic(auto, unfolding(crate::specs::PageLines::volume_text))]
fn push_volume(
    alloc: Global,
    page: &mut Vec<u8>,
    base: Option<&[u8]>,
    row: &Row,
) -> Result<(), AllocError>
    ensures { OnOk result (Gains page.old page.new (volume_text base.entry row.now)) }
{
    push_volume_head(alloc, page, base, row)?;
    push_counts(page, row)?;
    push_dates(page, row)?;
    push_bytes(page, b"</li>\n")
}

/// Appends what precedes the line at this place: after each 100 lines a list ends, and the next one begins.
#[tactic(auto, unfolding(crate::specs::PageLines::break_text))]
fn push_break(page: &mut Vec<u8>, place: usize) -> Result<(), AllocError>
    ensures { OnOk result (Gains page.old page.new (break_text place)) }
{
    if place % 100 == 0 {
        if place == 0 {
            Ok(())
        } else {
            push_bytes(page, b"</ul>\n<ul>\n")
        }
    } else {
        Ok(())
    }
}

/// Appends the line of the volume at this place.
fn push_placed(
    alloc: Global,
    page: &mut Vec<u8>,
    base: Option<&[u8]>,
    place: usize,
    row: &Row,
) -> Result<(), AllocError>
    ensures { OnOk result (Gains page.old page.new (break_text place ++ volume_text base.entry row.now)) }
{
    push_break(page, place)?;
    push_volume(alloc, page, base, row)
}

/// Appends the lines of volumes, one after the other.
pub(crate) fn push_volumes(
    alloc: Global,
    page: &mut Vec<u8>,
    base: Option<&[u8]>,
    rows: &[Row],
) -> Result<(), AllocError>
    ensures { OnOk result (Gains page.old page.new (volumes_text base.entry 0 rows.now)) }
{
    for k in 0..rows.len() {
        push_placed(alloc, page, base, k, &rows[k])?;
    }
    Ok(())
}

/// Appends the line of a content: a path, volumes, bytes, the digest.
#[tactic(auto, unfolding(crate::specs::PageLines::content_text))]
fn push_content(page: &mut Vec<u8>, row: &Row) -> Result<(), AllocError>
    ensures { OnOk result (Gains page.old page.new (content_text row.now)) }
{
    push_bytes(page, b"<li><b>")?;
    push_cell(page, row, 0)?;
    push_bytes(page, b"</b>")?;
    push_span(page, row, 1)?;
    push_span(page, row, 2)?;
    push_span(page, row, 3)?;
    push_bytes(page, b"</li>\n")
}

/// Appends the lines of contents, one after the other.
pub(crate) fn push_contents(page: &mut Vec<u8>, rows: &[Row]) -> Result<(), AllocError>
    ensures { OnOk result (Gains page.old page.new (contents_text rows.now)) }
{
    for row in rows {
        push_content(page, row)?;
    }
    Ok(())
}

//! The picture of a disk.
ghost use Rattle.std.specs.Prelude.{◌≡◌, ◌≤◌, ◌<◌, ◌^◌, OnOk, length};
ghost use Rattle.std.specs.List.{slice_get};
ghost use Rattle.hfs_page.specs.Picture.{blocks_text, cell_text, cells_text, fork_owner_text, fork_text, name_of, owner_text, part_text, picture_text, rect_head, use_text};
ghost use Rattle.std.specs.Int.{div_ceil};
ghost use Rattle.hfs_page.specs.Parts.{rank};
ghost use Rattle.hfs_page.specs.Pieces.{Gains};
ghost use Rattle.hfs_page.specs.Texts.{told_number};

use crate::cells::Cell;
use crate::parts::{BlockUse, FileFork, Part, rank};
use crate::pieces::push_bytes;
use crate::texts::{push_shown, push_told_count};
use hfs_catalog::CatalogRecord;
use hfs_space::ForkKind;
use std::alloc::{AllocError, Global};

/// How many cells a row has.
const COLUMNS: usize = 64;

/// Appends the name of a part.
pub fn push_part(page: &mut Vec<u8>, part: Part) -> Result<(), AllocError>
    ensures { OnOk result (Gains page.old page.new (part_text part)) }
{
    match part {
        Part::BadBlocks => push_bytes(page, b": bad blocks"),
        Part::ExtentsTree => push_bytes(page, b": extents tree"),
        Part::Catalog => push_bytes(page, b": catalog"),
        Part::LaterExtents => push_bytes(page, b": later extent"),
        Part::FirstExtents => push_bytes(page, b": first extent"),
        Part::Stray => push_bytes(page, b": marked, and nobody has it"),
        Part::Free => push_bytes(page, b": free"),
    }
}

/// Appends the name of a fork.
pub fn push_kind(page: &mut Vec<u8>, kind: ForkKind) -> Result<(), AllocError>
    ensures { OnOk result (Gains page.old page.new (fork_text kind)) }
{
    match kind {
        ForkKind::Data => push_bytes(page, b", data fork of "),
        ForkKind::Resource => push_bytes(page, b", resource fork of "),
    }
}

/// Appends the name in the key of the record with this number.
fn push_name_of(
    alloc: Global,
    page: &mut Vec<u8>,
    records: &[CatalogRecord],
    number: usize,
) -> Result<(), AllocError>
    ensures { OnOk result (Gains page.old page.new (name_of (slice_get records.now number))) }
{
    match records.get(number) {
        Some(record) => push_shown(alloc, page, record.key().name.bytes()),
        None => Ok(()),
    }
}

/// Appends whose fork it is.
#[tactic(auto, unfolding(crate::specs::Picture::fork_owner_text))]
fn push_fork_owner(
    alloc: Global,
    page: &mut Vec<u8>,
    records: &[CatalogRecord],
    fork: FileFork,
) -> Result<(), AllocError>
    ensures { OnOk result (Gains page.old page.new (fork_owner_text records.now fork)) }
{
    push_kind(page, fork.kind)?;
    push_name_of(alloc, page, records, fork.number)
}

/// Appends whose fork owns the blocks, if one does.
fn push_owner(
    alloc: Global,
    page: &mut Vec<u8>,
    records: &[CatalogRecord],
    fork: Option<FileFork>,
) -> Result<(), AllocError>
    ensures { OnOk result (Gains page.old page.new (owner_text records.now fork)) }
{
    match fork {
        Some(fork) => push_fork_owner(alloc, page, records, fork),
        None => Ok(()),
    }
}

/// Appends what blocks are used for.
#[tactic(auto, unfolding(crate::specs::Picture::use_text))]
fn push_use(
    alloc: Global,
    page: &mut Vec<u8>,
    records: &[CatalogRecord],
    used: BlockUse,
) -> Result<(), AllocError>
    ensures { OnOk result (Gains page.old page.new (use_text records.now used)) }
{
    push_part(page, used.part)?;
    push_owner(alloc, page, records, used.fork)
}

/// Appends the number of a cell's block, or of the first and the last of several.
#[tactic(auto, unfolding(crate::specs::Picture::blocks_text))]
pub fn push_blocks(
    alloc: Global,
    page: &mut Vec<u8>,
    first: usize,
    last: usize,
) -> Result<(), AllocError>
    ensures { OnOk result (Gains page.old page.new (blocks_text first last)) }
{
    if first == last {
        return push_told_count(alloc, page, b"Block ", first);
    }
    push_told_count(alloc, page, b"Blocks ", first)?;
    push_told_count(alloc, page, b" to ", last)
}

/// Appends the class of a part.
fn push_class(alloc: Global, page: &mut Vec<u8>, label: &[u8], part: Part) -> Result<(), AllocError>
    ensures { OnOk result (Gains page.old page.new (told_number label.now (rank part))) }
{
    push_told_count(alloc, page, label, usize::from(rank(part)))
}

/// Appends how many rows this many cells take.
fn push_rows(
    alloc: Global,
    page: &mut Vec<u8>,
    label: &[u8],
    cells: usize,
) -> Result<(), AllocError>
    ensures { OnOk result (Gains page.old page.new (told_number label.now (div_ceil cells 64))) }
{
    push_told_count(alloc, page, label, cells.div_ceil(COLUMNS))
}

/// Appends where a cell is, and the class of its part.
pub fn push_rect_head(
    alloc: Global,
    page: &mut Vec<u8>,
    place: usize,
    part: Part,
) -> Result<(), AllocError>
    ensures { OnOk result (Gains page.old page.new (rect_head place part)) }
{
    push_told_count(alloc, page, b"<rect x=\"", place % COLUMNS)?;
    push_told_count(alloc, page, b"\" y=\"", place / COLUMNS)?;
    push_class(alloc, page, b"\" width=\"1\" height=\"1\" class=\"p", part)?;
    push_bytes(page, b"\"><title>")
}

/// Appends the cell at this place.
fn push_cell(
    alloc: Global,
    page: &mut Vec<u8>,
    records: &[CatalogRecord],
    place: usize,
    cell: &Cell,
) -> Result<(), AllocError>
    ensures { OnOk result (Gains page.old page.new (cell_text records.now place cell.now)) }
{
    push_rect_head(alloc, page, place, cell.used.part)?;
    push_blocks(alloc, page, cell.first, cell.last)?;
    push_use(alloc, page, records, cell.used)?;
    push_bytes(page, b"</title></rect>\n")
}

/// Appends all cells, each at its place.
fn push_cells(
    alloc: Global,
    page: &mut Vec<u8>,
    records: &[CatalogRecord],
    cells: &[Cell],
) -> Result<(), AllocError>
    ensures { OnOk result (Gains page.old page.new (cells_text records.now 0 cells.now)) }
{
    for k in 0..cells.len() {
        push_cell(alloc, page, records, k, &cells[k])?;
    }
    Ok(())
}

/// Appends the picture of these cells.
pub(crate) fn push_picture(
    alloc: Global,
    page: &mut Vec<u8>,
    records: &[CatalogRecord],
    cells: &[Cell],
) -> Result<(), AllocError>
    ensures { OnOk result (Gains page.old page.new (picture_text records.now cells.now)) }
{
    push_rows(
        alloc,
        page,
        b"<section id=\"blocks\">\n<h2>Blocks</h2>\n<svg id=\"picture\" role=\"group\" aria-label=\"The blocks of the disk\" viewBox=\"0 0 64 ",
        cells.len(),
    )?;
    push_bytes(page, b"\">\n")?;
    push_cells(alloc, page, records, cells)?;
    push_bytes(page, b"</svg>\n")
}

//! The picture of what was found: the blocks of the trees and forks.
ghost use Rattle.std.specs.Prelude.{◌≡◌, ◌++◌, false, IfOk, OnOk, length, map};
ghost use Rattle.std.specs.Int.{div_ceil};
ghost use Rattle.std.specs.List.{flat_map, range_with_len, slice_get};
ghost use Rattle.hfs_page.specs.Holdings.{AddsHoldings, all_held};
ghost use Rattle.hfs_page.specs.Pieces.{Gains};
ghost use Rattle.hfs_page.specs.Texts.{told_number};
ghost use Rattle.hfs_page.specs.Uses.{block_uses, unowned};
ghost use Rattle.hfs_remains_page.specs.Pictures as spec;

use crate::pieces::pieces_of;
use hfs_fields::Extent;
use hfs_page::{
    BlockUse, Cell, FileFork, Holding, Part, lay_all, picture_cells, push_blocks, push_bytes,
    push_fork_held, push_held, push_kind, push_part, push_rect_head, push_shown, push_told_count,
};
use hfs_remains::FoundRecord;
use hfs_rescue_items::Found;
use hfs_space::ForkKind;
use std::alloc::{AllocError, Global};

/// How many cells a row has.
const COLUMNS: usize = 64;

/// The allocation blocks of both trees' files, with None in place of each that is missing.
#[derive(Clone, Copy, Drop)]
pub struct TreeFiles<'a> {
    pub extents: &'a [Option<u16>],
    pub catalog: &'a [Option<u16>],
}

/// Adds the blocks of a tree's file.
fn push_tree(
    alloc: Global,
    holdings: &mut Vec<Holding>,
    part: Part,
    file: &[Option<u16>],
) -> Result<(), AllocError>
    ensures { OnOk result (AddsHoldings holdings.old holdings.new
        (all_held part (spec.pieces file.now))) }
{
    let pieces = pieces_of(alloc, file)?;
    push_held(holdings, part, &pieces)
}

/// The pieces of a fork of item `i`, as far as it is taken; none for a folder.
#[tactic(auto, using(crate::proofs::HeldLemmas::none_pieces, crate::proofs::HeldLemmas::fork_pieces))]
fn fork_pieces(
    alloc: Global,
    found: &Found<'_>,
    i: usize,
    kind: ForkKind,
) -> Result<Vec<Extent>, AllocError>
    ensures { IfOk result (λ pieces. pieces.items ≡ spec.pieces
        (spec.fork_blocks found.now.salvage.now kind i)) }
{
    let part = found.fork(alloc, i, kind)?;
    let Some(fork) = part else {
        return Ok(Vec::new(alloc));
    };
    let pieces = pieces_of(alloc, &fork.places)?;
    Ok(pieces)
}

/// Adds the blocks of a fork of item `i`, as far as it is taken; none for a folder.
fn push_fork(
    alloc: Global,
    holdings: &mut Vec<Holding>,
    found: &Found<'_>,
    i: usize,
    kind: ForkKind,
) -> Result<(), AllocError>
    ensures { OnOk result (AddsHoldings holdings.old holdings.new
        (spec.fork_held found.now.salvage.now i kind)) }
{
    let pieces = fork_pieces(alloc, found, i, kind)?;
    let owner = FileFork {
        number: i,
        file: (i % 4_294_967_296) as u32,
        kind,
    };
    push_fork_held(holdings, owner, &pieces)
}

/// Adds the blocks of both forks of item `i`.
fn push_item(
    alloc: Global,
    holdings: &mut Vec<Holding>,
    found: &Found<'_>,
    i: usize,
) -> Result<(), AllocError>
    ensures { OnOk result (AddsHoldings holdings.old holdings.new
        (spec.item_held found.now.salvage.now i)) }
{
    push_fork(alloc, holdings, found, i, ForkKind::Data)?;
    push_fork(alloc, holdings, found, i, ForkKind::Resource)
}

/// Adds the blocks of the forks of the first items.
#[tactic(auto, using(crate::proofs::PieceLemmas::items_more))]
fn push_items(
    alloc: Global,
    holdings: &mut Vec<Holding>,
    found: &Found<'_>,
    count: usize,
) -> Result<(), AllocError>
    ensures { OnOk result (AddsHoldings holdings.old holdings.new
        (flat_map (spec.item_held found.now.salvage.now) (range_with_len 0 count))) }
{
    for i in 0..count {
        push_item(alloc, holdings, found, i)?;
    }
    Ok(())
}

/// All blocks of the trees and forks that were found, with what they are used for.
#[tactic(auto, unfolding(crate::specs::Pictures::all_held_of))]
pub(crate) fn holdings_of(
    alloc: Global,
    found: &Found<'_>,
    files: TreeFiles<'_>,
) -> Result<Vec<Holding>, AllocError>
    requires extents { files.extents.now ≡ found.now.salvage.now.trees.extents_file.now }
    requires catalog { files.catalog.now ≡ found.now.salvage.now.trees.catalog_file.now }
    ensures { IfOk result (λ held. held.items ≡ spec.holdings_of found.now) }
{
    let mut holdings = Vec::new(alloc);
    push_tree(alloc, &mut holdings, Part::ExtentsTree, files.extents)?;
    push_tree(alloc, &mut holdings, Part::Catalog, files.catalog)?;
    push_items(alloc, &mut holdings, found, found.items.len())?;
    Ok(holdings)
}

/// What blocks are that nothing owns.
fn no_uses(alloc: Global, count: u16) -> Result<Vec<BlockUse>, AllocError>
    ensures { IfOk result (λ uses. uses.items
        ≡ map (λ block. unowned false) (range_with_len 0 count)) }
{
    let mut uses = Vec::with_capacity(alloc, usize::from(count))?;
    for _block in 0..count {
        uses.push(BlockUse {
            part: Part::Free,
            fork: None,
        })?;
    }
    Ok(uses)
}

/// What `count` blocks are used for, by these extents alone.
fn uses_by(alloc: Global, count: u16, holdings: &[Holding]) -> Result<Vec<BlockUse>, AllocError>
    ensures { IfOk result (λ uses. uses.items ≡ block_uses holdings.now (λ block. false) count) }
{
    let mut uses = no_uses(alloc, count)?;
    lay_all(&mut uses, holdings);
    Ok(uses)
}

/// The cells of the picture, by these extents.
#[tactic(auto, unfolding(crate::specs::Pictures::cells_of))]
pub(crate) fn cells_of(
    alloc: Global,
    found: &Found<'_>,
    holdings: &[Holding],
) -> Result<Vec<Cell>, AllocError>
    requires { holdings.now ≡ spec.holdings_of found.now }
    ensures { IfOk result (λ cells. cells.items ≡ spec.cells_of found.now) }
{
    let uses = uses_by(alloc, found.mdb.allocation_blocks, holdings)?;
    picture_cells(alloc, &uses)
}

/// Appends the name of the item with this number.
fn push_item_name(
    alloc: Global,
    page: &mut Vec<u8>,
    items: &[FoundRecord],
    number: usize,
) -> Result<(), AllocError>
    ensures { OnOk result (Gains page.old page.new (spec.item_name (slice_get items.now number))) }
{
    match items.get(number) {
        Some(item) => push_shown(alloc, page, item.entry.key().name.bytes()),
        None => Ok(()),
    }
}

/// Appends whose fork owns the blocks, if one does.
fn push_owner(
    alloc: Global,
    page: &mut Vec<u8>,
    items: &[FoundRecord],
    fork: Option<FileFork>,
) -> Result<(), AllocError>
    ensures { OnOk result (Gains page.old page.new (spec.owner_text items.now fork)) }
{
    let Some(fork) = fork else {
        return Ok(());
    };
    push_kind(page, fork.kind)?;
    push_item_name(alloc, page, items, fork.number)
}

/// Appends the name of a part. Whether blocks that belong to nothing that was found are free isn't known.
fn push_found_part(page: &mut Vec<u8>, part: Part) -> Result<(), AllocError>
    ensures { OnOk result (Gains page.old page.new (spec.found_part part)) }
{
    match part {
        Part::Stray | Part::Free => push_bytes(page, b": nothing that was found"),
        Part::BadBlocks
        | Part::ExtentsTree
        | Part::Catalog
        | Part::LaterExtents
        | Part::FirstExtents => push_part(page, part),
    }
}

/// Appends what blocks are used for.
#[tactic(auto, unfolding(crate::specs::Pictures::use_text))]
fn push_use(
    alloc: Global,
    page: &mut Vec<u8>,
    items: &[FoundRecord],
    used: BlockUse,
) -> Result<(), AllocError>
    ensures { OnOk result (Gains page.old page.new (spec.use_text items.now used)) }
{
    push_found_part(page, used.part)?;
    push_owner(alloc, page, items, used.fork)
}

/// Appends the cell at this place.
#[tactic(auto, unfolding(crate::specs::Pictures::cell_text))]
fn push_cell(
    alloc: Global,
    page: &mut Vec<u8>,
    items: &[FoundRecord],
    place: usize,
    cell: &Cell,
) -> Result<(), AllocError>
    ensures { OnOk result (Gains page.old page.new (spec.cell_text items.now place cell.now)) }
{
    push_rect_head(alloc, page, place, cell.used.part)?;
    push_blocks(alloc, page, cell.first, cell.last)?;
    push_use(alloc, page, items, cell.used)?;
    push_bytes(page, b"</title></rect>\n")
}

/// Appends all cells, each at its place.
fn push_cells(
    alloc: Global,
    page: &mut Vec<u8>,
    items: &[FoundRecord],
    cells: &[Cell],
) -> Result<(), AllocError>
    ensures { OnOk result (Gains page.old page.new (spec.cells_text items.now 0 cells.now)) }
{
    for k in 0..cells.len() {
        push_cell(alloc, page, items, k, &cells[k])?;
    }
    Ok(())
}

/// Appends how many rows this many cells take.
fn push_rows(
    alloc: Global,
    page: &mut Vec<u8>,
    label: &[u8],
    cells: usize,
) -> Result<(), AllocError>
    ensures { OnOk result (Gains page.old page.new (told_number label.now (div_ceil cells 64))) }
{
    push_told_count(alloc, page, label, cells.div_ceil(COLUMNS))
}

/// Appends the picture of these cells.
#[tactic(auto, unfolding(crate::specs::Pictures::picture_text))]
pub(crate) fn push_picture(
    alloc: Global,
    page: &mut Vec<u8>,
    items: &[FoundRecord],
    cells: &[Cell],
) -> Result<(), AllocError>
    ensures { OnOk result (Gains page.old page.new (spec.picture_text items.now cells.now)) }
{
    push_rows(
        alloc,
        page,
        b"<section id=\"blocks\">\n<h2>Blocks</h2>\n<svg id=\"picture\" role=\"group\" aria-label=\"The blocks of the disk\" viewBox=\"0 0 64 ",
        cells.len(),
    )?;
    push_bytes(page, b"\">\n")?;
    push_cells(alloc, page, items, cells)?;
    push_bytes(page, b"</svg>\n")
}

//! The cells of the picture of a disk.
ghost use Rattle.std.specs.Prelude.{◌≡◌, ◌≤◌, ◌<◌, ◌==◌, find, IfOk, drop, length, map, take};
ghost use Rattle.std.specs.List.{range_with_len};
ghost use Rattle.hfs_page.specs.Cells.{blocks_per_cell, cell_at, picture_cells, shown_by, shown_use};
ghost use Rattle.hfs_page.specs.Parts.{parts, rank};

use crate::parts::{BlockUse, PARTS, Part, rank};
use std::alloc::{AllocError, Global};

/// The most cells of a picture.
const MOST_CELLS: usize = 4_096;

/// A cell of the picture.
#[derive(Clone, Copy)]
pub struct Cell {
    /// Its first block.
    pub first: usize,
    /// Its last block.
    pub last: usize,
    /// The use of the first of its blocks that are of the part that is shown.
    pub used: BlockUse,
}

/// What the first block of a part is used for.
fn first_of(uses: &[BlockUse], part: Part) -> Option<BlockUse>
    ensures { result ≡ find (λ used. rank used.part == rank part) uses.now }
{
    for used in uses {
        if rank(used.part) == rank(part) {
            return Some(*used);
        }
    }
    None
}

/// What is shown of blocks by these parts: the first part that one of the blocks belongs to, and the use of the first block of
/// that part.
fn shown_by(parts: &[Part], uses: &[BlockUse]) -> Option<BlockUse>
    ensures { result ≡ shown_by parts.now uses.now }
{
    for part in parts {
        if let Some(used) = first_of(uses, *part) {
            return Some(used);
        }
    }
    None
}

/// What is shown of blocks.
#[tactic(auto, unfolding(crate::specs::Cells::shown_use))]
fn shown_use(uses: &[BlockUse]) -> BlockUse
    ensures { result ≡ shown_use uses.now }
{
    match shown_by(&PARTS, uses) {
        Some(used) => used,
        None => BlockUse {
            part: Part::Free,
            fork: None,
        },
    }
}

/// The smallest number of blocks per cell with which `blocks` blocks have no more than 4,096 cells.
#[tactic(auto, unfolding(crate::specs::Cells::blocks_per_cell))]
fn blocks_per_cell(blocks: usize) -> usize
    ensures value { result ≡ blocks_per_cell blocks }
    ensures some { 1 ≤ result }
{
    blocks.div_ceil(MOST_CELLS).max(1)
}

/// The cell whose first block this is.
fn cell_at(uses: &[BlockUse], per_cell: usize, first: usize) -> Cell
    requires { first ≤ length uses.now }
    ensures { result ≡ cell_at uses.now per_cell first }
{
    let behind = &uses[first..];
    let shown = &behind[..per_cell.min(behind.len())];
    Cell {
        first,
        last: (first + shown.len()).saturating_sub(1),
        used: shown_use(shown),
    }
}

/// The cells of a picture of blocks with these uses: one for each block, or for as few blocks as give no more than 4,096 cells.
/// Fails only when out of memory.
#[tactic(auto, unfolding(crate::specs::Cells::picture_cells))]
pub fn picture_cells(alloc: Global, uses: &[BlockUse]) -> Result<Vec<Cell>, AllocError>
    ensures { IfOk result (λ cells. cells.items ≡ picture_cells uses.now) }
{
    let per_cell = blocks_per_cell(uses.len());
    let mut cells = Vec::new(alloc);
    for k in 0..uses.len().div_ceil(per_cell) {
        cells.push(cell_at(uses, per_cell, k * per_cell))?;
    }
    Ok(cells)
}

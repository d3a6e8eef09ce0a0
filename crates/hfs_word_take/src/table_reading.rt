//! The table of all items, read in pieces.
ghost use Rattle.std.specs.Prelude.{◌≡◌, true, [], IfOk, OnOk};
ghost use Rattle.hfs_bag.specs.Forks.{ReadsOn};
ghost use Rattle.hfs_word_take.specs.Reading.{AddsRow, table_rest};

use hfs_items::Inventory;
use hfs_table::{push_bag_head, push_bag_row};
use std::alloc::{AllocError, Global};

/// A piece of text with at least this many bytes is whole.
const PIECE: usize = 65_536;

/// How far the table has been read.
#[derive(Drop)]
pub(crate) struct TableReading {
    /// The rows that are left.
    pub(crate) rows: Inventory,
    /// Whether the head was read.
    pub(crate) is_begun: bool,
}

/// Appends the line of the next row, and returns whether there was one.
fn push_next(alloc: Global, piece: &mut Vec<u8>, rows: &mut Inventory) -> Result<bool, AllocError>
    ensures { IfOk result (λ more. AddsRow more piece.old.items piece.new.items rows.old.left
        rows.new.left) }
{
    let Some(info) = rows.next()? else {
        return Ok(false);
    };
    push_bag_row(alloc, piece, rows.path(), &info)?;
    Ok(true)
}

/// Replaces a piece with the lines of the next rows, until it is whole or there are none.
#[tactic(auto, using(crate::proofs::TableLemmas::row_more, crate::proofs::TableLemmas::rows_fewer, crate::proofs::TableLemmas::rows_done, crate::proofs::TableLemmas::rows_read))]
fn read_rows(alloc: Global, rows: &mut Inventory, piece: &mut Vec<u8>) -> Result<(), AllocError>
    requires { piece.old.items ≡ [] }
    ensures { OnOk result (ReadsOn piece.new.items (table_rest true rows.old.left)
        (table_rest true rows.new.left)) }
{
    while push_next(alloc, piece, rows)? {
        if piece.len() >= PIECE {
            return Ok(());
        }
    }
    Ok(())
}

/// Replaces a piece with the next text of the table, or with none at its end. Error: memory was refused.
#[tactic(auto, using(crate::proofs::TableLemmas::head_read))]
pub(crate) fn read_table(
    alloc: Global,
    table: &mut TableReading,
    piece: &mut Vec<u8>,
) -> Result<(), AllocError>
    ensures { OnOk result (ReadsOn piece.new.items
        (table_rest table.old.is_begun table.old.rows.left)
        (table_rest table.new.is_begun table.new.rows.left)) }
{
    piece.clear();
    if table.is_begun {
        return read_rows(alloc, &mut table.rows, piece);
    }
    table.is_begun = true;
    push_bag_head(piece)?;
    Ok(())
}

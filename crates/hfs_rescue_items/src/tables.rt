//! Rows that are written in pieces.
ghost use Rattle.std.specs.Prelude.{◌≡◌, ◌++◌, [], IfOk, OnErr, OnOk};
ghost use Rattle.std.specs.Io.KnownBytes.{Appends};
ghost use Rattle.hfs_texts.specs.Writing.{AppendsFront};
ghost use Rattle.hfs_rescue_items.specs.Gathers.{Gathers};
ghost use Rattle.hfs_rescue_items.specs.Rows.{selected_head, selected_row, selected_text};

use crate::Found;
use crate::rows::{Selection, push_selected_head, push_selected_row};
use hfs_remains::FoundRecord;
use hfs_texts::put;
use std::alloc::Global;
use std::io::Write;

/// How many bytes of text are gathered before they are written.
const PIECE: usize = 65_536;

/// Why not all rows were written.
#[derive(Clone, Copy, Debug, PartialEq, Eq)]
pub enum TableFault {
    /// Memory was refused.
    Memory,
    /// The writer failed.
    OutputFailed,
}

/// Writes a text, and empties it for the next one.
fn put_piece<W: Write>(writer: &mut W, text: &mut Vec<u8>) -> Result<(), TableFault>
    ensures written { OnOk result (Appends (W.contents writer.old) (W.contents writer.new) text.old.items) }
    ensures empty { OnOk result (text.new.items ≡ []) }
    ensures part { OnErr result (AppendsFront (W.contents writer.old) (W.contents writer.new)
        text.old.items) }
{
    let Ok(()) = put(writer, text) else {
        return Err(TableFault::OutputFailed);
    };
    text.clear();
    Ok(())
}

/// Appends the row of item `i` to a text, if it is selected, and writes the text if it has become long.
#[tactic(auto, using(crate::proofs::GatherLemmas::row_kept, crate::proofs::GatherLemmas::row_out, crate::proofs::GatherLemmas::nothing_out))]
fn gather_row<W: Write>(
    alloc: Global,
    writer: &mut W,
    text: &mut Vec<u8>,
    selection: Selection,
    found: &Found<'_>,
    i: usize,
    item: &FoundRecord,
) -> Result<(), TableFault>
    ensures gathered { OnOk result (Gathers (selected_row selection found.now i item.now)
        text.old.items text.new.items (W.contents writer.old) (W.contents writer.new)) }
    ensures part { OnErr result (AppendsFront (W.contents writer.old) (W.contents writer.new)
        (text.old.items ++ selected_row selection found.now i item.now)) }
{
    let Ok(()) = push_selected_row(alloc, text, selection, found, i, item) else {
        return Err(TableFault::Memory);
    };
    if text.len() < PIECE {
        return Ok(());
    }
    put_piece(writer, text)
}

/// The text before the first row.
fn head(alloc: Global, selection: Selection) -> Result<Vec<u8>, TableFault>
    ensures { IfOk result (λ text. text.items ≡ selected_head selection) }
{
    let mut text = Vec::new(alloc);
    match push_selected_head(&mut text, selection) {
        Ok(()) => Ok(text),
        Err(_) => Err(TableFault::Memory),
    }
}

/// Writes those rows of what was found that are selected, in the order of the items, in pieces of 65,536 bytes and a row. Errors:
/// memory was refused, the writer failed; then only the beginning may have been written.
pub fn write_rows<W: Write>(
    alloc: Global,
    writer: &mut W,
    found: &Found<'_>,
    selection: Selection,
) -> Result<(), TableFault>
    ensures written { OnOk result (Appends (W.contents writer.old) (W.contents writer.new)
        (selected_text selection found.now)) }
    ensures part { OnErr result (AppendsFront (W.contents writer.old) (W.contents writer.new)
        (selected_text selection found.now)) }
{
    let mut text = head(alloc, selection)?;
    for i in 0..found.items.len() {
        gather_row(
            alloc,
            writer,
            &mut text,
            selection,
            found,
            i,
            &found.items[i],
        )?;
    }
    put_piece(writer, &mut text)
}

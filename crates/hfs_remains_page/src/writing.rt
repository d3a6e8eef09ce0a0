//! Rows that are written in pieces.
ghost use Rattle.std.specs.Prelude.{◌≡◌, ◌++◌, [], IfOk, OnErr, OnOk};
ghost use Rattle.std.specs.Io.KnownBytes.{Appends};
ghost use Rattle.hfs_page.specs.Items.{closings};
ghost use Rattle.hfs_texts.specs.Writing.{AppendsFront};
ghost use Rattle.hfs_remains_page.specs.Gathers.{Gathers};
ghost use Rattle.hfs_remains_page.specs.Rows as spec;

use crate::linked_items::LinkedItems;
use crate::rows::{open_behind, push_row};
use crate::steps::Step;
use hfs_page::{PageFault, push_closings, put_piece};
use std::alloc::Global;
use std::io::Write;

/// How many bytes of text are gathered before they are written.
const PIECE: usize = 65_536;

/// Writes a text, and empties it for the next one.
fn put_text<W: Write>(writer: &mut W, text: &mut Vec<u8>) -> Result<(), PageFault>
    ensures written { OnOk result (Appends (W.contents writer.old) (W.contents writer.new) text.old.items) }
    ensures empty { OnOk result (text.new.items ≡ []) }
    ensures part { OnErr result (AppendsFront (W.contents writer.old) (W.contents writer.new)
        text.old.items) }
{
    put_piece(writer, text)?;
    text.clear();
    Ok(())
}

/// Appends the row of a node to a text, and writes the text if it has become long.
#[tactic(auto, using(crate::proofs::GatherLemmas::row_kept, crate::proofs::GatherLemmas::row_out, hfs_rescue_items::proofs::GatherLemmas::nothing_out))]
fn gather_row<W: Write>(
    alloc: Global,
    writer: &mut W,
    text: &mut Vec<u8>,
    items: &LinkedItems<'_>,
    opened: usize,
    step: Step,
) -> Result<(), PageFault>
    ensures gathered { OnOk result (Gathers
        (spec.row_text items.now.base items.now.found.now opened step) text.old.items text.new.items
        (W.contents writer.old) (W.contents writer.new)) }
    ensures part { OnErr result (AppendsFront (W.contents writer.old) (W.contents writer.new)
        (text.old.items ++ spec.row_text items.now.base items.now.found.now opened step)) }
{
    let Ok(()) = push_row(alloc, text, items, opened, step) else {
        return Err(PageFault::Memory);
    };
    if text.len() < PIECE {
        return Ok(());
    }
    put_text(writer, text)
}

/// Appends the ends of the open folders to a text, and writes it.
#[tactic(auto, using(hfs_rescue_items::proofs::GatherLemmas::nothing_out))]
fn put_ends<W: Write>(writer: &mut W, text: &mut Vec<u8>, opened: usize) -> Result<(), PageFault>
    ensures written { OnOk result (Appends (W.contents writer.old) (W.contents writer.new)
        (text.old.items ++ closings opened)) }
    ensures part { OnErr result (AppendsFront (W.contents writer.old) (W.contents writer.new)
        (text.old.items ++ closings opened)) }
{
    let Ok(()) = push_closings(text, opened) else {
        return Err(PageFault::Memory);
    };
    put_piece(writer, text)
}

/// Writes the rows of these nodes, one after the other, in pieces of 65,536 bytes and a row; files are links if the URL of a bag
/// is known. At a fault, only the first part of them was written.
pub(crate) fn write_rows<W: Write>(
    alloc: Global,
    writer: &mut W,
    items: &LinkedItems<'_>,
    steps: &[Step],
) -> Result<(), PageFault>
    ensures written { OnOk result (Appends (W.contents writer.old) (W.contents writer.new)
        (spec.rows_text items.now.base items.now.found.now 0 steps.now)) }
    ensures part { OnErr result (AppendsFront (W.contents writer.old) (W.contents writer.new)
        (spec.rows_text items.now.base items.now.found.now 0 steps.now)) }
{
    let mut text = Vec::new(alloc);
    let mut opened = 0;
    for i in 0..steps.len() {
        let step = steps[i];
        gather_row(alloc, writer, &mut text, items, opened, step)?;
        opened = open_behind(items.found, opened, step);
    }
    put_ends(writer, &mut text, opened)
}

//! The rows of a page's items, written one after the other.
ghost use Rattle.std.specs.Prelude.{◌≡◌, ◌++◌, [], IfOk, OnErr, OnOk};
ghost use Rattle.std.specs.Io.KnownBytes.{Appends};
ghost use Rattle.hfs_page.specs.Items.{closings, rows_text};
ghost use Rattle.hfs_page.specs.Rows.{MovesRow};
ghost use Rattle.hfs_texts.specs.Writing.{AppendsFront};

use crate::items::{depth_in, open_behind, push_closings, push_row};
use hfs_items::Inventory;
use hfs_texts::put;
use std::alloc::{AllocError, Global};
use std::io::Write;

/// How many bytes of text are gathered before they are written.
const PIECE: usize = 65_536;

/// Why a page is not written whole.
#[derive(Clone, Copy, Debug, PartialEq, Eq)]
pub enum PageFault {
    /// Memory was refused.
    Memory,
    /// The writer failed.
    OutputFailed,
}

/// Appends the row of the next item, when this many folders are open, and returns how many are open after it; None after the last
/// one.
fn push_next(
    alloc: Global,
    text: &mut Vec<u8>,
    items: &mut Inventory,
    base: Option<&[u8]>,
    opened: usize,
) -> Result<Option<usize>, AllocError>
    ensures { IfOk result (MovesRow base.entry opened text.old.items text.new.items
        items.old.left items.new.left) }
{
    let Some(info) = items.next()? else {
        return Ok(None);
    };
    let path = items.path();
    push_row(alloc, text, base, opened, path, &info)?;
    Ok(Some(open_behind(depth_in(opened, path), &info)))
}

/// [`push_next`] with the fault of a page.
fn push_next_row(
    alloc: Global,
    text: &mut Vec<u8>,
    items: &mut Inventory,
    base: Option<&[u8]>,
    opened: usize,
) -> Result<Option<usize>, PageFault>
    ensures { IfOk result (MovesRow base.entry opened text.old.items text.new.items
        items.old.left items.new.left) }
{
    match push_next(alloc, text, items, base, opened) {
        Ok(behind) => Ok(behind),
        Err(_) => Err(PageFault::Memory),
    }
}

/// Writes bytes; at a fault, only some of the first ones may have been written.
pub fn put_piece<W: Write>(writer: &mut W, piece: &[u8]) -> Result<(), PageFault>
    ensures written { OnOk result (Appends (W.contents writer.old) (W.contents writer.new) piece.now) }
    ensures part { OnErr result (AppendsFront (W.contents writer.old) (W.contents writer.new)
        piece.now) }
{
    match put(writer, piece) {
        Ok(()) => Ok(()),
        Err(_) => Err(PageFault::OutputFailed),
    }
}

/// Writes a text, and empties it for the next one.
fn put_text<W: Write>(writer: &mut W, text: &mut Vec<u8>) -> Result<(), PageFault>
    ensures written { OnOk result (Appends (W.contents writer.old) (W.contents writer.new)
        text.old.items) }
    ensures empty { OnOk result (text.new.items ≡ []) }
    ensures part { OnErr result (AppendsFront (W.contents writer.old) (W.contents writer.new)
        text.old.items) }
{
    put_piece(writer, text)?;
    text.clear();
    Ok(())
}

/// [`push_closings`] with the fault of a page.
fn push_ends(text: &mut Vec<u8>, count: usize) -> Result<(), PageFault>
    ensures { OnOk result (text.new.items ≡ text.old.items ++ closings count) }
{
    match push_closings(text, count) {
        Ok(()) => Ok(()),
        Err(_) => Err(PageFault::Memory),
    }
}

/// Writes the rows of all items that are left, one after the other, in pieces of 65,536 bytes and a row; files are links if the
/// URL of a bag is known. At a fault, only the first part of them was written.
pub(crate) fn write_rows<W: Write>(
    alloc: Global,
    items: &mut Inventory,
    base: Option<&[u8]>,
    writer: &mut W,
) -> Result<(), PageFault>
    ensures written { OnOk result (Appends (W.contents writer.old) (W.contents writer.new)
        (rows_text base.entry 0 items.old.left)) }
    ensures part { OnErr result (AppendsFront (W.contents writer.old) (W.contents writer.new)
        (rows_text base.entry 0 items.old.left)) }
{
    let mut text = Vec::new(alloc);
    let mut opened = 0;
    while let Some(behind) = push_next_row(alloc, &mut text, items, base, opened)? {
        opened = behind;
        if text.len() >= PIECE {
            put_text(writer, &mut text)?;
        }
    }
    push_ends(&mut text, opened)?;
    put_piece(writer, &text)?;
    Ok(())
}

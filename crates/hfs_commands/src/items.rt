//! The table of a volume's items.
ghost use Rattle.std.specs.Prelude.{◌≡◌, [], IfErr, IfOk, OnErr, OnOk};
ghost use Rattle.std.specs.Io.KnownBytes.{Appends};
ghost use Rattle.hfs_commands.specs.Faults.{IsUnprinted};
ghost use Rattle.hfs_commands.specs.Items.{MovesRow, WritesItems, WritesItemsFront, table_text};
ghost use Rattle.hfs_source.specs.Images.{OfEach};
ghost use Rattle.hfs_table.specs.Lines.{head_text};
ghost use Rattle.hfs_texts.specs.Writing.{AppendsFront};

use crate::fault::Fault;
use hfs_image::SeenImage;
use hfs_items::Inventory;
use hfs_source::PlacedBlocks;
use hfs_table::{Format, push_head, push_row};
use hfs_texts::put;
use std::alloc::Global;
use std::io::Write;

/// How many bytes of text are gathered before they are written.
const PIECE: usize = 65_536;

/// Writes a text, and empties it for the next one.
fn put_piece<W: Write>(writer: &mut W, text: &mut Vec<u8>) -> Result<(), Fault<'static>>
    ensures written { OnOk result (Appends (W.contents writer.old) (W.contents writer.new) text.old.items) }
    ensures empty { OnOk result (text.new.items ≡ []) }
    ensures part { OnErr result (AppendsFront (W.contents writer.old) (W.contents writer.new)
        text.old.items) }
    ensures faults { IfErr result IsUnprinted }
{
    let Ok(()) = put(writer, text) else {
        return Err(Fault::OutputFailed);
    };
    text.clear();
    Ok(())
}

/// Appends the next item's line, and returns whether there was one.
fn push_next(
    alloc: Global,
    text: &mut Vec<u8>,
    inventory: &mut Inventory,
    format: Format,
) -> Result<bool, Fault<'static>>
    ensures row { IfOk result (λ more. MovesRow format more text.old.items text.new.items
        inventory.old.left inventory.new.left) }
    ensures faults { IfErr result IsUnprinted }
{
    let Ok(next) = inventory.next() else {
        return Err(Fault::NoMemory);
    };
    let Some(info) = next else {
        return Ok(false);
    };
    match push_row(alloc, text, format, inventory.path(), &info) {
        Ok(()) => Ok(true),
        Err(_) => Err(Fault::NoMemory),
    }
}

/// The head of the table.
fn head(alloc: Global, format: Format) -> Result<Vec<u8>, Fault<'static>>
    ensures head { IfOk result (λ text. text.items ≡ head_text format) }
    ensures faults { IfErr result IsUnprinted }
{
    let mut text = Vec::new(alloc);
    match push_head(&mut text, format) {
        Ok(()) => Ok(text),
        Err(_) => Err(Fault::NoMemory),
    }
}

/// Writes the head and the lines of all items that are left, in pieces of 65,536 bytes and a line.
fn write_table<W: Write>(
    alloc: Global,
    writer: &mut W,
    inventory: &mut Inventory,
    format: Format,
) -> Result<(), Fault<'static>>
    ensures written { OnOk result (Appends (W.contents writer.old) (W.contents writer.new)
        (table_text format inventory.old.left)) }
    ensures part { OnErr result (AppendsFront (W.contents writer.old) (W.contents writer.new)
        (table_text format inventory.old.left)) }
    ensures faults { IfErr result IsUnprinted }
{
    let mut text = head(alloc, format)?;
    while push_next(alloc, &mut text, inventory, format)? {
        if text.len() >= PIECE {
            put_piece(writer, &mut text)?;
        }
    }
    put_piece(writer, &mut text)
}

/// Writes the table of all items of every image consistent with the bytes read from the opened one. It has a line for each: the
/// root first, after each folder its children in name order, and after each child what lies in it. Faults: `OutputFailed` and
/// `NoMemory`, and then only the beginning of the table may have been written.
pub fn write_items<W: Write, S: PlacedBlocks + Drop>(
    alloc: Global,
    writer: &mut W,
    image: &SeenImage<S>,
    format: Format,
) -> Result<(), Fault<'static>>
    ensures written { OnOk result (OfEach (S.Holds image.now)
        (WritesItems format (W.contents writer.old) (W.contents writer.new))) }
    ensures part { OnErr result (OfEach (S.Holds image.now)
        (WritesItemsFront format (W.contents writer.old) (W.contents writer.new))) }
    ensures faults { IfErr result IsUnprinted }
{
    let Ok(mut inventory) = image.inventory(alloc) else {
        return Err(Fault::NoMemory);
    };
    write_table(alloc, writer, &mut inventory, format)
}

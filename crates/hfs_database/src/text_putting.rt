//! Rows, and the end of an image, on their way to a writer.
ghost use Rattle.std.specs.Prelude.{◌≡◌, ◌++◌, OnErr, OnOk};
ghost use Rattle.std.specs.Io.KnownBytes.{Appends};
ghost use Rattle.hfs_texts.specs.Writing.{AppendsFront};
ghost use Rattle.hfs_database.specs.Keys.{keys_after};
ghost use Rattle.hfs_database.specs.RowTexts.{end_text, row_text};
ghost use Rattle.hfs_database.specs.UnderWay.{PutsLine};

use crate::form::Form;
use crate::keys::Keys;
use crate::line::{push_end, push_row};
use crate::output::{make_room, put_piece};
use crate::{GivenRow, TakerFault};
use std::alloc::Global;
use std::io::Write;

/// Writes a text, and after it the end of the image with these keys. At a fault, a beginning of all this was written.
pub(crate) fn write_end<W: Write>(
    alloc: Global,
    writer: &mut W,
    text: &mut Vec<u8>,
    form: Form,
    keys: &Keys,
    is_whole: bool,
) -> Result<(), TakerFault>
    ensures written { OnOk result (Appends (W.contents writer.old) (W.contents writer.new)
        (text.old.items ++ end_text form keys.now is_whole)) }
    ensures part { OnErr result (AppendsFront (W.contents writer.old) (W.contents writer.new)
        (text.old.items ++ end_text form keys.now is_whole)) }
{
    match push_end(alloc, text, form, keys, is_whole) {
        Ok(()) => put_piece(writer, text),
        Err(fault) => Err(TakerFault::from(fault)),
    }
}

/// Appends the line of a row to a text, which is written first if it is long, and takes in the row's keys. At a fault, a
/// beginning of the text may have been written.
pub(crate) fn put_row<W: Write>(
    alloc: Global,
    writer: &mut W,
    text: &mut Vec<u8>,
    keys: &mut Keys,
    form: Form,
    row: &GivenRow<'_>,
) -> Result<(), TakerFault>
    ensures put { OnOk result (PutsLine (W.contents writer.old) (W.contents writer.new) text.old.items
        text.new.items (row_text form keys.old row.now.table row.now.values.now)) }
    ensures keys { OnOk result (keys.new ≡ keys_after keys.old row.now.table row.now.values.now) }
    ensures part { OnErr result (AppendsFront (W.contents writer.old) (W.contents writer.new)
        text.old.items) }
{
    make_room(writer, text)?;
    match push_row(alloc, text, form, keys, row.table, row.values) {
        Ok(()) => {}
        Err(fault) => return Err(TakerFault::from(fault)),
    }
    match keys.note(alloc, row.table, row.values) {
        Ok(()) => Ok(()),
        Err(_) => Err(TakerFault::NoMemory),
    }
}

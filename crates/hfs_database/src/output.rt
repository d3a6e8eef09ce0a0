//! Text on its way to a writer.
ghost use Rattle.std.specs.Prelude.{◌≡◌, [], OnErr, OnOk};
ghost use Rattle.std.specs.Io.KnownBytes.{Appends};
ghost use Rattle.hfs_texts.specs.Writing.{AppendsFront};
ghost use Rattle.hfs_database.specs.RowTexts.{head_text};
ghost use Rattle.hfs_database.specs.UnderWay.{Moves};

use crate::TakerFault;
use crate::form::Form;
use crate::line::push_head;
use hfs_texts::put;
use std::alloc::Global;
use std::io::Write;

/// How many bytes of text are gathered before they are written.
const PIECE: usize = 65_536;

/// Writes a text, and empties it for the next one. Fault: `CannotWrite`, and then only its beginning may have been written.
pub(crate) fn put_piece<W: Write>(writer: &mut W, text: &mut Vec<u8>) -> Result<(), TakerFault>
    ensures written { OnOk result (Appends (W.contents writer.old) (W.contents writer.new) text.old.items) }
    ensures empty { OnOk result (text.new.items ≡ []) }
    ensures part { OnErr result (AppendsFront (W.contents writer.old) (W.contents writer.new)
        text.old.items) }
{
    let Ok(()) = put(writer, text) else {
        return Err(TakerFault::CannotWrite);
    };
    text.clear();
    Ok(())
}

/// Writes a text if it is long, and empties it for the next one. Fault: as for [`put_piece`].
pub(crate) fn make_room<W: Write>(writer: &mut W, text: &mut Vec<u8>) -> Result<(), TakerFault>
    ensures moved { OnOk result (Moves (W.contents writer.old) (W.contents writer.new)
        text.old.items text.new.items) }
    ensures part { OnErr result (AppendsFront (W.contents writer.old) (W.contents writer.new)
        text.old.items) }
{
    if text.len() < PIECE {
        return Ok(());
    }
    put_piece(writer, text)
}

/// Writes what precedes the first row. Faults: `CannotWrite`, and then a part of it may have been written; `NoMemory`.
pub fn write_head<W: Write>(alloc: Global, writer: &mut W, form: Form) -> Result<(), TakerFault>
    ensures written { OnOk result (Appends (W.contents writer.old) (W.contents writer.new)
        (head_text form)) }
    ensures part { OnErr result (AppendsFront (W.contents writer.old) (W.contents writer.new)
        (head_text form)) }
{
    let mut text = Vec::new(alloc);
    match push_head(&mut text, form) {
        Ok(()) => put_piece(writer, &mut text),
        Err(_) => Err(TakerFault::NoMemory),
    }
}

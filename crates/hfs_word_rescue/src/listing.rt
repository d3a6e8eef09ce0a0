//! The list of what remains.
ghost use Rattle.std.specs.Prelude.{◌≡◌, ◌++◌, ◌<◌, ◌⊎◌, [], length, slice_index, IfErr, IfOk, OnErr, OnOk};
ghost use Rattle.std.specs.Io.KnownBytes.{Appends};
ghost use Rattle.hfs_commands.specs.Faults.{IsUnprinted};
ghost use Rattle.hfs_rescue_items.specs.Lines.{remains_line, remains_text};
ghost use Rattle.hfs_source.specs.Seen.{EachKnown};
ghost use Rattle.hfs_texts.specs.Writing.{AppendsFront};
ghost use Rattle.hfs_word_rescue.specs.Answers.{IsKnownAnswer};
ghost use Rattle.hfs_word_rescue.specs.Faults.{IsUnlisted};
ghost use Rattle.hfs_word_rescue.specs.Lists.{Gathers, TellsRemains, TellsRemainsFront};

use crate::answer::{RescueAnswer, Rescued};
use crate::found::found_in;
use crate::image::RescuedImage;
use crate::loading::{LoadedImage, load_image};
use crate::words::RescueWords;
use hfs_commands::Fault;
use hfs_remains::FoundRecord;
use hfs_remains_forks::salvage_of;
use hfs_rescue_items::{Found, push_remains_line};
use hfs_source::PlacedBlocks;
use hfs_texts::put;
use std::alloc::Global;
use std::io::Write;
use std::rt::Files;

/// How many bytes of text are gathered before they are written.
const PIECE: usize = 65_536;

/// Writes a text, and empties it for the next one.
fn put_piece<W: Write>(writer: &mut W, text: &mut Vec<u8>) -> Result<(), Fault<'static>>
    ensures written { OnOk result (Appends (W.contents writer.old) (W.contents writer.new) text.old.items) }
    ensures empty { OnOk result (text.new.items ≡ []) }
    ensures part { OnErr result (AppendsFront (W.contents writer.old) (W.contents writer.new)
        text.old.items) }
    ensures faults { IfErr result IsUnprinted }
{
    let Ok(()) = put(writer, text) else {
        return Err(Fault::OutputFailed);
    };
    text.clear();
    Ok(())
}

/// Appends the line of the item with this number to a text, and writes the text if it has become long.
fn gather_line<W: Write>(
    alloc: Global,
    writer: &mut W,
    text: &mut Vec<u8>,
    found: &Found<'_>,
    i: usize,
    item: &FoundRecord,
) -> Result<(), Fault<'static>>
    ensures gathered { OnOk result (Gathers (remains_line found.now i item.now) text.old.items text.new.items
        (W.contents writer.old) (W.contents writer.new)) }
    ensures part { OnErr result (AppendsFront (W.contents writer.old) (W.contents writer.new)
        (text.old.items ++ remains_line found.now i item.now)) }
    ensures faults { IfErr result IsUnprinted }
{
    let Ok(()) = push_remains_line(alloc, text, found, i, item) else {
        return Err(Fault::NoMemory);
    };
    if text.len() < PIECE {
        return Ok(());
    }
    put_piece(writer, text)
}

/// Writes the lines of all items, in pieces of 65,536 bytes and a line.
fn write_lines<W: Write>(
    alloc: Global,
    writer: &mut W,
    found: &Found<'_>,
) -> Result<(), Fault<'static>>
    ensures written { OnOk result (Appends (W.contents writer.old) (W.contents writer.new)
        (remains_text found.now)) }
    ensures part { OnErr result (AppendsFront (W.contents writer.old) (W.contents writer.new)
        (remains_text found.now)) }
    ensures faults { IfErr result IsUnprinted }
{
    let mut text = Vec::new(alloc);
    for i in 0..found.items.len() {
        gather_line(alloc, writer, &mut text, found, i, &found.items[i])?;
    }
    put_piece(writer, &mut text)
}

/// Writes the list of what was found of an image, a line for each item that remains, in order, and returns what is printed about
/// the image. All this holds for every image consistent with the bytes read. Faults: memory was refused; `OutputFailed`, and then
/// only the first lines may have been written.
pub fn write_remains<S: PlacedBlocks, W: Write>(
    alloc: Global,
    writer: &mut W,
    image: &RescuedImage<S>,
    words: &RescueWords<'_>,
) -> Result<RescueAnswer, Fault<'static>>
    ensures written { OnOk result (EachKnown (S.Holds image.now.source.blocks)
        (λ known. TellsRemains known image.now.len words.now (W.contents writer.old) (W.contents writer.new))) }
    ensures part { OnErr result (EachKnown (S.Holds image.now.source.blocks)
        (λ known. TellsRemainsFront known image.now.len words.now (W.contents writer.old) (W.contents writer.new))) }
    ensures answer { IfOk result (λ answer. EachKnown (S.Holds image.now.source.blocks)
        (λ known. IsKnownAnswer known image.now.len words.now answer)) }
    ensures faults { IfErr result IsUnprinted }
{
    let limit = words.limit_for(image.len);
    let Ok(salvage) = salvage_of(alloc, &image.finds, limit) else {
        return Err(Fault::NoMemory);
    };
    let found = found_in(&image.finds, &salvage);
    let Ok(answer) = RescueAnswer::of(alloc, &image.check, &image.finds, &found) else {
        return Err(Fault::NoMemory);
    };
    write_lines(alloc, writer, &found)?;
    Ok(answer)
}

/// Writes a line for each item that remains of an image, and returns what is printed about the image after them. Faults, the
/// first that holds: the image can't be read; `NoVolume`, `SeveralVolumes`; the image's own, if it has no directory; memory was
/// refused, `OutputFailed`: then some of the lines may have been written.
pub fn list_rescue<'a, R: Files + AllocGlobal, W: Write>(
    rt: &R,
    writer: &mut W,
    words: &RescueWords<'a>,
) -> Result<Rescued, Fault<'a>>
    ensures { IfErr result (IsUnlisted R.File words.now) }
{
    let LoadedImage { image, sum } = load_image(rt, words)?;
    let answer = write_remains(rt.alloc(), writer, &image, words)?;
    Ok(Rescued { answer, sum })
}

//! Writes a script.
ghost use Rattle.std.specs.Prelude.{◌≡◌, ◌∷◌, ◌++◌, [], Ok, IfOk, IfErr, OnOk};
ghost use Rattle.std.specs.List.{All, flat_map};
ghost use Rattle.std.specs.Fmt.{decimal};
ghost use Rattle.hfs_scripts.specs.Readable.{IsReadable, IsWritten};
ghost use Rattle.hfs_scripts.specs.Scripts.{script_of};
ghost use Rattle.hfs_scripts.specs.Texts.{caller_text, tabbed, line_text, fed, script_text, IsTextFaultOf};

use crate::argument_lists::number_field;
use crate::arguments::argument_fields;
use crate::fault::TextFault;
use crate::lines::{Caller, ScriptLine};
use crate::reading::MAX_BYTES;
use crate::words::word_text;
use crate::writable::{is_writable, word_for};
use hfs_model::OwnedBytes;
use std::alloc::{AllocError, Global};

fn push_bytes(text: &mut Vec<u8>, bytes: &[u8]) -> Result<(), AllocError>
    ensures { OnOk result (text.new.items ≡ text.old.items ++ bytes.now) }
{
    text.extend_from_slice(bytes)?;
    Ok(())
}

fn push_number(alloc: Global, text: &mut Vec<u8>, number: u32) -> Result<(), AllocError>
    ensures { OnOk result (text.new.items ≡ text.old.items ++ decimal number) }
{
    let field = number_field(alloc, number)?;
    push_bytes(text, field.as_slice())
}

#[tactic(auto, unfolding(crate::specs::Texts::caller_text))]
fn push_caller(alloc: Global, text: &mut Vec<u8>, caller: Caller) -> Result<(), AllocError>
    ensures { OnOk result (text.new.items ≡ text.old.items ++ caller_text caller) }
{
    match caller {
        Caller::Worker(number) => push_number(alloc, text, number),
        Caller::Viewer(number) => {
            text.push(b'v')?;
            push_number(alloc, text, number)
        }
    }
}

fn push_tabbed(text: &mut Vec<u8>, field: &[u8]) -> Result<(), AllocError>
    ensures { OnOk result (text.new.items ≡ text.old.items ++ tabbed field.now) }
{
    text.push(b'\t')?;
    push_bytes(text, field)
}

fn push_fields(text: &mut Vec<u8>, fields: &[OwnedBytes]) -> Result<(), AllocError>
    ensures { OnOk result (text.new.items ≡ text.old.items ++ flat_map tabbed fields.now) }
{
    for field in fields {
        push_tabbed(text, field.as_slice())?;
    }
    Ok(())
}

/// Appends the rest of a line: these fields and its line feed.
fn push_rest(text: &mut Vec<u8>, rest: &[OwnedBytes]) -> Result<(), AllocError>
    ensures { OnOk result (text.new.items ≡ text.old.items ++ flat_map tabbed rest.now ++ 10 ∷ []) }
{
    push_fields(text, rest)?;
    text.push(b'\n')?;
    Ok(())
}

/// Appends a line and its line feed.
#[tactic(auto, unfolding(crate::specs::Texts::line_text))]
fn push_line(alloc: Global, text: &mut Vec<u8>, line: &ScriptLine) -> Result<(), AllocError>
    ensures text { OnOk result (text.new.items ≡ text.old.items ++ fed line.now) }
    ensures reads { OnOk result (IsReadable line.now.call) }
{
    push_caller(alloc, text, line.caller)?;
    push_tabbed(text, word_text(word_for(&line.call)))?;
    let fields = argument_fields(alloc, &line.call)?;
    push_rest(text, &fields)
}

/// The text of lines, of any length.
#[tactic(auto, unfolding(crate::specs::Texts::script_text))]
fn write_lines(alloc: Global, lines: &[ScriptLine], now: u32) -> Result<Vec<u8>, TextFault>
    ensures text { IfOk result (λ text. text.items ≡ script_text lines.now) }
    ensures written { IfOk result (λ text. All (IsWritten now) lines.now) }
    ensures fault { IfErr result (IsTextFaultOf now lines.now) }
{
    let mut text = Vec::new(alloc);
    for (place, line) in lines.iter().enumerate() {
        if !is_writable(now, line) {
            return Err(TextFault::Unwritable(place as u64 + 1));
        }
        push_line(alloc, &mut text, line)?;
    }
    Ok(text)
}

/// The text of a script with these lines, which is read back as these lines if the reader is given the moment `now`: numbers
/// without leading zeros, hexadecimal digits in lower case, a line feed after each line. `Unwritable` with the first line that
/// has no text; `TooLarge` if all have one; `Memory` only when out of memory.
pub fn script_text(alloc: Global, lines: &[ScriptLine], now: u32) -> Result<Vec<u8>, TextFault>
    ensures text { IfOk result (λ text. text.items ≡ script_text lines.now) }
    ensures reads { IfOk result (λ text. script_of now text.items ≡ Ok lines.now) }
    ensures fault { IfErr result (IsTextFaultOf now lines.now) }
{
    let text = write_lines(alloc, lines, now)?;
    if text.len() > MAX_BYTES {
        return Err(TextFault::TooLarge);
    }
    Ok(text)
}

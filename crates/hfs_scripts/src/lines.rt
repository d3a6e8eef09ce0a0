//! A line of a script.
ghost use Rattle.std.specs.Prelude.{◌≡◌, Some, None, if◌then◌else◌, IfOk};
ghost use Rattle.hfs_scripts.specs.Lines.{member_of, caller_of, may_ask, line_of_fields, line_of};
ghost use Rattle.hfs_scripts.specs.Fields.{texts_of};

use crate::calls::read_call;
use crate::fields::split_fields;
use crate::numbers::read_number;
use crate::words::{Word, is_for_viewers, read_word};
use hfs_model::Call;
use std::alloc::{AllocError, Global};

/// Who makes a call of a script.
#[derive(Clone, Copy, Debug, PartialEq, Eq)]
pub enum Caller {
    /// The worker with this number, from 1 to 8.
    Worker(u32),
    /// The viewer with this number, from 1 to 8.
    Viewer(u32),
}

/// A line of a script: a call, and who makes it.
#[derive(Drop)]
pub struct ScriptLine {
    pub caller: Caller,
    pub call: Call,
}

#[tactic(auto, unfolding(crate::specs::Lines::member_of))]
fn read_member(field: &[u8]) -> Option<u32>
    ensures { result ≡ member_of field.now }
{
    let number = read_number(field)?;
    if number >= 1 && number <= 8 {
        Some(number)
    } else {
        None
    }
}

#[tactic(auto, unfolding(crate::specs::Lines::caller_of))]
fn read_caller(field: &[u8]) -> Option<Caller>
    ensures { result ≡ caller_of field.now }
{
    match field {
        [] => None,
        [b'v', number @ ..] => Some(Caller::Viewer(read_member(number)?)),
        [_, ..] => Some(Caller::Worker(read_member(field)?)),
    }
}

pub(crate) fn may_ask(caller: Caller, word: Word) -> bool
    ensures { result ≡ may_ask caller word }
{
    match caller {
        Caller::Worker(_) => true,
        Caller::Viewer(_) => is_for_viewers(word),
    }
}

/// The line, if its caller may use its word.
fn allowed_line(word: Word, line: ScriptLine) -> Option<ScriptLine>
    ensures { result ≡ if may_ask line.caller word then Some line else None }
{
    if may_ask(line.caller, word) {
        Some(line)
    } else {
        None
    }
}

/// The line with these fields, if they make one.
#[tactic(auto, unfolding(crate::specs::Lines::line_of_fields))]
fn read_fields(alloc: Global, fields: &[&[u8]], now: u32) -> Result<Option<ScriptLine>, AllocError>
    ensures { IfOk result (λ line. line ≡ line_of_fields now (texts_of fields.now)) }
{
    let [who, text, fields @ ..] = fields else {
        return Ok(None);
    };
    let Some(caller) = read_caller(who) else {
        return Ok(None);
    };
    let Some(word) = read_word(text) else {
        return Ok(None);
    };
    match read_call(alloc, word, fields, now)? {
        Some(call) => Ok(allowed_line(word, ScriptLine { caller, call })),
        None => Ok(None),
    }
}

/// The line in bytes without a line feed, if they are one. `Err` only when out of memory.
#[tactic(auto, unfolding(crate::specs::Lines::line_of))]
pub(crate) fn read_line(
    alloc: Global,
    bytes: &[u8],
    now: u32,
) -> Result<Option<ScriptLine>, AllocError>
    ensures { IfOk result (λ line. line ≡ line_of now bytes.now) }
{
    let fields = split_fields(alloc, bytes)?;
    read_fields(alloc, fields.as_slice(), now)
}

//! Reads a script.
ghost use Rattle.std.specs.Prelude.{◌≡◌, ◌<◌, Ok, Err, length, ◌∷◌, ◌==◌, position};
ghost use Rattle.hfs_scripts.specs.Scripts.{lines_of, lines_read, script_of, GivesLines, GivesScript};

use crate::fault::ScriptFault;
use crate::lines::{ScriptLine, read_line};
use crate::script::Script;
use memchr::memchr;
use std::alloc::Global;

/// The most bytes that a script may have.
pub(crate) const MAX_BYTES: usize = 16_777_216;

/// The place of the first line feed.
fn line_feed(bytes: &[u8]) -> Option<usize>
    ensures { result ≡ position (λ byte. byte == 10) bytes.now }
{
    memchr(b'\n', bytes)
}

/// The first line of bytes, and what follows its line feed.
#[tactic(auto, unfolding(crate::specs::Scripts::lines_of))]
fn first_line(bytes: &[u8]) -> (&[u8], &[u8])
    requires { 0 < length bytes.now }
    ensures lines { lines_of bytes.now ≡ result.0.now ∷ lines_of result.1.now }
    ensures shorter { length result.1.now < length bytes.now }
{
    match line_feed(bytes) {
        Some(end) => (&bytes[..end], &bytes[end + 1..]),
        None => (bytes, &[]),
    }
}

/// The lines of bytes. At `Line`, all lines before that one can be read.
fn read_lines(alloc: Global, bytes: &[u8], now: u32) -> Result<Vec<ScriptLine>, ScriptFault>
    ensures { GivesLines (lines_read now bytes.now) result }
{
    let mut lines = Vec::new(alloc);
    let mut rest = bytes;
    while !rest.is_empty() {
        let (first, behind) = first_line(rest);
        let Some(line) = read_line(alloc, first, now)? else {
            return Err(ScriptFault::Line(lines.len() as u64 + 1));
        };
        lines.push(line)?;
        rest = behind;
    }
    Ok(lines)
}

/// Reads a script, whose changes are made at the moment `now`. `TooLarge` if it has more than 16,777,216 bytes; `Line` with the
/// first line that can't be read, counted from 1; `Memory` only when out of memory.
#[tactic(auto, unfolding(crate::specs::Scripts::script_of))]
pub fn read_script(alloc: Global, bytes: &[u8], now: u32) -> Result<Script, ScriptFault>
    ensures { GivesScript (script_of now bytes.now) result }
{
    if bytes.len() > MAX_BYTES {
        return Err(ScriptFault::TooLarge);
    }
    let lines = read_lines(alloc, bytes, now)?;
    Ok(Script::new(lines))
}

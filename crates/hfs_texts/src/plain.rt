//! Plain text.
ghost use Rattle.std.specs.Prelude.{◌≡◌, ◌≤◌, OnOk, length, take};
ghost use Rattle.hfs_texts.specs.Gains.{Gains};
ghost use Rattle.hfs_texts.specs.PlainTexts.{IsOwnText, is_control, is_itself, plain_character, plain_text};

use crate::characters::{ascii_text, push_character};
use crate::digits::push_hex_byte;
use std::alloc::AllocError;

/// Whether a byte is not a printable character.
pub(crate) fn is_control(byte: u8) -> bool
    ensures { result ≡ is_control byte }
{
    byte < 0x20 || byte == 0x7f
}

#[tactic(auto, unfolding(crate::specs::PlainTexts::plain_character))]
fn push_plain_character(text: &mut String, byte: u8) -> Result<(), AllocError>
    ensures { OnOk result (Gains text.old text.new (plain_character byte)) }
{
    if is_control(byte) || byte == b'\\' {
        text.push('\\')?;
        return push_hex_byte(text, byte);
    }
    push_character(text, byte)
}

/// Whether a byte stands for itself in plain text: printable ASCII, and no backslash.
#[tactic(auto, unfolding(crate::specs::PlainTexts::is_itself))]
fn is_itself(byte: u8) -> bool
    ensures { result ≡ is_itself byte }
{
    byte < 0x80 && !is_control(byte) && byte != b'\\'
}

/// How many of the first bytes stand for themselves, up to the first that doesn't.
fn own_len(bytes: &[u8]) -> usize
    ensures bound { result ≤ length bytes.now }
    ensures own { IsOwnText (take result bytes.now) }
{
    let mut len = 0;
    while len < bytes.len() && is_itself(bytes[len]) {
        len += 1;
    }
    len
}

/// Appends the plain text of bytes, a character at a time.
#[tactic(auto, unfolding(crate::specs::PlainTexts::plain_text))]
fn push_each(text: &mut String, bytes: &[u8]) -> Result<(), AllocError>
    ensures { OnOk result (Gains text.old text.new (plain_text bytes.now)) }
{
    for byte in bytes {
        push_plain_character(text, *byte)?;
    }
    Ok(())
}

/// Appends the plain text of bytes: each character as it is, except that a byte below $20, $7F and the backslash become a
/// backslash and two lower-case hexadecimal digits.
pub fn push_plain_text(text: &mut String, bytes: &[u8]) -> Result<(), AllocError>
    ensures { OnOk result (Gains text.old text.new (plain_text bytes.now)) }
{
    let (own, behind) = bytes.split_at(own_len(bytes));
    text.push_str(ascii_text(own))?;
    push_each(text, behind)
}

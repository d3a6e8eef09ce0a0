//! How fields are printed.
ghost use Rattle.std.specs.Prelude.{◌≡◌, ◌++◌, ◌<◌, ℕ, List, OnOk, IfOk, string_bytes};
ghost use Rattle.std.specs.Fmt.{decimal, signed_decimal};
ghost use Rattle.hfs_texts.specs.Lines.{hex_digit, hex_byte, hex_text, shown_character, shown_characters, name_text, extent_text, spaced_extent, spaced_extents, extents_text, line};
ghost use Rattle.hfs_texts.specs.Texts.{Gains};

use hfs_fields::Extent;
use itoa::{Buffer, Integer};
use std::alloc::AllocError;

/// Values with a printed form.
pub trait Show {
    /// The printed form.
    ghost shown: { Self → List ℕ };

    /// Appends the printed form.
    fn push_to(&self, text: &mut String) -> Result<(), AllocError>
        ensures { OnOk result (Gains text.old text.new (shown self.now)) };
}

fn push_number<I: Integer>(text: &mut String, number: I) -> Result<(), AllocError>
    ensures { OnOk result (Gains text.old text.new (I.text number)) }
{
    let mut buffer = Buffer::new();
    text.push_str(buffer.format(number))
}

impl Show for u16 {
    ghost shown = { λ number. decimal number };

    fn push_to(&self, text: &mut String) -> Result<(), AllocError> {
        push_number(text, *self)
    }
}

impl Show for u32 {
    ghost shown = { λ number. decimal number };

    fn push_to(&self, text: &mut String) -> Result<(), AllocError> {
        push_number(text, *self)
    }
}

impl Show for u64 {
    ghost shown = { λ number. decimal number };

    fn push_to(&self, text: &mut String) -> Result<(), AllocError> {
        push_number(text, *self)
    }
}

impl Show for i16 {
    ghost shown = { λ number. signed_decimal number };

    fn push_to(&self, text: &mut String) -> Result<(), AllocError> {
        push_number(text, *self)
    }
}

/// Two lower-case hexadecimal digits of each byte.
#[derive(Drop)]
pub struct Hex<'a>(pub &'a [u8]);

impl Show for Hex<'_> {
    ghost shown = { λ hex. hex_text hex.0.now };

    fn push_to(&self, text: &mut String) -> Result<(), AllocError> {
        push_hex(text, self.0)
    }
}

#[tactic(auto, unfolding(crate::specs::Lines::hex_text))]
fn push_hex(text: &mut String, bytes: &[u8]) -> Result<(), AllocError>
    ensures { OnOk result (Gains text.old text.new (hex_text bytes.now)) }
{
    for byte in bytes {
        push_hex_byte(text, *byte)?;
    }
    Ok(())
}

#[tactic(auto, unfolding(crate::specs::Lines::hex_byte))]
pub fn push_hex_byte(text: &mut String, byte: u8) -> Result<(), AllocError>
    ensures { OnOk result (Gains text.old text.new (hex_byte byte)) }
{
    text.push(hex_digit(byte / 16))?;
    text.push(hex_digit(byte % 16))
}

fn hex_digit(digit: u8) -> char
    requires { digit < 16 }
    ensures value { result ≡ hex_digit digit }
    ensures ascii { result < 128 }
{
    if digit < 10 {
        char::from(b'0' + digit)
    } else {
        char::from(b'a' + (digit - 10))
    }
}

/// A name, from its field with a length byte and characters.
#[derive(Drop)]
pub struct ShownName<'a>(pub &'a [u8]);

impl Show for ShownName<'_> {
    ghost shown = { λ name. name_text name.0.now };

    #[tactic(auto, unfolding(crate::specs::Lines::name_text))]
    fn push_to(&self, text: &mut String) -> Result<(), AllocError> {
        match self.0 {
            [] => Ok(()),
            [len, characters @ ..] => {
                let len = characters.len().min(usize::from(*len));
                push_characters(text, &characters[..len])
            }
        }
    }
}

#[tactic(auto, unfolding(crate::specs::Lines::shown_characters))]
fn push_characters(text: &mut String, characters: &[u8]) -> Result<(), AllocError>
    ensures { OnOk result (Gains text.old text.new (shown_characters characters.now)) }
{
    for character in characters {
        push_character(text, *character)?;
    }
    Ok(())
}

/// Appends a character of a name, as two digits after a backslash if it is not printable or is a backslash.
#[tactic(auto, unfolding(crate::specs::Lines::shown_character))]
fn push_character(text: &mut String, character: u8) -> Result<(), AllocError>
    ensures { OnOk result (Gains text.old text.new (shown_character character)) }
{
    if character < 0x20 || character > 0x7e || character == b'\\' {
        text.push('\\')?;
        return push_hex_byte(text, character);
    }
    text.push(char::from(character))
}

/// Extents, separated by spaces.
#[derive(Drop)]
pub struct ShownExtents<'a>(pub &'a [Extent]);

impl Show for ShownExtents<'_> {
    ghost shown = { λ extents. extents_text extents.0.now };

    #[tactic(auto, unfolding(crate::specs::Lines::extents_text))]
    fn push_to(&self, text: &mut String) -> Result<(), AllocError> {
        match self.0 {
            [] => Ok(()),
            [first, others @ ..] => {
                push_extent(text, first)?;
                push_spaced_extents(text, others)
            }
        }
    }
}

#[tactic(auto, unfolding(crate::specs::Lines::spaced_extents))]
fn push_spaced_extents(text: &mut String, extents: &[Extent]) -> Result<(), AllocError>
    ensures { OnOk result (Gains text.old text.new (spaced_extents extents.now)) }
{
    for extent in extents {
        push_spaced_extent(text, extent)?;
    }
    Ok(())
}

#[tactic(auto, unfolding(crate::specs::Lines::spaced_extent))]
fn push_spaced_extent(text: &mut String, extent: &Extent) -> Result<(), AllocError>
    ensures { OnOk result (Gains text.old text.new (spaced_extent extent.now)) }
{
    text.push(' ')?;
    push_extent(text, extent)
}

#[tactic(auto, unfolding(crate::specs::Lines::extent_text))]
fn push_extent(text: &mut String, extent: &Extent) -> Result<(), AllocError>
    ensures { OnOk result (Gains text.old text.new (extent_text extent.now)) }
{
    extent.first.push_to(text)?;
    text.push('+')?;
    extent.count.push_to(text)
}

/// Appends a line: a name, a space, and a value.
#[tactic(auto, unfolding(crate::specs::Lines::line))]
pub fn push_line<S: Show + Drop>(text: &mut String, name: &str, value: S) -> Result<(), AllocError>
    ensures { OnOk result (Gains text.old text.new (line name.now (S.shown value))) }
{
    text.push_str(name)?;
    text.push(' ')?;
    value.push_to(text)?;
    text.push('\n')
}

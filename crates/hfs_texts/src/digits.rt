//! Digits of numbers and bytes.
ghost use Rattle.std.specs.Prelude.{◌≡◌, ◌+◌, ◌/◌, ◌%◌, ◌<◌, ◌∷◌, [], OnOk};
ghost use Rattle.hfs_texts.specs.Digits.{hex_byte, hex_text, lower_digit, upper_byte, upper_digit};
ghost use Rattle.hfs_texts.specs.Gains.{Gains};

use crate::characters::ascii_text;
use std::alloc::AllocError;

fn lower_digit(digit: u8) -> u8
    requires { digit < 16 }
    ensures value { result ≡ lower_digit digit }
    ensures ascii { result < 128 }
{
    if digit < 10 {
        b'0' + digit
    } else {
        b'a' + (digit - 10)
    }
}

fn upper_digit(digit: u8) -> char
    requires { digit < 16 }
    ensures value { result ≡ upper_digit digit }
    ensures ascii { result < 128 }
{
    if digit < 10 {
        char::from(b'0' + digit)
    } else {
        char::from(b'A' + (digit - 10))
    }
}

/// Appends a byte as two lower-case hexadecimal digits.
#[tactic(auto, unfolding(crate::specs::Digits::hex_byte))]
pub(crate) fn push_hex_byte(text: &mut String, byte: u8) -> Result<(), AllocError>
    ensures { OnOk result (Gains text.old text.new (hex_byte byte)) }
{
    text.push(char::from(lower_digit(byte / 16)))?;
    text.push(char::from(lower_digit(byte % 16)))
}

/// Appends a byte as two upper-case hexadecimal digits.
#[tactic(auto, unfolding(crate::specs::Digits::upper_byte))]
pub(crate) fn push_upper_byte(text: &mut String, byte: u8) -> Result<(), AllocError>
    ensures { OnOk result (Gains text.old text.new (upper_byte byte)) }
{
    text.push(upper_digit(byte / 16))?;
    text.push(upper_digit(byte % 16))
}

/// Appends four bytes as lower-case hexadecimal digits, at once.
#[tactic(auto, unfolding(crate::specs::Digits::hex_text, crate::specs::Digits::hex_byte), using(crate::proofs::AsciiLemmas::ascii_eight))]
fn push_hex_four(text: &mut String, a: u8, b: u8, c: u8, d: u8) -> Result<(), AllocError>
    ensures { OnOk result (Gains text.old text.new (hex_text (a ∷ b ∷ c ∷ d ∷ []))) }
{
    text.push_str(ascii_text(&[
        lower_digit(a / 16),
        lower_digit(a % 16),
        lower_digit(b / 16),
        lower_digit(b % 16),
        lower_digit(c / 16),
        lower_digit(c % 16),
        lower_digit(d / 16),
        lower_digit(d % 16),
    ]))
}

/// Appends bytes as lower-case hexadecimal digits, a byte at a time.
#[tactic(auto, unfolding(crate::specs::Digits::hex_text))]
fn push_hex_each(text: &mut String, bytes: &[u8]) -> Result<(), AllocError>
    ensures { OnOk result (Gains text.old text.new (hex_text bytes.now)) }
{
    for byte in bytes {
        push_hex_byte(text, *byte)?;
    }
    Ok(())
}

/// Appends bytes as lower-case hexadecimal digits, two for each.
pub fn push_hex(text: &mut String, bytes: &[u8]) -> Result<(), AllocError>
    ensures { OnOk result (Gains text.old text.new (hex_text bytes.now)) }
{
    let mut rest = bytes;
    while rest.len() >= 4 {
        push_hex_four(text, rest[0], rest[1], rest[2], rest[3])?;
        rest = &rest[4..];
    }
    push_hex_each(text, rest)
}

/// The first of the two digits of a number below 100, in ASCII.
pub(crate) fn tens(number: u8) -> u8
    requires { number < 100 }
    ensures value { result ≡ 48 + number / 10 }
    ensures ascii { result < 128 }
{
    b'0' + number / 10
}

/// The second of the two digits of a number below 100, in ASCII.
pub(crate) fn ones(number: u8) -> u8
    requires { number < 100 }
    ensures value { result ≡ 48 + number % 10 }
    ensures ascii { result < 128 }
{
    b'0' + number % 10
}

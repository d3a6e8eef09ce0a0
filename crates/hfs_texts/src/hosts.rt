//! Host names.
ghost use Rattle.std.specs.Prelude.{◌≡◌, ◌==◌, ◌∷◌, IfOk, OnOk, length, string_bytes};
ghost use Rattle.std.specs.List.{before_first, list_any, position};
ghost use Rattle.hfs_fields.specs.Order.{same_name};
ghost use Rattle.hfs_texts.specs.Gains.{Gains};
ghost use Rattle.hfs_texts.specs.HostNames.{devices, host_character, host_name, host_rest, is_device_name, is_dropped_at_end, is_first_escaped, is_reserved, ports};

use crate::characters::push_character;
use crate::digits::push_upper_byte;
use crate::plain::is_control;
use hfs_fields::same_name;
use std::alloc::{AllocError, Global};

/// The characters that mean something to some host, and `=`, which precedes the digits of an escaped one.
const RESERVED: [u8; 11] = *b"%=/\\:*?\"<>|";

/// The names that some hosts keep for devices.
const DEVICES: [[u8; 3]; 4] = [*b"CON", *b"PRN", *b"AUX", *b"NUL"];

/// The same, followed by a digit.
const PORTS: [[u8; 4]; 18] = [
    *b"COM1", *b"COM2", *b"COM3", *b"COM4", *b"COM5", *b"COM6", *b"COM7", *b"COM8", *b"COM9",
    *b"LPT1", *b"LPT2", *b"LPT3", *b"LPT4", *b"LPT5", *b"LPT6", *b"LPT7", *b"LPT8", *b"LPT9",
];

/// Whether this character is escaped in every host name.
#[tactic(auto, unfolding(crate::specs::HostNames::is_reserved))]
fn is_reserved(character: u8) -> bool
    ensures { result ≡ is_reserved character }
{
    is_control(character) || RESERVED.contains(&character)
}

/// Whether some host drops this character at a name's end.
fn is_dropped_at_end(character: u8) -> bool
    ensures { result ≡ is_dropped_at_end character }
{
    character == b'.' || character == b' '
}

/// The place of a name's first point.
fn first_point(name: &[u8]) -> Option<usize>
    ensures { result ≡ position (λ c. c == 46) name.now }
{
    name.iter().position(|character| *character == b'.')
}

/// What precedes a name's first point, or all of it if it has none.
fn stem(name: &[u8]) -> &[u8]
    ensures { result.now ≡ before_first (λ c. c == 46) name.now }
{
    match first_point(name) {
        Some(place) => &name[..place],
        None => name,
    }
}

fn is_device(stem: &[u8]) -> bool
    ensures { result ≡ list_any (same_name stem.now) devices }
{
    DEVICES.iter().any(|device| same_name(stem, device))
}

fn is_port(stem: &[u8]) -> bool
    ensures { result ≡ list_any (same_name stem.now) ports }
{
    PORTS.iter().any(|port| same_name(stem, port))
}

/// Whether a name is, up to its first point, one that some host keeps for a device.
#[tactic(auto, unfolding(crate::specs::HostNames::is_device_name))]
fn is_device_name(name: &[u8]) -> bool
    ensures { result ≡ is_device_name name.now }
{
    let stem = stem(name);
    is_device(stem) || is_port(stem)
}

/// Appends a character, as `=` and two upper-case hexadecimal digits if it is escaped.
#[tactic(auto, unfolding(crate::specs::HostNames::host_character))]
fn push_host_character(text: &mut String, is_escaped: bool, character: u8) -> Result<(), AllocError>
    ensures { OnOk result (Gains text.old text.new (host_character is_escaped character)) }
{
    if is_escaped {
        text.push('=')?;
        return push_upper_byte(text, character);
    }
    push_character(text, character)
}

/// Appends the rest of the characters, each as it is or escaped.
#[tactic(auto, unfolding(crate::specs::HostNames::host_rest))]
fn push_host_rest(text: &mut String, characters: &[u8]) -> Result<(), AllocError>
    ensures { OnOk result (Gains text.old text.new (host_rest characters.now)) }
{
    let mut rest = characters;
    while let [character, behind @ ..] = rest {
        let is_escaped = is_reserved(*character)
            || behind.is_empty() && is_dropped_at_end(*character);
        push_host_character(text, is_escaped, *character)?;
        rest = behind;
    }
    Ok(())
}

/// Whether a name's first character is escaped.
fn is_first_escaped(character: u8, behind: &[u8], name: &[u8]) -> bool
    requires { name.now ≡ character ∷ behind.now }
    ensures { result ≡ is_first_escaped character behind.now }
{
    is_reserved(character)
        || character == b'.'
        || is_device_name(name)
        || behind.is_empty() && is_dropped_at_end(character)
}

/// Appends the host name of an item's name, which any file system accepts: each character as it is, except that a character which
/// some host doesn't accept there becomes `=` and two upper-case hexadecimal digits. See [`crate::host_name_laws`].
#[tactic(auto, unfolding(crate::specs::HostNames::host_name))]
pub fn push_host_name(text: &mut String, name: &[u8]) -> Result<(), AllocError>
    ensures { OnOk result (Gains text.old text.new (host_name name.now)) }
{
    match name {
        [] => text.push('='),
        [first, behind @ ..] => {
            push_host_character(text, is_first_escaped(*first, behind, name), *first)?;
            push_host_rest(text, behind)
        }
    }
}

/// The host name of an item's name, as [`push_host_name`] appends it.
pub fn host_name(alloc: Global, name: &[u8]) -> Result<String, AllocError>
    ensures { IfOk result (λ text. string_bytes text ≡ host_name name.now) }
{
    let mut text = String::new(alloc);
    push_host_name(&mut text, name)?;
    Ok(text)
}

//! Reading the names in the text of a Mac path, a byte at a time.
ghost use Rattle.std.specs.Prelude.{◌≡◌, ◌<◌, [], ◌∷◌, Some, IfOk, IfSome, OnOk};
ghost use Rattle.std.specs.List.{fold};
ghost use Rattle.std.specs.Option.{option_map};
ghost use Rattle.hfs_texts.specs.Paths.{byte_of, closed, digit_value, names_of, names_read, path_names, read_byte, read_of, with_byte, with_character, with_second_digit};

use hfs_fields::Name;
use std::alloc::{AllocError, Global};

/// How the next byte of a path's text is taken.
#[derive(Clone, Copy)]
pub enum Stage {
    /// As a character of a name, or the colon after one.
    Character,
    /// As the first digit after a backslash.
    FirstDigit,
    /// As the second digit, after this first one.
    SecondDigit(u8),
    /// Not at all: what came before can't begin a path.
    Wrong,
}

/// What was read of a path's text.
#[derive(Drop)]
struct Reading {
    /// The names with their colons.
    names: Vec<Name>,
    /// The bytes of the name after them.
    name: Vec<u8>,
    stage: Stage,
}

/// The value of a hexadecimal digit in either case.
#[tactic(auto, unfolding(crate::specs::Paths::digit_value))]
fn digit_value(byte: u8) -> Option<u8>
    ensures value { result ≡ digit_value byte }
    ensures small { IfSome result (λ digit. digit < 16) }
{
    if b'0' <= byte && byte <= b'9' {
        Some(byte - b'0')
    } else if b'a' <= byte && byte <= b'f' {
        Some(byte - b'a' + 10)
    } else if b'A' <= byte && byte <= b'F' {
        Some(byte - b'A' + 10)
    } else {
        None
    }
}

/// The byte of two hexadecimal digits.
#[tactic(auto, unfolding(crate::specs::Paths::byte_of))]
fn byte_of(first: u8, second: u8) -> Option<u8>
    ensures { result ≡ byte_of first second }
{
    let high = digit_value(first)?;
    let low = digit_value(second)?;
    Some(16 * high + low)
}

/// Ends a name. With a name of more than 31 bytes it can't become a path.
#[tactic(auto, unfolding(crate::specs::Paths::closed))]
fn close(reading: &mut Reading) -> Result<(), AllocError>
    ensures { OnOk result (read_of reading.new ≡ closed (read_of reading.old)) }
{
    let Some(name) = Name::of_bytes(&reading.name) else {
        reading.stage = Stage::Wrong;
        return Ok(());
    };
    reading.names.push(name)?;
    reading.name.clear();
    Ok(())
}

/// Takes a byte of a name as it is.
fn push_byte(reading: &mut Reading, byte: u8) -> Result<(), AllocError>
    ensures { OnOk result (read_of reading.new ≡ with_byte byte (read_of reading.old)) }
{
    reading.name.push(byte)?;
    reading.stage = Stage::Character;
    Ok(())
}

/// Takes a byte as a character of a name, or as a colon or backslash.
#[tactic(auto, unfolding(crate::specs::Paths::with_character))]
fn read_character(reading: &mut Reading, byte: u8) -> Result<(), AllocError>
    ensures { OnOk result (read_of reading.new ≡ with_character byte (read_of reading.old)) }
{
    if byte == b':' {
        return close(reading);
    }
    if byte == b'\\' {
        reading.stage = Stage::FirstDigit;
        return Ok(());
    }
    push_byte(reading, byte)
}

/// Takes a byte as the second digit after a backslash.
#[tactic(auto, unfolding(crate::specs::Paths::with_second_digit))]
fn read_second_digit(reading: &mut Reading, first: u8, byte: u8) -> Result<(), AllocError>
    ensures { OnOk result (read_of reading.new ≡ with_second_digit first byte (read_of reading.old)) }
{
    match byte_of(first, byte) {
        Some(escaped) => push_byte(reading, escaped),
        None => {
            reading.stage = Stage::Wrong;
            Ok(())
        }
    }
}

/// Takes the next byte of a text.
#[tactic(auto, unfolding(crate::specs::Paths::read_byte))]
fn read_byte(reading: &mut Reading, byte: u8) -> Result<(), AllocError>
    ensures { OnOk result (read_of reading.new ≡ read_byte (read_of reading.old) byte) }
{
    match reading.stage {
        Stage::Character => read_character(reading, byte),
        Stage::FirstDigit => {
            reading.stage = Stage::SecondDigit(byte);
            Ok(())
        }
        Stage::SecondDigit(first) => read_second_digit(reading, first, byte),
        Stage::Wrong => Ok(()),
    }
}

/// Takes all bytes of a text.
fn read_bytes(reading: &mut Reading, text: &[u8]) -> Result<(), AllocError>
    ensures { OnOk result (read_of reading.new ≡ fold read_byte (read_of reading.old) text.now) }
{
    for byte in text {
        read_byte(reading, *byte)?;
    }
    Ok(())
}

/// The names, if what was read ends as a path does.
#[tactic(auto, unfolding(crate::specs::Paths::names_read))]
fn names_read(reading: Reading) -> Result<Option<Vec<Name>>, AllocError>
    ensures { IfOk result (λ found. option_map names_of found ≡ names_read (read_of reading)) }
{
    let mut reading = reading;
    close(&mut reading)?;
    match reading.stage {
        Stage::Character => Ok(Some(reading.names)),
        _ => Ok(None),
    }
}

/// The single name of the path `:`, which is empty.
fn no_names(alloc: Global) -> Result<Option<Vec<Name>>, AllocError>
    ensures { IfOk result (λ found. option_map names_of found ≡ Some ([] ∷ [])) }
{
    let Some(name) = Name::of_bytes(b"") else {
        unreachable!()
    };
    let mut names = Vec::new(alloc);
    names.push(name)?;
    Ok(Some(names))
}

/// The names in the text of a Mac path, starting with the volume's. `:` separates them, a backslash and two hexadecimal digits
/// stand for the byte with this value, and any other byte stands for itself. The first name is empty if a path begins with `:`,
/// and it is the only one of the path `:`. None if there is no text, a backslash has no digits, or a name has more than 31 bytes.
/// Fails only when out of memory.
#[tactic(auto, unfolding(crate::specs::Paths::path_names))]
pub fn path_names(alloc: Global, text: &[u8]) -> Result<Option<Vec<Name>>, AllocError>
    ensures { IfOk result (λ found. option_map names_of found ≡ path_names text.now) }
{
    if text.is_empty() {
        return Ok(None);
    }
    if text == b":".as_slice() {
        return no_names(alloc);
    }
    let mut reading = Reading {
        names: Vec::new(alloc),
        name: Vec::new(alloc),
        stage: Stage::Character,
    };
    read_bytes(&mut reading, text)?;
    names_read(reading)
}

//! The name that an item gets from its name outside.
ghost use Rattle.std.specs.Prelude.{◌≡◌, ◌≤◌, chars, length, map};
ghost use Rattle.hfs_fields.specs.Names.{is_name_character};
ghost use Rattle.hfs_encodings.specs.Spelled.{host_letters, letters_in, plain_letters};
ghost use Rattle.hfs_encodings.specs.Names.{given_name, named_letter, renamed};

use crate::spelled::{SEEN, Spelling, first_letters};
use hfs_fields::{FieldRow, Name};

/// The name that an item gets from letters, which may be no item name.
#[derive(Clone, Copy)]
pub enum GivenName {
    /// They are an item name.
    Item(Name),
    /// They are no item name; this is the one in their place.
    Other(Name),
}

/// Whether an item name may have this letter.
fn is_name_character(letter: u8) -> bool
    ensures { result ≡ is_name_character letter }
{
    32 <= letter && letter <= 126 && letter != b':' && letter != b'`'
}

/// The letter, or `_` if no item name may have it.
#[tactic(auto, unfolding(crate::specs::Names::named_letter))]
fn named_letter(letter: u8) -> u8
    ensures { result ≡ named_letter letter }
{
    if is_name_character(letter) {
        letter
    } else {
        b'_'
    }
}

/// Each letter, or `_` in its place.
fn named_letters(letters: &[u8]) -> FieldRow
    requires { length letters.now ≤ 31 }
    ensures { result ≡ map named_letter letters.now }
{
    let mut row = FieldRow::new();
    for letter in letters {
        row.push_u8(named_letter(*letter));
    }
    row
}

/// The name of these bytes.
fn name_of(row: &FieldRow) -> Name
    requires { length row.now ≤ 31 }
    ensures { result ≡ row.now }
{
    let mut bytes = [0; 31];
    row.copy_to(&mut bytes);
    let Some(name) = Name::of_bytes(&bytes[..row.len()]) else {
        unreachable!()
    };
    name
}

/// The item name in place of letters that are none.
#[tactic(auto, using(crate::proofs::Given::renamed_some))]
fn renamed(letters: &[u8]) -> Name
    ensures { result ≡ renamed letters.now }
{
    match letters {
        [] => name_of(&named_letters(&[b'_'])),
        [_first, _behind @ ..] => {
            let first = letters.len().min(31);
            name_of(&named_letters(&letters[..first]))
        }
    }
}

/// The name that an item gets from letters in Mac OS Roman: these, if they are an item name. Otherwise a name with `_` for each
/// letter that no item name may have, cut to 31 letters.
#[tactic(auto, unfolding(crate::specs::Names::given_name))]
pub fn given_name(letters: &[u8]) -> GivenName
    ensures { result ≡ given_name letters.now }
{
    match Name::new(letters) {
        Some(name) => GivenName::Item(name),
        None => GivenName::Other(renamed(letters)),
    }
}

/// The name that an item gets from letters in this spelling in a text.
fn read_name(spelling: Spelling, text: &str) -> GivenName
    ensures { result ≡ given_name (letters_in spelling (chars text.now)) }
{
    let row = first_letters(spelling, text);
    let mut letters = [0; SEEN];
    row.copy_to(&mut letters);
    given_name(&letters[..row.len()])
}

/// The name that an item gets from its host name, which is the last part of a path: `=` and two upper-case hexadecimal digits
/// stand for a byte, any other character stands for itself, in Mac OS Roman. See [`crate::host_item_name_laws`].
pub fn host_item_name(text: &str) -> GivenName
    ensures { result ≡ given_name (host_letters (chars text.now)) }
{
    read_name(Spelling::HostName, text)
}

/// The name that an item gets from the plain text of its name: a backslash and two lower-case hexadecimal digits stand for a
/// byte, any other character stands for itself, in Mac OS Roman. See [`crate::plain_text_laws`].
pub fn plain_item_name(text: &str) -> GivenName
    ensures { result ≡ given_name (plain_letters (chars text.now)) }
{
    read_name(Spelling::PlainText, text)
}

//! Letters of a name, which are bytes of Mac OS Roman, spelled in a text.
ghost use Rattle.std.specs.Prelude.{◌≡◌, ◌≤◌, [], ◌∷◌, MatchOption, None, Some, chars, take};
ghost use Rattle.hfs_encodings.specs.Spelled.{digit_value, digits_in, letter_value, mark, roman_byte, seen_letter, seen_letters};

use hfs_fields::FieldRow;

/// How a text spells the letters of a name: each as its character, or as a mark and two hexadecimal digits.
#[derive(Clone, Copy)]
pub enum Spelling {
    /// As a host name does: with `=` and upper-case digits.
    HostName,
    /// As plain text does: with a backslash and lower-case digits.
    PlainText,
}

/// How many letters are looked at: one more than an item name may have.
pub(crate) const SEEN: usize = 32;

/// The mark before the two digits.
fn mark(spelling: Spelling) -> char
    ensures { result ≡ mark spelling }
{
    match spelling {
        Spelling::HostName => '=',
        Spelling::PlainText => '\\',
    }
}

/// The value of a hexadecimal digit from ten on; 16 if it is none.
#[tactic(auto, unfolding(crate::specs::Spelled::letter_value))]
fn letter_value(spelling: Spelling, character: char) -> u8
    ensures value { result ≡ letter_value spelling character }
    ensures small { result ≤ 16 }
{
    match spelling {
        Spelling::HostName => {
            if character >= 'A' && character <= 'F' {
                character as u8 - 55
            } else {
                16
            }
        }
        Spelling::PlainText => {
            if character >= 'a' && character <= 'f' {
                character as u8 - 87
            } else {
                16
            }
        }
    }
}

/// The value of a hexadecimal digit; 16 if it is none.
#[tactic(auto, unfolding(crate::specs::Spelled::digit_value))]
fn digit_value(spelling: Spelling, character: char) -> u8
    ensures value { result ≡ digit_value spelling character }
    ensures small { result ≤ 16 }
{
    if character >= '0' && character <= '9' {
        character as u8 - b'0'
    } else {
        letter_value(spelling, character)
    }
}

/// The letter, if it is ASCII; else 0, which no item name has either.
#[tactic(auto, unfolding(crate::specs::Spelled::seen_letter))]
fn seen_letter(letter: u8) -> u8
    ensures { result ≡ seen_letter letter }
{
    if letter < 128 { letter } else { 0 }
}

/// The letter of a character that stands for itself.
#[tactic(auto, using(crate::proofs::Letters::ascii_seen, crate::proofs::Letters::other_seen))]
fn seen_character(character: char) -> u8
    ensures { result ≡ seen_letter (roman_byte character) }
{
    if character < '\u{80}' {
        character as u8
    } else {
        0
    }
}

/// The first character of a text, and the rest of it.
fn split_first(text: &str) -> Option<(char, &str)>
    ensures { MatchOption result (chars text.now ≡ [])
        (λ first. chars text.now ≡ first.0 ∷ chars first.1.now) }
{
    let mut behind = text.chars();
    match behind.next() {
        Some(first) => Some((first, behind.as_str())),
        None => None,
    }
}

/// The byte that two characters stand for, if they are digits, and what follows them.
#[tactic(auto, unfolding(crate::specs::Spelled::digits_in))]
fn byte_of(spelling: Spelling, high: char, low: char, behind: &str) -> Option<(u8, &str)>
    ensures { MatchOption result (digits_in spelling (high ∷ low ∷ chars behind.now) ≡ None)
        (λ found. digits_in spelling (high ∷ low ∷ chars behind.now)
        ≡ Some (found.0, chars found.1.now)) }
{
    let high = digit_value(spelling, high);
    let low = digit_value(spelling, low);
    if high < 16 && low < 16 {
        Some((high * 16 + low, behind))
    } else {
        None
    }
}

/// The byte that two digits at a text's beginning stand for, and what follows them.
#[tactic(auto, unfolding(crate::specs::Spelled::digits_in))]
fn digits_in(spelling: Spelling, text: &str) -> Option<(u8, &str)>
    ensures { MatchOption result (digits_in spelling (chars text.now) ≡ None)
        (λ found. digits_in spelling (chars text.now) ≡ Some (found.0, chars found.1.now)) }
{
    match split_first(text) {
        Some((high, behind)) => match split_first(behind) {
            Some((low, rest)) => byte_of(spelling, high, low, rest),
            None => None,
        },
        None => None,
    }
}

/// The letter that begins with a character, and what follows it.
#[tactic(auto, using(crate::proofs::Letters::plain_first, crate::proofs::Letters::no_digits, crate::proofs::Letters::escape_first))]
fn letter_at(spelling: Spelling, first: char, behind: &str) -> (u8, &str)
    ensures { seen_letters spelling (first ∷ chars behind.now)
        ≡ result.0 ∷ seen_letters spelling (chars result.1.now) }
{
    if first != mark(spelling) {
        return (seen_character(first), behind);
    }
    match digits_in(spelling, behind) {
        Some((byte, rest)) => (seen_letter(byte), rest),
        None => (seen_character(first), behind),
    }
}

/// The first letter of a text, and what follows it.
fn next_letter(spelling: Spelling, text: &str) -> Option<(u8, &str)>
    ensures { MatchOption result (chars text.now ≡ [])
        (λ next. seen_letters spelling (chars text.now)
        ≡ next.0 ∷ seen_letters spelling (chars next.1.now)) }
{
    match split_first(text) {
        Some((first, behind)) => Some(letter_at(spelling, first, behind)),
        None => None,
    }
}

/// The first 32 letters of a text.
pub(crate) fn first_letters(spelling: Spelling, text: &str) -> FieldRow
    ensures { result ≡ take 32 (seen_letters spelling (chars text.now)) }
{
    let mut row = FieldRow::new();
    let mut rest = text;
    while row.len() < SEEN {
        let Some((letter, behind)) = next_letter(spelling, rest) else {
            return row;
        };
        row.push_u8(letter);
        rest = behind;
    }
    row
}

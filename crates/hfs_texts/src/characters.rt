//! The characters of Mac OS Roman.
ghost use Rattle.std.specs.Prelude.{◌≡◌, ◌<◌, ◌^◌, IsAscii, OnOk};
ghost use Rattle.hfs_texts.specs.Gains.{Gains};
ghost use Rattle.hfs_texts.specs.MacRoman.{character_text, characters_text, roman_character};

use std::alloc::AllocError;
use std::str::from_utf8_unchecked;

/// The characters of the bytes from $80 on (Apple's mapping table ROMAN.TXT, with the euro sign at $DB).
const HIGH_CHARACTERS: [char; 128] = [
    'Ä', 'Å', 'Ç', 'É', 'Ñ', 'Ö', 'Ü', 'á', 'à', 'â', 'ä', 'ã', 'å', 'ç', 'é', 'è', 'ê', 'ë', 'í',
    'ì', 'î', 'ï', 'ñ', 'ó', 'ò', 'ô', 'ö', 'õ', 'ú', 'ù', 'û', 'ü', '†', '°', '¢', '£', '§', '•',
    '¶', 'ß', '®', '©', '™', '´', '¨', '≠', 'Æ', 'Ø', '∞', '±', '≤', '≥', '¥', 'µ', '∂', '∑', '∏',
    'π', '∫', 'ª', 'º', 'Ω', 'æ', 'ø', '¿', '¡', '¬', '√', 'ƒ', '≈', '∆', '«', '»', '…', '\u{a0}',
    'À', 'Ã', 'Õ', 'Œ', 'œ', '–', '—', '“', '”', '‘', '’', '÷', '◊', 'ÿ', 'Ÿ', '⁄', '€', '‹', '›',
    'ﬁ', 'ﬂ', '‡', '·', '‚', '„', '‰', 'Â', 'Ê', 'Á', 'Ë', 'È', 'Í', 'Î', 'Ï', 'Ì', 'Ó', 'Ô',
    '\u{f8ff}', 'Ò', 'Ú', 'Û', 'Ù', 'ı', 'ˆ', '˜', '¯', '˘', '˙', '˚', '¸', '˝', '˛', 'ˇ',
];

/// The character of a byte.
#[tactic(auto, unfolding(crate::specs::MacRoman::roman_character, crate::specs::MacRoman::high_characters))]
fn roman_character(byte: u8) -> char
    ensures { result ≡ roman_character byte }
{
    if byte < 0x80 {
        char::from(byte)
    } else {
        HIGH_CHARACTERS[usize::from(byte - 0x80)]
    }
}

/// ASCII bytes as text: they are UTF-8 already, which is proved and not checked again.
pub(crate) fn ascii_text(bytes: &[u8]) -> &str
    requires { IsAscii bytes.now }
    ensures { result.now ≡ bytes.now }
{
    unsafe { from_utf8_unchecked(bytes) }
}

/// Appends the character of a byte.
#[tactic(auto, unfolding(crate::specs::MacRoman::character_text))]
pub(crate) fn push_character(text: &mut String, byte: u8) -> Result<(), AllocError>
    ensures { OnOk result (Gains text.old text.new (character_text byte)) }
{
    text.push(roman_character(byte))
}

/// Appends the characters of bytes, as they are.
#[tactic(auto, unfolding(crate::specs::MacRoman::characters_text))]
pub fn push_characters(text: &mut String, bytes: &[u8]) -> Result<(), AllocError>
    ensures { OnOk result (Gains text.old text.new (characters_text bytes.now)) }
{
    for byte in bytes {
        push_character(text, *byte)?;
    }
    Ok(())
}

//! Texts in markup.
ghost use Rattle.std.specs.Prelude.{OnOk};
ghost use Rattle.hfs_page.specs.Escapes.{escaped, escaped_byte};
ghost use Rattle.hfs_page.specs.Pieces.{Gains};

use crate::pieces::push_bytes;
use std::alloc::AllocError;

/// Appends a byte of a text.
#[tactic(auto, unfolding(crate::specs::Escapes::escaped_byte))]
fn push_escaped_byte(page: &mut Vec<u8>, byte: u8) -> Result<(), AllocError>
    ensures { OnOk result (Gains page.old page.new (escaped_byte byte)) }
{
    match byte {
        b'&' => push_bytes(page, b"&amp;"),
        b'<' => push_bytes(page, b"&lt;"),
        b'>' => push_bytes(page, b"&gt;"),
        b'"' => push_bytes(page, b"&quot;"),
        b'\'' => push_bytes(page, b"&#39;"),
        _ => push_bytes(page, &[byte]),
    }
}

/// Appends a text, with a reference in place of each of the five characters that markup is made of, so that it may be put between
/// tags and in an attribute's quotes. [`crate::escaped_texts_are_text`] says what holds for it.
#[tactic(auto, unfolding(crate::specs::Escapes::escaped))]
pub fn push_escaped(page: &mut Vec<u8>, text: &[u8]) -> Result<(), AllocError>
    ensures { OnOk result (Gains page.old page.new (escaped text.now)) }
{
    for byte in text {
        push_escaped_byte(page, *byte)?;
    }
    Ok(())
}

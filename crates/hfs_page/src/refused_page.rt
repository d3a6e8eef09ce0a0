//! The page of an image that is refused.
ghost use Rattle.std.specs.Prelude.{◌≡◌, IfOk, OnErr, OnOk, string_bytes};
ghost use Rattle.std.specs.Io.KnownBytes.{Appends};
ghost use Rattle.hfs_page.specs.RefusedPages.{refusal_page};
ghost use Rattle.hfs_check.specs.Hints.{meaning_text};
ghost use Rattle.hfs_check.specs.Refusals.{refusal_text};
ghost use Rattle.hfs_texts.specs.Writing.{AppendsFront};

use crate::{PageFault, PageTexts, push_refused_page};
use hfs_check::{MountFault, Refusal, push_meaning};
use hfs_texts::{Show, put};
use std::alloc::{AllocError, Global};
use std::io::Write;

/// Why the image is refused.
fn refusal(alloc: Global, why: MountFault) -> Result<String, AllocError>
    ensures { IfOk result (λ text. string_bytes text ≡ refusal_text why) }
{
    let mut text = String::new(alloc);
    Refusal(why).push_to(&mut text)?;
    Ok(text)
}

/// What that reason means.
fn meaning(alloc: Global, why: MountFault) -> Result<String, AllocError>
    ensures { IfOk result (λ text. string_bytes text ≡ meaning_text why) }
{
    let mut text = String::new(alloc);
    push_meaning(&mut text, why)?;
    Ok(text)
}

/// The page of an image that is refused for this reason.
fn refusal_page(
    alloc: Global,
    why: MountFault,
    texts: &PageTexts<'_>,
) -> Result<Vec<u8>, AllocError>
    ensures { IfOk result (λ page. page.items ≡ refusal_page texts.now why) }
{
    let refusal = refusal(alloc, why)?;
    let meaning = meaning(alloc, why)?;
    let mut page = Vec::new(alloc);
    push_refused_page(&mut page, texts, refusal.as_bytes(), meaning.as_bytes())?;
    Ok(page)
}

/// Writes the page of an image that is refused: the fault and what it means, and nothing about the volume. Faults: memory was
/// refused, and nothing was written, or the writer failed; then only the beginning of the page may have been written.
pub fn write_refused_page<W: Write>(
    alloc: Global,
    why: MountFault,
    texts: &PageTexts<'_>,
    writer: &mut W,
) -> Result<(), PageFault>
    ensures written { OnOk result (Appends (W.contents writer.old) (W.contents writer.new)
        (refusal_page texts.now why)) }
    ensures part { OnErr result (AppendsFront (W.contents writer.old) (W.contents writer.new)
        (refusal_page texts.now why)) }
{
    let Ok(page) = refusal_page(alloc, why, texts) else {
        return Err(PageFault::Memory);
    };
    match put(writer, &page) {
        Ok(()) => Ok(()),
        Err(_) => Err(PageFault::OutputFailed),
    }
}

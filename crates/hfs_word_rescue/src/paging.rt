//! What is found of a refused image as a page.
ghost use Rattle.std.specs.Prelude.{◌≡◌, IfErr, IfOk, List, ℕ, OnErr, OnOk, Some, string_bytes};
ghost use Rattle.std.specs.Io.KnownBytes.{Appends};
ghost use Rattle.hfs_commands.specs.Checks.{IsCheckFault};
ghost use Rattle.hfs_commands.specs.Faults.{IsUnprinted};
ghost use Rattle.hfs_remains_forks.specs.Finds.{IsFoundIn};
ghost use Rattle.hfs_check.specs.Hints.{meaning_text};
ghost use Rattle.hfs_check.specs.Refusals.{refusal_text};
ghost use Rattle.hfs_texts.specs.Writing.{AppendsFront};
ghost use Rattle.hfs_word_rescue.specs.Shown.{OfEachFound, found_page, found_status};

use crate::answer::RescueAnswer;
use crate::found::found_in;
use crate::image::RescuedImage;
use crate::words::RescueWords;
use hfs_check::{MountFault, push_meaning};
use hfs_commands::{Fault, Refusal};
use hfs_page::PageFault;
use hfs_remains_forks::{Finds, salvage_of};
use hfs_remains_page::{FaultTexts, RemainsTexts, TreeFiles, write_remains_page};
use hfs_rescue_items::Found;
use hfs_source::PlacedBlocks;
use hfs_texts::Show;
use std::alloc::{AllocError, Global};
use std::io::Write;

/// Why an image is refused.
fn refusal(alloc: Global, why: MountFault) -> Result<String, AllocError>
    ensures { IfOk result (λ text. string_bytes text ≡ refusal_text why) }
{
    let mut text = String::new(alloc);
    Refusal(why).push_to(&mut text)?;
    Ok(text)
}

/// What that reason means.
fn meaning(alloc: Global, why: MountFault) -> Result<String, AllocError>
    ensures { IfOk result (λ text. string_bytes text ≡ meaning_text why) }
{
    let mut text = String::new(alloc);
    push_meaning(&mut text, why)?;
    Ok(text)
}

/// Writes the page of what was found of an image, with this fault.
fn put_page<W: Write>(
    alloc: Global,
    writer: &mut W,
    finds: &Finds,
    found: &Found<'_>,
    why: MountFault,
    texts: &RemainsTexts<'_>,
) -> Result<(), PageFault>
    requires extents { found.now.salvage.now.trees.extents_file.now ≡ finds.now.extents_file.items }
    requires catalog { found.now.salvage.now.trees.catalog_file.now ≡ finds.now.catalog_file.items }
    ensures written { OnOk result (Appends (W.contents writer.old) (W.contents writer.new)
        (found_page texts.now why found.now)) }
    ensures part { OnErr result (AppendsFront (W.contents writer.old) (W.contents writer.new)
        (found_page texts.now why found.now)) }
{
    let Ok(refusal) = refusal(alloc, why) else {
        return Err(PageFault::Memory);
    };
    let Ok(meaning) = meaning(alloc, why) else {
        return Err(PageFault::Memory);
    };
    let fault = FaultTexts {
        refusal: refusal.as_bytes(),
        meaning: meaning.as_bytes(),
    };
    let files = TreeFiles {
        extents: &finds.extents_file,
        catalog: &finds.catalog_file,
    };
    write_remains_page(alloc, texts, &fault, found, files, writer)
}

/// The fault for a page that wasn't written.
fn fault_of_page(fault: PageFault) -> Fault<'static>
    ensures { IsUnprinted result }
{
    match fault {
        PageFault::Memory => Fault::NoMemory,
        PageFault::OutputFailed => Fault::OutputFailed,
    }
}

/// Writes the page of what was found of an image, with this fault, and returns the exit status of `rescue`.
fn write_page<S: PlacedBlocks, W: Write>(
    alloc: Global,
    writer: &mut W,
    image: &RescuedImage<S>,
    found: &Found<'_>,
    why: MountFault,
    texts: &RemainsTexts<'_>,
) -> Result<u8, Fault<'static>>
    requires mdb { found.now.mdb.now ≡ image.now.finds.mdb }
    requires extents { found.now.salvage.now.trees.extents_file.now ≡ image.now.finds.extents_file.items }
    requires catalog { found.now.salvage.now.trees.catalog_file.now ≡ image.now.finds.catalog_file.items }
    ensures written { OnOk result (Appends (W.contents writer.old) (W.contents writer.new)
        (found_page texts.now why found.now)) }
    ensures part { OnErr result (AppendsFront (W.contents writer.old) (W.contents writer.new)
        (found_page texts.now why found.now)) }
    ensures status { (bytes : List ℕ) → IsCheckFault image.now.check.fault bytes
        → IsFoundIn bytes (Some image.now.finds)
        → IfOk result (λ status. status ≡ found_status bytes found.now) }
    ensures faults { IfErr result IsUnprinted }
{
    let Ok(answer) = RescueAnswer::of(alloc, &image.check, &image.finds, found) else {
        return Err(Fault::NoMemory);
    };
    match put_page(alloc, writer, &image.finds, found, why, texts) {
        Ok(()) => Ok(answer.status),
        Err(fault) => Err(fault_of_page(fault)),
    }
}

/// Writes the page of what was found of an image, with this fault in words, and returns the exit status of `rescue`. All this
/// holds for every image consistent with the bytes read. Faults: memory was refused; `OutputFailed`, and then only the beginning
/// of the page may have been written.
pub fn write_found_page<S: PlacedBlocks, W: Write>(
    alloc: Global,
    writer: &mut W,
    image: &RescuedImage<S>,
    words: &RescueWords<'_>,
    why: MountFault,
    texts: &RemainsTexts<'_>,
) -> Result<u8, Fault<'static>>
    ensures written { OnOk result (OfEachFound (S.Holds image.now.source.blocks) image.now.len words.now
        (λ bytes found. Appends (W.contents writer.old) (W.contents writer.new)
        (found_page texts.now why found))) }
    ensures part { OnErr result (OfEachFound (S.Holds image.now.source.blocks) image.now.len words.now
        (λ bytes found. AppendsFront (W.contents writer.old) (W.contents writer.new)
        (found_page texts.now why found))) }
    ensures status { IfOk result (λ status. OfEachFound (S.Holds image.now.source.blocks) image.now.len words.now
        (λ bytes found. status ≡ found_status bytes found)) }
    ensures faults { IfErr result IsUnprinted }
{
    let limit = words.limit_for(image.len);
    let Ok(salvage) = salvage_of(alloc, &image.finds, limit) else {
        return Err(Fault::NoMemory);
    };
    let found = found_in(&image.finds, &salvage);
    write_page(alloc, writer, image, &found, why, texts)
}

//! The image that is asked for, opened once.
ghost use Rattle.std.specs.Prelude.{◌≡◌, IfErr, IfOk, string_bytes};
ghost use Rattle.std.specs.Option.{option_map};
ghost use Rattle.hfs_commands.specs.Faults.{IsUnopened};
ghost use Rattle.hfs_commands.specs.OpenedFiles.{images_of};
ghost use Rattle.hfs_commands.specs.SeenFiles.{parts_of};
ghost use Rattle.hfs_commands.specs.Unopened.{HasNoPart, TellsWhy, WasNotRead};
ghost use Rattle.hfs_image.specs.Failing.{SomeReadFails};
ghost use Rattle.hfs_image.specs.Kept.{IsSameRange, range_failures, range_images};
ghost use Rattle.hfs_source.specs.declared.asking.Counted.TheVariants.{Ranges};
ghost use Rattle.hfs_word_take.specs.Opening.{AreBlocksAt, IsLineOf, TellsPart, TellsPartIn, TellsVolume, window_at};
ghost use Rattle.hfs_word_rescue.specs.Faults.{HasFailedIn, IsUnfound, IsUnfoundOf, IsUnread, told_fault};

use crate::image::{HoldFault, RescuedImage, Unfound};
use crate::words::RescueWords;
use hfs_check::MountFault;
use hfs_commands::{Counted, Fault, LeftFile, OpenedFile, PartBlocks, UnopenedFile, part_blocks};
use hfs_source::{ByteRange, PlacedBlocks, PlacedBytes, RangeBlocks, SeenBlocks};
use hfs_word_take::{FoundPart, find_part};
use std::alloc::Global;
use std::io::{Read, Seek};
use std::rt::Files;

/// The blocks of a part of a file.
pub type Part<F> = RangeBlocks<OpenedFile<F>>;

/// What is asked for and, if it lies in a disk copy, whether that one's sum is right.
#[derive(Drop)]
pub(crate) struct LoadedImage<S: PlacedBlocks> {
    pub(crate) image: RescuedImage<S>,
    pub(crate) sum: Option<bool>,
}

/// The fault for an image of which nothing is found, given its file.
fn fault_of<'a>(fault: HoldFault, words: &RescueWords<'a>) -> Fault<'a>
    ensures { result ≡ told_fault words.now.image fault }
{
    match fault {
        HoldFault::NoDirectory(Some(why)) => Fault::Refused(why),
        HoldFault::NoDirectory(None) => Fault::CannotRead(words.image),
        HoldFault::ReadFailed => Fault::CannotRead(words.image),
        HoldFault::NoMemory => Fault::NoMemory,
    }
}

/// Why an image that is asked for isn't rescued, and what it was read from.
#[derive(Drop)]
struct Unloaded<'a, S: PlacedBlocks> {
    fault: Fault<'a>,
    source: SeenBlocks<S>,
}

/// What is found in the blocks that are asked for. A fault, with the same blocks handed back, holds for every image consistent
/// with the bytes read: if there is no directory, it is the fault of the check; `CannotRead` only if there is none of either, or
/// a read failed.
fn load_part<'a, S: PlacedBytes + Drop>(
    alloc: Global,
    blocks: SeenBlocks<RangeBlocks<S>>,
    line: Option<String>,
    words: &RescueWords<'a>,
) -> Result<RescuedImage<RangeBlocks<S>>, Unloaded<'a, RangeBlocks<S>>>
    ensures line { IfOk result (λ image. image.line ≡ line) }
    ensures same { IfOk result (λ image.
        IsSameRange S.Holds blocks.blocks.bytes image.source.blocks.bytes) }
    ensures told { IfErr result (λ back. IsUnfound words.now.image
        (range_images S.Holds back.source.blocks.bytes)
        (SomeReadFails (range_images S.Holds blocks.blocks.bytes)
        (range_failures S.Fails blocks.blocks.bytes)) back.fault) }
    ensures back { IfErr result (λ back.
        IsSameRange S.Holds blocks.blocks.bytes back.source.blocks.bytes) }
{
    match RescuedImage::open(alloc, blocks, line) {
        Ok(image) => Ok(image),
        Err(Unfound { fault, source }) => {
            let fault = fault_of(fault, words);
            Err(Unloaded { fault, source })
        }
    }
}

/// What is asked for of an image, to be read, and where it lies.
#[derive(Drop)]
struct FoundRange<F: Read + Seek> {
    source: PartBlocks<F>,
    /// Where it lies in its file.
    range: ByteRange,
    /// The range's line, if it lies inside the file.
    line: Option<String>,
    /// Whether the sum of a disk copy is right.
    sum: Option<bool>,
}

/// The blocks of what is asked for of an image: those of exactly the range in its line. Faults, with what was read: as for
/// [`find_part`].
fn find_range<'a, R: Files + AllocGlobal>(
    rt: &R,
    words: &RescueWords<'a>,
) -> Result<FoundRange<R::File>, UnopenedFile<'a, R::File>>
    ensures line { IfOk result (λ found. IsLineOf words.now.volume found.range
        (option_map string_bytes found.line)) }
    ensures found { IfOk result (λ found. TellsPart
        (window_at found.range found.source) Ranges
        words.now.volume (option_map string_bytes found.line) found.sum) }
    ensures part { IfOk result (λ found. AreBlocksAt found.range found.source) }
    ensures told { IfErr result (TellsWhy words.now.image (HasNoPart Ranges words.now.volume)
        WasNotRead) }
    ensures fault { IfErr result (λ back. IsUnopened words.now.image words.now.volume back.fault) }
{
    let FoundPart { bytes, line, sum } = find_part(rt, words.image, Counted::Ranges, words.volume)?;
    let range = bytes.range;
    Ok(FoundRange {
        source: part_blocks(bytes),
        range,
        line,
        sum,
    })
}

/// The fault for a range that doesn't lie in its file.
fn out_of_range<S: PlacedBlocks + Drop>(image: RescuedImage<S>) -> Unloaded<'static, S>
    ensures fault { result.fault ≡ Fault.Refused MountFault.Short }
    ensures source { result.source ≡ image.source }
{
    Unloaded {
        fault: Fault::Refused(MountFault::Short),
        source: image.into_source(),
    }
}

/// What is found in the range that is asked for, even one without a volume. Faults, with the source handed back: as for
/// [`load_part`].
fn load_range<'a, F: Read + Seek + Drop>(
    alloc: Global,
    found: FoundRange<F>,
    words: &RescueWords<'a>,
) -> Result<LoadedImage<Part<F>>, Unloaded<'a, Part<F>>>
    requires line { IsLineOf words.now.volume found.range (option_map string_bytes found.line) }
    requires found { TellsPart
        (window_at found.range found.source) Ranges
        words.now.volume (option_map string_bytes found.line) found.sum }
    requires part { AreBlocksAt found.range found.source }
    ensures line { IfOk result (λ loaded. TellsVolume words.now.volume loaded.image.len
        (option_map string_bytes loaded.image.line)) }
    ensures found { IfOk result (λ loaded. TellsPartIn loaded.image.source.blocks Ranges
        words.now.volume loaded.image.len (option_map string_bytes loaded.image.line) loaded.sum) }
    ensures told { IfErr result (λ back. IsUnfound words.now.image (parts_of back.source.blocks)
        (HasFailedIn found.source) back.fault) }
    ensures back { IfErr result (λ back.
        IsSameRange images_of found.source.blocks.bytes back.source.blocks.bytes) }
{
    let FoundRange {
        source,
        range,
        line,
        sum,
    } = found;
    match load_part(alloc, source, line, words) {
        Ok(image) => {
            if image.len != range.len {
                // A range that doesn't lie in its file has no bytes, and nothing is found of it.
                return Err(out_of_range(image));
            }
            Ok(LoadedImage { image, sum })
        }
        Err(back) => Err(back),
    }
}

/// The image that is asked for, or the range in it, even one without a volume, and what is found of it. Faults, the first that
/// holds, with what was read: it can't be read; `NoVolume`, `SeveralVolumes`; the image's own, if it has no directory; memory was
/// refused.
pub(crate) fn load_image<'a, R: Files + AllocGlobal>(
    rt: &R,
    words: &RescueWords<'a>,
) -> Result<LoadedImage<Part<R::File>>, UnopenedFile<'a, R::File>>
    ensures line { IfOk result (λ loaded. TellsVolume words.now.volume loaded.image.len
        (option_map string_bytes loaded.image.line)) }
    ensures found { IfOk result (λ loaded. TellsPartIn loaded.image.source.blocks Ranges
        words.now.volume loaded.image.len (option_map string_bytes loaded.image.line) loaded.sum) }
    ensures told { IfErr result (TellsWhy words.now.image (HasNoPart Ranges words.now.volume)
        (IsUnfoundOf Ranges words.now.volume)) }
    ensures fault { IfErr result (λ back. IsUnread R.File words.now back.fault) }
{
    let found = find_range(rt, words)?;
    match load_range(rt.alloc(), found, words) {
        Ok(loaded) => Ok(loaded),
        Err(Unloaded { fault, source }) => {
            let left = LeftFile::Part(source);
            Err(UnopenedFile { fault, left })
        }
    }
}

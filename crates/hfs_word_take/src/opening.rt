//! Opening what is to be taken, by its path.
ghost use Rattle.std.specs.Prelude.{◌≡◌, Err, IfErr, IfOk, IfSome, None, Ok, string_bytes};
ghost use Rattle.std.specs.Option.{option_map};
ghost use Rattle.hfs_commands.specs.Faults.{IsUnopened};
ghost use Rattle.hfs_commands.specs.Unopened.{HasNoPart, IsReadFault, IsRefusedOf, TellsWhy, WasNotRead};
ghost use Rattle.hfs_source.specs.declared.asking.Counted.TheVariants.{Volumes};
ghost use Rattle.hfs_commands.specs.OpenedFiles.{IsLaidOut, held_bytes, images_of, opened_layout, stored_bytes};
ghost use Rattle.hfs_commands.specs.Parts.{IsRangeAt};
ghost use Rattle.hfs_commands.specs.SeenFiles.{parts_of};
ghost use Rattle.hfs_image.specs.Kept.{IsSameRange, range_failures, range_images};
ghost use Rattle.hfs_image.specs.Seen.{HasNoFault};
ghost use Rattle.hfs_source.specs.Images.{OfEach};
ghost use Rattle.hfs_word_take.specs.TakeFaults.{IsImageFault, IsUntaken, needed_fault};
ghost use Rattle.hfs_word_take.specs.Opening.{AreBlocksAt, AreBlocksBeside, HasLengthIfSound, HasOpenedPart, IsLineOf, IsSumAt, IsToldPart, TellsPart, TellsVolume, window_at};

use crate::facts::volume_text;
use crate::image::TakenImage;
use crate::words::TakeWords;
use hfs_commands::{
    Counted, DescribedRange, Fault, FilePart, Layout, LeftFile, NumberedRange, OpenedFile,
    PartBlocks, RangeFacts, StoredFile, UnopenedFile, UserData, Window, describe_range, open_asked,
    part_blocks,
};
use hfs_image::Unopened;
use hfs_source::{ByteRange, PlacedBlocks, PlacedBytes, RangeBlocks, SeenBlocks, SparseFault};
use std::alloc::Global;
use std::fs::{File, Metadata, OpenFile};
use std::io::{Read, Seek};
use std::os::unix::fs::MetadataExt;
use std::rt::Files;
use std::{fs, io};

/// Bytes that may hold a volume and, if they are a range inside their file, where they lie in it.
#[derive(Drop)]
pub struct FoundPart<F: Read + Seek> {
    pub bytes: Window<OpenedFile<F>>,
    /// The range's line.
    pub line: Option<String>,
    /// Whether the sum of a disk copy is right.
    pub sum: Option<bool>,
}

/// What was read of the file at this path, or the fault that is told of it.
#[tactic(auto, using(hfs_commands::proofs::UnopenedLemmas::of_sparse))]
fn told_read<'a, T>(read: Result<T, SparseFault>, path: &'a str) -> Result<T, Fault<'a>>
    ensures read { IfOk result (λ found. read ≡ Ok found) }
    ensures failed { read ≡ Err SparseFault.ReadFailed
        → result ≡ Err (Fault.CannotRead path.entry) }
    ensures memory { read ≡ Err SparseFault.Memory → result ≡ Err Fault.NoMemory }
    ensures fault { IfErr result (IsReadFault path.entry) }
{
    match read {
        Ok(found) => Ok(found),
        Err(fault) => Err(Fault::of_sparse(fault, path)),
    }
}

/// A range inside a file, its line, and whether its sum is right, if it has one, which takes reading all its bytes. Each raw
/// sector is looked at. Faults: a read failed, memory was refused.
fn told_range<'a, F: Read + Seek + Drop>(
    alloc: Global,
    file: OpenedFile<F>,
    place: &NumberedRange,
    path: &'a str,
) -> Result<FoundPart<F>, Fault<'a>>
    requires { IsLaidOut file }
    ensures range { IfOk result (λ told. told.bytes.range ≡ place.now.found.range) }
    ensures line { IfOk result (λ told. IsToldPart told.bytes.source (Some place.now)
        (option_map string_bytes told.line) told.sum) }
    ensures sum { IfOk result (λ told. IsSumAt (images_of told.bytes.source) (Some place.now)
        told.sum) }
    ensures layout { IfOk result (λ told. opened_layout told.bytes.source ≡ opened_layout file) }
    ensures laid_out { IfOk result (λ told. IsLaidOut told.bytes.source) }
    ensures held { IfOk result (λ told. OfEach (images_of told.bytes.source) (images_of file)) }
    ensures fault { IfErr result (IsReadFault path.entry) }
{
    let DescribedRange {
        file: source,
        facts,
        others,
    } = told_read(describe_range(file, &place.found), path)?;
    let RangeFacts { name, sum } = facts;
    match volume_text(alloc, place.number, &place.found, &name, sum, others) {
        Ok(line) => Ok(FoundPart {
            bytes: Window {
                source,
                range: place.found.range,
            },
            line: Some(line),
            sum,
        }),
        Err(_) => Err(Fault::NoMemory),
    }
}

/// A part of a file, and its line. Faults: a read failed, memory was refused.
fn told_part<'a, F: Read + Seek + Drop>(
    alloc: Global,
    part: FilePart<F>,
    path: &'a str,
) -> Result<FoundPart<F>, Fault<'a>>
    requires { IfSome part.place (λ _. IsLaidOut part.bytes.source) }
    ensures range { IfOk result (λ found. IsRangeAt part.place found.bytes.range) }
    ensures line { IfOk result (λ found. IsToldPart found.bytes.source part.place
        (option_map string_bytes found.line) found.sum) }
    ensures sum { IfOk result (λ found. IsSumAt (images_of found.bytes.source) part.place found.sum) }
    ensures layout { IfOk result (λ found. opened_layout found.bytes.source
        ≡ opened_layout part.bytes.source) }
    ensures laid_out { IfOk result (λ found. IfSome part.place (λ _. IsLaidOut found.bytes.source)) }
    ensures held { IfOk result (λ found. OfEach (images_of found.bytes.source)
        (images_of part.bytes.source)) }
    ensures whole { part.place ≡ None → IfOk result (λ found. found.bytes ≡ part.bytes) }
    ensures fault { IfErr result (IsReadFault path.entry) }
{
    let FilePart { bytes, place } = part;
    match place {
        None => Ok(FoundPart {
            bytes,
            line: None,
            sum: None,
        }),
        Some(place) => told_range(alloc, bytes.source, &place, path),
    }
}

/// What is asked for of an image, given the number of a volume in it or none, as [`open_asked`] opens it, and its line. Faults,
/// with what was read: as for [`open_asked`].
#[tactic(auto, using(crate::proofs::PartLines::line_of_part, crate::proofs::FaultLemmas::unopened))]
pub fn find_part<'a, R: Files + AllocGlobal>(
    rt: &R,
    path: &'a str,
    counted: Counted,
    volume: Option<u64>,
) -> Result<FoundPart<R::File>, UnopenedFile<'a, R::File>>
    ensures line { IfOk result (λ part. IsLineOf volume part.bytes.range
        (option_map string_bytes part.line)) }
    ensures part { IfOk result (λ part. TellsPart part.bytes counted volume
        (option_map string_bytes part.line) part.sum) }
    ensures told { IfErr result (TellsWhy path.entry (HasNoPart counted volume) WasNotRead) }
    ensures fault { IfErr result (λ back. IsUnopened path.entry volume back.fault) }
{
    let part = open_asked(rt, path, counted, volume)?;
    let found = told_part(rt.alloc(), part, path)?;
    Ok(found)
}

/// Whether both are the same file of the system.
fn is_same(one: &Metadata, other: &Metadata) -> bool {
    one.dev() == other.dev() && one.ino() == other.ino()
}

/// The file at this path, opened again. None if it can't be opened, or is another file than before.
fn open_again<R: Files>(rt: &R, path: &str, was: &Metadata) -> Option<StoredFile<R::File>>
    ensures { IfSome result (λ file. stored_bytes file ≡ None) }
{
    let Ok(file) = File::open(rt, path) else {
        return None;
    };
    let Ok(found) = file.metadata() else {
        return None;
    };
    if !is_same(was, &found) {
        return None;
    }
    match StoredFile::sought(file) {
        Ok(source) => Some(source),
        Err(_) => None,
    }
}

/// The same bytes of a file that was opened again.
fn source_beside<R: Files>(
    rt: &R,
    path: &str,
    was: &Metadata,
    found: &OpenedFile<R::File>,
) -> Option<OpenedFile<R::File>>
    ensures held { IfSome result (λ file. (held_bytes file ≡ None) × (held_bytes found.now ≡ None)) }
    ensures layout { IfSome result (λ file. opened_layout file ≡ opened_layout found.now) }
{
    match found {
        OpenedFile::Plain(StoredFile::Whole(_)) => None,
        OpenedFile::Plain(StoredFile::Seekable(_)) => match open_again(rt, path, was) {
            Some(file) => Some(OpenedFile::Plain(file)),
            None => None,
        },
        OpenedFile::Raw(user) => raw_beside(rt, path, was, user),
    }
}

/// The user data of a file of raw sectors that was opened again.
fn raw_beside<R: Files>(
    rt: &R,
    path: &str,
    was: &Metadata,
    user: &UserData<StoredFile<R::File>>,
) -> Option<OpenedFile<R::File>>
    ensures held { IfSome result (λ file. (held_bytes file ≡ None)
        × (stored_bytes user.now.bytes ≡ None)) }
    ensures layout { IfSome result (λ file. opened_layout file ≡ Layout.Raw) }
{
    match &user.bytes {
        StoredFile::Whole(_) => None,
        StoredFile::Seekable(_) => match open_again(rt, path, was) {
            Some(source) => Some(OpenedFile::Raw(UserData::new(source))),
            None => None,
        },
    }
}

/// The blocks of the same bytes, opened a second time to be read at the same time as what was found at this path. None if they
/// can't be opened again: all bytes are held, such as those of a pipe, or another file has the path.
fn open_beside<R: Files>(
    rt: &R,
    path: &str,
    was: io::Result<Metadata>,
    found: &Window<OpenedFile<R::File>>,
) -> Option<PartBlocks<R::File>>
    ensures held { IfSome result (λ blocks. held_bytes blocks.blocks.bytes.bytes
        ≡ held_bytes found.now.source) }
    ensures range { IfSome result (AreBlocksBeside found.now) }
{
    let Ok(was) = was else {
        return None;
    };
    match source_beside(rt, path, &was, &found.source) {
        Some(source) => {
            let range = found.range;
            Some(part_blocks(Window { source, range }))
        }
        None => None,
    }
}

/// What is asked for of an image, to be read, and where it lies.
#[derive(Drop)]
struct FoundBlocks<F: Read + Seek> {
    source: PartBlocks<F>,
    /// The same bytes, opened a second time if their digest is to be made at the same time.
    beside: Option<PartBlocks<F>>,
    /// Where they lie in their file.
    range: ByteRange,
    /// The range's line, if it lies inside the file.
    line: Option<String>,
    /// Whether the sum of a disk copy is right.
    sum: Option<bool>,
}

/// The blocks of what is asked for of an image, twice if its digest is to be made at the same time: those of exactly the range in
/// its line. Faults, with what was read: as for [`open_asked`].
fn find_blocks<'a, R: Files + AllocGlobal>(
    rt: &R,
    words: &TakeWords<'a>,
) -> Result<FoundBlocks<R::File>, UnopenedFile<'a, R::File>>
    ensures line { IfOk result (λ found. IsLineOf words.now.volume found.range
        (option_map string_bytes found.line)) }
    ensures found { IfOk result (λ found. TellsPart (window_at found.range found.source) Volumes
        words.now.volume (option_map string_bytes found.line) found.sum) }
    ensures part { IfOk result (λ found. AreBlocksAt found.range found.source) }
    ensures beside { IfOk result (λ found. IfSome found.beside
        (AreBlocksBeside (window_at found.range found.source))) }
    ensures told { IfErr result (TellsWhy words.now.image (HasNoPart Volumes words.now.volume)
        WasNotRead) }
    ensures fault { IfErr result (λ back. IsUnopened words.now.image words.now.volume back.fault) }
{
    let was = fs::metadata(rt, words.image);
    let FoundPart { bytes, line, sum } = find_part(
        rt,
        words.image,
        Counted::Volumes,
        words.volume,
    )?;
    let beside = if words.is_digested {
        open_beside(rt, words.image, was, &bytes)
    } else {
        None
    };
    let range = bytes.range;
    Ok(FoundBlocks {
        source: part_blocks(bytes),
        beside,
        range,
        line,
        sum,
    })
}

/// Why what was found of an image isn't taken, and what was read of it.
#[derive(Drop)]
struct Untaken<'a, S: PlacedBlocks> {
    fault: Fault<'a>,
    source: SeenBlocks<S>,
}

/// Why an image in the file at this path isn't taken, given why it was not opened.
#[tactic(auto, using(crate::proofs::FaultLemmas::told_needed))]
fn of_unopened<'a, S: PlacedBlocks>(back: Unopened<S>, path: &'a str) -> Untaken<'a, S>
    ensures fault { result.fault ≡ needed_fault path.entry back.fault }
    ensures source { result.source ≡ back.source }
{
    Untaken {
        fault: Fault::of_needed(back.fault, path),
        source: back.source,
    }
}

/// Opens what was found of an image, which has `len` bytes if it has no fault, and makes all checks. Faults, with what they hold
/// of handed back, which is the same range: a read failed; the first of every image consistent with the bytes read; memory was
/// refused.
#[tactic(auto, using(hfs_image::proofs::KeptLemmas::range_narrows))]
fn open_found<'a, S: PlacedBytes + Drop>(
    alloc: Global,
    source: SeenBlocks<RangeBlocks<S>>,
    beside: Option<SeenBlocks<RangeBlocks<S>>>,
    line: Option<String>,
    len: u64,
    words: &TakeWords<'a>,
) -> Result<TakenImage<RangeBlocks<S>>, Untaken<'a, RangeBlocks<S>>>
    requires { OfEach (range_images S.Holds source.blocks.bytes) (HasLengthIfSound len) }
    ensures len { IfOk result (λ image. image.len ≡ len) }
    ensures line { IfOk result (λ image. image.volume ≡ line) }
    ensures beside { IfOk result (λ image. image.beside ≡ beside) }
    ensures sound { IfOk result (λ image. OfEach (range_images S.Holds image.opened.bytes)
        HasNoFault) }
    ensures same { IfOk result (λ image. IsSameRange S.Holds source.blocks.bytes
        image.opened.bytes) }
    ensures told { IfErr result (λ back. IsUntaken words.now.image
        (range_images S.Holds source.blocks.bytes) (range_failures S.Fails source.blocks.bytes)
        (range_images S.Holds back.source.blocks.bytes) back.fault) }
    ensures back { IfErr result (λ back. IsSameRange S.Holds source.blocks.bytes
        back.source.blocks.bytes) }
{
    match TakenImage::open(alloc, source, beside, line) {
        Ok(image) => {
            let TakenImage {
                opened,
                beside,
                len: _,
                report,
                volume,
            } = image;
            Ok(TakenImage {
                opened,
                beside,
                len,
                report,
                volume,
            })
        }
        Err(back) => Err(of_unopened(back, words.image)),
    }
}

/// What is to be taken and, if it lies in a disk copy, whether that one's sum is right.
#[derive(Drop)]
pub(crate) struct OpenedTake<S: PlacedBlocks> {
    pub(crate) image: TakenImage<S>,
    pub(crate) sum: Option<bool>,
}

/// The blocks of a part of a file, known by what is read of them.
type PlacedPart<F> = RangeBlocks<OpenedFile<F>>;

/// Opens what is to be taken, twice if its digest is to be made at the same time, and makes all checks. Faults, the first that
/// holds, with what was read: the image can't be read; `NoVolume`, `SeveralVolumes`; the image's own, which is `Short` if the
/// range doesn't lie in its file; memory was refused.
pub(crate) fn open_image<'a, R: Files + AllocGlobal>(
    rt: &R,
    words: &TakeWords<'a>,
) -> Result<OpenedTake<PlacedPart<R::File>>, UnopenedFile<'a, R::File>>
    ensures line { IfOk result (λ opened. TellsVolume words.now.volume opened.image.len
        (option_map string_bytes opened.image.volume)) }
    ensures found { IfOk result (λ opened. HasOpenedPart opened.image.opened opened.image.beside
        Volumes words.now.volume opened.image.len (option_map string_bytes opened.image.volume)
        opened.sum) }
    ensures sound { IfOk result (λ opened. OfEach (parts_of opened.image.opened) HasNoFault) }
    ensures told { IfErr result (TellsWhy words.now.image (HasNoPart Volumes words.now.volume)
        (IsRefusedOf Volumes words.now.volume)) }
    ensures fault { IfErr result (λ back. IsImageFault words.now back.fault) }
{
    let FoundBlocks {
        source,
        beside,
        range,
        line,
        sum,
    } = find_blocks(rt, words)?;
    match open_found(rt.alloc(), source, beside, line, range.len, words) {
        Ok(image) => Ok(OpenedTake { image, sum }),
        Err(Untaken { fault, source }) => {
            let left = LeftFile::Part(source);
            Err(UnopenedFile { fault, left })
        }
    }
}

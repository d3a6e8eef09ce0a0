//! A file that volumes lie in, by its path.
ghost use Rattle.std.specs.Prelude.{◌≡◌, IfErr, IfOk, IfSome, None, Some};
ghost use Rattle.std.specs.Option.{is_some};
ghost use Rattle.hfs_source.specs.Asking.{IsAnswerTo, asked_in};
ghost use Rattle.hfs_source.specs.declared.asking.Counted.TheVariants.{Volumes};
ghost use Rattle.hfs_source.specs.declared.ranges.Layout.TheVariants.{Plain};
ghost use Rattle.hfs_commands.specs.Faults.{IsUnopened};
ghost use Rattle.hfs_commands.specs.OpenedFiles.{IsLaidOut, IsWholeRange, StaysHeld, failures_of, held_bytes, held_content, images_of, opened_layout, stored_bytes, stored_images};
ghost use Rattle.hfs_commands.specs.Parts.{IsAskedPart, IsAskedWindow, IsRangeAt, IsWholeAt, asked_at};
ghost use Rattle.hfs_commands.specs.Unopened.{AreAmong, HasNoPart, TellsPlace, TellsWhy, WasNotRead};
ghost use Rattle.hfs_source.specs.Images.{FailsWhere, HasLength, OfEach};

use crate::fault::Fault;
use crate::files::regular_len;
use crate::opened_file::{OpenedFile, StoredFile, content_of};
use crate::raw_file::{raw_data, stored_data};
use crate::trusted_input::TrustedInput;
use crate::unopened::{LeftFile, UnopenedFile, with_file};
use hfs_source::{
    Asked, ByteRange, Counted, Layout, NumberedRange, PlacedBytes, Window, find_asked,
};
use std::alloc::Global;
use std::fs::{File, OpenFile};
use std::io::{Read, Seek, SeekFrom};
use std::rt::Files;
use std::sync::Arc;

/// Whether what was opened is a folder.
fn is_folder<F: OpenFile>(file: &F) -> bool {
    match file.metadata() {
        Ok(metadata) => metadata.is_dir(),
        Err(_) => false,
    }
}

/// All bytes of what was opened.
fn whole_file<F: Read + Seek>(source: StoredFile<F>) -> Window<StoredFile<F>>
    ensures source { result.source ≡ source }
    ensures start { result.range.start ≡ 0 }
    ensures len { OfEach (stored_images source) (HasLength result.range.len) }
{
    let len = source.len();
    Window {
        source,
        range: ByteRange { start: 0, len },
    }
}

/// All bytes of something that can't be sought in. Faults: as for [`open_file`].
#[tactic(auto, using(crate::proofs::WholeReads::whole_held, crate::proofs::UnopenedLemmas::told_load))]
pub(crate) fn loaded<'a, F: Read + Seek + Drop>(
    alloc: Global,
    file: F,
    path: &'a str,
) -> Result<Window<StoredFile<F>>, UnopenedFile<'a, F>>
    ensures whole { IfOk result (λ held. IfSome (F.remaining file)
        (λ all. stored_bytes held.source ≡ Some all)) }
    ensures all { IfOk result (λ held. IsWholeRange (stored_images held.source) held.range) }
    ensures told { IfErr result (TellsWhy path.entry WasNotRead WasNotRead) }
{
    let mut input = TrustedInput::new(file);
    let bytes = match input.load(alloc) {
        Ok(bytes) => bytes,
        Err(fault) => {
            let fault = Fault::of_load(fault, path);
            let left = LeftFile::Input(input);
            return Err(UnopenedFile { fault, left });
        }
    };
    match Arc::new(alloc, bytes) {
        Ok(all) => Ok(whole_file(StoredFile::Whole(all))),
        Err(_) => Err(UnopenedFile::from(Fault::NoMemory)),
    }
}

/// All bytes of a file, to be read on demand if it can be sought in. Faults: as for [`open_file`].
pub(crate) fn opened<'a, F: Read + Seek + Drop>(
    alloc: Global,
    file: F,
    path: &'a str,
) -> Result<Window<StoredFile<F>>, UnopenedFile<'a, F>>
    ensures all { IfOk result (λ file. IsWholeRange (stored_images file.source) file.range) }
    ensures told { IfErr result (TellsWhy path.entry WasNotRead WasNotRead) }
{
    match StoredFile::sought(file) {
        Ok(source) => Ok(whole_file(source)),
        Err(file) => loaded(alloc, file, path),
    }
}

/// Whether a file has bytes and can be sought in: a regular file or a device. A folder has none.
fn has_places<F: OpenFile + Seek>(file: &mut F) -> bool {
    if regular_len(file).is_some() {
        return true;
    }
    if is_folder(file) {
        return false;
    }
    match file.seek(SeekFrom::End(0)) {
        Ok(0) | Err(_) => false,
        Ok(_) => true,
    }
}

/// Opens a file as it is. If it has bytes and can be sought in, it is read on demand, and its length is where seeking to its end
/// leads; of anything else, such as a pipe, all bytes are read. Faults: `CannotRead` if it can't be opened or a read fails,
/// `Refused(TooLarge)` with the input if all bytes are read and there are more than 2,147,483,648, `NoMemory`.
pub fn open_file<'a, R: Files + AllocGlobal>(
    rt: &R,
    path: &'a str,
) -> Result<Window<StoredFile<R::File>>, UnopenedFile<'a, R::File>>
    ensures all { IfOk result (λ file. IsWholeRange (stored_images file.source) file.range) }
    ensures told { IfErr result (TellsWhy path.entry WasNotRead WasNotRead) }
{
    let Ok(mut file) = File::open(rt, path) else {
        return Err(UnopenedFile::from(Fault::CannotRead(path)));
    };
    if has_places(&mut file) {
        opened(rt.alloc(), file, path)
    } else {
        loaded(rt.alloc(), file, path)
    }
}

/// A part of a file: the file as it is, or a range inside it.
#[derive(Drop)]
pub struct FilePart<F: Read + Seek> {
    /// Its bytes.
    pub bytes: Window<OpenedFile<F>>,
    /// Where it lies in the file, if it is a range inside it.
    pub place: Option<NumberedRange>,
}

/// The bytes in which volumes are looked for, as they are.
fn whole_part<F: Read + Seek>(bytes: Window<OpenedFile<F>>) -> FilePart<F>
    ensures bytes { result.bytes ≡ bytes }
    ensures place { result.place ≡ None }
{
    FilePart { bytes, place: None }
}

/// A file as it is.
fn stored_part<F: Read + Seek>(file: Window<StoredFile<F>>) -> FilePart<F>
    ensures layout { opened_layout result.bytes.source ≡ Plain }
    ensures images { OfEach (images_of result.bytes.source) (stored_images file.source) }
    ensures held { held_bytes result.bytes.source ≡ stored_bytes file.source }
    ensures range { result.bytes.range ≡ file.range }
    ensures place { result.place ≡ None }
{
    let Window { source, range } = file;
    whole_part(Window {
        source: OpenedFile::Plain(source),
        range,
    })
}

/// Where the range that is asked for lies in a file, or in its user data, given its number or none, as
/// [`find_asked`] says; `None` is the file as it is. Faults: as for [`part_of`].
#[tactic(auto, using(crate::proofs::PartLemmas::several_unnamed, crate::proofs::PartLemmas::missing_unnamed, crate::proofs::UnopenedLemmas::no_part, crate::proofs::UnopenedLemmas::of_sparse))]
pub(crate) fn place_asked<'a, S: PlacedBytes>(
    alloc: Global,
    source: &mut S,
    layout: Layout,
    path: &'a str,
    counted: Counted,
    volume: Option<u64>,
) -> Result<Option<NumberedRange>, Fault<'a>>
    ensures asked { IfOk result (λ place. OfEach (S.Holds source.new)
        (λ file. asked_at place ≡ asked_in layout counted volume file)) }
    ensures answer { IfOk result (λ place. IsAnswerTo volume (asked_at place)) }
    ensures held { OfEach (S.Holds source.new) (S.Holds source.old) }
    ensures later { FailsWhere (S.Fails source.new) (S.Fails source.old) }
    ensures told { IfErr result (TellsPlace path.entry layout counted volume (S.Holds source.new)) }
    ensures fault { IfErr result (IsUnopened path.entry volume) }
{
    match find_asked(alloc, source, layout, counted, volume) {
        Ok(Asked::WholeFile) => Ok(None),
        Ok(Asked::Inside(place)) => Ok(Some(place)),
        Ok(Asked::Several(n)) => Err(Fault::SeveralVolumes(n)),
        Ok(Asked::Missing(n)) => Err(Fault::NoVolume(n)),
        Err(fault) => Err(Fault::of_sparse(fault, path)),
    }
}

/// The bytes in which volumes are looked for, and where what is asked for lies in them; `None` is the file as it is.
#[derive(Drop)]
pub(crate) struct SearchedFile<F: Read + Seek> {
    pub(crate) file: OpenedFile<F>,
    pub(crate) place: Option<NumberedRange>,
}

/// Where it lies in the bytes in which volumes are looked for. Faults, with the file: as for [`part_of`].
#[tactic(auto, using(crate::proofs::UnopenedLemmas::no_part_handed, crate::proofs::UnopenedLemmas::handed_among, crate::proofs::PartLemmas::plain_laid))]
pub(crate) fn place_in<'a, F: Read + Seek + Drop>(
    alloc: Global,
    file: OpenedFile<F>,
    path: &'a str,
    counted: Counted,
    volume: Option<u64>,
) -> Result<SearchedFile<F>, UnopenedFile<'a, F>>
    requires { IsLaidOut file }
    ensures asked { IfOk result (λ found. OfEach (images_of found.file)
        (λ bytes. asked_at found.place ≡ asked_in (opened_layout file) counted volume bytes)) }
    ensures answer { IfOk result (λ found. IsAnswerTo volume (asked_at found.place)) }
    ensures layout { IfOk result (λ found. opened_layout found.file ≡ opened_layout file) }
    ensures laid_out { IfOk result (λ found. IsLaidOut found.file) }
    ensures held { IfOk result (λ found. OfEach (images_of found.file) (images_of file)) }
    ensures later { IfOk result (λ found. FailsWhere (failures_of found.file)
        (failures_of file)) }
    ensures told { IfErr result (TellsWhy path.entry (HasNoPart counted volume) WasNotRead) }
    ensures left { IfErr result (λ back. AreAmong (images_of file) back.left) }
    ensures fault { IfErr result (λ back. IsUnopened path.entry volume back.fault) }
{
    match file {
        OpenedFile::Plain(mut bytes) => {
            let place = place_asked(alloc, &mut bytes, Layout::Plain, path, counted, volume);
            let file = OpenedFile::Plain(bytes);
            match place {
                Ok(place) => Ok(SearchedFile { file, place }),
                Err(fault) => Err(with_file(fault, file)),
            }
        }
        OpenedFile::Raw(user) => {
            let mut data = raw_data(user);
            let place = place_asked(alloc, &mut data, Layout::Raw, path, counted, volume);
            let file = OpenedFile::Raw(stored_data(data));
            match place {
                Ok(place) => Ok(SearchedFile { file, place }),
                Err(fault) => Err(with_file(fault, file)),
            }
        }
    }
}

/// The part of an opened file that is asked for, given the number of a range in it or none, as [`find_asked`] says. Faults, with
/// the file: `NoVolume` if there is no such range; `SeveralVolumes` if no number is given and there are several candidates; a
/// read failed, memory was refused.
#[tactic(auto, using(crate::proofs::HeldBytes::content_stays, crate::proofs::PartLemmas::whole_at))]
fn part_of<'a, F: Read + Seek + Drop>(
    alloc: Global,
    file: Window<OpenedFile<F>>,
    path: &'a str,
    counted: Counted,
    volume: Option<u64>,
) -> Result<FilePart<F>, UnopenedFile<'a, F>>
    requires laid_out { IsLaidOut file.source }
    requires all { IsWholeRange (images_of file.source) file.range }
    ensures asked { IfOk result (λ part. OfEach (images_of part.bytes.source) (λ bytes.
        asked_at part.place ≡ asked_in (opened_layout file.source) counted volume bytes)) }
    ensures answer { IfOk result (λ part. IsAnswerTo volume (asked_at part.place)) }
    ensures layout { IfOk result (λ part. opened_layout part.bytes.source
        ≡ opened_layout file.source) }
    ensures laid_out { IfOk result (λ part. IsLaidOut part.bytes.source) }
    ensures range { IfOk result (λ part. IsRangeAt part.place part.bytes.range) }
    ensures whole { IfOk result (λ part. part.place ≡ None → part.bytes.range ≡ file.range) }
    ensures all { IfOk result (λ part. IsWholeAt (images_of part.bytes.source) part.place
        part.bytes.range) }
    ensures held { IfOk result (λ part. OfEach (images_of part.bytes.source)
        (images_of file.source)) }
    ensures stays { IfOk result (λ part. StaysHeld (held_content file.source)
        (held_content part.bytes.source)) }
    ensures left { IfErr result (λ back. AreAmong (images_of file.source) back.left) }
    ensures told { IfErr result (TellsWhy path.entry (HasNoPart counted volume) WasNotRead) }
    ensures fault { IfErr result (λ back. IsUnopened path.entry volume back.fault) }
{
    let Window { source, range } = file;
    let SearchedFile {
        file: source,
        place,
    } = place_in(alloc, source, path, counted, volume)?;
    match place {
        None => Ok(whole_part(Window { source, range })),
        Some(place) => Ok(FilePart {
            bytes: Window {
                source,
                range: place.found.range,
            },
            place: Some(place),
        }),
    }
}

/// Whether all bytes of a file are held.
fn is_held<F: Read + Seek>(file: &StoredFile<F>) -> bool
    ensures { result ≡ is_some (stored_bytes file.now) }
{
    match file {
        StoredFile::Whole(_) => true,
        StoredFile::Seekable(_) => false,
    }
}

/// What is taken of an image if no volume is chosen. Something that can't be sought in, such as a pipe, is taken as it is.
fn chosen_part<'a, F: Read + Seek + Drop>(
    alloc: Global,
    bytes: Window<StoredFile<F>>,
    path: &'a str,
    counted: Counted,
) -> Result<FilePart<F>, UnopenedFile<'a, F>>
    requires all { IsWholeRange (stored_images bytes.source) bytes.range }
    ensures pipe { IfSome (stored_bytes bytes.source) (λ _. IfOk result (λ part. part.place ≡ None)) }
    ensures asked { IfOk result (IsAskedPart counted None) }
    ensures range { IfOk result (λ part. IsRangeAt part.place part.bytes.range) }
    ensures all { IfOk result (λ part. IsWholeAt (images_of part.bytes.source) part.place
        part.bytes.range) }
    ensures told { IfErr result (TellsWhy path.entry (HasNoPart counted None) WasNotRead) }
    ensures fault { IfErr result (λ back. IsUnopened path.entry None back.fault) }
{
    if is_held(&bytes.source) {
        return Ok(stored_part(bytes));
    }
    let content = content_of(bytes, path)?;
    part_of(alloc, content, path, counted, None)
}

/// Opens what is asked for of an image. With a number, it is that volume in the file, or in the user data of its raw sectors; 0
/// is the image as it is. Without one, it is what [`find_asked`] chooses if the image can be sought in, and otherwise the image
/// as it is. What can be sought in is read on demand. Faults, with what was read: as for [`open_file`] and [`part_of`].
#[tactic(auto, using(crate::proofs::UnopenedLemmas::told_of_file, crate::proofs::UnopenedLemmas::unopened_file))]
pub fn open_asked<'a, R: Files + AllocGlobal>(
    rt: &R,
    path: &'a str,
    counted: Counted,
    volume: Option<u64>,
) -> Result<FilePart<R::File>, UnopenedFile<'a, R::File>>
    ensures answer { IfOk result (λ part. IsAnswerTo volume (asked_at part.place)) }
    ensures asked { IfOk result (IsAskedPart counted volume) }
    ensures range { IfOk result (λ part. IsRangeAt part.place part.bytes.range) }
    ensures all { IfOk result (λ part. IsWholeAt (images_of part.bytes.source) part.place
        part.bytes.range) }
    ensures told { IfErr result (TellsWhy path.entry (HasNoPart counted volume) WasNotRead) }
    ensures fault { IfErr result (λ back. IsUnopened path.entry volume back.fault) }
{
    let file = open_file(rt, path)?;
    match volume {
        None => chosen_part(rt.alloc(), file, path, counted),
        Some(0) => Ok(stored_part(file)),
        Some(_) => {
            let content = content_of(file, path)?;
            part_of(rt.alloc(), content, path, counted, volume)
        }
    }
}

/// Opens what is asked for of an image, as [`open_asked`] does, where only ranges that hold a volume are candidates.
pub fn open_part<'a, R: Files + AllocGlobal>(
    rt: &R,
    path: &'a str,
    volume: Option<u64>,
) -> Result<Window<OpenedFile<R::File>>, UnopenedFile<'a, R::File>>
    ensures asked { IfOk result (IsAskedWindow Volumes volume) }
    ensures told { IfErr result (TellsWhy path.entry (HasNoPart Volumes volume) WasNotRead) }
    ensures fault { IfErr result (λ back. IsUnopened path.entry volume back.fault) }
{
    let part = open_asked(rt, path, Counted::Volumes, volume)?;
    Ok(part.bytes)
}

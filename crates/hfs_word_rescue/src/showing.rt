//! What is found of a refused image, shown as the words show a sound one: rows, and the bytes of a fork.
ghost use Rattle.std.specs.Prelude.{◌≡◌, Err, Some, IfErr, IfOk, List, ℕ, OnErr, OnOk};
ghost use Rattle.std.specs.Io.KnownBytes.{Appends};
ghost use Rattle.hfs_commands.specs.Checks.{IsCheckFault};
ghost use Rattle.hfs_commands.specs.Faults.{IsUnprinted};
ghost use Rattle.hfs_remains_forks.specs.Finds.{IsFoundIn};
ghost use Rattle.hfs_image.specs.Known.{OfKnown};
ghost use Rattle.hfs_rescue_items.specs.Writing.{WritesFrontOf, WritesOf};
ghost use Rattle.hfs_rescue_items.specs.Paths.{path_end};
ghost use Rattle.hfs_rescue_items.specs.Rows.{selected_text};
ghost use Rattle.hfs_source.specs.Images.{OfEach};
ghost use Rattle.hfs_source.specs.Seen.{EachKnown};
ghost use Rattle.hfs_texts.specs.Writing.{AppendsFront};
ghost use Rattle.hfs_word_rescue.specs.Shown.{OfEachFound, end_bytes, end_rows, folder_told, fork_told, found_status, told_whole, whole_status};

use crate::answer::RescueAnswer;
use crate::found::found_in;
use crate::image::RescuedImage;
use crate::words::RescueWords;
use hfs_check::MountFault;
use hfs_commands::{CopyFault, Fault, Format, Status};
use hfs_items::refusal;
use hfs_model::{NOT_A_FOLDER, NOT_FOUND, Reply};
use hfs_remains_forks::salvage_of;
use hfs_rescue_items::{
    Found, PathEnd, Selection, TableFault, home_number, path_end, write_item_fork, write_rows,
};
use hfs_source::{BlockSource, PlacedBlocks, SeenBlocks};
use hfs_space::ForkKind;
use std::alloc::Global;
use std::io::Write;

/// The fault for rows that weren't written.
fn fault_of_rows(fault: TableFault) -> Fault<'static>
    ensures { IsUnprinted result }
{
    match fault {
        TableFault::Memory => Fault::NoMemory,
        TableFault::OutputFailed => Fault::OutputFailed,
    }
}

/// The fault of an image's check; None for a sound image.
pub fn image_fault<S: PlacedBlocks>(image: &RescuedImage<S>) -> Option<MountFault>
    ensures { EachKnown (S.Holds image.now.source.blocks)
        (λ known. OfKnown known image.now.len (IsCheckFault result)) }
{
    image.check.fault
}

/// Writes those rows of what was found of an image that are selected, and returns the exit status of `rescue`.
fn write_selected<S: PlacedBlocks, W: Write>(
    alloc: Global,
    writer: &mut W,
    image: &RescuedImage<S>,
    found: &Found<'_>,
    selection: Selection,
) -> Result<u8, Fault<'static>>
    requires { found.now.mdb.now ≡ image.now.finds.mdb }
    ensures written { OnOk result (Appends (W.contents writer.old) (W.contents writer.new)
        (selected_text selection found.now)) }
    ensures part { OnErr result (AppendsFront (W.contents writer.old) (W.contents writer.new)
        (selected_text selection found.now)) }
    ensures status { (bytes : List ℕ) → IsCheckFault image.now.check.fault bytes
        → IsFoundIn bytes (Some image.now.finds)
        → IfOk result (λ status. status ≡ found_status bytes found.now) }
    ensures faults { IfErr result IsUnprinted }
{
    let Ok(answer) = RescueAnswer::of(alloc, &image.check, &image.finds, found) else {
        return Err(Fault::NoMemory);
    };
    match write_rows(alloc, writer, found, selection) {
        Ok(()) => Ok(answer.status),
        Err(fault) => Err(fault_of_rows(fault)),
    }
}

/// Writes the table of what was found of an image, a row for each item, in order, and returns the exit status of `rescue`. All
/// this holds for every image consistent with the bytes read. Faults: memory was refused; `OutputFailed`, and then only the
/// beginning of the table may have been written.
pub fn write_found_items<S: PlacedBlocks, W: Write>(
    alloc: Global,
    writer: &mut W,
    image: &RescuedImage<S>,
    words: &RescueWords<'_>,
    format: Format,
) -> Result<u8, Fault<'static>>
    ensures written { OnOk result (OfEachFound (S.Holds image.now.source.blocks) image.now.len words.now
        (λ bytes found. Appends (W.contents writer.old) (W.contents writer.new)
        (selected_text (Selection.All format) found))) }
    ensures part { OnErr result (OfEachFound (S.Holds image.now.source.blocks) image.now.len words.now
        (λ bytes found. AppendsFront (W.contents writer.old) (W.contents writer.new)
        (selected_text (Selection.All format) found))) }
    ensures status { IfOk result (λ status. OfEachFound (S.Holds image.now.source.blocks) image.now.len words.now
        (λ bytes found. status ≡ found_status bytes found)) }
    ensures faults { IfErr result IsUnprinted }
{
    let limit = words.limit_for(image.len);
    let Ok(salvage) = salvage_of(alloc, &image.finds, limit) else {
        return Err(Fault::NoMemory);
    };
    let found = found_in(&image.finds, &salvage);
    write_selected(alloc, writer, image, &found, Selection::All(format))
}

/// Writes the rows of the folder at the end of a path, and returns the exit status of `rescue`, or the code if that is no folder.
fn write_end_rows<S: PlacedBlocks, W: Write>(
    alloc: Global,
    writer: &mut W,
    image: &RescuedImage<S>,
    found: &Found<'_>,
    end: PathEnd,
) -> Result<Result<u8, Reply>, Fault<'static>>
    requires { found.now.mdb.now ≡ image.now.finds.mdb }
    ensures written { OnOk result (Appends (W.contents writer.old) (W.contents writer.new)
        (end_rows found.now end)) }
    ensures part { OnErr result (AppendsFront (W.contents writer.old) (W.contents writer.new)
        (end_rows found.now end)) }
    ensures told { (bytes : List ℕ) → IsCheckFault image.now.check.fault bytes
        → IsFoundIn bytes (Some image.now.finds)
        → IfOk result (λ told. told ≡ folder_told bytes found.now end) }
    ensures faults { IfErr result IsUnprinted }
{
    match end {
        PathEnd::Nothing => Ok(Err(refusal(NOT_FOUND))),
        PathEnd::File(_) => Ok(Err(refusal(NOT_A_FOLDER))),
        PathEnd::Folder(k) => {
            let home = home_number(found.places.things(), k);
            let status = write_selected(alloc, writer, image, found, Selection::InFolder(home))?;
            Ok(Ok(status))
        }
    }
}

/// Writes the rows of what lies in the folder that a path leads to, and returns the exit status of `rescue`; or -43 if no item
/// has that path and -120 if it is a file's, and writes nothing. Paths are read as the rows print them. All this holds for every
/// image consistent with the bytes read. Faults: as for [`write_found_items`].
pub fn write_found_folder<S: PlacedBlocks, W: Write>(
    alloc: Global,
    writer: &mut W,
    image: &RescuedImage<S>,
    words: &RescueWords<'_>,
    path: &str,
) -> Result<Result<u8, Reply>, Fault<'static>>
    ensures written { OnOk result (OfEachFound (S.Holds image.now.source.blocks) image.now.len words.now
        (λ bytes found. Appends (W.contents writer.old) (W.contents writer.new)
        (end_rows found (path_end found path.now)))) }
    ensures part { OnErr result (OfEachFound (S.Holds image.now.source.blocks) image.now.len words.now
        (λ bytes found. AppendsFront (W.contents writer.old) (W.contents writer.new)
        (end_rows found (path_end found path.now)))) }
    ensures told { IfOk result (λ told. OfEachFound (S.Holds image.now.source.blocks) image.now.len words.now
        (λ bytes found. told ≡ folder_told bytes found (path_end found path.now))) }
    ensures faults { IfErr result IsUnprinted }
{
    let limit = words.limit_for(image.len);
    let Ok(salvage) = salvage_of(alloc, &image.finds, limit) else {
        return Err(Fault::NoMemory);
    };
    let found = found_in(&image.finds, &salvage);
    let Ok(end) = path_end(alloc, &found, path) else {
        return Err(Fault::NoMemory);
    };
    write_end_rows(alloc, writer, image, &found, end)
}

/// The exit status for a fork that is whole, or isn't.
fn whole_status(is_whole: bool) -> u8
    ensures { result ≡ whole_status is_whole }
{
    if is_whole {
        Status::Done.number()
    } else {
        Status::CallRefused.number()
    }
}

/// The exit status for a fork that is whole, or isn't; or the code if there is none.
fn told_whole(whole: Option<bool>) -> Result<u8, Reply>
    ensures { result ≡ told_whole whole }
{
    match whole {
        Some(is_whole) => Ok(whole_status(is_whole)),
        None => Err(refusal(NOT_FOUND)),
    }
}

/// Writes the bytes that are taken of a fork of the item at the end of a path, and returns the exit status, which says whether
/// the fork is whole, or the code if there is no fork.
fn write_end_fork<S: BlockSource, W: Write>(
    alloc: Global,
    source: &mut S,
    found: &Found<'_>,
    kind: ForkKind,
    end: PathEnd,
    writer: &mut W,
) -> Result<Result<u8, Reply>, CopyFault>
    ensures written { OnOk result (WritesOf (S.Holds source.new) (W.contents writer.old)
        (W.contents writer.new) (λ bytes. end_bytes bytes found.now kind end)) }
    ensures part { OnErr result (WritesFrontOf (S.Holds source.new) (W.contents writer.old)
        (W.contents writer.new) (λ bytes. end_bytes bytes found.now kind end)) }
    ensures told { IfOk result (λ told. told ≡ fork_told found.now kind end) }
    ensures none { result ≡ Err CopyFault.ReadFailed → writer.new ≡ writer.old }
    ensures memory { result ≡ Err CopyFault.Memory → writer.new ≡ writer.old }
    ensures narrows { OfEach (S.Holds source.new) (S.Holds source.old) }
{
    match end {
        PathEnd::Nothing => Ok(Err(refusal(NOT_FOUND))),
        PathEnd::File(k) | PathEnd::Folder(k) => {
            let whole = write_item_fork(alloc, source, found, k, kind, writer)?;
            Ok(told_whole(whole))
        }
    }
}

/// The result of writing a fork, and what it was read from.
#[derive(Drop)]
pub struct ShownFork<S: PlacedBlocks> {
    /// The exit status: 0 if the fork is whole, else 3; or -43 if no file has that path; or why it was not written.
    pub told: Result<Result<u8, Reply>, CopyFault>,
    pub source: SeenBlocks<S>,
}

/// Writes the bytes that `rescue` takes of a fork of the item that a path leads to, and returns the exit status: 0 if the fork is
/// whole, else 3; or -43 if no file has that path, and writes nothing. Paths are read as the rows print them. All this holds for
/// every image consistent with the bytes read. Errors: as for [`write_fork`](hfs_rescue_items::write_fork).
pub fn write_found_fork<S: PlacedBlocks + Drop, W: Write>(
    alloc: Global,
    writer: &mut W,
    image: RescuedImage<S>,
    words: &RescueWords<'_>,
    path: &str,
    kind: ForkKind,
) -> ShownFork<S>
    ensures written { OnOk result.told (OfEachFound (S.Holds result.source.blocks) image.len words.now
        (λ bytes found. Appends (W.contents writer.old) (W.contents writer.new)
        (end_bytes bytes found kind (path_end found path.now)))) }
    ensures part { OnErr result.told (OfEachFound (S.Holds result.source.blocks) image.len words.now
        (λ bytes found. AppendsFront (W.contents writer.old) (W.contents writer.new)
        (end_bytes bytes found kind (path_end found path.now)))) }
    ensures told { IfOk result.told (λ told. OfEachFound (S.Holds result.source.blocks) image.len words.now
        (λ bytes found. told ≡ fork_told found kind (path_end found path.now))) }
    ensures none { result.told ≡ Err CopyFault.ReadFailed → writer.new ≡ writer.old }
    ensures memory { result.told ≡ Err CopyFault.Memory → writer.new ≡ writer.old }
    ensures narrows { OfEach (S.Holds result.source.blocks) (S.Holds image.source.blocks) }
{
    let RescuedImage {
        mut source,
        len,
        line: _,
        check: _,
        finds,
    } = image;
    let limit = words.limit_for(len);
    let Ok(salvage) = salvage_of(alloc, &finds, limit) else {
        return ShownFork {
            told: Err(CopyFault::Memory),
            source,
        };
    };
    let found = found_in(&finds, &salvage);
    let Ok(end) = path_end(alloc, &found, path) else {
        return ShownFork {
            told: Err(CopyFault::Memory),
            source,
        };
    };
    let told = write_end_fork(alloc, &mut source, &found, kind, end, writer);
    ShownFork { told, source }
}

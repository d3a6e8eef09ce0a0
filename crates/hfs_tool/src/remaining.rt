//! What is found of a refused image, shown as the words show a sound one.

use crate::places::{ImageWords, PathWords};
use crate::printing::print_code;
use hfs_check::MountFault;
use hfs_commands::{
    Counted, Fault, FilePart, Format, OpenedFile, PartImage, SeenImage, StoredFile, Unopened,
    Window, open_asked, part_blocks,
};
use hfs_console::tell_hint;
use hfs_model::{Fork, Reply};
use hfs_source::{Asked, PlacedBlocks, RangeBlocks, find_asked};
use hfs_space::ForkKind;
use hfs_word_rescue::{
    RefusedImage, Remains, RemainsTexts, RescueWords, ShownFork, look, remains_of,
};
use std::alloc::Global;
use std::fs::File;

/// The blocks of a part of a file.
pub type Part = RangeBlocks<OpenedFile<File>>;

/// The result of a look: a sound image, or a refused one.
pub type Looked = Result<PartImage<File>, RefusedImage<Part>>;

/// What is looked at of a file, and whether it is the only range that it may be.
pub struct Chosen {
    pub part: Window<OpenedFile<File>>,
    pub is_one: bool,
}

/// Whether all bytes of what was opened are held, such as those of a pipe.
fn is_held(file: &OpenedFile<File>) -> bool {
    match file {
        OpenedFile::Plain(StoredFile::Whole(_)) => true,
        OpenedFile::Plain(StoredFile::Seekable(_)) | OpenedFile::Raw(_) => false,
    }
}

/// What is looked at of a file in which no volume was found: the only range in it, even one without a volume; otherwise the file
/// as it is.
fn choose_range<'a>(
    alloc: Global,
    file: Window<OpenedFile<File>>,
    path: &'a str,
) -> Result<Chosen, Fault<'a>> {
    let Window { mut source, range } = file;
    let layout = source.layout();
    let asked = find_asked(alloc, &mut source, layout, Counted::Ranges, None);
    let (range, is_one) = match asked {
        Ok(Asked::Inside(place)) => (place.found.range, true),
        Ok(Asked::WholeFile) | Ok(Asked::Missing(_)) => (range, true),
        Ok(Asked::Several(_)) => (range, false),
        Err(fault) => return Err(Fault::of_sparse(fault, path)),
    };
    Ok(Chosen {
        part: Window { source, range },
        is_one,
    })
}

/// What is looked at of an image: the volume that is asked for, or that is the only one in it; if there is none, what `rescue`
/// would take.
pub fn choose<'a>(rt: &HostRuntime, image: ImageWords<'a>) -> Result<Chosen, Fault<'a>> {
    let FilePart { bytes, place } = open_asked(rt, image.path, Counted::Volumes, image.volume)?;
    if image.volume.is_some() || place.is_some() || is_held(&bytes.source) {
        return Ok(Chosen {
            part: bytes,
            is_one: true,
        });
    }
    choose_range(rt.alloc(), bytes, image.path)
}

/// Opens something that holds several ranges and no volume, which is refused.
fn open_several<'a>(
    rt: &HostRuntime,
    part: Window<OpenedFile<File>>,
    path: &'a str,
) -> Result<Looked, Fault<'a>> {
    match SeenImage::open(rt.alloc(), part_blocks(part)) {
        Ok(image) => Ok(Ok(image)),
        Err(Unopened { fault, source: _ }) => Err(Fault::of_needed(fault, path)),
    }
}

/// Looks at an image, or at the volume in it that is asked for: opens it once, makes all checks, and, if it is refused, finds
/// what remains of it.
pub fn look_at<'a>(rt: &HostRuntime, image: ImageWords<'a>) -> Result<Looked, Fault<'a>> {
    let Chosen { part, is_one } = choose(rt, image)?;
    if !is_one {
        return open_several(rt, part, image.path);
    }
    match look(rt.alloc(), part_blocks(part)) {
        Ok(looked) => Ok(looked),
        Err(fault) => Err(Fault::of_sparse(fault, image.path)),
    }
}

/// What is looked for in a refused image.
fn rescue_words<'a>(image: ImageWords<'a>) -> RescueWords<'a> {
    RescueWords {
        image: image.path,
        volume: image.volume,
        limit: None,
    }
}

/// Prints on standard error why an image of which something was shown is refused, and what that means. A program that can't print
/// that has failed.
fn tell_refused(rt: &HostRuntime, why: MountFault, status: u8) -> Result<u8, Fault<'static>> {
    let fault = Fault::Refused(why);
    let Ok(()) = eprintln!(rt; "{fault}") else {
        return Err(Fault::OutputFailed);
    };
    tell_hint(rt, why);
    Ok(status)
}

/// Prints the code of a path that leads to nothing of that kind, and returns the exit status.
fn print_end(rt: &HostRuntime, told: Result<u8, Reply>) -> Result<u8, Fault<'static>> {
    match told {
        Ok(status) => Ok(status),
        Err(reply) => print_code(rt, &reply),
    }
}

/// What remains of a refused image. If nothing does, its refusal is the fault.
fn find(rt: &HostRuntime, refused: RefusedImage<Part>) -> Result<Remains<Part>, Fault<'static>> {
    let why = refused.why;
    match remains_of(rt.alloc(), refused) {
        Ok(Some(remains)) => Ok(remains),
        Ok(None) => Err(Fault::Refused(why)),
        Err(_) => Err(Fault::NoMemory),
    }
}

/// Prints the table of what is found of a refused image, and then on standard error why it is refused.
pub fn show_items<'a>(
    rt: &HostRuntime,
    image: ImageWords<'a>,
    format: Format,
    refused: RefusedImage<Part>,
) -> Result<u8, Fault<'a>> {
    let words = rescue_words(image);
    let why = refused.why;
    let remains = find(rt, refused)?;
    let status = remains.write_items(rt.alloc(), &mut rt.stdout(), &words, format)?;
    tell_refused(rt, why, status)
}

/// Prints the page of what is found of a refused image, and then on standard error why it is refused; None if nothing is found,
/// and then nothing is printed.
pub fn show_page<S: PlacedBlocks + Drop>(
    rt: &HostRuntime,
    image: ImageWords<'_>,
    texts: &RemainsTexts<'_>,
    refused: RefusedImage<S>,
) -> Result<Option<u8>, Fault<'static>> {
    let words = rescue_words(image);
    let why = refused.why;
    match remains_of(rt.alloc(), refused) {
        Ok(Some(remains)) => {
            let status = remains.write_page(rt.alloc(), &mut rt.stdout(), &words, why, texts)?;
            let status = tell_refused(rt, why, status)?;
            Ok(Some(status))
        }
        Ok(None) => Ok(None),
        Err(_) => Err(Fault::NoMemory),
    }
}

/// Prints the rows of the folder of a refused image that a path leads to, or the code that refuses the path; then prints on
/// standard error why the image is refused.
pub fn show_folder<'a>(
    rt: &HostRuntime,
    place: &PathWords<'a>,
    refused: RefusedImage<Part>,
) -> Result<u8, Fault<'a>> {
    let words = rescue_words(place.image);
    let why = refused.why;
    let remains = find(rt, refused)?;
    let told = remains.write_folder(rt.alloc(), &mut rt.stdout(), &words, place.path)?;
    let status = print_end(rt, told)?;
    tell_refused(rt, why, status)
}

/// Which fork of a file it is.
fn kind_of(fork: Fork) -> ForkKind {
    match fork {
        Fork::DataFork => ForkKind::Data,
        Fork::ResFork => ForkKind::Resource,
    }
}

/// Prints the bytes that are found of a fork of the file of a refused image that a path leads to, or the code that refuses the
/// path; then prints on standard error why the image is refused.
pub fn show_fork<'a>(
    rt: &HostRuntime,
    place: &PathWords<'a>,
    fork: Fork,
    refused: RefusedImage<Part>,
) -> Result<u8, Fault<'a>> {
    let words = rescue_words(place.image);
    let why = refused.why;
    let remains = find(rt, refused)?;
    let kind = kind_of(fork);
    let ShownFork { told, source: _ } = remains.write_fork(
        rt.alloc(),
        &mut rt.stdout(),
        &words,
        place.path,
        kind,
    );
    match told {
        Ok(told) => {
            let status = print_end(rt, told)?;
            tell_refused(rt, why, status)
        }
        Err(fault) => Err(Fault::of_copy(fault, place.image.path)),
    }
}

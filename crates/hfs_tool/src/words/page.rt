//! The word `page`: a page of a volume, as an HTML document.

use crate::places::{IMAGE, ImageWords, VOLUME, image_words};
use crate::remaining::{Chosen, choose, show_page};
use crate::word::Word;
use clap::ArgMatches;
use hfs_bag::SourceFault;
use hfs_check::MountFault;
use hfs_commands::{
    Fault, NeededFault, PartBlocks, PartImage, SeenImage, Status, Unopened, part_blocks,
};
use hfs_console::{Argument, Declaration, Takes, VERSION, WordsFault};
use hfs_page::{
    PageFault, PageImage, PageTexts, is_base, standard_texts, write_image_page, write_refused_page,
};
use hfs_source::PlacedBlocks;
use hfs_word_rescue::{RefusedImage, found_texts, look};
use hfs_word_take::{image_digest, image_name};
use std::alloc::Global;
use std::io::{Read, Seek};
use std::sync::Wait;
use std::thread::Threads;

/// The URL of a bag.
const BASE: Argument = Argument {
    name: "base",
    takes: Takes::TextOption { value: "URL" },
    help: "Links each file's name to the bag at this URL, which begins with http: or https:, or is relative",
    excludes: &[],
};

/// The choice of the image's digest.
const DIGEST: Argument = Argument {
    name: "digest",
    takes: Takes::Flag,
    help: "Adds the image's SHA-256 digest, for which the whole image is read",
    excludes: &[],
};

/// What the help of the word `page` says besides its arguments.
const PAGES: &str = "The page is one self-contained HTML document: it loads nothing from
elsewhere, and can be put on a web site as it is. The picture has a
square for each allocation block, or for several if there are more than
4,096; it shows the first use in the legend that one of these has.

If the volume is refused, the page says why, and shows what rescue
finds: each item, with what is known about its forks. The reason is also
printed on standard error, and the exit status is that of rescue.

--base URL is where the bag is that take made: --base disk if it is in
the folder disk next to the page.";

const COMMAND: Declaration = Declaration {
    name: "page",
    about: "Prints an HTML page about the volume, with its items and a picture of its blocks",
    usage: None,
    after_help: Some(PAGES),
    arguments: &[IMAGE, VOLUME, BASE, DIGEST],
};

/// `page IMAGE [--volume N] [--base URL] [--digest]`.
#[derive(Clone, Copy)]
pub struct Page<'a> {
    image: ImageWords<'a>,
    /// The URL of the bag that the volume was taken into, if files are to be links.
    base: Option<&'a str>,
    /// Whether the page has the image's digest.
    is_digested: bool,
}

impl<'a> Word<'a> for Page<'a> {
    const DECLARATION: Declaration = COMMAND;

    fn read(_alloc: Global, matches: &ArgMatches<'a>) -> Result<Page<'a>, WordsFault> {
        Ok(Page {
            image: image_words(IMAGE, matches)?,
            base: BASE.given_text(matches),
            is_digested: DIGEST.is_given(matches)?,
        })
    }

    fn looked_at(&self) -> Option<ImageWords<'a>> {
        Some(self.image)
    }

    /// Prints the page. A URL that no link to a server or from a page may begin with is refused, like a wrong command line.
    fn obey<T: Threads + Wait + Sync>(
        &self,
        rt: &HostRuntime,
        _threads: &T,
    ) -> Result<u8, Fault<'a>> {
        match self.base {
            Some(base) if !is_base(base.as_bytes()) => Ok(print_refused_base(rt)),
            Some(_) | None => print_page_by(rt, self),
        }
    }
}

/// Prints which URLs links may begin with, and returns the exit status.
fn print_refused_base(rt: &HostRuntime) -> u8 {
    Status::WordsRefused.after(println!(rt;
        "--base wants a URL that begins with http: or https:, or is relative"
    ))
}

/// Prints the page that the words ask for.
fn print_page_by<'a>(rt: &HostRuntime, words: &Page<'a>) -> Result<u8, Fault<'a>> {
    let Ok(name) = image_name(rt.alloc(), words.image.path) else {
        return Err(Fault::NoMemory);
    };
    match choose(rt, words.image) {
        Ok(Chosen { part, is_one }) => {
            print_page_of(rt, words, name.as_str(), part_blocks(part), is_one)
        }
        Err(Fault::Refused(why)) => print_refused_image(rt, words, name.as_str(), None, why),
        Err(fault) => Err(fault),
    }
}

/// Prints the page of an image that is refused before it is opened.
fn print_refused_image<'a>(
    rt: &HostRuntime,
    words: &Page<'a>,
    name: &str,
    digest: Option<&str>,
    why: MountFault,
) -> Result<u8, Fault<'a>> {
    print_refused_page(rt, &texts_of(words, name, digest), why)
}

/// What the page says about the image besides its volume.
fn texts_of<'a>(words: &Page<'a>, name: &'a str, digest: Option<&'a str>) -> PageTexts<'a> {
    let image = PageImage {
        name: name.as_bytes(),
        digest: bytes_of(digest),
        base: bytes_of(words.base),
    };
    standard_texts(VERSION.as_bytes(), image)
}

/// The bytes of a text, if there is one.
fn bytes_of<'a>(text: Option<&'a str>) -> Option<&'a [u8]> {
    match text {
        Some(text) => Some(text.as_bytes()),
        None => None,
    }
}

/// Prints the page of an image, with its digest if that is asked for.
fn print_page_of<'a, F: Read + Seek + Drop>(
    rt: &HostRuntime,
    words: &Page<'a>,
    name: &str,
    source: PartBlocks<F>,
    is_one: bool,
) -> Result<u8, Fault<'a>> {
    if !words.is_digested {
        return print_told_page(rt, words, name, None, source, is_one);
    }
    let mut source = source;
    let digits = digits_of(rt.alloc(), &mut source, words.image.path)?;
    print_told_page(rt, words, name, Some(digits.as_str()), source, is_one)
}

/// The hexadecimal digits of the digest of an image.
fn digits_of<'a, F: Read + Seek + Drop>(
    alloc: Global,
    source: &mut PartBlocks<F>,
    path: &'a str,
) -> Result<String, Fault<'a>> {
    let len = source.blocks.len();
    let digest = match image_digest(alloc, source, len) {
        Ok(digest) => digest,
        Err(SourceFault::ReadFailed) => return Err(Fault::CannotRead(path)),
        Err(SourceFault::Memory) => return Err(Fault::NoMemory),
    };
    match hex::encode(alloc, digest.as_slice()) {
        Ok(digits) => Ok(digits),
        Err(_) => Err(Fault::NoMemory),
    }
}

/// Prints the page of an image, with these texts besides its volume. If it is refused and may be one of several ranges, nothing
/// is looked for in it.
fn print_told_page<'a, F: Read + Seek + Drop>(
    rt: &HostRuntime,
    words: &Page<'a>,
    name: &str,
    digest: Option<&str>,
    source: PartBlocks<F>,
    is_one: bool,
) -> Result<u8, Fault<'a>> {
    if !is_one {
        return print_unsought_page(rt, words, name, digest, source);
    }
    match look(rt.alloc(), source) {
        Ok(Ok(image)) => print_opened_page(rt, &texts_of(words, name, digest), &image),
        Ok(Err(refused)) => {
            print_remains_page(rt, words.image, &texts_of(words, name, digest), refused)
        }
        Err(fault) => Err(Fault::of_sparse(fault, words.image.path)),
    }
}

/// Prints the page of an image that is opened, or only of its fault if it is refused.
fn print_unsought_page<'a, F: Read + Seek + Drop>(
    rt: &HostRuntime,
    words: &Page<'a>,
    name: &str,
    digest: Option<&str>,
    source: PartBlocks<F>,
) -> Result<u8, Fault<'a>> {
    match SeenImage::open(rt.alloc(), source) {
        Ok(image) => print_opened_page(rt, &texts_of(words, name, digest), &image),
        Err(Unopened { fault, source: _ }) => print_unopened_page(rt, words, name, digest, fault),
    }
}

/// Prints the page of an image that was not opened, if it is refused.
fn print_unopened_page<'a>(
    rt: &HostRuntime,
    words: &Page<'a>,
    name: &str,
    digest: Option<&str>,
    fault: NeededFault,
) -> Result<u8, Fault<'a>> {
    match fault {
        NeededFault::Refused(why) => print_refused_page(rt, &texts_of(words, name, digest), why),
        NeededFault::ReadFailed | NeededFault::Memory => Err(Fault::of_needed(
            fault,
            words.image.path,
        )),
    }
}

/// Prints the page of what is found of an image that is refused, or only of its fault if nothing is.
fn print_remains_page<S: PlacedBlocks + Drop>(
    rt: &HostRuntime,
    image: ImageWords<'_>,
    texts: &PageTexts<'_>,
    refused: RefusedImage<S>,
) -> Result<u8, Fault<'static>> {
    let why = refused.why;
    let told = found_texts(texts.version, texts.image);
    match show_page(rt, image, &told, refused)? {
        Some(status) => Ok(status),
        None => print_refused_page(rt, texts, why),
    }
}

/// Prints the page of an opened image.
fn print_opened_page<F: Read + Seek + Drop>(
    rt: &HostRuntime,
    texts: &PageTexts<'_>,
    image: &PartImage<F>,
) -> Result<u8, Fault<'static>> {
    match write_image_page(rt.alloc(), image, texts, &mut rt.stdout()) {
        Ok(()) => Ok(Status::Done.number()),
        Err(PageFault::Memory) => Err(Fault::NoMemory),
        Err(PageFault::OutputFailed) => Err(Fault::OutputFailed),
    }
}

/// Prints the page of an image that is refused.
fn print_refused_page(
    rt: &HostRuntime,
    texts: &PageTexts<'_>,
    why: MountFault,
) -> Result<u8, Fault<'static>> {
    match write_refused_page(rt.alloc(), why, texts, &mut rt.stdout()) {
        Ok(()) => Ok(Status::ImageRefused.number()),
        Err(PageFault::Memory) => Err(Fault::NoMemory),
        Err(PageFault::OutputFailed) => Err(Fault::OutputFailed),
    }
}

//! The word `repair`: an image with its counts mended.

use crate::places::{BARE_IMAGE, ImageWords, VOLUME, image_words};
use crate::printing::print_refused;
use crate::saving::{save_as_read, tell};
use crate::word::Word;
use clap::ArgMatches;
use hfs_check::MountFault;
use hfs_commands::{
    BlockSource, Fault, ImageInFile, ReadContents, RepairAnswer, open_volume, open_watched,
    repair_answer,
};
use hfs_console::{Argument, Declaration, Takes, WordsFault, print_lines, tell_hint};
use std::alloc::Global;
use std::sync::Wait;
use std::thread::Threads;

/// The path of the file that is written.
const FILE: Argument = Argument {
    name: "FILE",
    takes: Takes::Text,
    help: "The file for the repaired image; its contents are replaced; it may be IMAGE",
    excludes: &[],
};

const COMMAND: Declaration = Declaration {
    name: "repair",
    about: "Repairs a volume's counts, if nothing else is wrong, and writes the image",
    usage: None,
    after_help: None,
    arguments: &[BARE_IMAGE, FILE, VOLUME],
};

/// `repair IMAGE FILE [--volume N]`.
#[derive(Clone, Copy)]
pub struct Repair<'a> {
    image: ImageWords<'a>,
    /// The path of the file that the mended image is written to.
    file: &'a str,
}

impl<'a> Word<'a> for Repair<'a> {
    const DECLARATION: Declaration = COMMAND;

    fn read(_alloc: Global, matches: &ArgMatches<'a>) -> Result<Repair<'a>, WordsFault> {
        Ok(Repair {
            image: image_words(BARE_IMAGE, matches)?,
            file: FILE.text(matches)?,
        })
    }

    fn looked_at(&self) -> Option<ImageWords<'a>> {
        Some(self.image)
    }

    /// Writes the image with the counts of its volume mended, and prints what was mended. If the image is refused, prints that and
    /// writes nothing; if the write fails, nothing else is printed.
    fn obey<T: Threads + Wait + Sync>(
        &self,
        rt: &HostRuntime,
        _threads: &T,
    ) -> Result<u8, Fault<'a>> {
        let written = match self.image.volume {
            None | Some(0) => write_mended_image(rt, self),
            Some(n) => write_mended_volume(rt, self, n),
        };
        match written {
            Err(Fault::Refused(why)) => print_refused(rt, why),
            other => other,
        }
    }
}

/// Mends an image as it is, and writes it to a file.
fn write_mended_image<'a>(rt: &HostRuntime, words: &Repair<'a>) -> Result<u8, Fault<'a>> {
    let source = open_watched(rt, words.image.path)?;
    let len = source.len();
    let RepairAnswer {
        image,
        fault,
        status,
        lines,
    } = mended(rt, words.image.path, source, len)?;
    let contents = match image {
        Ok(image) => Some(image),
        Err(_refused) => None,
    };
    print_mended(rt, words, contents, fault, status, lines.as_str())
}

/// Mends the volume with this number in an image, and writes the image to a file.
fn write_mended_volume<'a>(
    rt: &HostRuntime,
    words: &Repair<'a>,
    number: u64,
) -> Result<u8, Fault<'a>> {
    let volume = open_volume(rt, words.image.path, number)?;
    let len = volume.len();
    let sum_at = volume.sum_at;
    let RepairAnswer {
        image,
        fault,
        status,
        lines,
    } = mended(rt, words.image.path, volume.blocks, len)?;
    let contents = match image {
        Ok(image) => Some(ImageInFile::of(image, sum_at)),
        Err(_refused) => None,
    };
    print_mended(rt, words, contents, fault, status, lines.as_str())
}

/// Mends an image of `len` bytes that was opened by this path.
fn mended<'a, S: BlockSource + Drop>(
    rt: &HostRuntime,
    path: &'a str,
    source: S,
    len: u64,
) -> Result<RepairAnswer<S>, Fault<'a>> {
    match repair_answer(rt.alloc(), source, len) {
        Ok(answer) => Ok(answer),
        Err(fault) => Err(Fault::of_sparse(fault, path)),
    }
}

/// Writes a file with a mended image, unless the image is refused, and prints what was mended.
fn print_mended<'a, C: ReadContents + Drop>(
    rt: &HostRuntime,
    words: &Repair<'a>,
    contents: Option<C>,
    fault: Option<MountFault>,
    status: u8,
    lines: &str,
) -> Result<u8, Fault<'a>> {
    let leftover = match contents {
        Some(mut contents) => save_as_read(rt, words.file, words.image.path, &mut contents)?,
        None => None,
    };
    print_lines(rt, lines)?;
    tell(rt, &leftover);
    if let Some(why) = fault {
        tell_hint(rt, why);
    }
    Ok(status)
}

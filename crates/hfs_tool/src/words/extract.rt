//! The word `extract`: a volume as a file of its own.

use crate::places::{ImageWords, VOLUME, image_words};
use crate::saving::{save_as_new, tell};
use crate::word::Word;
use clap::ArgMatches;
use hfs_commands::{
    Counted, Fault, ImageContents, ReadContents, Status, extracted_text, need_volume, part_blocks,
};
use hfs_console::{Argument, Declaration, Takes, WordsFault, print_lines, tell_sum};
use hfs_word_take::{FoundPart, find_part};
use std::alloc::Global;
use std::sync::Wait;
use std::thread::Threads;

/// The path of a file.
const FILE: Argument = Argument {
    name: "FILE",
    takes: Takes::Text,
    help: "The file that the volume is in; it may be a device",
    excludes: &[],
};

/// The path of the file that is made.
const OUT: Argument = Argument {
    name: "OUT",
    takes: Takes::Text,
    help: "The file to make; it must not exist yet",
    excludes: &[],
};

/// What the help of the word `extract` says besides its arguments.
const EXTRACTS: &str = "Without --volume the volume is a bare one as it is, or else the only one
inside; if the file has none, or several, nothing is written. With
--volume N it is the N-th that volumes lists, even one with 'no volume',
and with --volume 0 the file as it is. Nothing is checked.

OUT is written as OUT.0.new next to it, and renamed when it is complete:
after a fault there is no OUT. No file is overwritten.";

const COMMAND: Declaration = Declaration {
    name: "extract",
    about: "Copies a volume inside a file to a file of its own",
    usage: None,
    after_help: Some(EXTRACTS),
    arguments: &[FILE, OUT, VOLUME],
};

/// `extract FILE OUT [--volume N]`.
#[derive(Clone, Copy)]
pub struct Extract<'a> {
    image: ImageWords<'a>,
    /// The path of the file that is made.
    out: &'a str,
}

impl<'a> Word<'a> for Extract<'a> {
    const DECLARATION: Declaration = COMMAND;

    fn read(_alloc: Global, matches: &ArgMatches<'a>) -> Result<Extract<'a>, WordsFault> {
        Ok(Extract {
            image: image_words(FILE, matches)?,
            out: OUT.text(matches)?,
        })
    }

    fn looked_at(&self) -> Option<ImageWords<'a>> {
        Some(self.image)
    }

    fn obey<T: Threads + Wait + Sync>(
        &self,
        rt: &HostRuntime,
        _threads: &T,
    ) -> Result<u8, Fault<'a>> {
        extract_volume(rt, self)
    }
}

/// Writes the bytes of a volume to a file of its own, and prints how many there are. Without a number, bytes that hold no volume
/// aren't written.
fn extract_volume<'a>(rt: &HostRuntime, words: &Extract<'a>) -> Result<u8, Fault<'a>> {
    let part = find_part(rt, words.image.path, Counted::Volumes, words.image.volume)?;
    let FoundPart {
        mut bytes,
        line: _line,
        sum,
    } = part;
    let range = bytes.range;
    if words.image.volume.is_none() {
        need_volume(&mut bytes.source, range, words.image.path)?;
    }
    // A range that doesn't lie in its file has no blocks, and can't be read.
    let mut contents = ImageContents {
        alloc: rt.alloc(),
        source: part_blocks(bytes),
        len: range.len,
    };
    make_file(rt, words, &mut contents, range.len)?;
    tell_sum(rt, words.image.path, sum == Some(false));
    Ok(Status::Done.number())
}

/// Makes the file, and prints how many bytes it has. The text is made before the file, so that no file is left when memory runs
/// out.
fn make_file<'a, C: ReadContents>(
    rt: &HostRuntime,
    words: &Extract<'a>,
    contents: &mut C,
    len: u64,
) -> Result<(), Fault<'a>> {
    let Ok(text) = extracted_text(rt.alloc(), len) else {
        return Err(Fault::NoMemory);
    };
    let leftover = save_as_new(rt, words.out, words.image.path, contents)?;
    print_lines(rt, text.as_str())?;
    tell(rt, &leftover);
    Ok(())
}

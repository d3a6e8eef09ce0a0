//! The word `put`: files and folders put on a volume.

use crate::places::{BARE_IMAGE, ImageWords, OUT_HELP, VOLUME, image_words};
use crate::saving::tell;
use crate::sources::{CLOCK_NOW, MACBINARY, RENAME, moment, options_of, print_fault};
use crate::word::Word;
use clap::ArgMatches;
use hfs_bag::Watch;
use hfs_commands::{Fault, Status, WatchedImage, open_volume, save_read};
use hfs_console::{Argument, Declaration, Progress, Takes, WordsFault, print_lines};
use hfs_put::HostFiles;
use hfs_put_sources::{PutOptions, SystemTree};
use hfs_source::PlacedBytes;
use hfs_word_put::{PutFault, PutImage, PutOrder, put_lines, put_sources, unsaved};
use std::alloc::Global;
use std::fs::File;
use std::sync::Wait;
use std::thread::Threads;

/// The paths of the sources.
const SOURCE: Argument = Argument {
    name: "SOURCE",
    takes: Takes::SomeTexts,
    help: "What to put on the volume: a file, a folder with everything in it, or a bag, of which the contents of data",
    excludes: &[],
};

/// The path of the file that gets the changed image.
const OUT: Argument = Argument {
    name: "out",
    takes: Takes::NeededTextOption { value: "FILE" },
    help: OUT_HELP,
    excludes: &[],
};

/// The path of the folder on the volume into which the sources are put.
const TO: Argument = Argument {
    name: "to",
    takes: Takes::AnyTextOption { value: "PATH" },
    help: "The destination folder, by its path as hfs_tool items prints it (Disk:Folder or :Folder); the root if left out",
    excludes: &[],
};

/// The choice that files are replaced.
const REPLACE: Argument = Argument {
    name: "replace",
    takes: Takes::Flag,
    help: "Replaces files of the same name, even locked ones",
    excludes: &[],
};

/// What the help of the word `put` says besides its arguments.
const PUTS: &str = "SOURCEs are put in their order, and what is in a folder in the order of
its names. ._X next to X is read as AppleDouble: type, creator, the
Finder's bytes, dates and the resource fork of X. .DS_Store is left out.
In a name, = and two hexadecimal digits stand for a byte, as take writes
them; all else is read as UTF-8. A folder of the same name takes what is
put; a file of the same name is refused, unless it is replaced.

Everything is looked at before anything is written. For each item that
can't be put a line is printed, at most 100, and FILE is not written:
  cannot put PATH: not a file          a link, or a device
  cannot put PATH: too large           more than 2,147,483,647 bytes
  cannot put PATH: not AppleDouble     PATH is that of ._X
  cannot put PATH: name                HFS doesn't allow the name
  cannot put PATH: two of one name     in one folder
  cannot put PATH: code N              -48: its name is taken; -44 or
                                       -46: the volume is locked
  cannot put PATH: digest              of a bag: not what its manifest
                                       says
  cannot put PATH: room FREE WANTED    the free blocks, and those needed
                                       for everything
  cannot put PATH: full FREE DEPTH     a tree has too few free nodes
  cannot put PATH: a name in it is not UTF-8
  code N                               --to leads to no folder
  cannot read PATH                     nothing is looked at after it

When FILE is written, put is printed, and how many files were put, how
many folders were made, how many bytes are in the forks, and how many
blocks are free.";

const COMMAND: Declaration = Declaration {
    name: "put",
    about: "Puts files and folders on the volume, with types, creators, dates and resource forks if these are known",
    usage: Some("hfs_tool put [OPTIONS] --out <FILE> <IMAGE> <SOURCE>..."),
    after_help: Some(PUTS),
    arguments: &[
        BARE_IMAGE, SOURCE, OUT, TO, MACBINARY, REPLACE, RENAME, CLOCK_NOW, VOLUME,
    ],
};

/// `put IMAGE SOURCE.. --out FILE [--to PATH] [--macbinary] [--replace] [--rename] [--now N] [--volume N]`.
#[derive(Drop)]
pub struct Put<'a> {
    image: ImageWords<'a>,
    /// The paths of the sources, in order.
    sources: Vec<&'a str>,
    /// The path of the file that the changed image is written to.
    out: &'a str,
    /// The path of the folder on the volume into which they are put; the root if none is given.
    to: Option<&'a str>,
    /// How the sources are read.
    how: PutOptions,
    /// Whether files of the same name are replaced.
    replace: bool,
    /// The moment of every change, in seconds since midnight, 1 January 1904; the clock's if none is given.
    now: Option<u32>,
}

impl<'a> Word<'a> for Put<'a> {
    const DECLARATION: Declaration = COMMAND;

    fn read(alloc: Global, matches: &ArgMatches<'a>) -> Result<Put<'a>, WordsFault> {
        let image = image_words(BARE_IMAGE, matches)?;
        let out = OUT.text(matches)?;
        let how = options_of(matches)?;
        let replace = REPLACE.is_given(matches)?;
        let now = CLOCK_NOW.given_number(matches)?;
        Ok(Put {
            image,
            sources: SOURCE.texts(alloc, matches)?,
            out,
            to: TO.given_text(matches),
            how,
            replace,
            now,
        })
    }

    fn looked_at(&self) -> Option<ImageWords<'a>> {
        Some(self.image)
    }

    /// Puts files and folders on the volume, and prints how much was put. The changed image is written first; if that fails, or
    /// something can't be put, only that is printed.
    fn obey<T: Threads + Wait + Sync>(
        &self,
        rt: &HostRuntime,
        _threads: &T,
    ) -> Result<u8, Fault<'a>> {
        let progress = Progress::of_file(rt);
        match put_at(rt, self, &progress) {
            Ok(put) => save_put(rt, self, put, &progress),
            Err(fault) => print_fault(rt, fault),
        }
    }
}

/// The contents of a file with what was put on a volume in it.
type Changed<'w, 'r> = PutImage<
    'w,
    WatchedImage<File>,
    HostFiles<SystemTree<'r, HostRuntime>>,
    Progress<'r>,
>;

/// The contents of a file with what is put on its volume.
fn put_at<'w, 'r, 'a>(
    rt: &'r HostRuntime,
    words: &Put<'a>,
    progress: &'w Progress<'r>,
) -> Result<Changed<'w, 'r>, PutFault<'a>> {
    let now = moment(rt, words.now);
    let volume = match open_volume(rt, words.image.path, words.image.volume.unwrap_or(0)) {
        Ok(volume) => volume,
        Err(unopened) => return Err(PutFault::Image(unopened.fault)),
    };
    let order = PutOrder {
        sources: words.sources.as_slice(),
        to: words.to,
        how: words.how,
        replace: words.replace,
        now,
    };
    let tree = SystemTree::new(rt);
    let sum_at = volume.sum_at;
    put_sources(
        rt.alloc(),
        volume.blocks,
        sum_at,
        words.image.path,
        tree,
        &order,
        progress,
    )
}

/// Writes the changed image to its file, and prints how much was put. The lines are made first, so that nothing is written if
/// there is no memory for them.
fn save_put<'a>(
    rt: &HostRuntime,
    words: &Put<'a>,
    put: Changed<'_, '_>,
    progress: &Progress<'_>,
) -> Result<u8, Fault<'a>> {
    let PutImage { contents, sums } = put;
    let mut contents = contents;
    let Ok(lines) = put_lines(rt.alloc(), &sums) else {
        return Err(Fault::NoMemory);
    };
    progress.began(1, 1, contents.file.len());
    let saved = save_read(rt, words.out, words.image.path, &mut contents);
    progress.end();
    match saved.written {
        Ok(()) => {
            print_lines(rt, lines.as_str())?;
            tell(rt, &saved.leftover);
            Ok(Status::Done.number())
        }
        Err(fault) => {
            tell(rt, &saved.leftover);
            print_fault(rt, unsaved(rt.alloc(), contents, fault))
        }
    }
}

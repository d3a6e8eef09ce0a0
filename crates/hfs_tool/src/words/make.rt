//! The word `make`: a new volume with files and folders.

use crate::places::{FILE, ImageWords};
use crate::saving::tell;
use crate::sources::{CLOCK_NOW, MACBINARY, RENAME, moment, options_of, print_fault};
use crate::word::Word;
use clap::ArgMatches;
use hfs_commands::{Fault, Status, save_read};
use hfs_console::{Argument, Declaration, Progress, Takes, WordsFault, print_lines};
use hfs_put::HostFiles;
use hfs_put_sources::{PutOptions, SystemTree};
use hfs_source::PlacedBytes;
use hfs_word_make::{MakeOrder, SettledImage, made_lines, make_volume};
use hfs_word_put::{PutImage, Watch, unsaved};
use std::alloc::Global;
use std::sync::Wait;
use std::thread::Threads;

/// The paths of what comes.
const SOURCE: Argument = Argument {
    name: "SOURCE",
    takes: Takes::SomeTexts,
    help: "What to put on the volume: a file, a folder (what is in it, if it is the only SOURCE), or a bag, of which the contents of data",
    excludes: &[],
};

/// The volume's name.
const NAME: Argument = Argument {
    name: "name",
    takes: Takes::AnyTextOption { value: "NAME" },
    help: "The volume's name, 1 to 27 characters; that of the only bag or folder if left out",
    excludes: &[],
};

/// The volume's size.
const SIZE: Argument = Argument {
    name: "size",
    takes: Takes::AnyTextOption { value: "SIZE" },
    help: "The size, 64K to 2G: bytes, or with K, M or G (powers of 1,024), in blocks of 512; if left out, what SOURCE needs and a tenth more",
    excludes: &[],
};

/// What the help of the word `make` says besides its arguments.
const MAKES: &str = "The volume gets what put would put into its root, with the same lines
for what can't be put. If a folder is the only SOURCE, and no bag, only
its contents are put. The volume's name is NAME, or else the one that
the only bag has for its disk, or else the last part of the only
folder's path. The catalog has room for what is put, and more. Nothing
is written, and the exit status is 2, at:
  bad name   not 1 to 27 characters that HFS allows, or no name at all
  bad size   not whole blocks of 512 bytes, 64K to 2G
  no room    no size up to 2G is enough; or SIZE is too small for the
             two trees alone
When FILE is written, made is printed, and the lines of put.";

const COMMAND: Declaration = Declaration {
    name: "make",
    about: "Makes a new volume with files and folders on it",
    usage: Some("hfs_tool make [OPTIONS] <FILE> <SOURCE>..."),
    after_help: Some(MAKES),
    arguments: &[FILE, SOURCE, NAME, SIZE, CLOCK_NOW, MACBINARY, RENAME],
};

/// `make FILE SOURCE.. [--name NAME] [--size SIZE] [--now N] [--macbinary] [--rename]`.
#[derive(Drop)]
pub struct Make<'a> {
    /// The path of the file that it is written to.
    file: &'a str,
    /// The paths of the sources, in order.
    sources: Vec<&'a str>,
    /// The volume's name; that of the sources if none is given.
    name: Option<&'a str>,
    /// Its size; the least that suffices if none is given.
    size: Option<&'a str>,
    /// How the sources are read.
    how: PutOptions,
    /// The moment of every change, in seconds since midnight, 1 January 1904; the clock's if none is given.
    now: Option<u32>,
}

impl<'a> Word<'a> for Make<'a> {
    const DECLARATION: Declaration = COMMAND;

    fn read(alloc: Global, matches: &ArgMatches<'a>) -> Result<Make<'a>, WordsFault> {
        let file = FILE.text(matches)?;
        let how = options_of(matches)?;
        let now = CLOCK_NOW.given_number(matches)?;
        Ok(Make {
            file,
            sources: SOURCE.texts(alloc, matches)?,
            name: NAME.given_text(matches),
            size: SIZE.given_text(matches),
            how,
            now,
        })
    }

    fn looked_at(&self) -> Option<ImageWords<'a>> {
        None
    }

    /// Makes the volume, and prints how much was put on it. It is written first; if that fails, or something can't be put, only
    /// that is printed.
    fn obey<T: Threads + Wait + Sync>(
        &self,
        rt: &HostRuntime,
        _threads: &T,
    ) -> Result<u8, Fault<'a>> {
        let order = MakeOrder {
            sources: self.sources.as_slice(),
            name: self.name,
            size: self.size,
            how: self.how,
            now: moment(rt, self.now),
        };
        let progress = Progress::of_file(rt);
        let tree = SystemTree::new(rt);
        match make_volume(rt.alloc(), tree, self.file, &order, &progress) {
            Ok(made) => save_made(rt, self, made, &progress),
            Err(fault) => print_fault(rt, fault),
        }
    }
}

/// What the file of a new volume is to hold.
type Made<'w, 'r> = PutImage<
    'w,
    SettledImage,
    HostFiles<SystemTree<'r, HostRuntime>>,
    Progress<'r>,
>;

/// Writes the new volume to its file, and prints how much came.
fn save_made<'a>(
    rt: &HostRuntime,
    words: &Make<'a>,
    made: Made<'_, '_>,
    progress: &Progress<'_>,
) -> Result<u8, Fault<'a>> {
    let PutImage { contents, sums } = made;
    let Ok(lines) = made_lines(rt.alloc(), &sums) else {
        return Err(Fault::NoMemory);
    };
    let mut contents = contents;
    progress.began(1, 1, contents.file.len());
    let saved = save_read(rt, words.file, words.file, &mut contents);
    progress.end();
    match saved.written {
        Ok(()) => {
            print_lines(rt, lines.as_str())?;
            tell(rt, &saved.leftover);
            Ok(Status::Done.number())
        }
        Err(fault) => {
            tell(rt, &saved.leftover);
            print_fault(rt, unsaved(rt.alloc(), contents, fault))
        }
    }
}

//! The word `rescue`: what remains of a damaged volume, as a bag or as a list.

use crate::help::PROGRAM;
use crate::places::{FOLDER, IMAGE, ImageWords, NO_DIGEST, VOLUME, volume_of};
use crate::saving::{left_beside, tell};
use crate::word::Word;
use crate::words::take::print_fault;
use clap::ArgMatches;
use hfs_commands::Fault;
use hfs_console::{Argument, Declaration, Progress, Takes, WordsFault, print_lines, tell_sum};
use hfs_word_rescue::{BagWords, RescueWords, Rescued, list_rescue};
use hfs_word_take::folder_path;
use std::alloc::Global;
use std::sync::Wait;
use std::thread::Threads;

/// The choice of a list instead of a folder.
const LIST: Argument = Argument {
    name: "list",
    takes: Takes::Flag,
    help: "Prints the lines of rescue.tsv, and makes no folder",
    excludes: &["FOLDER", "no-digest"],
};

/// The most bytes that are taken of forks.
const LIMIT: Argument = Argument {
    name: "limit",
    takes: Takes::CountOption { value: "BYTES" },
    help: "The most bytes of forks to copy; four times those of the image if left out",
    excludes: &[],
};

/// What remains of a damaged volume.
const RESCUES: &str = "FOLDER becomes a bag like that of take, with what can still be found,
whatever is wrong with the volume:
  data/=lost/N/NAME     what was in folder N, of which nothing is left
  data/=old/NAME        what is in a part of the catalog that is no
                        longer used: mostly deleted or moved since
  rescue.tsv            a line for each item: path, number, ID, and
                        the verdicts on the data and resource forks

The verdict whole is about a fork's blocks, not about their contents:
HFS keeps no checksums of its data. The other verdicts:
  cut N        there are blocks for only N bytes
  missing N    N of the bytes are zeros, since their blocks are missing
  shared       a block is also in another fork, so one of the two has
               bytes that are not its own
  left         the fork is not copied, because of --limit

The lines: the image's fault as check prints it, the block of its
directory (unsure if it is a guess), files, folders, the bytes of all,
how many files are whole, and how many are damaged. The exit status is 3
if one of them is damaged, or the catalog is.";

const COMMAND: Declaration = Declaration {
    name: "rescue",
    about: "Copies what remains of a damaged volume into a new folder, a bag (RFC 8493), or lists it",
    usage: Some("hfs_tool rescue [OPTIONS] <IMAGE> [FOLDER | --list]"),
    after_help: Some(RESCUES),
    arguments: &[IMAGE, FOLDER, LIST, LIMIT, VOLUME, NO_DIGEST],
};

/// `rescue IMAGE [FOLDER | --list] [--limit BYTES] [--volume N] [--no-digest]`.
#[derive(Clone, Copy)]
pub enum Rescue<'a> {
    /// What remains, as a bag.
    Bag(BagWords<'a>),
    /// A line for each item that remains.
    List(RescueWords<'a>),
}

impl<'a> Word<'a> for Rescue<'a> {
    const DECLARATION: Declaration = COMMAND;

    fn read(_alloc: Global, matches: &ArgMatches<'a>) -> Result<Rescue<'a>, WordsFault> {
        let words = RescueWords {
            image: IMAGE.text(matches)?,
            volume: volume_of(matches)?,
            limit: LIMIT.given_count(matches)?,
        };
        if LIST.is_given(matches)? {
            return Ok(Rescue::List(words));
        }
        Ok(Rescue::Bag(BagWords {
            words,
            folder: folder_path(FOLDER.text(matches)?),
            is_digested: !NO_DIGEST.is_given(matches)?,
            program: PROGRAM,
        }))
    }

    fn looked_at(&self) -> Option<ImageWords<'a>> {
        match self {
            Rescue::Bag(bag) => Some(image_of(&bag.words)),
            Rescue::List(words) => Some(image_of(words)),
        }
    }

    fn obey<T: Threads + Wait + Sync>(
        &self,
        rt: &HostRuntime,
        _threads: &T,
    ) -> Result<u8, Fault<'a>> {
        match self {
            Rescue::Bag(words) => rescue_volume(rt, words),
            Rescue::List(words) => list_remains(rt, words),
        }
    }
}

/// The image that is looked at.
fn image_of<'a>(words: &RescueWords<'a>) -> ImageWords<'a> {
    ImageWords {
        path: words.image,
        volume: words.volume,
    }
}

/// Rescues what remains of a volume, and prints the answer, or why the folder was not made. Faults: those of the image, which
/// aren't printed here.
fn rescue_volume<'a>(rt: &HostRuntime, words: &BagWords<'a>) -> Result<u8, Fault<'a>> {
    let left = left_beside(rt, words.folder)?;
    let progress = Progress::of_items(rt);
    let rescued = hfs_word_rescue::rescue(rt, words, &progress);
    progress.end();
    tell(rt, &left);
    match rescued {
        Ok(rescued) => print_answer(rt, words.words.image, &rescued),
        Err(fault) => print_fault(rt, fault),
    }
}

/// Prints a line for each item that remains of a volume, and the answer.
fn list_remains<'a>(rt: &HostRuntime, words: &RescueWords<'a>) -> Result<u8, Fault<'a>> {
    let rescued = list_rescue(rt, &mut rt.stdout(), words)?;
    print_answer(rt, words.image, &rescued)
}

/// Prints the answer for an image of which something remains, and returns the exit status.
fn print_answer(rt: &HostRuntime, image: &str, rescued: &Rescued) -> Result<u8, Fault<'static>> {
    tell_sum(rt, image, rescued.sum == Some(false));
    print_lines(rt, rescued.answer.lines.as_str())?;
    Ok(rescued.answer.status)
}

//! The word `take`: all items of a volume as a bag.

use crate::help::PROGRAM;
use crate::places::{FOLDER, IMAGE, ImageWords, NO_DIGEST, VOLUME, volume_of};
use crate::saving::{left_beside, tell};
use crate::word::Word;
use clap::ArgMatches;
use hfs_commands::{Fault, Status};
use hfs_console::{Declaration, Progress, WordsFault, print_lines, tell_sum};
use hfs_word_take::{BagSums, TakeFault, TakeWords, Taken, folder_path, taken_text};
use std::alloc::Global;
use std::sync::Wait;
use std::thread::Threads;

/// What a taken volume becomes.
const TAKES: &str = "FOLDER becomes a bag:
  data/NAME             a folder, or the data fork of a file; data is
                        the volume
  data/._NAME           an AppleDouble file: type, creator, the
                        Finder's bytes and the resource fork
  manifest-sha256.txt   the digest of each file in data
  items.csv             the table of items, with where each is in data
  volume.txt            the lines of info and of check
  bag-info.txt, bagit.txt, tagmanifest-sha256.txt

In NAME a character that some file system doesn't allow is = and two
hexadecimal digits. A data fork has the file's date, without a time
zone, if that is 1970 or later. FOLDER is written as FOLDER.0.new and
renamed when it is complete. Check a bag by sha256sum -c
manifest-sha256.txt inside it, before it is copied to a Macintosh, which
joins the AppleDouble files to their data forks.";

const COMMAND: Declaration = Declaration {
    name: "take",
    about: "Copies all files and folders off the volume into a new folder: a bag (RFC 8493) with AppleDouble files",
    usage: None,
    after_help: Some(TAKES),
    arguments: &[IMAGE, FOLDER, VOLUME, NO_DIGEST],
};

/// `take IMAGE FOLDER [--volume N] [--no-digest]`.
#[derive(Clone, Copy)]
pub struct Take<'a> {
    words: TakeWords<'a>,
}

impl<'a> Word<'a> for Take<'a> {
    const DECLARATION: Declaration = COMMAND;

    fn read(_alloc: Global, matches: &ArgMatches<'a>) -> Result<Take<'a>, WordsFault> {
        let words = TakeWords {
            image: IMAGE.text(matches)?,
            volume: volume_of(matches)?,
            folder: folder_path(FOLDER.text(matches)?),
            is_digested: !NO_DIGEST.is_given(matches)?,
            program: PROGRAM,
        };
        Ok(Take { words })
    }

    fn looked_at(&self) -> Option<ImageWords<'a>> {
        Some(ImageWords {
            path: self.words.image,
            volume: self.words.volume,
        })
    }

    fn obey<T: Threads + Wait + Sync>(
        &self,
        rt: &HostRuntime,
        threads: &T,
    ) -> Result<u8, Fault<'a>> {
        take_volume(rt, threads, &self.words)
    }
}

/// Takes a volume, and prints what the folder then holds.
fn take_volume<'a, T: Threads>(
    rt: &HostRuntime,
    threads: &T,
    words: &TakeWords<'a>,
) -> Result<u8, Fault<'a>> {
    let left = left_beside(rt, words.folder)?;
    let progress = Progress::of_items(rt);
    let taken = hfs_word_take::take(rt, threads, words, &progress);
    progress.end();
    tell(rt, &left);
    print_taken(rt, words.image, taken)
}

/// Prints what the folder holds, or why it was not made. Faults: those of the image, which aren't printed here.
fn print_taken<'a>(
    rt: &HostRuntime,
    image: &str,
    taken: Result<Taken, TakeFault<'a>>,
) -> Result<u8, Fault<'a>> {
    match taken {
        Ok(taken) => {
            tell_sum(rt, image, taken.sum == Some(false));
            print_sums(rt, &taken.sums)
        }
        Err(fault) => print_fault(rt, fault),
    }
}

/// Prints how much a bag holds.
fn print_sums(rt: &HostRuntime, sums: &BagSums) -> Result<u8, Fault<'static>> {
    let Ok(text) = taken_text(rt.alloc(), sums) else {
        return Err(Fault::NoMemory);
    };
    print_lines(rt, text.as_str())?;
    Ok(Status::Done.number())
}

/// Prints why a folder was not made, and returns the exit status. A fault of the image is handed on.
pub fn print_fault<'a>(rt: &HostRuntime, fault: TakeFault<'a>) -> Result<u8, Fault<'a>> {
    match fault {
        TakeFault::Image(why) => Err(why),
        other => Ok(other.status().after(println!(rt; "{other}"))),
    }
}

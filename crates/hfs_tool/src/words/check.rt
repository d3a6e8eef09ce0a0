//! The word `check`: the report on a volume.

use crate::places::{IMAGE, ImageWords, VOLUME, image_words};
use crate::printing::print_refused;
use crate::word::Word;
use clap::ArgMatches;
use hfs_commands::{CheckAnswer, Fault, PartBlocks, needed_check_answer, open_part, part_blocks};
use hfs_console::{Declaration, WordsFault, print_lines, tell_hint};
use std::alloc::Global;
use std::io::{Read, Seek};
use std::sync::Wait;
use std::thread::Threads;

/// What the numbers of checks mean.
const CHECKS: &str = "If the volume is not sound, one of these lines is printed:
  refused bad master directory block M1 (-60)   M1 to M5: that block
  refused check C3 at N                         the first failed check:
  C3   extents tree              C8   order, parents, threads
  C4   shape of the catalog      C9   valences (a folder's children)
  C5   records                   C10  counts
  C6   IDs                       C11  extents
  C7   names (the disk may be undamaged, with a name that this program
       doesn't accept)
  C12  space
docs/CHECKS.md describes each check, and what its N counts.";

const COMMAND: Declaration = Declaration {
    name: "check",
    about: "Checks the volume, and prints its counts or its first fault",
    usage: None,
    after_help: Some(CHECKS),
    arguments: &[IMAGE, VOLUME],
};

/// `check IMAGE [--volume N]`.
#[derive(Clone, Copy)]
pub struct Check<'a> {
    image: ImageWords<'a>,
}

impl<'a> Word<'a> for Check<'a> {
    const DECLARATION: Declaration = COMMAND;

    fn read(_alloc: Global, matches: &ArgMatches<'a>) -> Result<Check<'a>, WordsFault> {
        Ok(Check {
            image: image_words(IMAGE, matches)?,
        })
    }

    fn looked_at(&self) -> Option<ImageWords<'a>> {
        Some(self.image)
    }

    /// Prints the report. A fault of the image is printed after `refused`.
    fn obey<T: Threads + Wait + Sync>(
        &self,
        rt: &HostRuntime,
        _threads: &T,
    ) -> Result<u8, Fault<'a>> {
        match open_part(rt, self.image.path, self.image.volume) {
            Ok(part) => check_blocks(rt, self.image.path, part_blocks(part)),
            Err(unopened) => match unopened.fault {
                Fault::Refused(why) => print_refused(rt, why),
                fault => Err(fault),
            },
        }
    }
}

/// Checks a part of a file, which is read on demand, and prints the answer.
fn check_blocks<'a, F: Read + Seek + Drop>(
    rt: &HostRuntime,
    path: &'a str,
    blocks: PartBlocks<F>,
) -> Result<u8, Fault<'a>> {
    match needed_check_answer(rt.alloc(), blocks) {
        Ok((told, _)) => print_checked(rt, &told),
        Err(fault) => Err(Fault::of_sparse(fault, path)),
    }
}

/// Prints the answer of a check, and what a refusal means.
fn print_checked(rt: &HostRuntime, told: &CheckAnswer) -> Result<u8, Fault<'static>> {
    print_lines(rt, told.lines.as_str())?;
    if let Some(why) = told.fault {
        tell_hint(rt, why);
    }
    Ok(told.status)
}

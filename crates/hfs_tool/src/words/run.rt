//! The word `run`: the calls of a script.

use crate::places::{BARE_IMAGE, ImageWords, NOW, OUT_HELP, VOLUME, image_words};
use crate::progress::RunProgress;
use crate::saving::{save, save_as_read, tell};
use crate::word::Word;
use clap::ArgMatches;
use hfs_commands::{
    FailingBlocks, Fault, ImageInFile, Leftover, ReadContents, Status, Watched, WatchedVolume,
    load_script, open_volume, open_watched,
};
use hfs_console::{Argument, Declaration, Takes, WordsFault, print_lines};
use hfs_runs::{
    Answers, Ran, RanImage, RunImage, run_fault, run_script_at, script_lines, write_answers,
};
use std::alloc::Global;
use std::fs::File;
use std::io::IsTerminal;
use std::sync::Wait;
use std::thread::Threads;

/// The path of a script.
const SCRIPT: Argument = Argument {
    name: "SCRIPT",
    takes: Takes::Text,
    help: "The calls, one per line; docs/SCRIPTS.md describes the language",
    excludes: &[],
};

/// The path of the file that gets a changed image.
const OUT: Argument = Argument {
    name: "out",
    takes: Takes::TextOption { value: "FILE" },
    help: OUT_HELP,
    excludes: &[],
};

/// What the help of the word `run` says besides its arguments.
const RUNS: &str = "Each line of the script is answered by a line: who called, the number
of the call among the caller's own, the code, and a value. With --out
the changed image is written before the first answer is printed.

With --volume N the script runs on that volume in IMAGE, and FILE is
IMAGE with the volume changed: no other byte is, except for the checksum
of a disk copy, which is computed anew.

Faults, in the order in which they are checked; each is printed alone:
  cannot read IMAGE, or image too large
  no volume N        or not written here, if it is in raw sectors
  sum wrong          the checksum of a disk copy isn't that of its data
  cannot read SCRIPT, or script too large
  script line N      the first line that isn't valid, counted from 1;
                     no call was made
  what check prints  the volume is refused; no call was made
  no place for a viewer
  cannot write FILE  the file is as it was";

const COMMAND: Declaration = Declaration {
    name: "run",
    about: "Runs a script of calls, with several workers and viewers at once, and prints the answers",
    usage: None,
    after_help: Some(RUNS),
    arguments: &[BARE_IMAGE, SCRIPT, NOW, OUT, VOLUME],
};

/// `run IMAGE SCRIPT [--now N] [--out FILE] [--volume N]`.
#[derive(Clone, Copy)]
pub struct Run<'a> {
    image: ImageWords<'a>,
    /// The path of the script.
    script: &'a str,
    /// The moment of every change, in seconds since midnight, 1 January 1904.
    now: u32,
    /// The path of the file that the changed image is written to.
    out: Option<&'a str>,
}

impl<'a> Word<'a> for Run<'a> {
    const DECLARATION: Declaration = COMMAND;

    fn read(_alloc: Global, matches: &ArgMatches<'a>) -> Result<Run<'a>, WordsFault> {
        Ok(Run {
            image: image_words(BARE_IMAGE, matches)?,
            script: SCRIPT.text(matches)?,
            now: NOW.number(matches)?,
            out: OUT.given_text(matches),
        })
    }

    fn looked_at(&self) -> Option<ImageWords<'a>> {
        Some(self.image)
    }

    /// Runs the script on the image, or on the volume in it that is asked for, and prints the answers. The changed image is written
    /// before the first line is printed; if that fails, only the fault is printed.
    fn obey<T: Threads + Wait + Sync>(
        &self,
        rt: &HostRuntime,
        threads: &T,
    ) -> Result<u8, Fault<'a>> {
        match self.image.volume {
            None | Some(0) => run_on_image(rt, threads, self),
            Some(n) => run_on_volume(rt, threads, self, open_volume(rt, self.image.path, n)?),
        }
    }
}

/// Runs a script on an image as it is.
fn run_on_image<'a, T: Threads + Wait + Sync>(
    rt: &HostRuntime,
    threads: &T,
    run: &Run<'a>,
) -> Result<u8, Fault<'a>> {
    let image = open_watched(rt, run.image.path)?;
    match image.into_held() {
        Ok(image) => run_whole(rt, threads, run, image),
        Err(source) => {
            let len = source.len();
            let ran = run_by_need(rt, threads, run, source, len)?;
            print_ran_image(rt, run, ran.image, &ran.answers, ran.whole)
        }
    }
}

/// Runs a script on a volume in a file. The file is written, with the volume changed.
fn run_on_volume<'a, T: Threads + Wait + Sync>(
    rt: &HostRuntime,
    threads: &T,
    run: &Run<'a>,
    volume: WatchedVolume<File>,
) -> Result<u8, Fault<'a>> {
    let len = volume.len();
    let sum_at = volume.sum_at;
    let ran = run_by_need(rt, threads, run, volume.blocks, len)?;
    let image = ImageInFile::of(ran.image, sum_at);
    print_ran_image(rt, run, image, &ran.answers, ran.whole)
}

/// The progress of a run, shown on standard error.
fn progress(rt: &HostRuntime) -> RunProgress<'_> {
    RunProgress {
        rt,
        is_shown: rt.stderr().is_terminal(),
    }
}

/// Runs a script on an image of which all bytes are there.
fn run_whole<'a, T: Threads + Wait + Sync>(
    rt: &HostRuntime,
    threads: &T,
    run: &Run<'a>,
    image: Vec<u8>,
) -> Result<u8, Fault<'a>> {
    let script = load_script(rt, run.script)?;
    let progress = progress(rt);
    let ran = run_script_at(
        threads,
        rt.alloc(),
        &progress,
        image,
        script.as_slice(),
        run.now,
    );
    progress.end(script.len());
    match ran {
        Ok(ran) => print_ran(rt, run.out, &ran),
        Err(fault) => Err(run_fault(fault)),
    }
}

/// Writes the changed image to its file, if one is given, and prints the answers.
fn print_ran<'a>(rt: &HostRuntime, out: Option<&'a str>, ran: &Ran) -> Result<u8, Fault<'a>> {
    let leftover = match out {
        Some(file) => save(rt, file, &ran.volume)?,
        None => None,
    };
    print_answers(rt, ran.text.as_str(), ran.whole, &leftover)
}

/// Runs a script on an image of `len` bytes, of which only what the script needs is read. A refused image is a fault once the
/// script was read.
fn run_by_need<'a, T: Threads + Wait + Sync, S: FailingBlocks + Watched + Drop>(
    rt: &HostRuntime,
    threads: &T,
    run: &Run<'a>,
    source: S,
    len: u64,
) -> Result<RanImage<S>, Fault<'a>> {
    let opened = RunImage::open(rt.alloc(), source, len, run.image.path)?;
    let bytes = load_script(rt, run.script)?;
    let script = script_lines(rt.alloc(), bytes.as_slice(), run.now)?;
    match opened {
        Ok(image) => {
            let progress = progress(rt);
            let ran = image.run_at(threads, rt.alloc(), &progress, script, run.image.path);
            progress.end(bytes.len());
            ran
        }
        Err(refused) => Err(Fault::Refused(refused.why)),
    }
}

/// Writes the changed image to its file while it is read, if one is given, and prints the answers.
fn print_ran_image<'a, C: ReadContents + Drop>(
    rt: &HostRuntime,
    run: &Run<'a>,
    image: C,
    answers: &Answers,
    whole: bool,
) -> Result<u8, Fault<'a>> {
    let mut image = image;
    let leftover = match run.out {
        Some(file) => save_as_read(rt, file, run.image.path, &mut image)?,
        None => None,
    };
    write_answers(&mut rt.stdout(), answers)?;
    Ok(end(rt, whole, &leftover))
}

/// Prints the answers to a script, and reports a file next to the written one that was already there.
fn print_answers(
    rt: &HostRuntime,
    text: &str,
    whole: bool,
    leftover: &Option<Leftover>,
) -> Result<u8, Fault<'static>> {
    print_lines(rt, text)?;
    Ok(end(rt, whole, leftover))
}

/// Reports a file next to the written one that was already there, and returns the exit status of a run.
fn end(rt: &HostRuntime, whole: bool, leftover: &Option<Leftover>) -> u8 {
    tell(rt, leftover);
    Status::of_run(whole).number()
}

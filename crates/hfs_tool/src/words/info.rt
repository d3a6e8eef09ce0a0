//! The word `info`: the fields of the master directory block.

use crate::places::{BARE_IMAGE, ImageWords, VOLUME, image_words};
use crate::word::Word;
use clap::ArgMatches;
use hfs_commands::{Fault, Status, Window, open_part, run_info};
use hfs_console::{Declaration, WordsFault};
use hfs_source::PlacedBytes;
use std::alloc::Global;
use std::fs::File;
use std::io::Read;
use std::sync::Wait;
use std::thread::Threads;

const COMMAND: Declaration = Declaration {
    name: "info",
    about: "Prints the fields of the volume's master directory block",
    usage: None,
    after_help: None,
    arguments: &[BARE_IMAGE, VOLUME],
};

/// `info IMAGE [--volume N]`.
#[derive(Clone, Copy)]
pub struct Info<'a> {
    image: ImageWords<'a>,
}

impl<'a> Word<'a> for Info<'a> {
    const DECLARATION: Declaration = COMMAND;

    fn read(_alloc: Global, matches: &ArgMatches<'a>) -> Result<Info<'a>, WordsFault> {
        Ok(Info {
            image: image_words(BARE_IMAGE, matches)?,
        })
    }

    fn looked_at(&self) -> Option<ImageWords<'a>> {
        Some(self.image)
    }

    fn obey<T: Threads + Wait + Sync>(
        &self,
        rt: &HostRuntime,
        _threads: &T,
    ) -> Result<u8, Fault<'a>> {
        match self.image.volume {
            Some(0) | None => print_info_of(rt, self.image.path),
            Some(n) => print_volume_info(rt, self.image.path, n),
        }
    }
}

/// Prints the master directory block of an image as it is.
fn print_info_of<'a>(rt: &HostRuntime, image: &'a str) -> Result<u8, Fault<'a>> {
    match File::open(rt, image) {
        Ok(mut file) => print_info(rt, &mut file, image),
        Err(_) => Err(Fault::CannotRead(image)),
    }
}

/// Prints the master directory block of the `n`-th volume in a file.
fn print_volume_info<'a>(rt: &HostRuntime, path: &'a str, n: u64) -> Result<u8, Fault<'a>> {
    let Window { mut source, range } = open_part(rt, path, Some(n))?;
    let mut head = [0; 1536];
    let count = range.len.min(1536) as usize;
    let part = &mut head[..count];
    match source.read_at(range.start, part) {
        Ok(()) => print_info(rt, &mut &*part, path),
        Err(_) => Err(Fault::CannotRead(path)),
    }
}

/// Prints the master directory block that a reader gives.
pub fn print_info<'a, R: Read>(
    rt: &HostRuntime,
    reader: &mut R,
    name: &'a str,
) -> Result<u8, Fault<'a>> {
    match run_info(rt.alloc(), reader, &mut rt.stdout()) {
        Ok(()) => Ok(Status::Done.number()),
        Err(fault) => Err(Fault::of_info(fault, name)),
    }
}

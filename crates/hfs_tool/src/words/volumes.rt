//! The word `volumes`: the volumes inside a file.

use crate::places::ImageWords;
use crate::word::Word;
use clap::ArgMatches;
use hfs_commands::{Fault, Status, Window, content_of, open_file, volume_lines};
use hfs_console::{Argument, Declaration, Takes, WordsFault, print_lines};
use hfs_source::PlacedBytes;
use std::alloc::Global;
use std::sync::Wait;
use std::thread::Threads;

/// The path of a file.
const FILE: Argument = Argument {
    name: "FILE",
    takes: Takes::Text,
    help: "The file to search for volumes; it may be a device",
    excludes: &[],
};

/// What the help of the word `volumes` says besides its arguments.
const VOLUMES: &str = "The containers of a volume:
  bare       it is the whole file
  macbinary  it is the data fork of a MacBinary file
  disk copy  it is the data of a Disk Copy 4.2 file, which may be the
             data fork of a MacBinary file; 'sum right' or 'sum wrong'
             says whether the checksum in its header fits the data
  partition  it is a partition of type Apple_HFS in a map with blocks
             of 512 or 2,048 bytes
  raw 2352   it is bare, or a partition, in the user data of raw CD
             sectors; 'other mode N' says that N sectors have none
A disk copy or a partition without a volume is listed too, with
'no volume' at the end of the line.

A command with the option --volume takes the N-th of them with
--volume N, and the file as it is with --volume 0. Without --volume,
info, run, repair and put take the file as it is, and so does every
command that reads a pipe. All others take a bare volume as it is, or
else the only volume inside; rescue takes the only line, even one with
'no volume'. If there are several, they take none. With --volume N run,
repair and put write the file with that volume changed.

Not searched: a map within a map or within a disk copy, Disk Copy 6 and
other compressed formats, MFS, and HFS Plus without a wrapper.";

const COMMAND: Declaration = Declaration {
    name: "volumes",
    about: "Prints a line for each HFS volume in a file: number, container, first byte, bytes, name",
    usage: None,
    after_help: Some(VOLUMES),
    arguments: &[FILE],
};

/// `volumes FILE`.
#[derive(Clone, Copy)]
pub struct Volumes<'a> {
    file: &'a str,
}

impl<'a> Word<'a> for Volumes<'a> {
    const DECLARATION: Declaration = COMMAND;

    fn read(_alloc: Global, matches: &ArgMatches<'a>) -> Result<Volumes<'a>, WordsFault> {
        Ok(Volumes {
            file: FILE.text(matches)?,
        })
    }

    fn looked_at(&self) -> Option<ImageWords<'a>> {
        Some(ImageWords {
            path: self.file,
            volume: None,
        })
    }

    fn obey<T: Threads + Wait + Sync>(
        &self,
        rt: &HostRuntime,
        _threads: &T,
    ) -> Result<u8, Fault<'a>> {
        print_volumes(rt, self.file)
    }
}

/// Prints a line for each volume inside a file.
fn print_volumes<'a>(rt: &HostRuntime, path: &'a str) -> Result<u8, Fault<'a>> {
    let file = open_file(rt, path)?;
    let Window {
        mut source,
        range: _range,
    } = content_of(file, path)?;
    let layout = source.layout();
    let others = match source.others() {
        Ok(others) => others,
        Err(fault) => return Err(Fault::of_sparse(fault, path)),
    };
    match volume_lines(rt.alloc(), &mut source, layout, others) {
        Ok(Some(lines)) => {
            print_lines(rt, lines.as_str())?;
            Ok(Status::Done.number())
        }
        Ok(None) => Err(Fault::NoVolumes),
        Err(fault) => Err(Fault::of_sparse(fault, path)),
    }
}

//! The word `cat`: the bytes of a file.

use crate::places::{IMAGE, ImageWords, PATH, PathWords, VOLUME, image_words};
use crate::printing::print_code;
use crate::remaining::{look_at, show_fork};
use crate::word::Word;
use clap::ArgMatches;
use hfs_commands::{
    Fault, NeededFile, PartImage, Status, file_path_reply, open_seen, put_macbinary,
};
use hfs_console::{Argument, Declaration, NoValue, Takes, WordsFault};
use hfs_model::{Fork, Reply, Value};
use std::alloc::Global;
use std::io::{Read, Seek};
use std::sync::Wait;
use std::thread::Threads;

/// The ID of the folder of a file.
const DIR: Argument = Argument {
    name: "DIR",
    takes: Takes::Number,
    help: "The ID of the folder that the file is in",
    excludes: &[],
};

/// The name of a file.
const NAME: Argument = Argument {
    name: "NAME",
    takes: Takes::AnyText,
    help: "The file's name",
    excludes: &[],
};

/// A file by its path, instead of by a folder's ID and a name.
const FILE_PATH: Argument = Argument {
    excludes: &["DIR", "NAME"],
    ..PATH
};

/// The choice of a file's resource fork.
const RESOURCE: Argument = Argument {
    name: "resource",
    takes: Takes::Flag,
    help: "Prints the resource fork instead of the data fork",
    excludes: &[],
};

/// The choice of a file with both forks.
const MACBINARY: Argument = Argument {
    name: "macbinary",
    takes: Takes::Flag,
    help: "Prints a MacBinary file: both forks with name, type, creator and dates",
    excludes: &["resource"],
};

const COMMAND: Declaration = Declaration {
    name: "cat",
    about: "Prints the bytes of a file's fork, or the whole file as MacBinary, and nothing else",
    usage: Some("hfs_tool cat [OPTIONS] <IMAGE> [<DIR> <NAME> | --path <PATH>]"),
    after_help: None,
    arguments: &[IMAGE, DIR, NAME, FILE_PATH, RESOURCE, MACBINARY, VOLUME],
};

/// `cat IMAGE [DIR NAME | --path PATH] [--resource | --macbinary] [--volume N]`.
#[derive(Clone, Copy)]
pub struct Cat<'a> {
    image: ImageWords<'a>,
    file: NamedFile<'a>,
    part: FilePart,
}

/// How the file is named.
#[derive(Clone, Copy)]
enum NamedFile<'a> {
    /// By the ID of its folder and its name.
    In(u32, &'a str),
    /// By its path.
    At(&'a str),
}

/// What of the file is printed.
#[derive(Clone, Copy)]
enum FilePart {
    /// One of its forks.
    Bytes(Fork),
    /// Both of its forks, as a MacBinary file.
    MacBinary,
}

impl<'a> Word<'a> for Cat<'a> {
    const DECLARATION: Declaration = COMMAND;

    fn read(_alloc: Global, matches: &ArgMatches<'a>) -> Result<Cat<'a>, WordsFault> {
        Ok(Cat {
            image: image_words(IMAGE, matches)?,
            file: file_in(matches)?,
            part: part_in(matches)?,
        })
    }

    fn looked_at(&self) -> Option<ImageWords<'a>> {
        Some(self.image)
    }

    fn obey<T: Threads + Wait + Sync>(
        &self,
        rt: &HostRuntime,
        _threads: &T,
    ) -> Result<u8, Fault<'a>> {
        let image = self.image;
        match self.file {
            NamedFile::In(dir, name) => print_named(rt, image, dir, name, self.part),
            NamedFile::At(path) => print_at(rt, &PathWords { image, path }, self.part),
        }
    }
}

/// Which file is asked for.
fn file_in<'a>(matches: &ArgMatches<'a>) -> Result<NamedFile<'a>, NoValue> {
    match FILE_PATH.given_text(matches) {
        Some(path) => Ok(NamedFile::At(path)),
        None => Ok(NamedFile::In(DIR.number(matches)?, NAME.text(matches)?)),
    }
}

/// What of the file is asked for.
fn part_in(matches: &ArgMatches<'_>) -> Result<FilePart, NoValue> {
    if MACBINARY.is_given(matches)? {
        Ok(FilePart::MacBinary)
    } else if RESOURCE.is_given(matches)? {
        Ok(FilePart::Bytes(Fork::ResFork))
    } else {
        Ok(FilePart::Bytes(Fork::DataFork))
    }
}

/// Prints the file with this name in the folder with this ID.
fn print_named<'a>(
    rt: &HostRuntime,
    image: ImageWords<'a>,
    dir: u32,
    name: &'a str,
    part: FilePart,
) -> Result<u8, Fault<'a>> {
    let path = image.path;
    let image = open_seen(rt, path, image.volume)?;
    match part {
        FilePart::Bytes(fork) => print_fork(rt, image, path, dir, name.as_bytes(), fork),
        FilePart::MacBinary => print_macbinary(rt, image, path, dir, name.as_bytes()),
    }
}

/// Prints the file that a path leads to.
fn print_at<'a>(rt: &HostRuntime, place: &PathWords<'a>, part: FilePart) -> Result<u8, Fault<'a>> {
    match part {
        FilePart::Bytes(fork) => print_fork_at(rt, place, fork),
        FilePart::MacBinary => print_macbinary_at(rt, place),
    }
}

/// Prints the bytes of a fork of the file that a path leads to, or the code that refuses it; or what is found of that fork, if
/// the image is refused.
fn print_fork_at<'a>(rt: &HostRuntime, place: &PathWords<'a>, fork: Fork) -> Result<u8, Fault<'a>> {
    match look_at(rt, place.image)? {
        Ok(image) => print_fork_in(rt, place, fork, image),
        Err(refused) => show_fork(rt, place, fork, refused),
    }
}

/// Prints the bytes of a fork of the file of a sound image that a path leads to, or the code that refuses it.
fn print_fork_in<'a, F: Read + Seek + Drop>(
    rt: &HostRuntime,
    place: &PathWords<'a>,
    fork: Fork,
    image: PartImage<F>,
) -> Result<u8, Fault<'a>> {
    let reply = file_at(rt, &image, place)?;
    match &reply.value {
        Value::One(file) => {
            let (dir, name) = (file.parent, file.name.bytes());
            print_fork(rt, image, place.image.path, dir, name, fork)
        }
        _ => print_code(rt, &reply),
    }
}

/// Prints the file that a path leads to with both forks, or the code that refuses it.
fn print_macbinary_at<'a>(rt: &HostRuntime, place: &PathWords<'a>) -> Result<u8, Fault<'a>> {
    let image = open_seen(rt, place.image.path, place.image.volume)?;
    let reply = file_at(rt, &image, place)?;
    match &reply.value {
        Value::One(file) => {
            let (dir, name) = (file.parent, file.name.bytes());
            print_macbinary(rt, image, place.image.path, dir, name)
        }
        _ => print_code(rt, &reply),
    }
}

/// The reply about the file that a path leads to, or the reply that refuses it.
fn file_at<'a, F: Read + Seek + Drop>(
    rt: &HostRuntime,
    image: &PartImage<F>,
    place: &PathWords<'a>,
) -> Result<Reply, Fault<'a>> {
    match file_path_reply(rt.alloc(), image, place.path) {
        Ok(reply) => Ok(reply),
        Err(_) => Err(Fault::NoMemory),
    }
}

/// Prints the bytes of a file's fork of an opened image, piece by piece while they are read, or the code of the call that was
/// refused.
fn print_fork<'a, F: Read + Seek + Drop>(
    rt: &HostRuntime,
    image: PartImage<F>,
    path: &'a str,
    dir: u32,
    name: &[u8],
    fork: Fork,
) -> Result<u8, Fault<'a>> {
    let (told, _) = image.write_fork(rt.alloc(), dir, name, fork, &mut rt.stdout());
    match told {
        Ok(told) => print_refusal(rt, told),
        Err(fault) => Err(Fault::of_copy(fault, path)),
    }
}

/// Prints the code of the call that refused a fork, if it was not written.
fn print_refusal(rt: &HostRuntime, told: Result<(), Reply>) -> Result<u8, Fault<'static>> {
    match told {
        Ok(()) => Ok(Status::Done.number()),
        Err(reply) => print_code(rt, &reply),
    }
}

/// Prints a file of an opened image with both forks, or the code of the call that was refused.
fn print_macbinary<'a, F: Read + Seek + Drop>(
    rt: &HostRuntime,
    image: PartImage<F>,
    path: &'a str,
    dir: u32,
    name: &[u8],
) -> Result<u8, Fault<'a>> {
    match image.file(rt.alloc(), dir, name) {
        Ok((found, _)) => print_found(rt, found),
        Err(fault) => Err(Fault::of_sparse(fault, path)),
    }
}

/// Prints a file with both forks, or the code of the call that was refused.
fn print_found(rt: &HostRuntime, found: Result<NeededFile, Reply>) -> Result<u8, Fault<'static>> {
    match found {
        Ok(file) => print_file(rt, &file),
        Err(reply) => print_code(rt, &reply),
    }
}

/// Prints a file with both forks, or the code of a reply that describes no file.
fn print_file(rt: &HostRuntime, file: &NeededFile) -> Result<u8, Fault<'static>> {
    let code = put_macbinary(&mut rt.stdout(), &file.told, &file.data, &file.resource)?;
    if code == 0 {
        Ok(Status::Done.number())
    } else {
        print_code(rt, &file.told)
    }
}

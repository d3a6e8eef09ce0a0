//! The word `ls`: a line for each child of a folder.

use crate::places::{IMAGE, ImageWords, PATH, PathWords, VOLUME, image_words};
use crate::printing::{print_code, print_told};
use crate::remaining::{look_at, show_folder};
use crate::word::Word;
use clap::ArgMatches;
use hfs_commands::{Fault, PartImage, open_seen, path_reply, seen_list_text};
use hfs_console::{Argument, Declaration, Takes, WordsFault};
use hfs_model::Value;
use std::alloc::Global;
use std::io::{Read, Seek};
use std::sync::Wait;
use std::thread::Threads;

/// The ID of a folder; by default the root's.
const DIR: Argument = Argument {
    name: "DIR",
    takes: Takes::NumberOr("2"),
    help: "The folder's ID; 2 is the root",
    excludes: &[],
};

const COMMAND: Declaration = Declaration {
    name: "ls",
    about: "Prints a line for each item in a folder: kind, ID, number of items or data length, 0 or resource length, name",
    usage: Some("hfs_tool ls [OPTIONS] <IMAGE> [DIR | --path <PATH>]"),
    after_help: None,
    arguments: &[IMAGE, DIR, PATH, VOLUME],
};

/// `ls IMAGE [DIR | --path PATH] [--volume N]`.
#[derive(Clone, Copy)]
pub struct Ls<'a> {
    image: ImageWords<'a>,
    folder: Folder<'a>,
}

/// How the folder is named.
#[derive(Clone, Copy)]
enum Folder<'a> {
    /// By its ID.
    Numbered(u32),
    /// By its path.
    At(&'a str),
}

impl<'a> Word<'a> for Ls<'a> {
    const DECLARATION: Declaration = COMMAND;

    fn read(_alloc: Global, matches: &ArgMatches<'a>) -> Result<Ls<'a>, WordsFault> {
        let image = image_words(IMAGE, matches)?;
        let folder = match PATH.given_text(matches) {
            Some(path) => Folder::At(path),
            None => Folder::Numbered(DIR.number(matches)?),
        };
        Ok(Ls { image, folder })
    }

    fn looked_at(&self) -> Option<ImageWords<'a>> {
        Some(self.image)
    }

    fn obey<T: Threads + Wait + Sync>(
        &self,
        rt: &HostRuntime,
        _threads: &T,
    ) -> Result<u8, Fault<'a>> {
        let image = self.image;
        match self.folder {
            Folder::Numbered(dir) => list_numbered(rt, image, dir),
            Folder::At(path) => list_at(rt, &PathWords { image, path }),
        }
    }
}

/// Prints the children of the folder with this ID.
fn list_numbered<'a>(rt: &HostRuntime, image: ImageWords<'a>, dir: u32) -> Result<u8, Fault<'a>> {
    let image = open_seen(rt, image.path, image.volume)?;
    print_told(rt, seen_list_text(rt.alloc(), &image, dir))
}

/// Prints the children of the folder that a path leads to, or the code that refuses the path; or the rows of that folder, if the
/// image is refused.
fn list_at<'a>(rt: &HostRuntime, place: &PathWords<'a>) -> Result<u8, Fault<'a>> {
    match look_at(rt, place.image)? {
        Ok(image) => list_in(rt, place, &image),
        Err(refused) => show_folder(rt, place, refused),
    }
}

/// Prints the children of the folder of a sound image that a path leads to, or the code that refuses the path.
fn list_in<F: Read + Seek + Drop>(
    rt: &HostRuntime,
    place: &PathWords<'_>,
    image: &PartImage<F>,
) -> Result<u8, Fault<'static>> {
    let Ok(reply) = path_reply(rt.alloc(), image, place.path) else {
        return Err(Fault::NoMemory);
    };
    match &reply.value {
        Value::One(folder) => print_told(rt, seen_list_text(rt.alloc(), image, folder.id)),
        _ => print_code(rt, &reply),
    }
}

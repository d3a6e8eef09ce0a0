//! What the program is asked for, read from the command line.

use crate::reading_page::{PageWords, page_command, page_words};
use crate::reading_rows::{RowsWords, rows_command, rows_words};
use clap::{ArgMatches, Command, Error};
use hfs_console::{Argument, Declaration, NoValue, Program, Takes, VERSION, WordsFault, with_word};
use std::alloc::{AllocError, Global};

/// What the program is asked for.
#[derive(Drop)]
pub enum Words<'a> {
    /// Images in a database.
    Collect(CollectWords<'a>),
    /// A page of a database.
    Page(PageWords<'a>),
    /// The rows of images as text.
    Rows(RowsWords<'a>),
}

/// Images, and the database in which they are collected.
#[derive(Drop)]
pub struct CollectWords<'a> {
    /// The path of the database.
    pub database: &'a str,
    /// The paths of the images.
    pub images: Vec<&'a str>,
    /// Whether digests are taken.
    pub takes_digests: bool,
    /// Whether the images are only compared to what the database has about them.
    pub compares: bool,
}

/// The path of the database.
const DATABASE: Argument = Argument {
    name: "DATABASE",
    takes: Takes::Text,
    help: "The SQLite file; it is made if it doesn't exist",
    excludes: &[],
};

/// The images that are collected; only a comparison can do without them.
const IMAGES: Argument = Argument {
    name: "IMAGE",
    takes: Takes::Texts { unless: "compare" },
    help: "The images, by their paths; with --compare, all that are in the database if none is given",
    excludes: &[],
};

/// The choice of no digests.
const NO_DIGEST: Argument = Argument {
    name: "no-digest",
    takes: Takes::Flag,
    help: "Leaves out the SHA-256 digests of images and forks",
    excludes: &[],
};

/// The choice of a comparison.
const COMPARE: Argument = Argument {
    name: "compare",
    takes: Takes::Flag,
    help: "Reports which images are missing, new, changed or the same, and changes no row",
    excludes: &["no-digest"],
};

/// What the help says after the arguments.
const COLLECTIONS: &str = "For each image a line is printed: its path, how many volumes it has, how
many of these are refused, how many files there are, and how many of
them are damaged. An image that was collected before, by the same path,
is read again. Of a volume that is refused, the database has what
hfs_tool rescue finds, with a verdict on each fork.

The tables are image, volume and item; docs/MANUAL.md has questions that
they answer. An image that can't be read out of order, such as a pipe,
is held in memory while it is collected.

With --compare a line is printed for each image: missing, new, changed,
same, or 'same length' if the database has no digest of it.

Exit statuses:
  0  done
  1  the command line is refused
  3  with --compare an image is missing or changed
  4  an image could not be read, or the database could not be opened or
     written
  5  out of memory

Examples:
  hfs_collect disks.db disk.img hard_disk.img
  hfs_collect disks.db --no-digest images/*.img
  hfs_collect disks.db --compare
  hfs_collect disks.db --compare disk.img
  hfs_collect page disks.db > disks.html";

/// The program, without its words.
const COLLECT: Program = Program {
    declaration: Declaration {
        name: "hfs_collect",
        about: "Collects images of Macintosh disks, with their HFS volumes and all items, in one SQLite database, or compares them with it",
        usage: None,
        after_help: Some(COLLECTIONS),
        arguments: &[DATABASE, IMAGES, NO_DIGEST, COMPARE],
    },
    version: VERSION,
};

/// The program's command, with its words: only the first word may be one of them.
fn command<'a>(alloc: Global) -> Result<Command<'a>, AllocError> {
    let bare = COLLECT
        .command(alloc)?
        .args_conflicts_with_subcommands(true);
    with_word(
        with_word(Ok(bare), rows_command(alloc)),
        page_command(alloc),
    )
}

/// Reads the command line, whose first word is the program's own name.
pub fn read_words<'a>(alloc: Global, words: &'a [String]) -> Result<Words<'a>, WordsFault> {
    let matches = matches_of(alloc, words)?;
    match matches.subcommand() {
        Some(("page", inner)) => Ok(Words::Page(page_words(inner)?)),
        Some(("rows", inner)) => Ok(Words::Rows(rows_words(alloc, inner)?)),
        Some(_) => Err(WordsFault::from(NoValue("COMMAND"))),
        None => Ok(Words::Collect(words_of(alloc, &matches)?)),
    }
}

/// What the program's command finds in the command line.
fn matches_of<'a>(alloc: Global, words: &'a [String]) -> Result<ArgMatches<'a>, Error> {
    command(alloc)?.try_get_matches_from(words)
}

/// What the command line asks for, from what was found in it.
fn words_of<'a>(alloc: Global, matches: &ArgMatches<'a>) -> Result<CollectWords<'a>, WordsFault> {
    let database = DATABASE.text(matches)?;
    let takes_digests = !NO_DIGEST.is_given(matches)?;
    let compares = COMPARE.is_given(matches)?;
    Ok(CollectWords {
        database,
        images: IMAGES.texts(alloc, matches)?,
        takes_digests,
        compares,
    })
}

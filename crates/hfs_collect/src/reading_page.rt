//! The word `page`, from the command line to what it asks for.

use clap::{ArgMatches, Command};
use hfs_console::{Argument, Declaration, NoValue, Takes};
use std::alloc::{AllocError, Global};

/// A database whose page is printed.
#[derive(Clone, Copy, Drop)]
pub struct PageWords<'a> {
    /// The path of the database.
    pub database: &'a str,
    /// The URL of the folder with the pages of disks.
    pub base: Option<&'a str>,
}

/// The path of the database, which must already be one.
const DATABASE: Argument = Argument {
    name: "DATABASE",
    takes: Takes::Text,
    help: "The SQLite file that the images were collected in",
    excludes: &[],
};

/// The URL of the folder of pages.
const BASE: Argument = Argument {
    name: "base",
    takes: Takes::TextOption { value: "URL" },
    help: "Links each image's path to its page below this URL, which begins with http: or https:, or is relative",
    excludes: &[],
};

/// What the help says after the arguments.
const PAGE_HELP: &str = "The page is one self-contained HTML document: it loads nothing from
elsewhere, and can be put on a web site as it is. It has a line for each
volume: its image, its name, how many files there are and how many of
them are damaged, its free space, when it was created and modified, and
its verdict. Below is a list of the fork contents that are on the most
volumes, at most 1,000: one path of each, its bytes and its digest.

With --base URL the page of images/disk.img is URL/images/disk.img.html,
made by hfs_tool page. If an image has several volumes, the page of the
N-th is URL/images/disk.img.N.html.";

/// The word `page`.
const PAGE: Declaration = Declaration {
    name: "page",
    about: "Prints an HTML page about a collection: its volumes, and what is on several of them",
    usage: None,
    after_help: Some(PAGE_HELP),
    arguments: &[DATABASE, BASE],
};

/// The command of `page`.
pub fn page_command<'a>(alloc: Global) -> Result<Command<'a>, AllocError> {
    PAGE.command(alloc)
}

/// What `page` asks for.
pub fn page_words<'a>(matches: &ArgMatches<'a>) -> Result<PageWords<'a>, NoValue> {
    Ok(PageWords {
        database: DATABASE.text(matches)?,
        base: BASE.given_text(matches),
    })
}

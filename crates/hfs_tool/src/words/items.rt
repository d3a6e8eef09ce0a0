//! The word `items`: a line for each item of a volume.

use crate::places::{IMAGE, ImageWords, VOLUME, image_words};
use crate::remaining::{look_at, show_items};
use crate::word::Word;
use clap::ArgMatches;
use hfs_commands::{Fault, Format, PartImage, Status, write_items};
use hfs_console::{Argument, Declaration, NoValue, Takes, WordsFault};
use std::alloc::Global;
use std::io::{Read, Seek};
use std::sync::Wait;
use std::thread::Threads;

/// The format of a table; with tabs by default.
const FORMAT: Argument = Argument {
    name: "format",
    takes: Takes::ChoiceOption {
        value: "FORMAT",
        choices: &["tab", "csv", "json"],
        default: "tab",
    },
    help: "Tab-separated fields, CSV with a header, or a JSON object per line",
    excludes: &[],
};

/// What the columns of the table are.
const COLUMNS: &str = "The columns:
  path                        names from the volume down to the item,
                              separated by colons
  kind, id, parent            folder or file; its ID; its folder's ID
  type, creator               of a file, four characters each
  flags                       the Finder's flags, four hex digits
  locked, file_id             of a file: yes or no
  created, modified, backup   as 1999-12-31T23:59:59, without a time
                              zone; empty for no date
  items                       of a folder: how many items are in it
  data_bytes, resource_bytes  of a file: the lengths of its forks
  finder                      all 32 bytes of the Finder, hexadecimal

In tab and CSV a character below 32, DEL and the backslash are printed
as a backslash and two hexadecimal digits. In JSON path, type and
creator have the characters themselves, numbers are numbers, yes and no
are true and false, and an empty field is null.

If the volume is refused, there is a row for each item that rescue
finds, and then, on standard error, why it is refused; the exit status
is that of rescue. The columns items and file_id are empty then, and so
is the path of an item that is old or lost.

A spreadsheet takes a name that begins with = + - or @ for a formula:
import the columns of the file as text.";

const COMMAND: Declaration = Declaration {
    name: "items",
    about: "Prints a table of all items of the volume: the root first, and each folder followed by what is in it",
    usage: None,
    after_help: Some(COLUMNS),
    arguments: &[IMAGE, FORMAT, VOLUME],
};

/// `items IMAGE [--format tab|csv|json] [--volume N]`.
#[derive(Clone, Copy)]
pub struct Items<'a> {
    image: ImageWords<'a>,
    format: Format,
}

impl<'a> Word<'a> for Items<'a> {
    const DECLARATION: Declaration = COMMAND;

    fn read(_alloc: Global, matches: &ArgMatches<'a>) -> Result<Items<'a>, WordsFault> {
        Ok(Items {
            image: image_words(IMAGE, matches)?,
            format: format_of(matches)?,
        })
    }

    fn looked_at(&self) -> Option<ImageWords<'a>> {
        Some(self.image)
    }

    /// Prints the table of the volume's items, or of what is found of it if it is refused.
    fn obey<T: Threads + Wait + Sync>(
        &self,
        rt: &HostRuntime,
        _threads: &T,
    ) -> Result<u8, Fault<'a>> {
        match look_at(rt, self.image)? {
            Ok(image) => print_table(rt, &image, self.format),
            Err(refused) => show_items(rt, self.image, self.format, refused),
        }
    }
}

/// The format that is asked for.
fn format_of(matches: &ArgMatches<'_>) -> Result<Format, NoValue> {
    match FORMAT.text(matches)? {
        "tab" => Ok(Format::Tab),
        "csv" => Ok(Format::Csv),
        "json" => Ok(Format::Json),
        _ => Err(NoValue(FORMAT.name)),
    }
}

/// Prints the table of an opened image's items.
fn print_table<F: Read + Seek + Drop>(
    rt: &HostRuntime,
    image: &PartImage<F>,
    format: Format,
) -> Result<u8, Fault<'static>> {
    write_items(rt.alloc(), &mut rt.stdout(), image, format)?;
    Ok(Status::Done.number())
}

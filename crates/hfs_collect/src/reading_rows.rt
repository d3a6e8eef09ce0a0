//! The word `rows`, from the command line to what it asks for.

use clap::{Arg, ArgAction, ArgMatches, Command};
use hfs_console::{Argument, Declaration, NoValue, Takes, WordsFault};
use hfs_word_collect::{Form, Table};
use std::alloc::{AllocError, Global};

/// Images whose rows are printed as text.
#[derive(Drop)]
pub struct RowsWords<'a> {
    /// The paths of the images.
    pub images: Vec<&'a str>,
    /// Which rows are written, and how.
    pub form: Form,
    /// Whether digests are taken.
    pub takes_digests: bool,
}

/// The images, at least one.
const IMAGES: Argument = Argument {
    name: "IMAGE",
    takes: Takes::Text,
    help: "The images, by their paths",
    excludes: &[],
};

/// The format of the rows.
const FORMAT: Argument = Argument {
    name: "format",
    takes: Takes::ChoiceOption {
        value: "FORMAT",
        choices: &["csv", "jsonl"],
        default: "jsonl",
    },
    help: "A JSON object per line, or CSV of one table with a header",
    excludes: &[],
};

/// The table whose rows are the only ones written.
const TABLE: &str = "table";

/// The names of the tables.
const TABLES: &[&str] = &["image", "volume", "item"];

/// The choice of no digests.
const NO_DIGEST: Argument = Argument {
    name: "no-digest",
    takes: Takes::Flag,
    help: "Leaves out the SHA-256 digests of images and forks",
    excludes: &[],
};

/// What the help says after the arguments.
const ROWS_HELP: &str = "The rows are those that the database would have, with keys that are
valid without one: image_path and image_sha256 of volumes and items, and
volume_number of items. Without --table the lines of an image come
together, each with its table first, followed by a line of the table
end: there whole is 1, or 0 if the image could be read only in part. So
load only images whose whole is 1. What is NULL in the database is null,
and in CSV an empty field; an empty text is \"\".

An image that can't be read is reported on standard error, and the next
one is read; the exit status is 4.";

/// The word `rows`.
const ROWS: Declaration = Declaration {
    name: "rows",
    about: "Prints the rows of images, their volumes and all items as text, for other databases",
    usage: None,
    after_help: Some(ROWS_HELP),
    arguments: &[FORMAT, NO_DIGEST],
};

/// The images as an argument.
fn images_argument<'a>(alloc: Global) -> Result<Arg<'a>, AllocError> {
    let bare = Arg::new(alloc, IMAGES.name).help(IMAGES.help);
    Ok(several(bare))
}

/// An argument that takes values, at least one.
fn several<'a>(argument: Arg<'a>) -> Arg<'a> {
    argument
        .action(ArgAction::Append)
        .num_args(1..)
        .required(true)
}

/// The table as an argument, which CSV requires.
fn table_argument<'a>(alloc: Global) -> Result<Arg<'a>, AllocError> {
    Arg::new(alloc, TABLE)
        .help("Prints only the rows of this table; required for CSV")
        .long(TABLE)
        .value_name("TABLE")
        .value_parser(TABLES)
        .required_if_eq(FORMAT.name, "csv")
}

/// The command of `rows`.
pub fn rows_command<'a>(alloc: Global) -> Result<Command<'a>, AllocError> {
    let with_images = ROWS.command(alloc)?.arg(images_argument(alloc)?)?;
    with_images.arg(table_argument(alloc)?)
}

/// What `rows` asks for.
pub fn rows_words<'a>(
    alloc: Global,
    matches: &ArgMatches<'a>,
) -> Result<RowsWords<'a>, WordsFault> {
    let form = form_of(matches)?;
    let takes_digests = !NO_DIGEST.is_given(matches)?;
    Ok(RowsWords {
        images: IMAGES.texts(alloc, matches)?,
        form,
        takes_digests,
    })
}

/// Which rows are asked for, and how.
fn form_of(matches: &ArgMatches<'_>) -> Result<Form, NoValue> {
    let is_csv = FORMAT.text(matches)? == "csv";
    match table_of(matches)? {
        Some(table) if is_csv => Ok(Form::Csv(table)),
        Some(table) => Ok(Form::Json(table)),
        None if is_csv => Err(NoValue(TABLE)),
        None => Ok(Form::All),
    }
}

/// The table that is asked for, if any.
fn table_of(matches: &ArgMatches<'_>) -> Result<Option<Table>, NoValue> {
    match matches.get_str(TABLE) {
        Some("image") => Ok(Some(Table::Image)),
        Some("volume") => Ok(Some(Table::Volume)),
        Some("item") => Ok(Some(Table::Item)),
        Some(_) => Err(NoValue(TABLE)),
        None => Ok(None),
    }
}

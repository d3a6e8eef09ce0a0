//! The formats of the table.
ghost use Rattle.std.specs.Prelude.{◌≡◌, ◌++◌, OnOk};
ghost use Rattle.hfs_table.specs.Lines.{head_text, row_text};

use crate::csv_line::{push_csv_head, push_csv_line};
use crate::json_line::push_json_line;
use crate::tab_line::push_tab_line;
use hfs_fields::Name;
use hfs_model::Info;
use std::alloc::{AllocError, Global};

/// How the table is written.
#[derive(Clone, Copy, Debug, PartialEq, Eq)]
pub enum Format {
    /// Fields separated by tabs, and no head.
    Tab,
    /// RFC 4180: a head of column names, lines that end with CR LF.
    Csv,
    /// An object per line, and no head.
    Json,
}

/// Appends what precedes the first row. At an error, a part of it may have been appended.
pub fn push_head(text: &mut Vec<u8>, format: Format) -> Result<(), AllocError>
    ensures { OnOk result (text.new.items ≡ text.old.items ++ head_text format) }
{
    match format {
        Format::Tab | Format::Json => Ok(()),
        Format::Csv => push_csv_head(text),
    }
}

/// Appends the row of an item, from the names that lead to it, starting with the root's. At an error, a part of it may have been
/// appended.
pub fn push_row(
    alloc: Global,
    text: &mut Vec<u8>,
    format: Format,
    names: &[Name],
    info: &Info,
) -> Result<(), AllocError>
    ensures { OnOk result (text.new.items
        ≡ text.old.items ++ row_text format names.now info.now) }
{
    match format {
        Format::Tab => push_tab_line(alloc, text, names, info),
        Format::Csv => push_csv_line(alloc, text, names, info),
        Format::Json => push_json_line(alloc, text, names, info),
    }
}

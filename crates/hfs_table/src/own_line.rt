//! The row of an item of which only its own record is known, in each format.
ghost use Rattle.std.specs.Prelude.{◌≡◌, ◌++◌, OnOk};
ghost use Rattle.hfs_table.specs.Adds.{Adds};
ghost use Rattle.hfs_table.specs.OwnLines.{null_member, own_csv_line, own_json_line, own_members, own_object, own_row_text, own_tab_line, path_member};

use crate::cells::{USUAL, push_field};
use crate::column::{BEFORE_FILE_ID, BEHIND_ITEMS, Column, DATES, column_name};
use crate::csv_line::push_own_fields;
use crate::format::Format;
use crate::json_line::{put_members, put_path};
use crate::tab_line::push_tabbed;
use hfs_fields::Name;
use hfs_model::Info;
use json::Writer;
use std::alloc::{AllocError, Global};

/// Appends the row, with tabs between its fields.
#[tactic(auto, unfolding(crate::specs::OwnLines::own_tab_line))]
fn push_own_tab_line(
    alloc: Global,
    text: &mut Vec<u8>,
    names: &[Name],
    info: &Info,
) -> Result<(), AllocError>
    ensures { OnOk result (text.new.items ≡ text.old.items ++ own_tab_line names.now info.now) }
{
    let mut line = String::with_capacity(alloc, USUAL)?;
    push_field(&mut line, Column::Path, names, info)?;
    push_tabbed(&mut line, &BEFORE_FILE_ID, names, info)?;
    line.push('\t')?;
    push_tabbed(&mut line, &DATES, names, info)?;
    line.push('\t')?;
    push_tabbed(&mut line, &BEHIND_ITEMS, names, info)?;
    line.push('\n')?;
    text.extend_from_slice(line.as_bytes())
}

/// Appends the row in CSV.
fn push_own_csv_line(
    alloc: Global,
    text: &mut Vec<u8>,
    names: &[Name],
    info: &Info,
) -> Result<(), AllocError>
    ensures { OnOk result (text.new.items ≡ text.old.items ++ own_csv_line names.now info.now) }
{
    push_own_fields(alloc, text, names, info)?;
    text.extend_from_slice(b"\r\n")
}

/// Puts the member of the path.
fn put_path_member(alloc: Global, writer: &mut Writer, names: &[Name]) -> Result<(), AllocError>
    ensures { Adds result writer.old writer.new (path_member names.now) }
{
    writer.key(column_name(Column::Path))?;
    match names {
        [] => writer.null(),
        [_, ..] => put_path(alloc, writer, names),
    }
}

/// Puts the member of a column without a value.
fn put_null_member(writer: &mut Writer, column: Column) -> Result<(), AllocError>
    ensures { Adds result writer.old writer.new (null_member column) }
{
    writer.key(column_name(column))?;
    writer.null()
}

/// Puts the members after that of the path.
#[tactic(auto, unfolding(crate::specs::OwnLines::own_members))]
fn put_own_members(
    alloc: Global,
    writer: &mut Writer,
    names: &[Name],
    info: &Info,
) -> Result<(), AllocError>
    ensures { Adds result writer.old writer.new (own_members names.now info.now) }
{
    put_members(alloc, writer, &BEFORE_FILE_ID, names, info)?;
    put_null_member(writer, Column::FileId)?;
    put_members(alloc, writer, &DATES, names, info)?;
    put_null_member(writer, Column::Items)?;
    put_members(alloc, writer, &BEHIND_ITEMS, names, info)
}

/// Puts the item's object.
#[tactic(auto, unfolding(crate::specs::OwnLines::own_object))]
fn put_own_object(
    alloc: Global,
    writer: &mut Writer,
    names: &[Name],
    info: &Info,
) -> Result<(), AllocError>
    ensures { Adds result writer.old writer.new (own_object names.now info.now) }
{
    writer.begin_object()?;
    put_path_member(alloc, writer, names)?;
    put_own_members(alloc, writer, names, info)?;
    writer.end_object()
}

/// Appends the row in JSON.
#[tactic(auto, unfolding(crate::specs::OwnLines::own_json_line))]
fn push_own_json_line(
    alloc: Global,
    text: &mut Vec<u8>,
    names: &[Name],
    info: &Info,
) -> Result<(), AllocError>
    ensures { OnOk result (text.new.items ≡ text.old.items ++ own_json_line names.now info.now) }
{
    let mut writer = Writer::new(Vec::with_capacity(alloc, USUAL)?);
    put_own_object(alloc, &mut writer, names, info)?;
    text.extend_from_slice(&writer.into_inner())?;
    text.extend_from_slice(b"\n")
}

/// Appends the row of an item of which only its own record is known: whether it has a thread and how many items are in it stay
/// empty, and so does the path if no names lead to it. At an error, a part of the row may have been appended.
pub fn push_own_row(
    alloc: Global,
    text: &mut Vec<u8>,
    format: Format,
    names: &[Name],
    info: &Info,
) -> Result<(), AllocError>
    ensures { OnOk result (text.new.items
        ≡ text.old.items ++ own_row_text format names.now info.now) }
{
    match format {
        Format::Tab => push_own_tab_line(alloc, text, names, info),
        Format::Csv => push_own_csv_line(alloc, text, names, info),
        Format::Json => push_own_json_line(alloc, text, names, info),
    }
}

//! A row in JSON, an object on a line of its own.
ghost use Rattle.std.specs.Prelude.{◌≡◌, ◌++◌, ◌∷◌, [], OnOk, IfOk, flat_map, string_bytes};
ghost use Rattle.json.specs.Token.{string, boolean, null};
ghost use Rattle.json.specs.Token as token;
ghost use Rattle.hfs_texts.specs.Digits.{hex_text};
ghost use Rattle.hfs_texts.specs.Moments.{moment};
ghost use Rattle.hfs_table.specs.Adds.{Adds};
ghost use Rattle.hfs_table.specs.Cells.{cell_value, characters, flag, number, path};
ghost use Rattle.hfs_table.specs.Columns.{cell, moment_cell, of_file, of_folder};
ghost use Rattle.hfs_table.specs.Lines.{json_line, member, object};

use crate::cells::{USUAL, kind_word};
use crate::column::{BEHIND_PATH, Column, column_name};
use hfs_fields::Name;
use hfs_model::{Info, ItemKind};
use hfs_texts::{push_characters, push_hex, push_mac_path_characters, push_moment};
use json::Writer;
use std::alloc::{AllocError, Global};

/// How many bytes most paths and all other texts of a row take.
const USUAL_TEXT: usize = 128;

pub(crate) fn put_path(alloc: Global, writer: &mut Writer, names: &[Name]) -> Result<(), AllocError>
    ensures { Adds result writer.old writer.new (cell_value (path names.now) ∷ []) }
{
    let mut text = String::with_capacity(alloc, USUAL_TEXT)?;
    push_mac_path_characters(&mut text, names)?;
    writer.string(text.as_str())
}

/// Puts the characters of bytes, for a file only.
fn put_of_file(
    alloc: Global,
    writer: &mut Writer,
    kind: ItemKind,
    bytes: &[u8],
) -> Result<(), AllocError>
    ensures { Adds result writer.old writer.new
        (cell_value (of_file kind (characters bytes.now)) ∷ []) }
{
    match kind {
        ItemKind::Folder => writer.null(),
        ItemKind::File => {
            let mut text = String::with_capacity(alloc, USUAL_TEXT)?;
            push_characters(&mut text, bytes)?;
            writer.string(text.as_str())
        }
    }
}

fn put_hex(alloc: Global, writer: &mut Writer, bytes: &[u8]) -> Result<(), AllocError>
    ensures { Adds result writer.old writer.new (string (hex_text bytes.now) ∷ []) }
{
    let mut text = String::with_capacity(alloc, USUAL_TEXT)?;
    push_hex(&mut text, bytes)?;
    writer.string(text.as_str())
}

fn put_flag(writer: &mut Writer, kind: ItemKind, is_set: bool) -> Result<(), AllocError>
    ensures { Adds result writer.old writer.new (cell_value (of_file kind (flag is_set)) ∷ []) }
{
    match kind {
        ItemKind::Folder => writer.null(),
        ItemKind::File => writer.boolean(is_set),
    }
}

fn put_moment(alloc: Global, writer: &mut Writer, date: u32) -> Result<(), AllocError>
    ensures { Adds result writer.old writer.new (cell_value (moment_cell date) ∷ []) }
{
    if date == 0 {
        return writer.null();
    }
    let mut text = String::with_capacity(alloc, USUAL_TEXT)?;
    push_moment(&mut text, date)?;
    writer.string(text.as_str())
}

fn put_length(writer: &mut Writer, kind: ItemKind, length: u32) -> Result<(), AllocError>
    ensures { Adds result writer.old writer.new (cell_value (of_file kind (number length)) ∷ []) }
{
    match kind {
        ItemKind::Folder => writer.null(),
        ItemKind::File => writer.u64(u64::from(length)),
    }
}

fn put_valence(writer: &mut Writer, kind: ItemKind, valence: u32) -> Result<(), AllocError>
    ensures { Adds result writer.old writer.new
        (cell_value (of_folder kind (number valence)) ∷ []) }
{
    match kind {
        ItemKind::Folder => writer.u64(u64::from(valence)),
        ItemKind::File => writer.null(),
    }
}

/// Puts the value of a column.
fn put_value(
    alloc: Global,
    writer: &mut Writer,
    column: Column,
    names: &[Name],
    info: &Info,
) -> Result<(), AllocError>
    ensures { Adds result writer.old writer.new
        (cell_value (cell column names.now info.now) ∷ []) }
{
    match column {
        Column::Path => put_path(alloc, writer, names),
        Column::Kind => writer.string(kind_word(info.kind)),
        Column::Id => writer.u64(u64::from(info.id)),
        Column::Parent => writer.u64(u64::from(info.parent)),
        Column::Type => put_of_file(alloc, writer, info.kind, &info.finder[..4]),
        Column::Creator => put_of_file(alloc, writer, info.kind, &info.finder[4..8]),
        Column::Flags => put_hex(alloc, writer, &info.finder[8..10]),
        Column::Locked => put_flag(writer, info.kind, info.locked),
        Column::FileId => put_flag(writer, info.kind, info.has_id),
        Column::Created => put_moment(alloc, writer, info.created),
        Column::Modified => put_moment(alloc, writer, info.modified),
        Column::Backup => put_moment(alloc, writer, info.backup),
        Column::Items => put_valence(writer, info.kind, info.valence),
        Column::DataBytes => put_length(writer, info.kind, info.data_len),
        Column::ResourceBytes => put_length(writer, info.kind, info.res_len),
        Column::Finder => put_hex(alloc, writer, &info.finder),
    }
}

/// Puts the member of a column.
fn put_member(
    alloc: Global,
    writer: &mut Writer,
    column: Column,
    names: &[Name],
    info: &Info,
) -> Result<(), AllocError>
    ensures { Adds result writer.old writer.new (member names.now info.now column) }
{
    writer.key(column_name(column))?;
    put_value(alloc, writer, column, names, info)
}

/// Puts the members of columns.
pub(crate) fn put_members(
    alloc: Global,
    writer: &mut Writer,
    columns: &[Column],
    names: &[Name],
    info: &Info,
) -> Result<(), AllocError>
    ensures { Adds result writer.old writer.new
        (flat_map (member names.now info.now) columns.now) }
{
    for column in columns {
        put_member(alloc, writer, *column, names, info)?;
    }
    Ok(())
}

/// Puts an item's object.
#[tactic(auto, unfolding(crate::specs::Lines::object, crate::specs::Columns::columns))]
fn put_object(
    alloc: Global,
    writer: &mut Writer,
    names: &[Name],
    info: &Info,
) -> Result<(), AllocError>
    ensures { Adds result writer.old writer.new (object names.now info.now) }
{
    writer.begin_object()?;
    put_member(alloc, writer, Column::Path, names, info)?;
    put_members(alloc, writer, &BEHIND_PATH, names, info)?;
    writer.end_object()
}

/// Appends a row.
#[tactic(auto, unfolding(crate::specs::Lines::json_line))]
pub(crate) fn push_json_line(
    alloc: Global,
    text: &mut Vec<u8>,
    names: &[Name],
    info: &Info,
) -> Result<(), AllocError>
    ensures { OnOk result (text.new.items ≡ text.old.items ++ json_line names.now info.now) }
{
    let mut writer = Writer::new(Vec::with_capacity(alloc, USUAL)?);
    put_object(alloc, &mut writer, names, info)?;
    text.extend_from_slice(&writer.into_inner())?;
    text.extend_from_slice(b"\n")
}

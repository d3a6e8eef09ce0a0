//! A row in JSON, an object on a line of its own.
ghost use Rattle.std.specs.Prelude.{◌≡◌, ◌++◌, ◌∷◌, [], OnOk, flat_map, map};
ghost use Rattle.std.specs.Option.{option_map_or};
ghost use Rattle.json.specs.Token as token;
ghost use Rattle.hfs_table.specs.Adds.{Adds};
ghost use Rattle.hfs_database.specs.declared.value.RowValue.TheVariants.{Empty};
ghost use Rattle.hfs_database.specs.Columns.{told_column};
ghost use Rattle.hfs_database.specs.RowLines.{json_line, member, object, table_member, value_token};

use crate::RowValue;
use crate::cells::cell;
use crate::column::{Column, Label, label_name};
use crate::keys::Keys;
use crate::line_fault::LineFault;
use json::Writer;
use std::alloc::Global;

/// How many bytes most lines take, so that a line's text grows once.
const USUAL: usize = 1024;

/// Puts a text.
fn put_text(writer: &mut Writer, text: &[u8]) -> Result<(), LineFault>
    ensures { Adds result writer.old writer.new (token.string text.now ∷ []) }
{
    let Ok(text) = std::str::from_utf8(text) else {
        return Err(LineFault::NotText);
    };
    writer.string(text)?;
    Ok(())
}

/// Puts a value, or null if there is none.
fn put_value(writer: &mut Writer, value: Option<&RowValue>) -> Result<(), LineFault>
    ensures { Adds result writer.old writer.new
        (value_token (option_map_or (λ value. value.now) value.entry Empty) ∷ []) }
{
    match value {
        Some(RowValue::Text(text)) => put_text(writer, text.as_slice()),
        Some(RowValue::Number(n)) => {
            writer.u64(*n)?;
            Ok(())
        }
        Some(RowValue::Empty) | None => {
            writer.null()?;
            Ok(())
        }
    }
}

/// Puts a column's member.
fn put_member(
    writer: &mut Writer,
    column: &Column,
    keys: &Keys,
    values: &[RowValue],
) -> Result<(), LineFault>
    ensures { Adds result writer.old writer.new
        (member keys.now values.now (told_column column.now)) }
{
    writer.key(column.name)?;
    put_value(writer, cell(keys, values, column.origin))
}

/// Puts the members of columns.
fn put_members(
    writer: &mut Writer,
    columns: &[Column],
    keys: &Keys,
    values: &[RowValue],
) -> Result<(), LineFault>
    ensures { Adds result writer.old writer.new
        (flat_map (λ column. member keys.now values.now (told_column column)) columns.now) }
{
    for column in columns {
        put_member(writer, column, keys, values)?;
    }
    Ok(())
}

/// Puts the member that says which table a line belongs to, if it is asked for.
fn put_table(writer: &mut Writer, label: Option<Label>) -> Result<(), LineFault>
    ensures { Adds result writer.old writer.new (table_member label) }
{
    match label {
        Some(label) => {
            writer.key("table")?;
            writer.string(label_name(label))?;
            Ok(())
        }
        None => Ok(()),
    }
}

/// Puts a row's object.
fn put_object(
    writer: &mut Writer,
    label: Option<Label>,
    columns: &[Column],
    keys: &Keys,
    values: &[RowValue],
) -> Result<(), LineFault>
    ensures { Adds result writer.old writer.new
        (object label (map told_column columns.now) keys.now values.now) }
{
    writer.begin_object()?;
    put_table(writer, label)?;
    put_members(writer, columns, keys, values)?;
    writer.end_object()?;
    Ok(())
}

/// Appends a row's line. At a fault, a part of it may have been appended.
#[tactic(auto, unfolding(crate::specs::RowLines::json_line))]
pub(crate) fn push_json_line(
    alloc: Global,
    text: &mut Vec<u8>,
    label: Option<Label>,
    columns: &[Column],
    keys: &Keys,
    values: &[RowValue],
) -> Result<(), LineFault>
    ensures { OnOk result (text.new.items ≡ text.old.items ++ json_line label
        (map told_column columns.now) keys.now values.now) }
{
    let mut writer = Writer::new(Vec::with_capacity(alloc, USUAL)?);
    put_object(&mut writer, label, columns, keys, values)?;
    text.extend_from_slice(&writer.into_inner())?;
    text.extend_from_slice(b"\n")?;
    Ok(())
}

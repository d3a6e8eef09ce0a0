//! A row in CSV (RFC 4180).
ghost use Rattle.std.specs.Prelude.{◌≡◌, ◌++◌, OnOk, codes, flat_map};
ghost use Rattle.std.specs.List.{list_any};
ghost use Rattle.hfs_table.specs.Lines.{csv_field, csv_fields, csv_head, csv_line, doubled, field_text, is_quoted_for, own_fields};

use crate::cells::{USUAL, push_field};
use crate::column::{BEFORE_FILE_ID, BEHIND_ITEMS, BEHIND_PATH, Column, DATES};
use hfs_fields::Name;
use hfs_model::Info;
use std::alloc::{AllocError, Global};

/// Appends the head: the names of the columns.
#[tactic(auto, unfolding(crate::specs::Lines::csv_head, crate::specs::Columns::columns))]
pub(crate) fn push_csv_head(text: &mut Vec<u8>) -> Result<(), AllocError>
    ensures { OnOk result (text.new.items ≡ text.old.items ++ csv_head) }
{
    text.extend_from_slice(b"path,kind,id,parent,type,creator,flags,locked,file_id,")?;
    text.extend_from_slice(b"created,modified,backup,items,data_bytes,resource_bytes,finder\r\n")
}

/// Whether a field that holds this byte is quoted.
#[tactic(auto, unfolding(crate::specs::Lines::is_quoted_for))]
fn is_quoted_for(byte: u8) -> bool
    ensures { result ≡ is_quoted_for byte }
{
    byte == b',' || byte == b'"'
}

fn is_quoted(field: &[u8]) -> bool
    ensures { result ≡ list_any is_quoted_for field.now }
{
    field.iter().any(|byte| is_quoted_for(*byte))
}

/// Appends a byte of a quoted field: a quotation mark twice.
#[tactic(auto, unfolding(crate::specs::Lines::doubled))]
fn push_doubled(text: &mut Vec<u8>, byte: u8) -> Result<(), AllocError>
    ensures { OnOk result (text.new.items ≡ text.old.items ++ doubled byte) }
{
    if byte == b'"' {
        return text.extend_from_slice(b"\"\"");
    }
    text.extend_from_slice(&[byte])
}

fn push_all_doubled(text: &mut Vec<u8>, field: &[u8]) -> Result<(), AllocError>
    ensures { OnOk result (text.new.items ≡ text.old.items ++ flat_map doubled field.now) }
{
    for byte in field {
        push_doubled(text, *byte)?;
    }
    Ok(())
}

/// Appends a field, in quotation marks if it has a comma or a quotation mark.
#[tactic(auto, unfolding(crate::specs::Lines::csv_field))]
pub(crate) fn push_csv_field(text: &mut Vec<u8>, field: &[u8]) -> Result<(), AllocError>
    ensures { OnOk result (text.new.items ≡ text.old.items ++ csv_field field.now) }
{
    if !is_quoted(field) {
        return text.extend_from_slice(field);
    }
    text.extend_from_slice(b"\"")?;
    push_all_doubled(text, field)?;
    text.extend_from_slice(b"\"")
}

/// Appends the field of a column. The other text is only there to be reused for the field.
fn push_column(
    text: &mut Vec<u8>,
    field: &mut String,
    column: Column,
    names: &[Name],
    info: &Info,
) -> Result<(), AllocError>
    ensures { OnOk result (text.new.items
        ≡ text.old.items ++ csv_field (field_text names.now info.now column)) }
{
    field.clear();
    push_field(field, column, names, info)?;
    push_csv_field(text, field.as_bytes())
}

/// Appends the fields of columns, each after a comma.
fn push_columns(
    text: &mut Vec<u8>,
    field: &mut String,
    columns: &[Column],
    names: &[Name],
    info: &Info,
) -> Result<(), AllocError>
    ensures { OnOk result (text.new.items ≡ text.old.items
        ++ flat_map (λ column. codes "," ++ csv_field (field_text names.now info.now column))
        columns.now) }
{
    for column in columns {
        text.extend_from_slice(b",")?;
        push_column(text, field, *column, names, info)?;
    }
    Ok(())
}

/// Appends the fields of a row.
#[tactic(auto, unfolding(crate::specs::Lines::csv_fields, crate::specs::Columns::columns))]
pub(crate) fn push_csv_fields(
    alloc: Global,
    text: &mut Vec<u8>,
    names: &[Name],
    info: &Info,
) -> Result<(), AllocError>
    ensures { OnOk result (text.new.items ≡ text.old.items ++ csv_fields names.now info.now) }
{
    let mut field = String::with_capacity(alloc, USUAL)?;
    push_column(text, &mut field, Column::Path, names, info)?;
    push_columns(text, &mut field, &BEHIND_PATH, names, info)
}

/// Appends a row.
pub(crate) fn push_csv_line(
    alloc: Global,
    text: &mut Vec<u8>,
    names: &[Name],
    info: &Info,
) -> Result<(), AllocError>
    ensures { OnOk result (text.new.items ≡ text.old.items ++ csv_line names.now info.now) }
{
    push_csv_fields(alloc, text, names, info)?;
    text.extend_from_slice(b"\r\n")
}

/// Appends the fields of an item of which only its own record is known: whether it has a thread and how many items are in it stay
/// empty.
#[tactic(auto, unfolding(crate::specs::Lines::own_fields))]
pub(crate) fn push_own_fields(
    alloc: Global,
    text: &mut Vec<u8>,
    names: &[Name],
    info: &Info,
) -> Result<(), AllocError>
    ensures { OnOk result (text.new.items ≡ text.old.items ++ own_fields names.now info.now) }
{
    let mut field = String::with_capacity(alloc, USUAL)?;
    push_column(text, &mut field, Column::Path, names, info)?;
    push_columns(text, &mut field, &BEFORE_FILE_ID, names, info)?;
    text.extend_from_slice(b",")?;
    push_columns(text, &mut field, &DATES, names, info)?;
    text.extend_from_slice(b",")?;
    push_columns(text, &mut field, &BEHIND_ITEMS, names, info)
}

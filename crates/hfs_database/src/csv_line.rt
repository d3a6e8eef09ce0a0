//! A row in CSV (RFC 4180).
ghost use Rattle.std.specs.Prelude.{◌≡◌, ◌==◌, ◌++◌, OnOk, codes, flat_map, map};
ghost use Rattle.std.specs.Fmt.{decimal};
ghost use Rattle.std.specs.List.{list_any};
ghost use Rattle.std.specs.Option.{option_map_or};
ghost use Rattle.hfs_database.specs.declared.value.RowValue.TheVariants.{Empty, Text};
ghost use Rattle.hfs_table.specs.Lines.{doubled};
ghost use Rattle.hfs_database.specs.Columns.{told_column};
ghost use Rattle.hfs_database.specs.Keys.{cell};
ghost use Rattle.hfs_database.specs.RowLines.{csv_head, csv_line, field};

use crate::RowValue;
use crate::cells::cell;
use crate::column::Column;
use crate::keys::Keys;
use itoa::Buffer;
use std::alloc::AllocError;

/// Appends a byte of a text: a quotation mark twice.
#[tactic(auto, using(crate::proofs::Fields::doubled_mark, crate::proofs::Fields::doubled_other))]
fn push_doubled(text: &mut Vec<u8>, byte: u8) -> Result<(), AllocError>
    ensures { OnOk result (text.new.items ≡ text.old.items ++ doubled byte) }
{
    if byte == b'"' {
        return text.extend_from_slice(b"\"\"");
    }
    text.extend_from_slice(&[byte])
}

/// Appends bytes with each quotation mark twice.
fn push_all_doubled(text: &mut Vec<u8>, bytes: &[u8]) -> Result<(), AllocError>
    ensures { OnOk result (text.new.items ≡ text.old.items ++ flat_map doubled bytes.now) }
{
    for byte in bytes {
        push_doubled(text, *byte)?;
    }
    Ok(())
}

/// Whether a text has a quotation mark.
fn has_mark(bytes: &[u8]) -> bool
    ensures { result ≡ list_any (λ byte. byte == 34) bytes.now }
{
    bytes.iter().any(|byte| *byte == b'"')
}

/// Appends the text between the quotation marks.
fn push_marked(text: &mut Vec<u8>, bytes: &[u8]) -> Result<(), AllocError>
    ensures { OnOk result (text.new.items ≡ text.old.items ++ flat_map doubled bytes.now) }
{
    if has_mark(bytes) {
        return push_all_doubled(text, bytes);
    }
    text.extend_from_slice(bytes)
}

/// Appends a text between quotation marks.
fn push_text(text: &mut Vec<u8>, bytes: &[u8]) -> Result<(), AllocError>
    ensures { OnOk result (text.new.items ≡ text.old.items ++ field (Text bytes.now)) }
{
    text.extend_from_slice(b"\"")?;
    push_marked(text, bytes)?;
    text.extend_from_slice(b"\"")
}

fn push_number(text: &mut Vec<u8>, n: u64) -> Result<(), AllocError>
    ensures { OnOk result (text.new.items ≡ text.old.items ++ decimal n) }
{
    let mut buffer = Buffer::new();
    text.extend_from_slice(buffer.format(n).as_bytes())
}

/// Appends a value's field, which is empty if there is none.
fn push_value(text: &mut Vec<u8>, value: Option<&RowValue>) -> Result<(), AllocError>
    ensures { OnOk result (text.new.items ≡ text.old.items
        ++ field (option_map_or (λ value. value.now) value.entry Empty)) }
{
    match value {
        Some(RowValue::Text(bytes)) => push_text(text, bytes.as_slice()),
        Some(RowValue::Number(n)) => push_number(text, *n),
        Some(RowValue::Empty) | None => Ok(()),
    }
}

/// Appends a column's field.
fn push_field(
    text: &mut Vec<u8>,
    column: &Column,
    keys: &Keys,
    values: &[RowValue],
) -> Result<(), AllocError>
    ensures { OnOk result (text.new.items ≡ text.old.items
        ++ field (cell keys.now values.now column.now.origin)) }
{
    push_value(text, cell(keys, values, column.origin))
}

/// Appends the fields of columns, each after a comma.
fn push_fields(
    text: &mut Vec<u8>,
    columns: &[Column],
    keys: &Keys,
    values: &[RowValue],
) -> Result<(), AllocError>
    ensures { OnOk result (text.new.items ≡ text.old.items
        ++ flat_map (λ column. codes "," ++ field (cell keys.now values.now column.origin)) columns.now) }
{
    for column in columns {
        text.extend_from_slice(b",")?;
        push_field(text, column, keys, values)?;
    }
    Ok(())
}

/// Appends a row's line. At an error, a part of it may have been appended.
pub(crate) fn push_csv_line(
    text: &mut Vec<u8>,
    columns: &[Column],
    keys: &Keys,
    values: &[RowValue],
) -> Result<(), AllocError>
    ensures { OnOk result (text.new.items ≡ text.old.items
        ++ csv_line (map told_column columns.now) keys.now values.now) }
{
    let Some((first, others)) = columns.split_first() else {
        return text.extend_from_slice(b"\r\n");
    };
    push_field(text, first, keys, values)?;
    push_fields(text, others, keys, values)?;
    text.extend_from_slice(b"\r\n")
}

/// Appends the names of columns, each after a comma.
fn push_names(text: &mut Vec<u8>, columns: &[Column]) -> Result<(), AllocError>
    ensures { OnOk result (text.new.items ≡ text.old.items
        ++ flat_map (λ column. codes "," ++ column.name.now) columns.now) }
{
    for column in columns {
        text.extend_from_slice(b",")?;
        text.extend_from_slice(column.name.as_bytes())?;
    }
    Ok(())
}

/// Appends the head: the names of the columns.
pub(crate) fn push_csv_head(text: &mut Vec<u8>, columns: &[Column]) -> Result<(), AllocError>
    ensures { OnOk result (text.new.items ≡ text.old.items ++ csv_head (map told_column columns.now)) }
{
    let Some((first, others)) = columns.split_first() else {
        return text.extend_from_slice(b"\r\n");
    };
    text.extend_from_slice(first.name.as_bytes())?;
    push_names(text, others)?;
    text.extend_from_slice(b"\r\n")
}

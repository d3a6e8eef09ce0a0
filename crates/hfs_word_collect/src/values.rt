//! Texts, numbers and moments as values of a row.
ghost use Rattle.std.specs.Prelude.{◌≡◌, ◌++◌, [], ◌∷◌, take, drop, OnOk, string_bytes};
ghost use Rattle.hfs_texts.specs.Digits.{hex_text};
ghost use Rattle.hfs_texts.specs.PlainTexts.{plain_text};
ghost use Rattle.hfs_table.specs.Columns.{moment_cell};
ghost use Rattle.hfs_database.specs.declared.value.RowValue.TheVariants.{Empty, Number, Text};
ghost use Rattle.hfs_word_collect.specs.Values.{cell_value, text_value};

use hfs_database::RowValue;
use hfs_model::OwnedBytes;
use hfs_texts::{push_hex, push_moment, push_plain_text};
use std::alloc::{AllocError, Global};

/// Appends a value.
pub(crate) fn push_value(values: &mut Vec<RowValue>, value: RowValue) -> Result<(), AllocError>
    ensures { OnOk result (values.new.items ≡ values.old.items ++ value ∷ []) }
{
    values.push(value)?;
    Ok(())
}

/// Appends that a column is empty.
pub(crate) fn push_empty(values: &mut Vec<RowValue>) -> Result<(), AllocError>
    ensures { OnOk result (values.new.items ≡ values.old.items ++ Empty ∷ []) }
{
    push_value(values, RowValue::Empty)
}

/// Appends a number.
pub(crate) fn push_number(values: &mut Vec<RowValue>, number: u64) -> Result<(), AllocError>
    ensures { OnOk result (values.new.items ≡ values.old.items ++ Number number ∷ []) }
{
    push_value(values, RowValue::Number(number))
}

/// Appends a text, even an empty one.
pub(crate) fn push_whole_text(values: &mut Vec<RowValue>, text: String) -> Result<(), AllocError>
    ensures { OnOk result (values.new.items ≡ values.old.items ++ Text (string_bytes text) ∷ []) }
{
    push_value(values, RowValue::Text(OwnedBytes::new(text.into_bytes())))
}

/// Appends a text, or nothing if it is empty.
pub(crate) fn push_text(values: &mut Vec<RowValue>, text: String) -> Result<(), AllocError>
    ensures { OnOk result (values.new.items ≡ values.old.items
        ++ text_value (string_bytes text) ∷ []) }
{
    if text.is_empty() {
        return push_empty(values);
    }
    push_whole_text(values, text)
}

/// Appends bytes that stand for characters, as plain text.
pub(crate) fn push_plain_value(
    alloc: Global,
    values: &mut Vec<RowValue>,
    bytes: &[u8],
) -> Result<(), AllocError>
    ensures { OnOk result (values.new.items ≡ values.old.items
        ++ text_value (plain_text bytes.now) ∷ []) }
{
    let mut text = String::new(alloc);
    push_plain_text(&mut text, bytes)?;
    push_text(values, text)
}

/// Appends bytes in hexadecimal digits.
pub(crate) fn push_hex_value(
    alloc: Global,
    values: &mut Vec<RowValue>,
    bytes: &[u8],
) -> Result<(), AllocError>
    ensures { OnOk result (values.new.items ≡ values.old.items
        ++ text_value (hex_text bytes.now) ∷ []) }
{
    let mut text = String::new(alloc);
    push_hex(&mut text, bytes)?;
    push_text(values, text)
}

/// Appends the moment of a date.
pub(crate) fn push_moment_value(
    alloc: Global,
    values: &mut Vec<RowValue>,
    date: u32,
) -> Result<(), AllocError>
    ensures { OnOk result (values.new.items ≡ values.old.items
        ++ cell_value (moment_cell date) ∷ []) }
{
    if date == 0 {
        return push_empty(values);
    }
    let mut text = String::new(alloc);
    push_moment(&mut text, date)?;
    push_text(values, text)
}

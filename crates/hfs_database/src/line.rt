//! The lines of rows, and of an image's end.
ghost use Rattle.std.specs.Prelude.{◌≡◌, ◌++◌, OnOk};
ghost use Rattle.hfs_database.specs.declared.form.Form.TheVariants.{Csv, Json};
ghost use Rattle.hfs_database.specs.RowTexts.{end_by, end_text, head_text, is_same, row_text, whole_value};

use crate::column::{Label, columns_of, end_columns};
use crate::csv_line::{push_csv_head, push_csv_line};
use crate::form::Form;
use crate::json_line::push_json_line;
use crate::keys::Keys;
use crate::line_fault::LineFault;
use crate::{RowValue, Table};
use std::alloc::{AllocError, Global};

/// Whether both are the same table.
fn is_same(wanted: Table, table: Table) -> bool
    ensures { result ≡ is_same wanted table }
{
    match (wanted, table) {
        (Table::Image, Table::Image) => true,
        (Table::Volume, Table::Volume) => true,
        (Table::Item, Table::Item) => true,
        (Table::Image, Table::Volume | Table::Item) => false,
        (Table::Volume, Table::Image | Table::Item) => false,
        (Table::Item, Table::Image | Table::Volume) => false,
    }
}

/// Appends what precedes the first row. At an error, a part of it may have been appended.
pub(crate) fn push_head(text: &mut Vec<u8>, form: Form) -> Result<(), AllocError>
    ensures { OnOk result (text.new.items ≡ text.old.items ++ head_text form) }
{
    match form {
        Form::All | Form::Json(_) => Ok(()),
        Form::Csv(wanted) => push_csv_head(text, columns_of(wanted)),
    }
}

/// Appends the line of a row of a table, if that is the wanted one.
fn push_json_of(
    alloc: Global,
    text: &mut Vec<u8>,
    wanted: Table,
    keys: &Keys,
    table: Table,
    values: &[RowValue],
) -> Result<(), LineFault>
    ensures { OnOk result (text.new.items ≡ text.old.items
        ++ row_text (Json wanted) keys.now table values.now) }
{
    if !is_same(wanted, table) {
        return Ok(());
    }
    push_json_line(alloc, text, None, columns_of(table), keys, values)
}

/// Appends the line of a row in CSV, if its table is the wanted one.
fn push_csv_of(
    text: &mut Vec<u8>,
    wanted: Table,
    keys: &Keys,
    table: Table,
    values: &[RowValue],
) -> Result<(), LineFault>
    ensures { OnOk result (text.new.items ≡ text.old.items
        ++ row_text (Csv wanted) keys.now table values.now) }
{
    if !is_same(wanted, table) {
        return Ok(());
    }
    push_csv_line(text, columns_of(table), keys, values)?;
    Ok(())
}

/// Appends the line of a row of this table, if it is wanted. At a fault, a part of it may have been appended.
pub(crate) fn push_row(
    alloc: Global,
    text: &mut Vec<u8>,
    form: Form,
    keys: &Keys,
    table: Table,
    values: &[RowValue],
) -> Result<(), LineFault>
    ensures { OnOk result (text.new.items ≡ text.old.items ++ row_text form keys.now table values.now) }
{
    match form {
        Form::All => {
            let label = Some(Label::Row(table));
            push_json_line(alloc, text, label, columns_of(table), keys, values)
        }
        Form::Json(wanted) => push_json_of(alloc, text, wanted, keys, table, values),
        Form::Csv(wanted) => push_csv_of(text, wanted, keys, table, values),
    }
}

/// Whether all rows came, as a row's value.
fn whole_value(is_whole: bool) -> RowValue
    ensures { result ≡ whole_value is_whole }
{
    RowValue::Number(if is_whole { 1 } else { 0 })
}

/// Appends the line of the end of the image with these keys, if there is one.
fn push_end_line(
    alloc: Global,
    text: &mut Vec<u8>,
    keys: &Keys,
    is_whole: bool,
) -> Result<(), LineFault>
    ensures { OnOk result (text.new.items ≡ text.old.items ++ end_by keys.now.path keys.now is_whole) }
{
    match keys.path {
        RowValue::Empty => Ok(()),
        RowValue::Number(_) | RowValue::Text(_) => {
            let values = [whole_value(is_whole)];
            push_json_line(alloc, text, Some(Label::End), end_columns(), keys, &values)
        }
    }
}

/// Appends what follows the rows of the image with these keys. At a fault, a part of it may have been appended.
pub(crate) fn push_end(
    alloc: Global,
    text: &mut Vec<u8>,
    form: Form,
    keys: &Keys,
    is_whole: bool,
) -> Result<(), LineFault>
    ensures { OnOk result (text.new.items ≡ text.old.items ++ end_text form keys.now is_whole) }
{
    match form {
        Form::All => push_end_line(alloc, text, keys, is_whole),
        Form::Json(_) | Form::Csv(_) => Ok(()),
    }
}

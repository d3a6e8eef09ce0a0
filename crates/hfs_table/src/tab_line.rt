//! A row with tabs between its fields.
ghost use Rattle.std.specs.Prelude.{◌≡◌, ◌++◌, OnOk, codes, flat_map};
ghost use Rattle.hfs_texts.specs.Gains.{Gains};
ghost use Rattle.hfs_table.specs.Lines.{field_text, tab_line};

use crate::cells::{USUAL, push_field};
use crate::column::{BEHIND_PATH, Column};
use hfs_fields::Name;
use hfs_model::Info;
use std::alloc::{AllocError, Global};

/// Appends the fields of columns, each after a tab.
pub(crate) fn push_tabbed(
    line: &mut String,
    columns: &[Column],
    names: &[Name],
    info: &Info,
) -> Result<(), AllocError>
    ensures { OnOk result (Gains line.old line.new
        (flat_map (λ column. codes "\t" ++ field_text names.now info.now column) columns.now)) }
{
    for column in columns {
        line.push('\t')?;
        push_field(line, *column, names, info)?;
    }
    Ok(())
}

/// Appends a row.
#[tactic(auto, unfolding(crate::specs::Lines::tab_line, crate::specs::Columns::columns))]
pub(crate) fn push_tab_line(
    alloc: Global,
    text: &mut Vec<u8>,
    names: &[Name],
    info: &Info,
) -> Result<(), AllocError>
    ensures { OnOk result (text.new.items ≡ text.old.items ++ tab_line names.now info.now) }
{
    let mut line = String::with_capacity(alloc, USUAL)?;
    push_field(&mut line, Column::Path, names, info)?;
    push_tabbed(&mut line, &BEHIND_PATH, names, info)?;
    line.push('\n')?;
    text.extend_from_slice(line.as_bytes())
}

//! A row of what was found.
ghost use Rattle.std.specs.Prelude.{◌≡◌, ◌++◌, IfOk, OnOk};
ghost use Rattle.hfs_rescue_items.specs.Paths as paths;
ghost use Rattle.hfs_rescue_items.specs.Rows as spec;

use crate::{Found, names_at, told_of};
use hfs_fields::Name;
use hfs_model::Info;
use hfs_remains::FoundRecord;
use hfs_table::{Format, push_head, push_own_row};
use std::alloc::{AllocError, Global};

/// Which items' rows are shown.
#[derive(Clone, Copy)]
pub enum Selection {
    /// Those of all items, in this format.
    All(Format),
    /// Those of items in the folder with this number, with tabs; none if there is no number.
    InFolder(Option<u32>),
}

/// The names that lead to item `i`.
pub(crate) fn names_of(alloc: Global, found: &Found<'_>, i: usize) -> Result<Vec<Name>, AllocError>
    ensures { IfOk result (λ names. names.items ≡ paths.names_of found.now i) }
{
    let path = found.path(alloc, i)?;
    names_at(alloc, found.places, found.mdb, i, path.as_str())
}

/// Appends the row of item `i`.
#[tactic(auto, unfolding(crate::specs::Rows::found_row))]
fn push_found_row(
    alloc: Global,
    text: &mut Vec<u8>,
    format: Format,
    found: &Found<'_>,
    i: usize,
    item: &FoundRecord,
) -> Result<(), AllocError>
    ensures { OnOk result (text.new.items
        ≡ text.old.items ++ spec.found_row format found.now i item.now) }
{
    let Some(info) = told_of(item) else {
        return Ok(());
    };
    let names = names_of(alloc, found, i)?;
    push_own_row(alloc, text, format, &names, &info)
}

/// Whether an item is in the folder with a number, from the names that lead to it and what it says.
fn lies_in(home: Option<u32>, names: &[Name], info: &Info) -> bool
    ensures { result ≡ spec.lies_in home names.now info.now }
{
    match home {
        Some(number) => info.parent == number && 2 <= names.len(),
        None => false,
    }
}

/// Appends the row of item `i` if it is in the folder with a number.
#[tactic(auto, unfolding(crate::specs::Rows::child_row))]
fn push_child_row(
    alloc: Global,
    text: &mut Vec<u8>,
    home: Option<u32>,
    found: &Found<'_>,
    i: usize,
    item: &FoundRecord,
) -> Result<(), AllocError>
    ensures { OnOk result (text.new.items
        ≡ text.old.items ++ spec.child_row home found.now i item.now) }
{
    let Some(info) = told_of(item) else {
        return Ok(());
    };
    let names = names_of(alloc, found, i)?;
    if !lies_in(home, &names, &info) {
        return Ok(());
    }
    push_own_row(alloc, text, Format::Tab, &names, &info)
}

/// Appends the row of item `i`, if it is selected.
pub(crate) fn push_selected_row(
    alloc: Global,
    text: &mut Vec<u8>,
    selection: Selection,
    found: &Found<'_>,
    i: usize,
    item: &FoundRecord,
) -> Result<(), AllocError>
    ensures { OnOk result (text.new.items
        ≡ text.old.items ++ spec.selected_row selection found.now i item.now) }
{
    match selection {
        Selection::All(format) => push_found_row(alloc, text, format, found, i, item),
        Selection::InFolder(home) => push_child_row(alloc, text, home, found, i, item),
    }
}

/// Appends what precedes the first row.
pub(crate) fn push_selected_head(text: &mut Vec<u8>, selection: Selection) -> Result<(), AllocError>
    ensures { OnOk result (text.new.items ≡ text.old.items ++ spec.selected_head selection) }
{
    match selection {
        Selection::All(format) => push_head(text, format),
        Selection::InFolder(_) => Ok(()),
    }
}

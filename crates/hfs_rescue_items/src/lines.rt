//! The lines of both tables.
ghost use Rattle.std.specs.Prelude.{◌≡◌, ◌++◌, IfOk, OnOk, string_bytes};
ghost use Rattle.hfs_rescue_items.specs.Lines.{item_line, remains_line};

use crate::found::Found;
use crate::looking::names_at;
use crate::told::told_of;
use hfs_remains::FoundRecord;
use hfs_remains_places::push_row;
use hfs_table::push_own_bag_row;
use std::alloc::{AllocError, Global};

/// The line of the item with this number in the table of what remains.
#[tactic(auto, unfolding(crate::specs::Lines::remains_line))]
fn remains_line(
    alloc: Global,
    found: &Found<'_>,
    i: usize,
    item: &FoundRecord,
) -> Result<String, AllocError>
    ensures { IfOk result (λ line. string_bytes line ≡ remains_line found.now i item.now) }
{
    let mut line = String::new(alloc);
    let Some(info) = told_of(item) else {
        return Ok(line);
    };
    let path = found.path(alloc, i)?;
    let forks = found.verdicts(alloc, i)?;
    push_row(alloc, &mut line, path.as_str(), i, info.id, &forks)?;
    Ok(line)
}

/// Appends the line of the item with this number, counted from 0, in the table of what remains: path below the payload, number,
/// ID, and the verdicts on both forks, separated by tabs. Fails only when out of memory.
pub fn push_remains_line(
    alloc: Global,
    text: &mut Vec<u8>,
    found: &Found<'_>,
    i: usize,
    item: &FoundRecord,
) -> Result<(), AllocError>
    ensures { OnOk result (text.new.items ≡ text.old.items ++ remains_line found.now i item.now) }
{
    let line = remains_line(alloc, found, i, item)?;
    text.extend_from_slice(line.as_bytes())
}

/// Appends the line of the item with this number in the table of all items.
#[tactic(auto, unfolding(crate::specs::Lines::item_line))]
pub(crate) fn push_item_line(
    alloc: Global,
    text: &mut Vec<u8>,
    found: &Found<'_>,
    i: usize,
    item: &FoundRecord,
) -> Result<(), AllocError>
    ensures { OnOk result (text.new.items ≡ text.old.items ++ item_line found.now i item.now) }
{
    let Some(info) = told_of(item) else {
        return Ok(());
    };
    let path = found.path(alloc, i)?;
    let names = names_at(alloc, found.places, found.mdb, i, path.as_str())?;
    push_own_bag_row(alloc, text, &names, &info, path.as_str())
}

//! The folders on the way to an item, and where the rows of each go on.
ghost use Rattle.std.specs.Prelude.{◌≡◌, ◌≤◌, IfOk, OnOk, length, drop, filter};
ghost use Rattle.hfs_fields.specs.Keys.{cat_cmp};
ghost use Rattle.hfs_btree.specs.Pairs.{Rises};
ghost use Rattle.hfs_items.specs.Levels.{FindsItem, FindsRow};

use hfs_catalog::{CatalogRecord, is_item};
use std::alloc::AllocError;

/// A folder whose children's rows are being returned.
#[derive(Clone, Copy)]
pub(crate) struct Level {
    /// The ID of the folder, which its children's records have as parent.
    pub(crate) folder: u32,
    /// The place from which on to look for the next child's record.
    pub(crate) next: usize,
}

/// The place of a folder's next child from a level's place on, if it has one.
fn next_item(records: &[CatalogRecord], level: Level) -> Option<usize>
    ensures { FindsItem records.now level result }
{
    let mut place = level.next;
    while place < records.len() && records[place].key().parent == level.folder {
        if is_item(records[place].body()) {
            return Some(place);
        }
        place += 1;
    }
    None
}

/// The place of the record whose row comes next. Levels that have no rows left are removed, and the last that stays goes on after
/// that record. In a lawful volume, folders are not nested deeper than there are records; records that say otherwise end there.
pub(crate) fn next_row(
    records: &[CatalogRecord],
    levels: &mut Vec<Level>,
) -> Result<Option<usize>, AllocError>
    ensures row { IfOk result (FindsRow records.now levels.old.items levels.new.items) }
    ensures grown { length levels.new.items ≤ length levels.old.items }
{
    while let Some(level) = levels.pop() {
        if levels.len() < records.len() {
            if let Some(place) = next_item(records, level) {
                levels.push(Level {
                    folder: level.folder,
                    next: place + 1,
                })?;
                return Ok(Some(place));
            }
        }
    }
    Ok(None)
}

//! The items of a volume, one after the other.
ghost use Rattle.std.specs.Prelude.{◌≡◌, ◌≤◌, ◌<◌, ◌+◌, IfOk, IsTrue, length, slice_index_or};
ghost use Rattle.hfs_fields.specs.Keys.{cat_cmp};
ghost use Rattle.hfs_fields.specs.Records.{is_item};
ghost use Rattle.hfs_btree.specs.Pairs.{Rises};
ghost use Rattle.hfs_catalog.specs.Records.{Record};
ghost use Rattle.hfs_items.specs.Levels.{catalog_rows, GivesRow, HasEntered};

use crate::levels::{Level, next_row};
use crate::runs::{is_threaded, place_of};
use crate::told::record_told;
use hfs_catalog::{CatalogRecord, item_id};
use hfs_fields::Name;
use hfs_model::Info;
use std::alloc::{AllocError, Global};
use std::marker::Model;

/// The root's parent ID, which is no folder's.
const ABOVE_ROOT: u32 = 1;

/// The items in a catalog's records, one after the other in the order of the table: the root first, after each folder its
/// children in name order, and after each child what is in it. Contracts see the path of the row that was last returned, and the
/// rows that are left.
///
/// Besides the records, it only takes memory for the folders on the way to an item.
#[derive(Drop)]
pub struct Inventory {
    records: Vec<CatalogRecord>,
    /// The names from the root's down to that of the item whose row was last returned.
    path: Vec<Name>,
    /// From the outermost inwards.
    levels: Vec<Level>,
}

impl Model for Inventory {
    ghost use Rattle.hfs_items.specs.Levels.{Going, going, CanGoOn};

    ghost Value = { Going };

    ghost view = { λ i. going i.records.items i.path.items i.levels.items };

    ghost invariant = { λ i. CanGoOn i.records.items i.path.items i.levels.items };
}

/// Appends the name of the item at a place to the path of its folder, and the level of what is in it; returns what is known of
/// it.
fn enter(
    records: &[CatalogRecord],
    path: &mut Vec<Name>,
    levels: &mut Vec<Level>,
    place: usize,
) -> Result<Info, AllocError>
    requires rises { Rises cat_cmp records.now }
    requires within { place < length records.now }
    requires item { (none : Record) → IsTrue (is_item (slice_index_or records.now place none).1) }
    requires some { 1 ≤ length levels.old.items }
    requires named { length levels.old.items ≤ length path.old.items + 1 }
    ensures row { IfOk result (HasEntered records.now path.old.items path.new.items levels.old.items
        levels.new.items place) }
    ensures named { length levels.new.items ≤ length path.new.items + 1 }
{
    let record = &records[place];
    let Some(id) = item_id(record.body()) else {
        unreachable!()
    };
    let first = place_of(records, id);
    path.truncate(levels.len() - 1);
    path.push(record.key().name)?;
    levels.push(Level {
        folder: id,
        next: first,
    })?;
    Ok(record_told(record, is_threaded(records, first, id)))
}

impl Inventory {
    /// The items in the records of a catalog, which are in the order of their keys. Fails only when out of memory.
    pub fn new(alloc: Global, records: Vec<CatalogRecord>) -> Result<Inventory, AllocError>
        requires { Rises cat_cmp records.items }
        ensures { IfOk result (λ i. i.left ≡ catalog_rows records.items) }
    {
        let next = place_of(&records, ABOVE_ROOT);
        let mut levels = Vec::new(alloc);
        levels.push(Level {
            folder: ABOVE_ROOT,
            next,
        })?;
        Ok(Inventory {
            records,
            path: Vec::new(alloc),
            levels,
        })
    }

    /// The next item, or None after the last one. Fails only when out of memory, and then nothing is promised about the rows that
    /// are left.
    pub fn next(&mut self) -> Result<Option<Info>, AllocError>
        ensures { IfOk result (GivesRow self.old self.new) }
    {
        match next_row(&self.records, &mut self.levels)? {
            Some(place) => {
                let info = enter(&self.records, &mut self.path, &mut self.levels, place)?;
                Ok(Some(info))
            }
            None => Ok(None),
        }
    }

    /// The names from the root's down to that of the item whose row was last returned.
    pub fn path(&self) -> &[Name]
        ensures { result.now ≡ self.now.path }
    {
        &self.path
    }
}

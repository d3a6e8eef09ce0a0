//! The items that remain.
ghost use Rattle.std.specs.Prelude.{◌≡◌, ◌&&◌, ◌||◌, not, ◌==◌, Some, None, if◌then◌else◌, length, IfOk, OnOk};
ghost use Rattle.hfs_fields.specs.Records.{is_item, item_id};
ghost use Rattle.hfs_catalog.specs.Indexes.{has_number};
ghost use Rattle.hfs_remains.specs.Items as spec;

use crate::catalog::FoundRecord;
use crate::sets::{Numbers, Rows};
use hfs_btree::Key;
use hfs_catalog::{CatalogRecord, item_id};
use std::alloc::{AllocError, Global};

/// The ID of a folder's or a file's record with a name; None for any other record.
fn named_id(entry: &CatalogRecord) -> Option<u32>
    ensures { result ≡ if is_item entry.now.1 && not (length entry.now.0.name == 0) then Some
        (item_id entry.now.1) else None }
{
    if entry.key().name.bytes().is_empty() {
        return None;
    }
    item_id(entry.body())
}

/// Whether an item's row is known, or, if its record is old, its ID.
fn is_known(rows: &Rows, ids: &Numbers, row: &Vec<u8>, old: bool, id: u32) -> bool
    ensures { result ≡ (spec.has_row rows.now row.now || (old && has_number ids.now id)) }
{
    rows.has(row) || (old && ids.has(id))
}

/// Adds a record after the items, if it is a new one.
fn push_item(
    alloc: Global,
    found: FoundRecord,
    rows: &mut Rows,
    ids: &mut Numbers,
    items: &mut Vec<FoundRecord>,
) -> Result<(), AllocError>
    requires { spec.KnowItems rows.old ids.old items.old.items }
    ensures items { OnOk result (items.new.items ≡ spec.with_next items.old.items found) }
    ensures known { OnOk result (spec.KnowItems rows.new ids.new items.new.items) }
{
    let Some(id) = named_id(&found.entry) else {
        return Ok(());
    };
    let row = found.entry.key().leaf_record(alloc, found.entry.body())?;
    if is_known(rows, ids, &row, found.old, id) {
        return Ok(());
    }
    rows.add(row)?;
    ids.add(id)?;
    items.push(found)?;
    Ok(())
}

/// The items among the records of a catalog, in order: the folders and files with a name, except those with the same parent, name
/// and body as an earlier item, and old ones with the ID of an earlier item. Fails only when out of memory.
pub fn items_of(alloc: Global, records: Vec<FoundRecord>) -> Result<Vec<FoundRecord>, AllocError>
    ensures { IfOk result (λ items. items.items ≡ spec.items_of records.items) }
{
    let mut items = Vec::new(alloc);
    let mut rows = Rows::new(alloc);
    let mut ids = Numbers::new(alloc);
    for found in records {
        push_item(alloc, found, &mut rows, &mut ids, &mut items)?;
    }
    Ok(items)
}

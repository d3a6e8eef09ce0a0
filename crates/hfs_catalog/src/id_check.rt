//! The check of mounting on the IDs of a catalog.

ghost use Rattle.std.specs.Prelude.{◌≡◌, ◌&&◌, ◌==◌, [], length};
ghost use Rattle.std.specs.List.{list_any};
ghost use Rattle.hfs_fields.specs.Records.{is_item, item_id};
ghost use Rattle.hfs_fields.specs.First.{first_failing};
ghost use Rattle.hfs_catalog.specs.Records.{has_id};
ghost use Rattle.hfs_catalog.specs.Indexes.{item_place, is_place};
ghost use Rattle.hfs_catalog.specs.Faults.{implies, unless, is_id_right, is_item_id_right, id_fault, is_id_right_at};

use crate::index::IndexedCatalog;
use crate::{CatalogRecord, is_folder, item_id};

/// Whether an ID is right for an item: 2 for the root, which is a folder under 1, and for others one that was given out, from 16
/// on.
#[tactic(auto, unfolding(crate::specs::Faults::is_id_right))]
fn is_id_right(next: u32, id: u32, r: &CatalogRecord) -> bool
    requires { item_id r.now.1 ≡ id }
    ensures { result ≡ is_id_right next r.now }
{
    let is_root = id == 2 && is_folder(r.body()) && r.key().parent == 1;
    let is_given = 16 <= id && id < next && r.key().parent != 1;
    is_root || is_given
}

/// Whether record `i`, if it is a file's or a folder's, has an ID that is right for it and that no earlier record has.
fn is_item_id_right(catalog: &IndexedCatalog<'_>, next: u32, i: usize, r: &CatalogRecord) -> bool
    ensures { result ≡ is_id_right_at next catalog.now i r.now }
{
    match item_id(r.body()) {
        Some(id) => is_id_right(next, id, r) && catalog.place(id) == Some(i),
        None => true,
    }
}

/// The number of the first record with a wrong ID.
fn first_wrong_id(catalog: &IndexedCatalog<'_>, next: u32) -> Option<usize>
    ensures { result ≡ first_failing (is_item_id_right next) [] catalog.now }
{
    let records = catalog.records();
    for i in 0..records.len() {
        if !is_item_id_right(catalog, next, i, &records[i]) {
            return Some(i);
        }
    }
    None
}

/// The number of records, if no record has the root's ID.
fn missing_root(catalog: &IndexedCatalog<'_>) -> Option<usize>
    ensures { result ≡ unless (list_any (has_id 2) catalog.now) (length catalog.now) }
{
    match catalog.place(2) {
        Some(_) => None,
        None => Some(catalog.len()),
    }
}

/// The number of the first record, from 0 on, of an item with a wrong ID; the number of records if none is the root's. None if
/// the IDs are sound.
///
/// The root is a folder with the ID 2 under 1. Any other item has an ID from 16 on that is below `next`, the volume's next ID
/// (drNxtCNID), and its parent isn't 1. Of two records with the same ID, the later is wrong.
///
/// Reads each record once, and takes no memory.
#[tactic(auto, unfolding(crate::specs::Faults::id_fault))]
pub fn id_fault(next: u32, catalog: &IndexedCatalog<'_>) -> Option<usize>
    ensures { result ≡ id_fault next catalog.now }
{
    first_wrong_id(catalog, next).or(missing_root(catalog))
}

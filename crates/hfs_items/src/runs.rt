//! The records with the same parent ID, which come one after another.
ghost use Rattle.std.specs.Prelude.{◌≡◌, ◌≤◌, ◌==◌, length, drop, filter};
ghost use Rattle.std.specs.List.{list_any};
ghost use Rattle.hfs_fields.specs.Keys.{cat_cmp};
ghost use Rattle.hfs_fields.specs.Records.{is_thread};
ghost use Rattle.hfs_btree.specs.Pairs.{Rises};
ghost use Rattle.hfs_catalog.specs.Records.{Record};
ghost use Rattle.hfs_items.specs.Levels.{first_under};

use hfs_catalog::{CatalogRecord, is_thread};

/// The place of the first record with a parent ID, or with a later one if it has none, among records in the order of their keys.
/// A binary search.
pub(crate) fn place_of(records: &[CatalogRecord], id: u32) -> usize
    requires { Rises cat_cmp records.now }
    ensures bound { result ≤ length records.now }
    ensures all { first_under id (drop result records.now) ≡ filter (λ (r : Record). r.0.parent == id) records.now }
{
    records.partition_point(|record| record.key().parent < id)
}

/// Whether there is a thread among the records with this parent ID, the first of which is at this place.
pub(crate) fn is_threaded(records: &[CatalogRecord], first: usize, id: u32) -> bool
    ensures { result ≡ list_any (λ (r : Record). is_thread r.1) (first_under id (drop first records.now)) }
{
    let mut place = first;
    while place < records.len() && records[place].key().parent == id {
        if is_thread(records[place].body()) {
            return true;
        }
        place += 1;
    }
    false
}

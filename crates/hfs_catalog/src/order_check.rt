//! The check at mounting on the order of a catalog's records.

ghost use Rattle.std.specs.Prelude.{◌≡◌, []};
ghost use Rattle.std.specs.Ordering.{is_lt};
ghost use Rattle.hfs_fields.specs.Keys.{cat_cmp};
ghost use Rattle.hfs_fields.specs.First.{first_failing};
ghost use Rattle.hfs_catalog.specs.Faults.{is_above};

use crate::CatalogRecord;
use std::cmp::Ordering;

/// Whether a record's key is below another's.
fn is_below(r: &CatalogRecord, other: &CatalogRecord) -> bool
    ensures { result ≡ is_lt (cat_cmp r.now.0 other.now.0) }
{
    r.key().compare(other.key()) == Ordering::Less
}

/// The number of the first record whose key is not above all before it. Each is only compared with the last one before it, which
/// is above the others if those are in order.
pub(crate) fn first_not_above(catalog: &[CatalogRecord]) -> Option<usize>
    ensures { result ≡ first_failing is_above [] catalog.now }
{
    for i in 1..catalog.len() {
        if !is_below(&catalog[i - 1], &catalog[i]) {
            return Some(i);
        }
    }
    None
}

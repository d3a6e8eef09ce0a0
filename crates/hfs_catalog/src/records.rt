//! All records of a catalog.
ghost use Rattle.std.specs.Prelude.{◌≡◌, IfOk};
ghost use Rattle.hfs_btree.specs.Lookups.{first_pair};
ghost use Rattle.hfs_btree.specs.Sound.{HasStructure, HasCounts};
ghost use Rattle.hfs_catalog.specs.Tree.{cat_keys, catalog_of};

use crate::record::CatalogRecord;
use hfs_btree::{Nodes, Walk};
use hfs_fields::CatKey;
use hfs_model::OwnedBytes;
use std::alloc::{AllocError, Global};

/// Copies a walk's next record, if it has one.
fn next_record<N: Nodes>(
    alloc: Global,
    walk: &Walk<'_, CatKey, N>,
) -> Result<Option<CatalogRecord>, AllocError>
    ensures { IfOk result (λ r. r ≡ first_pair walk.now) }
{
    match walk.pair() {
        Some(pair) => {
            let body = OwnedBytes::from_slice(alloc, pair.body)?;
            Ok(Some(CatalogRecord::new(pair.key, body)))
        }
        None => Ok(None),
    }
}

/// The records of the leaves of a catalog that has its shape, whatever their order. Reads each leaf once. Fails only when out of
/// memory.
pub fn read_records<N: Nodes>(alloc: Global, nodes: &N) -> Result<Vec<CatalogRecord>, AllocError>
    requires structure { HasStructure cat_keys (N.nodes nodes.now) }
    requires counts { HasCounts cat_keys (N.nodes nodes.now) }
    ensures { IfOk result (λ records. records.items ≡ catalog_of (N.nodes nodes.now)) }
{
    let mut records = Vec::new(alloc);
    let mut walk = Walk::whole(nodes);
    while let Some(record) = next_record(alloc, &walk)? {
        records.push(record)?;
        walk.advance();
    }
    Ok(records)
}

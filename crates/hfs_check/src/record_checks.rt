//! The checks of the catalog's records, each with the result that mounting gives.
ghost use Rattle.std.specs.Prelude.{◌≡◌};
ghost use Rattle.hfs_catalog.specs.Faults as catalog_spec;
ghost use Rattle.hfs_btree.specs.Sound.{HasStructure};
ghost use Rattle.hfs_catalog.specs.Tree.{cat_keys};
ghost use Rattle.hfs_check.specs.Faults.{check_fault, catalog_name_fault, catalog_place_fault};
ghost use Rattle.hfs_check.specs.Answers.{Answers, listed_fault};

use crate::mount_fault::MountFault;
use hfs_btree::Nodes;
use hfs_btree_checks::{index_keys, index_keys_in_order};
use hfs_catalog::{
    CatalogRecord, IndexedCatalog, count_fault, id_fault, name_fault, place_fault, record_fault,
    valence_fault,
};
use hfs_fields::{CatKey, Mdb};
use std::alloc::Global;

/// The result of a check that found a fault at this place, or none.
pub(crate) fn answer_at(number: u8, place: Option<usize>) -> Result<(), MountFault>
    ensures { Answers (check_fault number place) result }
{
    match place {
        None => Ok(()),
        Some(place) => Err(MountFault::Check {
            number,
            place: place as u64,
        }),
    }
}

/// The check of records.
pub(crate) fn check_records(records: &[CatalogRecord]) -> Result<(), MountFault>
    ensures { Answers (check_fault 5 (catalog_spec.record_fault records.now)) result }
{
    answer_at(5, record_fault(records))
}

/// The check of IDs, on a volume whose next ID is `next`.
pub(crate) fn check_ids(next: u32, catalog: &IndexedCatalog<'_>) -> Result<(), MountFault>
    ensures { Answers (check_fault 6 (catalog_spec.id_fault next catalog.now)) result }
{
    answer_at(6, id_fault(next, catalog))
}

/// The check of names, of the records and of the keys of the index nodes.
#[tactic(auto, unfolding(crate::specs::Faults::catalog_name_fault))]
pub(crate) fn check_names<N: Nodes>(
    alloc: Global,
    nodes: &N,
    records: &[CatalogRecord],
) -> Result<(), MountFault>
    requires { HasStructure cat_keys (N.nodes nodes.now) }
    ensures { Answers (check_fault 7 (catalog_name_fault (N.nodes nodes.now) records.now)) result }
{
    let keys = index_keys::<CatKey, N>(alloc, nodes)?;
    answer_at(7, name_fault(&keys, records))
}

/// The check of order, parents and threads, of the records and of the order of the index keys.
#[tactic(auto, unfolding(crate::specs::Faults::catalog_place_fault))]
pub(crate) fn check_places<N: Nodes>(
    alloc: Global,
    nodes: &N,
    catalog: &IndexedCatalog<'_>,
) -> Result<(), MountFault>
    requires { HasStructure cat_keys (N.nodes nodes.now) }
    ensures { Answers (check_fault 8 (catalog_place_fault (N.nodes nodes.now) catalog.now)) result }
{
    let in_order = index_keys_in_order::<CatKey, N>(nodes);
    let place = place_fault(alloc, in_order, catalog)?;
    answer_at(8, place)
}

/// The check of valences.
pub(crate) fn check_valences(alloc: Global, records: &[CatalogRecord]) -> Result<(), MountFault>
    ensures { Answers (check_fault 9 (catalog_spec.valence_fault records.now)) result }
{
    let place = valence_fault(alloc, records)?;
    answer_at(9, place)
}

/// The check of counts.
pub(crate) fn check_counts(mdb: &Mdb, records: &[CatalogRecord]) -> Result<(), MountFault>
    ensures { Answers (check_fault 10 (catalog_spec.count_fault mdb.now records.now)) result }
{
    answer_at(10, count_fault(mdb, records))
}

/// The checks of records, IDs, names, and of order, parents and threads, in this order, on a volume whose next ID is `next`.
pub fn check_catalog_records<N: Nodes>(
    alloc: Global,
    next: u32,
    nodes: &N,
    records: &[CatalogRecord],
) -> Result<(), MountFault>
    requires { HasStructure cat_keys (N.nodes nodes.now) }
    ensures { Answers (listed_fault next (N.nodes nodes.now) records.now) result }
{
    check_records(records)?;
    let catalog = IndexedCatalog::of(alloc, records)?;
    check_ids(next, &catalog)?;
    check_names(alloc, nodes, records)?;
    check_places(alloc, nodes, &catalog)
}

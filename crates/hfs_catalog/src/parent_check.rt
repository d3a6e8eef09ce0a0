//! The check at mounting on the parents of a catalog's items.

ghost use Rattle.std.specs.Prelude.{◌≡◌, ◌||◌, ◌==◌, true, [], length, IfOk, OnOk};
ghost use Rattle.hfs_fields.specs.First.{first_failing};
ghost use Rattle.hfs_catalog.specs.Records.{is_folder_id};
ghost use Rattle.hfs_catalog.specs.Parents.{ReachesRoot, reaches_root};
ghost use Rattle.hfs_catalog.specs.Indexes.{has_number, AreRooted};
ghost use Rattle.hfs_catalog.specs.Faults.{is_item_parent_right, parent_fault};

use crate::id_set::IdSet;
use crate::index::IndexedCatalog;
use crate::{CatalogRecord, is_folder, item_id};
use std::alloc::{AllocError, Global};

/// Whether an ID is a folder's.
fn is_folder_id(catalog: &IndexedCatalog<'_>, id: u32) -> bool
    ensures { result ≡ is_folder_id catalog.now id }
{
    match catalog.item(id) {
        Some(item) => is_folder(item.body()),
        None => false,
    }
}

/// Whether the chain of parents from an ID on is known to reach the root.
fn is_known(rooted: &IdSet, id: u32) -> bool
    ensures { result ≡ ((id == 2) || has_number rooted.now id) }
{
    id == 2 || rooted.has(id)
}

/// Whether the chain of parents from an ID on reaches the root. It is followed up to the first ID for which that is known, and
/// for no more steps than there are records: a longer chain goes round in a ring.
fn reaches_root(catalog: &IndexedCatalog<'_>, rooted: &IdSet, from: u32) -> bool
    requires { AreRooted rooted.now catalog.now }
    ensures { result ≡ reaches_root catalog.now (length catalog.now) from }
{
    let mut at = from;
    for _step in 0..catalog.len() {
        if is_known(rooted, at) {
            return true;
        }
        match catalog.item(at) {
            Some(item) => at = item.key().parent,
            None => return false,
        }
    }
    at == 2
}

/// Notes the IDs of a chain of parents that reaches the root, up to the first for which that is known.
fn note_chain(catalog: &IndexedCatalog<'_>, rooted: &mut IdSet, from: u32) -> Result<(), AllocError>
    requires rooted { AreRooted rooted.old catalog.now }
    requires reaches { ReachesRoot catalog.now from }
    ensures { OnOk result (AreRooted rooted.new catalog.now) }
{
    let mut id = from;
    for _step in 0..catalog.len() {
        if is_known(rooted, id) {
            return Ok(());
        }
        rooted.add(id)?;
        match catalog.item(id) {
            Some(item) => id = item.key().parent,
            None => return Ok(()),
        }
    }
    Ok(())
}

/// Whether the chain of the parent of an ID's item is known to reach the root.
fn is_parent_known(catalog: &IndexedCatalog<'_>, rooted: &IdSet, id: u32) -> bool
    requires { AreRooted rooted.now catalog.now }
    ensures { result ≡ true → ReachesRoot catalog.now id }
{
    match catalog.item(id) {
        Some(item) => is_known(rooted, item.key().parent),
        None => false,
    }
}

/// Whether a record, if it is an item's other than the root, has a folder as its parent and a chain of parents that reaches the
/// root. For the items of a folder whose own chain is known, no chain is followed or noted.
fn is_parent_right(
    catalog: &IndexedCatalog<'_>,
    rooted: &mut IdSet,
    r: &CatalogRecord,
) -> Result<bool, AllocError>
    requires { AreRooted rooted.old catalog.now }
    ensures right { IfOk result (λ right. right ≡ is_item_parent_right catalog.now r.now) }
    ensures rooted { OnOk result (AreRooted rooted.new catalog.now) }
{
    let Some(id) = item_id(r.body()) else {
        return Ok(true);
    };
    if id == 2 {
        return Ok(true);
    }
    if !is_folder_id(catalog, r.key().parent) {
        return Ok(false);
    }
    if is_parent_known(catalog, rooted, id) {
        return Ok(true);
    }
    if !reaches_root(catalog, rooted, id) {
        return Ok(false);
    }
    note_chain(catalog, rooted, id)?;
    Ok(true)
}

/// The number of the first record of an item, other than the root, whose parent is no folder, or whose chain of parents does not
/// reach the root. What one chain shows is known for the next. `Err` only when out of memory.
pub(crate) fn first_wrong_parent(
    alloc: Global,
    catalog: &IndexedCatalog<'_>,
) -> Result<Option<usize>, AllocError>
    ensures { IfOk result (λ place. place ≡ parent_fault catalog.now) }
{
    let records = catalog.records();
    let mut rooted = IdSet::new(alloc);
    for i in 0..records.len() {
        if !is_parent_right(catalog, &mut rooted, &records[i])? {
            return Ok(Some(i));
        }
    }
    Ok(None)
}

//! The check at mounting on the threads of a catalog.

ghost use Rattle.std.specs.Prelude.{◌≡◌, ℕ, [], length, IfOk, OnOk};
ghost use Rattle.hfs_fields.specs.Keys.{name_at};
ghost use Rattle.hfs_fields.specs.Numbers.{number_at};
ghost use Rattle.hfs_fields.specs.Records.{is_dir, is_thread, item_id};
ghost use Rattle.hfs_fields.specs.First.{first_failing};
ghost use Rattle.hfs_catalog.specs.Records.{has_thread};
ghost use Rattle.hfs_catalog.specs.Indexes.{has_number, AddsThread};
ghost use Rattle.hfs_catalog.specs.Faults.{implies, leads_to, is_thread_right, unthreaded, thread_fault};

use crate::id_set::IdSet;
use crate::index::IndexedCatalog;
use crate::{CatalogRecord, is_folder, is_thread, item_id};
use byteorder::{BigEndian, ByteOrder};
use hfs_fields::same_name;
use std::alloc::{AllocError, Global};

/// Notes the ID of a record's key, if it is a thread's.
fn note_thread(ids: &mut IdSet, r: &CatalogRecord) -> Result<(), AllocError>
    ensures { OnOk result (AddsThread r.now ids.old ids.new) }
{
    if is_thread(r.body()) {
        ids.add(r.key().parent)?;
    }
    Ok(())
}

/// The IDs that have threads.
fn thread_ids(alloc: Global, catalog: &[CatalogRecord]) -> Result<IdSet, AllocError>
    ensures { IfOk result (λ ids. (id : ℕ) → has_number ids id ≡ has_thread catalog.now id) }
{
    let mut ids = IdSet::new(alloc);
    for i in 0..catalog.len() {
        note_thread(&mut ids, &catalog[i])?;
    }
    Ok(ids)
}

/// Whether a record, if it is a folder's, has a thread.
fn is_threaded(ids: &IdSet, r: &CatalogRecord) -> bool
    ensures { result ≡ implies (is_dir r.now.1) (has_number ids.now (item_id r.now.1)) }
{
    let body = r.body();
    if !is_folder(body) {
        return true;
    }
    match item_id(body) {
        Some(id) => ids.has(id),
        None => false,
    }
}

/// The number of the first folder's record without a thread.
fn first_unthreaded_by(ids: &IdSet, catalog: &[CatalogRecord]) -> Option<usize>
    requires { (id : ℕ) → has_number ids.now id ≡ has_thread catalog.now id }
    ensures { result ≡ unthreaded catalog.now }
{
    for i in 0..catalog.len() {
        if !is_threaded(ids, &catalog[i]) {
            return Some(i);
        }
    }
    None
}

/// The number of the first folder's record without a thread. `Err` only when out of memory.
pub(crate) fn first_unthreaded(
    alloc: Global,
    catalog: &[CatalogRecord],
) -> Result<Option<usize>, AllocError>
    ensures { IfOk result (λ place. place ≡ unthreaded catalog.now) }
{
    let ids = thread_ids(alloc, catalog)?;
    Ok(first_unthreaded_by(&ids, catalog))
}

/// The parent's ID in a thread's body.
#[tactic(auto, unfolding(hfs_fields::specs::Numbers::number_at))]
fn parent_in_thread(body: &[u8]) -> u32
    requires { length body.now ≡ 46 }
    ensures { result ≡ number_at 10 4 body.now }
{
    BigEndian::read_u32(&body[10..])
}

/// The name in a thread's body, which ends with the body at the latest.
fn name_in_thread(body: &[u8]) -> &[u8]
    requires { length body.now ≡ 46 }
    ensures { result.now ≡ name_at 14 body.now }
{
    let rest = &body[15..];
    let length = body[14] as usize;
    if length < rest.len() {
        &rest[..length]
    } else {
        rest
    }
}

/// Whether a thread is of an item's kind, and has its parent and the same name.
#[tactic(auto, unfolding(crate::specs::Faults::leads_to, hfs_fields::specs::Records::thread_record_of))]
fn leads_to(thread: &CatalogRecord, item: &CatalogRecord) -> bool
    requires { length thread.now.1 ≡ 46 }
    ensures { result ≡ leads_to thread.now item.now }
{
    let body = thread.body();
    (body[0] == 3) == is_folder(item.body())
        && parent_in_thread(body) == item.key().parent
        && same_name(item.key().name.bytes(), name_in_thread(body))
}

/// Whether a record, if it is a thread's, leads to the item whose ID is its key.
#[tactic(auto, unfolding(crate::specs::Faults::is_thread_right))]
fn is_thread_right(catalog: &IndexedCatalog<'_>, r: &CatalogRecord) -> bool
    ensures { result ≡ implies (is_thread r.now.1) (is_thread_right catalog.now r.now) }
{
    if !is_thread(r.body()) {
        return true;
    }
    match catalog.item(r.key().parent) {
        Some(item) => leads_to(r, item),
        None => false,
    }
}

/// The number of the first thread's record that does not lead to its item.
pub(crate) fn first_wrong_thread(catalog: &IndexedCatalog<'_>) -> Option<usize>
    ensures { result ≡ thread_fault catalog.now }
{
    let records = catalog.records();
    for i in 0..records.len() {
        if !is_thread_right(catalog, &records[i]) {
            return Some(i);
        }
    }
    None
}

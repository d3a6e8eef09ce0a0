//! Records of the catalog as things that have a place.
ghost use Rattle.std.specs.Prelude.{◌≡◌, ◌++◌, if◌then◌else◌, true, None, Some, map, IfOk, OnOk};
ghost use Rattle.std.specs.Option.{option_to_list};
ghost use Rattle.hfs_fields.specs.Records.{has_short_name, is_dir_thread, thread_record_of};
ghost use Rattle.hfs_remains_forks.specs.Records as spec;

use hfs_catalog::{is_folder, item_id};
use hfs_fields::ThreadRecord;
use hfs_remains::FoundRecord;
use hfs_remains_places::Thing;
use std::alloc::{AllocError, Global};

/// The number in a folder's record; None for any other.
fn folder_number(body: &[u8]) -> Option<u32>
    ensures { result ≡ spec.folder_number body.now }
{
    if !is_folder(body) {
        return None;
    }
    item_id(body)
}

/// An item as a thing.
pub fn thing_of(item: &FoundRecord) -> Thing
    ensures { result ≡ spec.thing_of item.now }
{
    let key = item.entry.key();
    Thing {
        parent: key.parent,
        name: key.name,
        folder: folder_number(item.entry.body()),
        old: item.old,
        named: false,
    }
}

/// Whether a body is a folder's thread.
fn is_folder_thread(body: &[u8]) -> bool
    ensures { result ≡ is_dir_thread body.now }
{
    body.len() == ThreadRecord::LENGTH && body[0] == 3
}

/// The record of a folder's thread, if its name is short enough.
fn read_thread(body: &[u8]) -> Option<ThreadRecord>
    requires { is_dir_thread body.now ≡ true }
    ensures { result ≡ if has_short_name body.now then Some (thread_record_of body.now) else None }
{
    match ThreadRecord::read(body) {
        Some(thread) => Some(thread),
        None => None,
    }
}

/// The folder that a record names, if it is a folder's thread with an empty name in its key and a name in its body.
fn naming(found: &FoundRecord) -> Option<Thing>
    ensures { result ≡ spec.naming found.now }
{
    let key = found.entry.key();
    if !key.name.bytes().is_empty() {
        return None;
    }
    if !is_folder_thread(found.entry.body()) {
        return None;
    }
    let Some(thread) = read_thread(found.entry.body()) else {
        return None;
    };
    if thread.name.bytes().is_empty() {
        return None;
    }
    Some(Thing {
        parent: thread.parent,
        name: thread.name,
        folder: Some(key.parent),
        old: false,
        named: true,
    })
}

/// Adds the folder that a record names after others, if it names one.
fn push_naming(found: &FoundRecord, things: &mut Vec<Thing>) -> Result<(), AllocError>
    ensures { OnOk result (things.new.items ≡ things.old.items ++ option_to_list (spec.naming
        found.now)) }
{
    match naming(found) {
        Some(thing) => {
            things.push(thing)?;
            Ok(())
        }
        None => Ok(()),
    }
}

/// The folders that records name, in the order of the records. Fails only when out of memory.
pub fn namings(alloc: Global, records: &[FoundRecord]) -> Result<Vec<Thing>, AllocError>
    ensures { IfOk result (λ things. things.items ≡ spec.namings_of records.now) }
{
    let mut things = Vec::new(alloc);
    for found in records {
        push_naming(found, &mut things)?;
    }
    Ok(things)
}

/// Items as things, in order. Fails only when out of memory.
pub fn things_of(alloc: Global, items: &[FoundRecord]) -> Result<Vec<Thing>, AllocError>
    ensures { IfOk result (λ things. things.items ≡ map spec.thing_of items.now) }
{
    let mut things = Vec::new(alloc);
    for item in items {
        things.push(thing_of(item))?;
    }
    Ok(things)
}

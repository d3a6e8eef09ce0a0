//! Look-ups in the catalog of a volume.
ghost use Rattle.std.specs.Prelude.{◌≡◌, ◌==◌, IfOk, OnOk, length, option_map, slice_get};
ghost use Rattle.std.specs.Option.{SomeIff, is_some};
ghost use Rattle.hfs_fields.specs.Records.{thread_record_of};
ghost use Rattle.hfs_fields.specs.Each.{Each};
ghost use Rattle.hfs_btree.specs.Lookups.{first_pair};
ghost use Rattle.hfs_btree.specs.Sound.{IsDistinct};
ghost use Rattle.hfs_catalog.specs.Records.{item_with, item_ids};
ghost use Rattle.hfs_catalog.specs.Sound.{IsRecord, AreNamesSound, ArePlacesSound};
ghost use Rattle.hfs_catalog.specs.Tree.{IsCatalogTree, catalog_of};
ghost use Rattle.hfs_catalog.specs.Lookups.{catalog_item, item_named, child_items, thread_in, IsReadableThread, AddsFirstItem, named_at, thread_at, with_id_at, first_key, is_under, item_at};

use crate::item::{CatalogItem, is_item, is_thread, item_of, item_with_id};
use hfs_btree::{Nodes, Walk};
use hfs_fields::{CatKey, Name, ThreadRecord, same_name};
use std::alloc::{AllocError, Global};

/// The item at the next pair of a walk, if it has that name and that parent.
fn named_at<N: Nodes>(walk: &Walk<'_, CatKey, N>, dir: u32, name: &Name) -> Option<CatalogItem>
    ensures { result ≡ named_at dir name.now (first_pair walk.now) }
{
    let Some(pair) = walk.pair() else {
        return None;
    };
    if pair.key.parent == dir && same_name(pair.key.name.bytes(), name.bytes()) {
        item_of(pair.key, pair.body)
    } else {
        None
    }
}

/// The file or folder of that name, ignoring the case of ASCII letters, in a folder. None if the folder has none, or if there
/// is no such folder.
///
/// Reads the header node and one node of each level, and takes no memory.
pub fn lookup<N: Nodes>(nodes: &N, dir: u32, name: &Name) -> Option<CatalogItem>
    requires { IsCatalogTree (N.nodes nodes.now) }
    ensures { result ≡ item_named (catalog_of (N.nodes nodes.now)) dir name.now }
{
    let key = CatKey {
        parent: dir,
        name: *name,
    };
    let walk = Walk::from(nodes, &key);
    named_at(&walk, dir, name)
}

/// A thread's record. None exactly when the body is no thread's, or its name's length is above 31.
fn thread_record(body: &[u8]) -> Option<ThreadRecord>
    ensures { SomeIff result (IsReadableThread body.now) (thread_record_of body.now) }
{
    if is_thread(body) {
        ThreadRecord::read(body)
    } else {
        None
    }
}

/// The thread at the next pair of a walk, if its key has that ID.
fn thread_at<N: Nodes>(walk: &Walk<'_, CatKey, N>, id: u32) -> Option<ThreadRecord>
    ensures { result ≡ thread_at id (first_pair walk.now) }
{
    let Some(pair) = walk.pair() else {
        return None;
    };
    if pair.key.parent == id {
        thread_record(pair.body)
    } else {
        None
    }
}

/// The key with this parent that comes before every other: its name is empty.
fn first_key(parent: u32) -> CatKey
    ensures { result ≡ first_key parent }
{
    let Some(name) = Name::of_bytes(&[]) else {
        unreachable!()
    };
    CatKey { parent, name }
}

/// The thread of an ID, which says where the folder or file with that ID is. None if the ID has no thread.
///
/// Reads the header node and one node of each level, and takes no memory.
pub fn thread<N: Nodes>(nodes: &N, id: u32) -> Option<ThreadRecord>
    requires tree { IsCatalogTree (N.nodes nodes.now) }
    requires records { Each IsRecord (catalog_of (N.nodes nodes.now)) }
    requires names { AreNamesSound (catalog_of (N.nodes nodes.now)) }
    ensures { result ≡ thread_in (catalog_of (N.nodes nodes.now)) id }
{
    let walk = Walk::from(nodes, &first_key(id));
    thread_at(&walk, id)
}

/// The item with that ID at the next pair of a walk.
fn with_id_at<N: Nodes>(walk: &Walk<'_, CatKey, N>, id: u32) -> Option<CatalogItem>
    ensures { result ≡ with_id_at id (first_pair walk.now) }
{
    let Some(pair) = walk.pair() else {
        return None;
    };
    item_with_id(pair.key, pair.body, id)
}

/// The item with that ID, found by going through all records.
fn scan<N: Nodes>(nodes: &N, id: u32) -> Option<CatalogItem>
    requires { IsCatalogTree (N.nodes nodes.now) }
    ensures { result ≡ option_map catalog_item (item_with (catalog_of (N.nodes nodes.now)) id) }
{
    let mut walk = Walk::from(nodes, &first_key(0));
    while !is_at_end(&walk) {
        let found = with_id_at(&walk, id);
        if found.is_some() {
            return found;
        }
        walk.advance();
    }
    None
}

/// Whether a walk has no next pair.
fn is_at_end<N: Nodes>(walk: &Walk<'_, CatKey, N>) -> bool
    ensures { result ≡ (length walk.now == 0) }
{
    walk.pair().is_none()
}

/// The folder or file with that ID, or None if there is none.
///
/// If the ID has a thread, the item is found by it, with two look-ups. A file need not have a thread; without one, all records
/// are read. Takes no memory.
pub fn by_id<N: Nodes>(nodes: &N, id: u32) -> Option<CatalogItem>
    requires tree { IsCatalogTree (N.nodes nodes.now) }
    requires records { Each IsRecord (catalog_of (N.nodes nodes.now)) }
    requires ids { IsDistinct (item_ids (catalog_of (N.nodes nodes.now))) }
    requires names { AreNamesSound (catalog_of (N.nodes nodes.now)) }
    requires places { ArePlacesSound (catalog_of (N.nodes nodes.now)) }
    ensures { result ≡ option_map catalog_item (item_with (catalog_of (N.nodes nodes.now)) id) }
{
    match thread(nodes, id) {
        Some(thread) => lookup(nodes, thread.parent, &thread.name),
        None => scan(nodes, id),
    }
}

/// Whether a walk's next pair has that parent.
fn is_under<N: Nodes>(walk: &Walk<'_, CatKey, N>, dir: u32) -> bool
    ensures { result ≡ is_under dir (first_pair walk.now) }
{
    match walk.pair() {
        Some(pair) => pair.key.parent == dir,
        None => false,
    }
}

/// The item at the next pair of a walk.
fn item_at<N: Nodes>(walk: &Walk<'_, CatKey, N>) -> Option<CatalogItem>
    ensures { result ≡ item_at (first_pair walk.now) }
{
    let Some(pair) = walk.pair() else {
        return None;
    };
    item_of(pair.key, pair.body)
}

/// Takes the item at the next pair of a walk, if it is one.
fn take_item<N: Nodes>(
    found: &mut Vec<CatalogItem>,
    walk: &Walk<'_, CatKey, N>,
) -> Result<(), AllocError>
    ensures { OnOk result (AddsFirstItem walk.now found.old.items found.new.items) }
{
    if let Some(item) = item_at(walk) {
        found.push(item)?;
    }
    Ok(())
}

/// The files and folders in a folder, in name order. There are none if it is no folder.
///
/// Reads each leaf once, and takes memory only for the result.
pub fn children<N: Nodes>(
    alloc: Global,
    nodes: &N,
    dir: u32,
) -> Result<Vec<CatalogItem>, AllocError>
    requires { IsCatalogTree (N.nodes nodes.now) }
    ensures { IfOk result (λ v. v.items ≡ child_items (catalog_of (N.nodes nodes.now)) dir) }
{
    let mut found = Vec::new(alloc);
    let mut walk = Walk::from(nodes, &first_key(dir));
    while is_under(&walk, dir) {
        take_item(&mut found, &walk)?;
        walk.advance();
    }
    Ok(found)
}

/// Whether a walk's next pair is a folder's or a file's.
fn is_item_at<N: Nodes>(walk: &Walk<'_, CatKey, N>) -> bool
    ensures { result ≡ is_some (item_at (first_pair walk.now)) }
{
    match walk.pair() {
        Some(pair) => is_item(pair.body),
        None => false,
    }
}

/// The file or folder at that place in a folder, in name order, counted from 0. None if the folder doesn't have that many, or if
/// it is no folder.
///
/// Reads each leaf up to that place once, and takes no memory.
pub fn child_at<N: Nodes>(nodes: &N, dir: u32, place: u32) -> Option<CatalogItem>
    requires { IsCatalogTree (N.nodes nodes.now) }
    ensures { result ≡ slice_get (child_items (catalog_of (N.nodes nodes.now)) dir) place }
{
    let mut left = place;
    let mut walk = Walk::from(nodes, &first_key(dir));
    while is_under(&walk, dir) {
        if is_item_at(&walk) {
            if left == 0 {
                return item_at(&walk);
            }
            left -= 1;
        }
        walk.advance();
    }
    None
}

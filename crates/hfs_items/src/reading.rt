//! The calls that only read the catalog. In each, the first code that applies is the reply's.

ghost use Rattle.std.specs.Prelude.{◌≡◌, IfOk};
ghost use Rattle.std.specs.Option.{option_map};
ghost use Rattle.hfs_model.specs.declared.reply.Value.TheVariants as value;
ghost use Rattle.hfs_model.specs.Replies.{success};
ghost use Rattle.hfs_catalog.specs.Lookups.{catalog_item};
ghost use Rattle.hfs_catalog.specs.Tree.{catalog_of};
ghost use Rattle.hfs_space.specs.Results.{GivesItems};
ghost use Rattle.hfs_items.specs.Brief.{infos_in, listed_in};
ghost use Rattle.hfs_items.specs.Told.{IsCatalog, folder_with, folder_child, dir_info, cat_info, indexed, resolved, file_named};

use crate::reply::{Detail, item_info, refusal, success};
use hfs_btree::Nodes;
use hfs_catalog::{CatalogItem, ItemRecord, by_id, child_at, children, lookup, thread};
use hfs_fields::{CatKey, FileRecord, Name};
use hfs_model::{
    BAD_NAME, FILE_ID_NOT_FOUND, Info, Infos, NOT_A_FILE, NOT_A_FOLDER, NOT_FOUND, PARAMETER,
    Reply, Value,
};
use std::alloc::{AllocError, Global};

/// The folder with that ID, found by its thread, which each folder has: two look-ups.
pub fn folder<N: Nodes>(nodes: &N, dir: u32) -> Option<CatalogItem>
    requires { IsCatalog (N.nodes nodes.now) }
    ensures { result ≡ option_map catalog_item (folder_with (catalog_of (N.nodes nodes.now)) dir) }
{
    let Some(thread) = thread(nodes, dir) else {
        return None;
    };
    let item = lookup(nodes, thread.parent, &thread.name)?;
    match item.body {
        ItemRecord::Folder(_) => Some(item),
        ItemRecord::File(_) => None,
    }
}

/// The root's parent ID, which is no folder's.
const ABOVE_ROOT: u32 = 1;

/// The folder's item of that name, or the code that says why there is none: -120 if there is no such folder, -43 if it has no
/// such item. An item that exists is found with one look-up, since its parent is a folder, except for 1, which is the root's
/// parent.
pub fn folder_child<N: Nodes>(nodes: &N, dir: u32, name: &Name) -> Result<CatalogItem, i16>
    requires { IsCatalog (N.nodes nodes.now) }
    ensures { result ≡ folder_child (catalog_of (N.nodes nodes.now)) dir name.now }
{
    match lookup(nodes, dir, name) {
        Some(item) => {
            if dir == ABOVE_ROOT {
                return Err(NOT_A_FOLDER);
            }
            Ok(item)
        }
        None => {
            if folder(nodes, dir).is_none() {
                return Err(NOT_A_FOLDER);
            }
            Err(NOT_FOUND)
        }
    }
}

/// Answers with the folder that has this ID.
pub fn get_dir_info<N: Nodes>(nodes: &N, dir: u32) -> Reply
    requires { IsCatalog (N.nodes nodes.now) }
    ensures { result ≡ dir_info (catalog_of (N.nodes nodes.now)) dir }
{
    match folder(nodes, dir) {
        Some(item) => success(Value::One(item_info(nodes, &item, Detail::Full))),
        None => refusal(NOT_A_FOLDER),
    }
}

/// Answers with the folder's item of that name.
pub fn get_cat_info<N: Nodes>(nodes: &N, dir: u32, name: &[u8]) -> Reply
    requires { IsCatalog (N.nodes nodes.now) }
    ensures { result ≡ cat_info (catalog_of (N.nodes nodes.now)) dir name.now }
{
    let Some(name) = Name::new(name) else {
        return refusal(BAD_NAME);
    };
    match folder_child(nodes, dir, &name) {
        Ok(item) => success(Value::One(item_info(nodes, &item, Detail::Full))),
        Err(code) => refusal(code),
    }
}

/// What a reply says about the folder's children, in name order.
fn infos<N: Nodes>(
    alloc: Global,
    nodes: &N,
    dir: u32,
    detail: Detail,
) -> Result<Vec<Info>, AllocError>
    requires { IsCatalog (N.nodes nodes.now) }
    ensures { GivesItems (infos_in detail (catalog_of (N.nodes nodes.now)) dir) result }
{
    let items = children(alloc, nodes, dir)?;
    let mut infos = Vec::with_capacity(alloc, items.len())?;
    for item in &items {
        infos.push(item_info(nodes, item, detail))?;
    }
    Ok(infos)
}

/// Answers with the folder's child at that place in name order, counted from 1.
pub fn get_indexed<N: Nodes>(nodes: &N, dir: u32, index: u32) -> Reply
    requires { IsCatalog (N.nodes nodes.now) }
    ensures { result ≡ indexed (catalog_of (N.nodes nodes.now)) dir index }
{
    if index == 0 {
        return refusal(PARAMETER);
    }
    if folder(nodes, dir).is_none() {
        return refusal(NOT_A_FOLDER);
    }
    match child_at(nodes, dir, index - 1) {
        Some(item) => success(Value::One(item_info(nodes, &item, Detail::Full))),
        None => refusal(NOT_FOUND),
    }
}

/// Answers with all the folder's children, in name order.
pub fn list<N: Nodes>(
    alloc: Global,
    nodes: &N,
    dir: u32,
    detail: Detail,
) -> Result<Reply, AllocError>
    requires { IsCatalog (N.nodes nodes.now) }
    ensures { IfOk result (λ reply. reply ≡ listed_in detail (catalog_of (N.nodes nodes.now)) dir) }
{
    if folder(nodes, dir).is_none() {
        return Ok(refusal(NOT_A_FOLDER));
    }
    let infos = infos(alloc, nodes, dir, detail)?;
    Ok(success(Value::Many(Infos::new(infos))))
}

/// The folder and the name in an item's key.
fn place_of(key: CatKey) -> Reply
    ensures { result ≡ success (value.Place key.parent key.name) }
{
    success(Value::Place {
        dir: key.parent,
        name: key.name,
    })
}

/// Answers with the folder and the name of the file with that ID, which is found by its thread. Each folder has a thread, so not
/// all records are read for an ID without one.
pub fn resolve_file_id<N: Nodes>(nodes: &N, id: u32) -> Reply
    requires { IsCatalog (N.nodes nodes.now) }
    ensures { result ≡ resolved (catalog_of (N.nodes nodes.now)) id }
{
    if thread(nodes, id).is_none() {
        return refusal(FILE_ID_NOT_FOUND);
    }
    let Some(item) = by_id(nodes, id) else {
        return refusal(FILE_ID_NOT_FOUND);
    };
    let key = item.key;
    match item.body {
        ItemRecord::Folder(_) => refusal(NOT_A_FILE),
        ItemRecord::File(_) => place_of(key),
    }
}

/// The record of the folder's file of that name, or the reply that refuses it: -43 if the item is a folder.
pub fn file_named<N: Nodes>(nodes: &N, dir: u32, name: &[u8]) -> Result<FileRecord, Reply>
    requires { IsCatalog (N.nodes nodes.now) }
    ensures { result ≡ file_named (catalog_of (N.nodes nodes.now)) dir name.now }
{
    let Some(name) = Name::new(name) else {
        return Err(refusal(BAD_NAME));
    };
    if folder(nodes, dir).is_none() {
        return Err(refusal(NOT_A_FOLDER));
    }
    let Some(item) = lookup(nodes, dir, &name) else {
        return Err(refusal(NOT_FOUND));
    };
    match item.body {
        ItemRecord::Folder(_) => Err(refusal(NOT_FOUND)),
        ItemRecord::File(file) => Ok(file),
    }
}

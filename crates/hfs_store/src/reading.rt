//! The calls that read.
ghost use Rattle.std.specs.Prelude.{◌≡◌, ℕ, ◌≤◌, IfOk};
ghost use Rattle.hfs_model.specs.Children.{valence};
ghost use Rattle.hfs_model.specs.Replies.{refusal, success};
ghost use Rattle.hfs_model.specs.Reading.{get_dir_info, get_cat_info, get_indexed, list, read_fork, part_of, fork_part};
ghost use Rattle.hfs_model.specs.FileIds.{file_of_id, resolve_file_id};
ghost use Rattle.hfs_store.specs.Found.{IsPlaceOf};

use crate::entries::{
    child_named, has_thread, info_of, infos, is_folder, is_folder_kind, place_of,
};
use hfs_fields::is_item_name;
use hfs_model::{
    BAD_NAME, END_OF_FILE, FILE_ID_NOT_FOUND, Fork, Infos, Item, Kind, NOT_A_FILE, NOT_A_FOLDER,
    NOT_FOUND, OwnedBytes, PARAMETER, Reply, Value,
};
use std::alloc::{AllocError, Global};

/// A code other than 0, with no value.
pub fn refusal(code: i16) -> Reply
    ensures { result ≡ refusal code }
{
    Reply {
        code,
        value: Value::Nothing,
    }
}

/// Code 0, with a value.
pub fn success(value: Value) -> Reply
    ensures { result ≡ success value }
{
    Reply { code: 0, value }
}

/// The folder of that ID.
#[tactic(auto, unfolding(hfs_model::specs::Reading::get_dir_info))]
pub fn get_dir_info(entries: &[(u32, Item)], dir: u32) -> Reply
    requires { (id : ℕ) → valence entries.now id ≤ 65535 }
    ensures { result ≡ get_dir_info entries.now dir }
{
    let Some(at) = place_of(entries, dir) else {
        return refusal(NOT_A_FOLDER);
    };
    if !is_folder_kind(&entries[at].1.kind) {
        return refusal(NOT_A_FOLDER);
    }
    success(Value::One(info_of(entries, &entries[at])))
}

/// The folder's item of that name.
#[tactic(auto, unfolding(hfs_model::specs::Reading::get_cat_info))]
pub fn get_cat_info(entries: &[(u32, Item)], dir: u32, name: &[u8]) -> Reply
    requires { (id : ℕ) → valence entries.now id ≤ 65535 }
    ensures { result ≡ get_cat_info entries.now dir name.now }
{
    if !is_item_name(name) {
        return refusal(BAD_NAME);
    }
    if !is_folder(entries, dir) {
        return refusal(NOT_A_FOLDER);
    }
    let Some(at) = child_named(entries, dir, name) else {
        return refusal(NOT_FOUND);
    };
    success(Value::One(info_of(entries, &entries[at])))
}

/// The folder's child at that place, counted from 1.
#[tactic(auto, unfolding(hfs_model::specs::Reading::get_indexed))]
pub fn get_indexed(
    alloc: Global,
    entries: &[(u32, Item)],
    dir: u32,
    index: u32,
) -> Result<Reply, AllocError>
    requires { (id : ℕ) → valence entries.now id ≤ 65535 }
    ensures { IfOk result (λ r. r ≡ get_indexed entries.now dir index) }
{
    if index == 0 {
        return Ok(refusal(PARAMETER));
    }
    if !is_folder(entries, dir) {
        return Ok(refusal(NOT_A_FOLDER));
    }
    let all = infos(alloc, entries, dir)?;
    let at = (index - 1) as usize;
    if at >= all.len() {
        return Ok(refusal(NOT_FOUND));
    }
    Ok(success(Value::One(all[at])))
}

/// The folder's children.
#[tactic(auto, unfolding(hfs_model::specs::Reading::list))]
pub fn list(alloc: Global, entries: &[(u32, Item)], dir: u32) -> Result<Reply, AllocError>
    requires { (id : ℕ) → valence entries.now id ≤ 65535 }
    ensures { IfOk result (λ r. r ≡ list entries.now dir) }
{
    if !is_folder(entries, dir) {
        return Ok(refusal(NOT_A_FOLDER));
    }
    Ok(success(Value::Many(Infos::new(infos(alloc, entries, dir)?))))
}

/// A part of a fork's bytes.
fn part_of(alloc: Global, bytes: &[u8], offset: u32, count: u32) -> Result<Reply, AllocError>
    ensures { IfOk result (λ r. r ≡ part_of bytes.now offset count) }
{
    let rest = if (offset as usize) < bytes.len() {
        &bytes[offset as usize..]
    } else {
        &[]
    };
    let part = if (count as usize) < rest.len() {
        &rest[..count as usize]
    } else {
        rest
    };
    let code = if (bytes.len() as u64) < offset as u64 + count as u64 {
        END_OF_FILE
    } else {
        0
    };
    Ok(Reply {
        code,
        value: Value::Bytes(OwnedBytes::from_slice(alloc, part)?),
    })
}

/// A part of a fork of the item.
fn fork_part(
    alloc: Global,
    fork: Fork,
    offset: u32,
    count: u32,
    kind: &Kind,
) -> Result<Reply, AllocError>
    ensures { IfOk result (λ r. r ≡ fork_part fork offset count kind.now) }
{
    match kind {
        Kind::Folder { .. } => Ok(refusal(NOT_FOUND)),
        Kind::File(file) => match fork {
            Fork::DataFork => part_of(alloc, file.data.as_slice(), offset, count),
            Fork::ResFork => part_of(alloc, file.resource.as_slice(), offset, count),
        },
    }
}

/// A part of a file's fork.
#[tactic(auto, unfolding(hfs_model::specs::Reading::read_fork))]
pub fn read_fork(
    alloc: Global,
    entries: &[(u32, Item)],
    dir: u32,
    name: &[u8],
    fork: Fork,
    offset: u32,
    count: u32,
) -> Result<Reply, AllocError>
    ensures { IfOk result (λ r. r ≡ read_fork entries.now dir name.now fork offset count) }
{
    if count > 65536 {
        return Ok(refusal(PARAMETER));
    }
    if !is_item_name(name) {
        return Ok(refusal(BAD_NAME));
    }
    if !is_folder(entries, dir) {
        return Ok(refusal(NOT_A_FOLDER));
    }
    let Some(at) = child_named(entries, dir, name) else {
        return Ok(refusal(NOT_FOUND));
    };
    fork_part(alloc, fork, offset, count, &entries[at].1.kind)
}

/// The place of the file with a thread that has this ID, or the code that refuses it.
#[tactic(auto, unfolding(hfs_model::specs::FileIds::file_of_id))]
pub fn file_of_id(entries: &[(u32, Item)], id: u32) -> Result<usize, i16>
    ensures { IsPlaceOf entries.now (file_of_id entries.now id) result }
{
    let Some(at) = place_of(entries, id) else {
        return Err(FILE_ID_NOT_FOUND);
    };
    let kind = &entries[at].1.kind;
    if is_folder_kind(kind) {
        return Err(NOT_A_FILE);
    }
    if !has_thread(kind) {
        return Err(FILE_ID_NOT_FOUND);
    }
    Ok(at)
}

/// The folder and the name of the file of that ID.
#[tactic(auto, unfolding(hfs_model::specs::FileIds::resolve_file_id))]
pub fn resolve_file_id(entries: &[(u32, Item)], id: u32) -> Reply
    ensures { result ≡ resolve_file_id entries.now id }
{
    match file_of_id(entries, id) {
        Ok(at) => {
            let item = &entries[at].1;
            success(Value::Place {
                dir: item.parent,
                name: item.name,
            })
        }
        Err(code) => refusal(code),
    }
}

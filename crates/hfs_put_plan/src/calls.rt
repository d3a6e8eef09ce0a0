//! The calls that put one item into a folder, one after another.
ghost use Rattle.std.specs.Prelude.{◌≡◌, IfOk, None, slice_index_or};
ghost use Rattle.hfs_put_plan.specs.Calls.{delete_call, end_call, ending, facts_call, file_ending, file_making, folder_call, folder_ending, folder_making, lock_call, making, unlock_call};

use crate::Placing;
use crate::items::PutItem;
use hfs_fields::Name;
use hfs_model::{Call, Fork, ItemKind, SharedBytes};
use std::alloc::{AllocError, Global};

/// The most calls that make an item.
pub const MAKING_CALLS: usize = 5;

/// The most calls that come after a file's bytes, or after what is in a folder.
pub const ENDING_CALLS: usize = 2;

/// A copy of a name, as calls take it.
fn shared(alloc: Global, name: &Name) -> Result<SharedBytes, AllocError>
    ensures { IfOk result (λ bytes. bytes ≡ name.now) }
{
    SharedBytes::from_slice(alloc, name.bytes())
}

/// RstFLock of a locked file that is to be replaced.
fn unlock_call(
    alloc: Global,
    dir: u32,
    item: &PutItem,
    now: u32,
) -> Result<Option<Call>, AllocError>
    ensures { IfOk result (λ call. call ≡ unlock_call dir item.now.name item.now.placing now) }
{
    match item.placing {
        Placing::Replaced { locked } => {
            if locked {
                let name = shared(alloc, &item.name)?;
                Ok(Some(Call::RstFLock { dir, name, now }))
            } else {
                Ok(None)
            }
        }
        Placing::New | Placing::Kept | Placing::Taken => Ok(None),
    }
}

/// Delete of a file that is to be replaced.
fn delete_call(
    alloc: Global,
    dir: u32,
    item: &PutItem,
    now: u32,
) -> Result<Option<Call>, AllocError>
    ensures { IfOk result (λ call. call ≡ delete_call dir item.now.name item.now.placing now) }
{
    match item.placing {
        Placing::Replaced { .. } => {
            let name = shared(alloc, &item.name)?;
            Ok(Some(Call::Delete { dir, name, now }))
        }
        Placing::New | Placing::Kept | Placing::Taken => Ok(None),
    }
}

/// SetEof of a fork that isn't empty.
fn end_call(
    alloc: Global,
    dir: u32,
    item: &PutItem,
    fork: Fork,
    length: u32,
    now: u32,
) -> Result<Option<Call>, AllocError>
    ensures { IfOk result (λ call. call ≡ end_call dir item.now.name fork length now) }
{
    if length == 0 {
        return Ok(None);
    }
    let name = shared(alloc, &item.name)?;
    Ok(Some(Call::SetEof {
        dir,
        name,
        fork,
        length,
        now,
    }))
}

/// DirCreate of a folder that isn't there.
fn folder_call(
    alloc: Global,
    dir: u32,
    item: &PutItem,
    now: u32,
) -> Result<Option<Call>, AllocError>
    ensures { IfOk result (λ call. call ≡ folder_call dir item.now.name item.now.placing now) }
{
    match item.placing {
        Placing::Kept => Ok(None),
        Placing::New | Placing::Replaced { .. } | Placing::Taken => {
            let name = shared(alloc, &item.name)?;
            Ok(Some(Call::DirCreate { dir, name, now }))
        }
    }
}

/// The call at a place among those that make a folder.
fn folder_making_call(
    alloc: Global,
    dir: u32,
    item: &PutItem,
    now: u32,
    place: usize,
) -> Result<Option<Call>, AllocError>
    ensures { IfOk result (λ call. call ≡ slice_index_or (folder_making dir item.now now) place None) }
{
    match place {
        0 => folder_call(alloc, dir, item, now),
        _ => Ok(None),
    }
}

/// The call at a place among those that make a file.
fn file_making_call(
    alloc: Global,
    dir: u32,
    item: &PutItem,
    now: u32,
    place: usize,
) -> Result<Option<Call>, AllocError>
    ensures { IfOk result (λ call. call ≡ slice_index_or (file_making dir item.now now) place None) }
{
    match place {
        0 => unlock_call(alloc, dir, item, now),
        1 => delete_call(alloc, dir, item, now),
        2 => {
            let name = shared(alloc, &item.name)?;
            Ok(Some(Call::Create { dir, name, now }))
        }
        3 => end_call(alloc, dir, item, Fork::DataFork, item.data_len, now),
        4 => end_call(alloc, dir, item, Fork::ResFork, item.resource_len, now),
        _ => Ok(None),
    }
}

/// The call at a place, counted from 0, among those that make an item in a folder; None if this item needs no call there. Fails
/// only when out of memory.
pub fn making_call(
    alloc: Global,
    dir: u32,
    item: &PutItem,
    now: u32,
    place: usize,
) -> Result<Option<Call>, AllocError>
    ensures { IfOk result (λ call. call ≡ slice_index_or (making dir item.now now) place None) }
{
    match item.kind {
        ItemKind::Folder => folder_making_call(alloc, dir, item, now, place),
        ItemKind::File => file_making_call(alloc, dir, item, now, place),
    }
}

/// SetCatInfo of an item.
fn facts_call(alloc: Global, dir: u32, item: &PutItem, now: u32) -> Result<Call, AllocError>
    ensures { IfOk result (λ call. call ≡ facts_call dir item.now now) }
{
    let name = shared(alloc, &item.name)?;
    Ok(Call::SetCatInfo {
        dir,
        name,
        created: item.facts.dates.created,
        modified: item.facts.dates.modified,
        backup: item.facts.dates.backup,
        info: item.facts.finder,
        now,
    })
}

/// SetFLock of a locked file.
fn lock_call(alloc: Global, dir: u32, item: &PutItem, now: u32) -> Result<Option<Call>, AllocError>
    ensures { IfOk result (λ call. call ≡ lock_call dir item.now now) }
{
    if item.facts.locked {
        let name = shared(alloc, &item.name)?;
        Ok(Some(Call::SetFLock { dir, name, now }))
    } else {
        Ok(None)
    }
}

/// The call at a place among those that come after everything in a folder.
fn folder_ending_call(
    alloc: Global,
    dir: u32,
    item: &PutItem,
    now: u32,
    place: usize,
) -> Result<Option<Call>, AllocError>
    ensures { IfOk result (λ call. call
        ≡ slice_index_or (folder_ending dir item.now item.now.placing now) place None) }
{
    match item.placing {
        Placing::Kept => Ok(None),
        Placing::New | Placing::Replaced { .. } | Placing::Taken => {
            if place == 0 {
                Ok(Some(facts_call(alloc, dir, item, now)?))
            } else {
                Ok(None)
            }
        }
    }
}

/// The call at a place among those that come after the bytes of a file.
fn file_ending_call(
    alloc: Global,
    dir: u32,
    item: &PutItem,
    now: u32,
    place: usize,
) -> Result<Option<Call>, AllocError>
    ensures { IfOk result (λ call. call ≡ slice_index_or (file_ending dir item.now now) place None) }
{
    match place {
        0 => Ok(Some(facts_call(alloc, dir, item, now)?)),
        1 => lock_call(alloc, dir, item, now),
        _ => Ok(None),
    }
}

/// The call at a place, counted from 0, among those that come after the bytes of a file, or after everything in a folder; None if
/// this item needs no call there. Fails only when out of memory.
pub fn ending_call(
    alloc: Global,
    dir: u32,
    item: &PutItem,
    now: u32,
    place: usize,
) -> Result<Option<Call>, AllocError>
    ensures { IfOk result (λ call. call ≡ slice_index_or (ending dir item.now now) place None) }
{
    match item.kind {
        ItemKind::Folder => folder_ending_call(alloc, dir, item, now, place),
        ItemKind::File => file_ending_call(alloc, dir, item, now, place),
    }
}

//! The call of a line: what its word and the fields after it ask for.

ghost use Rattle.std.specs.Prelude.{◌≡◌, IfOk};
ghost use Rattle.hfs_scripts.specs.Calls.{number_alone, indexed_of, target_of, rename_of, move_of, set_f_info_of, set_info_of, target_call, call_on_target, call_of};
ghost use Rattle.hfs_scripts.specs.Fields.{texts_of};

use crate::fields::{read_16_bytes, read_32_bytes};
use crate::fork_calls::{read_read, read_set_eof, read_write};
use crate::numbers::{read_number, read_two_numbers};
use crate::words::Word;
use hfs_model::{Call, SharedBytes};
use std::alloc::{AllocError, Global};

/// The item that DIR and NAME name.
#[derive(Drop)]
pub(crate) struct Target {
    dir: u32,
    name: SharedBytes,
}

#[tactic(auto, unfolding(crate::specs::Calls::number_alone))]
fn read_number_alone(fields: &[&[u8]]) -> Option<u32>
    ensures { result ≡ number_alone (texts_of fields.now) }
{
    let [number] = fields else {
        return None;
    };
    read_number(number)
}

#[tactic(auto, unfolding(crate::specs::Calls::indexed_of))]
fn read_indexed(fields: &[&[u8]]) -> Option<Call>
    ensures { result ≡ indexed_of (texts_of fields.now) }
{
    let [dir, index] = fields else {
        return None;
    };
    let (dir, index) = read_two_numbers(dir, index)?;
    Some(Call::GetIndexed { dir, index })
}

#[tactic(auto, unfolding(crate::specs::Calls::target_of))]
fn read_target(alloc: Global, fields: &[&[u8]]) -> Result<Option<Target>, AllocError>
    ensures { IfOk result (λ item. item ≡ target_of (texts_of fields.now)) }
{
    let [dir, name] = fields else {
        return Ok(None);
    };
    let Some(dir) = read_number(dir) else {
        return Ok(None);
    };
    Ok(Some(Target {
        dir,
        name: SharedBytes::from_slice(alloc, name)?,
    }))
}

#[tactic(auto, unfolding(crate::specs::Calls::rename_of))]
fn read_rename(alloc: Global, fields: &[&[u8]], now: u32) -> Result<Option<Call>, AllocError>
    ensures { IfOk result (λ call. call ≡ rename_of now (texts_of fields.now)) }
{
    let [dir, name, new_name] = fields else {
        return Ok(None);
    };
    let Some(dir) = read_number(dir) else {
        return Ok(None);
    };
    Ok(Some(Call::Rename {
        dir,
        name: SharedBytes::from_slice(alloc, name)?,
        new_name: SharedBytes::from_slice(alloc, new_name)?,
        now,
    }))
}

#[tactic(auto, unfolding(crate::specs::Calls::move_of))]
fn read_move(alloc: Global, fields: &[&[u8]], now: u32) -> Result<Option<Call>, AllocError>
    ensures { IfOk result (λ call. call ≡ move_of now (texts_of fields.now)) }
{
    let [dir, name, new_dir] = fields else {
        return Ok(None);
    };
    let Some((dir, new_dir)) = read_two_numbers(dir, new_dir) else {
        return Ok(None);
    };
    let name = SharedBytes::from_slice(alloc, name)?;
    Ok(Some(Call::CatMove {
        dir,
        name,
        new_dir,
        now,
    }))
}

#[tactic(auto, unfolding(crate::specs::Calls::set_f_info_of))]
fn read_set_f_info(alloc: Global, fields: &[&[u8]], now: u32) -> Result<Option<Call>, AllocError>
    ensures { IfOk result (λ call. call ≡ set_f_info_of now (texts_of fields.now)) }
{
    let [dir, name, info] = fields else {
        return Ok(None);
    };
    let Some(dir) = read_number(dir) else {
        return Ok(None);
    };
    let Some(info) = read_16_bytes(info) else {
        return Ok(None);
    };
    let name = SharedBytes::from_slice(alloc, name)?;
    Ok(Some(Call::SetFInfo {
        dir,
        name,
        info,
        now,
    }))
}

#[tactic(auto, unfolding(crate::specs::Calls::set_info_of))]
fn read_set_info(alloc: Global, fields: &[&[u8]], now: u32) -> Result<Option<Call>, AllocError>
    ensures { IfOk result (λ call. call ≡ set_info_of now (texts_of fields.now)) }
{
    let [dir, name, created, modified, backup, info] = fields else {
        return Ok(None);
    };
    let Some(dir) = read_number(dir) else {
        return Ok(None);
    };
    let Some(created) = read_number(created) else {
        return Ok(None);
    };
    let Some(modified) = read_number(modified) else {
        return Ok(None);
    };
    let Some(backup) = read_number(backup) else {
        return Ok(None);
    };
    let Some(info) = read_32_bytes(info) else {
        return Ok(None);
    };
    let name = SharedBytes::from_slice(alloc, name)?;
    Ok(Some(Call::SetCatInfo {
        dir,
        name,
        created,
        modified,
        backup,
        info,
        now,
    }))
}

/// The call of a word that only takes DIR and NAME; None for another word.
#[tactic(auto, unfolding(crate::specs::Calls::target_call))]
fn on_target(word: Word, target: Target, now: u32) -> Option<Call>
    ensures { result ≡ target_call now word target }
{
    let Target { dir, name } = target;
    match word {
        Word::Info => Some(Call::GetCatInfo { dir, name }),
        Word::Create => Some(Call::Create { dir, name, now }),
        Word::MkDir => Some(Call::DirCreate { dir, name, now }),
        Word::Delete => Some(Call::Delete { dir, name, now }),
        Word::Lock => Some(Call::SetFLock { dir, name, now }),
        Word::Unlock => Some(Call::RstFLock { dir, name, now }),
        Word::NewId => Some(Call::CreateFileId { dir, name, now }),
        Word::DirInfo
        | Word::Indexed
        | Word::List
        | Word::Read
        | Word::Rename
        | Word::Move
        | Word::SetFInfo
        | Word::SetInfo
        | Word::DropId
        | Word::Resolve
        | Word::SetEof
        | Word::Write => None,
    }
}

/// The call of a word that only takes DIR and NAME; None for another word.
#[tactic(auto, unfolding(crate::specs::Calls::call_on_target))]
fn read_on_target(
    alloc: Global,
    word: Word,
    fields: &[&[u8]],
    now: u32,
) -> Result<Option<Call>, AllocError>
    ensures { IfOk result (λ call. call ≡ call_on_target now word (texts_of fields.now)) }
{
    match read_target(alloc, fields)? {
        Some(target) => Ok(on_target(word, target, now)),
        None => Ok(None),
    }
}

/// The call of a word and the fields after it, if they make one. `Err` only when out of memory.
#[tactic(auto, unfolding(crate::specs::Calls::call_of))]
pub(crate) fn read_call(
    alloc: Global,
    word: Word,
    fields: &[&[u8]],
    now: u32,
) -> Result<Option<Call>, AllocError>
    ensures { IfOk result (λ call. call ≡ call_of now word (texts_of fields.now)) }
{
    match word {
        Word::DirInfo => Ok(read_number_alone(fields).map(|dir| Call::GetDirInfo { dir })),
        Word::Indexed => Ok(read_indexed(fields)),
        Word::List => Ok(read_number_alone(fields).map(|dir| Call::List { dir })),
        Word::Read => read_read(alloc, fields),
        Word::Rename => read_rename(alloc, fields, now),
        Word::Move => read_move(alloc, fields, now),
        Word::SetFInfo => read_set_f_info(alloc, fields, now),
        Word::SetInfo => read_set_info(alloc, fields, now),
        Word::DropId => Ok(read_number_alone(fields).map(|id| Call::DeleteFileId { id, now })),
        Word::Resolve => Ok(read_number_alone(fields).map(|id| Call::ResolveFileId { id })),
        Word::SetEof => read_set_eof(alloc, fields, now),
        Word::Write => read_write(alloc, fields, now),
        Word::Info
        | Word::Create
        | Word::MkDir
        | Word::Delete
        | Word::Lock
        | Word::Unlock
        | Word::NewId => read_on_target(alloc, word, fields, now),
    }
}

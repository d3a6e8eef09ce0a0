//! Copies of calls, which share names and bytes.

ghost use Rattle.std.specs.Prelude.{◌≡◌, false, IfOk, IsTrue};
ghost use Rattle.hfs_model.specs.declared.call.Call.TheVariants.{Rename, CatMove, SetFInfo, WriteFork};
ghost use Rattle.hfs_model.specs.Step.{is_reading, is_writing};

use crate::call::{Call, Fork};
use crate::shared::SharedBytes;
use std::alloc::AllocError;

/// A copy of a call that only reads.
pub(crate) fn copied_reading(call: &Call) -> Result<Call, AllocError>
    requires { IsTrue (is_reading call.now) }
    ensures { IfOk result (λ copy. copy ≡ call.now) }
{
    match call {
        Call::GetDirInfo { dir } => Ok(Call::GetDirInfo { dir: *dir }),
        Call::GetCatInfo { dir, name } => Ok(Call::GetCatInfo {
            dir: *dir,
            name: name.clone()?,
        }),
        Call::GetIndexed { dir, index } => Ok(Call::GetIndexed {
            dir: *dir,
            index: *index,
        }),
        Call::List { dir } => Ok(Call::List { dir: *dir }),
        Call::ReadFork {
            dir,
            name,
            fork,
            offset,
            count,
        } => Ok(Call::ReadFork {
            dir: *dir,
            name: name.clone()?,
            fork: *fork,
            offset: *offset,
            count: *count,
        }),
        Call::ResolveFileId { id } => Ok(Call::ResolveFileId { id: *id }),
        Call::Create { .. }
        | Call::DirCreate { .. }
        | Call::Delete { .. }
        | Call::Rename { .. }
        | Call::CatMove { .. }
        | Call::SetFInfo { .. }
        | Call::SetCatInfo { .. }
        | Call::SetFLock { .. }
        | Call::RstFLock { .. }
        | Call::CreateFileId { .. }
        | Call::DeleteFileId { .. }
        | Call::SetEof { .. }
        | Call::WriteFork { .. } => unreachable!(),
    }
}

fn rename(
    dir: u32,
    name: &SharedBytes,
    new_name: &SharedBytes,
    now: u32,
) -> Result<Call, AllocError>
    ensures { IfOk result (λ copy. copy ≡ Rename dir name.now new_name.now now) }
{
    let name = name.clone()?;
    let new_name = new_name.clone()?;
    Ok(Call::Rename {
        dir,
        name,
        new_name,
        now,
    })
}

fn cat_move(dir: u32, name: &SharedBytes, new_dir: u32, now: u32) -> Result<Call, AllocError>
    ensures { IfOk result (λ copy. copy ≡ CatMove dir name.now new_dir now) }
{
    let name = name.clone()?;
    Ok(Call::CatMove {
        dir,
        name,
        new_dir,
        now,
    })
}

fn set_f_info(dir: u32, name: &SharedBytes, info: &[u8; 16], now: u32) -> Result<Call, AllocError>
    ensures { IfOk result (λ copy. copy ≡ SetFInfo dir name.now info.now now) }
{
    let name = name.clone()?;
    Ok(Call::SetFInfo {
        dir,
        name,
        info: *info,
        now,
    })
}

fn write_fork(
    dir: u32,
    name: &SharedBytes,
    fork: Fork,
    offset: u32,
    bytes: &SharedBytes,
    now: u32,
) -> Result<Call, AllocError>
    ensures { IfOk result (λ copy. copy ≡ WriteFork dir name.now fork offset bytes.now now) }
{
    let name = name.clone()?;
    let bytes = bytes.clone()?;
    Ok(Call::WriteFork {
        dir,
        name,
        fork,
        offset,
        bytes,
        now,
    })
}

/// A copy of a call that writes a fork.
fn copied_writing(call: &Call) -> Result<Call, AllocError>
    requires { IsTrue (is_writing call.now) }
    ensures { IfOk result (λ copy. copy ≡ call.now) }
{
    match call {
        Call::SetEof {
            dir,
            name,
            fork,
            length,
            now,
        } => Ok(Call::SetEof {
            dir: *dir,
            name: name.clone()?,
            fork: *fork,
            length: *length,
            now: *now,
        }),
        Call::WriteFork {
            dir,
            name,
            fork,
            offset,
            bytes,
            now,
        } => write_fork(*dir, name, *fork, *offset, bytes, *now),
        Call::GetDirInfo { .. }
        | Call::GetCatInfo { .. }
        | Call::GetIndexed { .. }
        | Call::List { .. }
        | Call::ReadFork { .. }
        | Call::Create { .. }
        | Call::DirCreate { .. }
        | Call::Delete { .. }
        | Call::Rename { .. }
        | Call::CatMove { .. }
        | Call::SetFInfo { .. }
        | Call::SetCatInfo { .. }
        | Call::SetFLock { .. }
        | Call::RstFLock { .. }
        | Call::CreateFileId { .. }
        | Call::DeleteFileId { .. }
        | Call::ResolveFileId { .. } => unreachable!(),
    }
}

/// A copy of a call that changes the volume.
pub(crate) fn copied_change(call: &Call) -> Result<Call, AllocError>
    requires { is_reading call.now ≡ false }
    ensures { IfOk result (λ copy. copy ≡ call.now) }
{
    match call {
        Call::Create { dir, name, now } => Ok(Call::Create {
            dir: *dir,
            name: name.clone()?,
            now: *now,
        }),
        Call::DirCreate { dir, name, now } => Ok(Call::DirCreate {
            dir: *dir,
            name: name.clone()?,
            now: *now,
        }),
        Call::Delete { dir, name, now } => Ok(Call::Delete {
            dir: *dir,
            name: name.clone()?,
            now: *now,
        }),
        Call::Rename {
            dir,
            name,
            new_name,
            now,
        } => rename(*dir, name, new_name, *now),
        Call::CatMove {
            dir,
            name,
            new_dir,
            now,
        } => cat_move(*dir, name, *new_dir, *now),
        Call::SetFInfo {
            dir,
            name,
            info,
            now,
        } => set_f_info(*dir, name, info, *now),
        Call::SetCatInfo {
            dir,
            name,
            created,
            modified,
            backup,
            info,
            now,
        } => Ok(Call::SetCatInfo {
            dir: *dir,
            name: name.clone()?,
            created: *created,
            modified: *modified,
            backup: *backup,
            info: *info,
            now: *now,
        }),
        Call::SetFLock { dir, name, now } => Ok(Call::SetFLock {
            dir: *dir,
            name: name.clone()?,
            now: *now,
        }),
        Call::RstFLock { dir, name, now } => Ok(Call::RstFLock {
            dir: *dir,
            name: name.clone()?,
            now: *now,
        }),
        Call::CreateFileId { dir, name, now } => Ok(Call::CreateFileId {
            dir: *dir,
            name: name.clone()?,
            now: *now,
        }),
        Call::DeleteFileId { id, now } => Ok(Call::DeleteFileId { id: *id, now: *now }),
        Call::SetEof { .. } | Call::WriteFork { .. } => copied_writing(call),
        Call::GetDirInfo { .. }
        | Call::GetCatInfo { .. }
        | Call::GetIndexed { .. }
        | Call::List { .. }
        | Call::ReadFork { .. }
        | Call::ResolveFileId { .. } => unreachable!(),
    }
}

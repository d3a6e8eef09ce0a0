//! The fields after a call's word.

ghost use Rattle.std.specs.Prelude.{◌≡◌, false, IfOk, IsTrue};
ghost use Rattle.hfs_model.specs.Step.{is_reading, is_writing};
ghost use Rattle.hfs_scripts.specs.declared.words.Word.TheVariants.{SetInfo};
ghost use Rattle.hfs_scripts.specs.Results.{GivesItems};
ghost use Rattle.hfs_scripts.specs.Readable.{IsReadable};
ghost use Rattle.hfs_scripts.specs.Texts.{arguments, word_for};

use crate::argument_lists::{
    dates_and_info, fork_and_number, moving, one_number, part_of_fork, renaming, target,
    target_and_info, two_numbers, written_part,
};
use hfs_model::{Call, OwnedBytes};
use std::alloc::{AllocError, Global};

/// The fields of a call that only reads.
fn reading_fields(alloc: Global, call: &Call) -> Result<Vec<OwnedBytes>, AllocError>
    requires { IsTrue (is_reading call.now) }
    ensures fields { GivesItems (arguments call.now) result }
    ensures reads { IfOk result (λ fields. IsReadable call.now) }
{
    match call {
        Call::GetDirInfo { dir } => one_number(alloc, *dir),
        Call::GetCatInfo { dir, name } => target(alloc, *dir, name),
        Call::GetIndexed { dir, index } => two_numbers(alloc, *dir, *index),
        Call::List { dir } => one_number(alloc, *dir),
        Call::ReadFork {
            dir,
            name,
            fork,
            offset,
            count,
        } => part_of_fork(alloc, *dir, name, *fork, *offset, *count),
        Call::ResolveFileId { id } => one_number(alloc, *id),
        Call::Create { .. }
        | Call::DirCreate { .. }
        | Call::Delete { .. }
        | Call::Rename { .. }
        | Call::CatMove { .. }
        | Call::SetFInfo { .. }
        | Call::SetCatInfo { .. }
        | Call::SetFLock { .. }
        | Call::RstFLock { .. }
        | Call::CreateFileId { .. }
        | Call::DeleteFileId { .. }
        | Call::SetEof { .. }
        | Call::WriteFork { .. } => unreachable!(),
    }
}

/// The fields of a call that writes a fork.
fn writing_fields(alloc: Global, call: &Call) -> Result<Vec<OwnedBytes>, AllocError>
    requires { IsTrue (is_writing call.now) }
    ensures fields { GivesItems (arguments call.now) result }
    ensures reads { IfOk result (λ fields. IsReadable call.now) }
{
    match call {
        Call::SetEof {
            dir,
            name,
            fork,
            length,
            ..
        } => fork_and_number(alloc, *dir, name, *fork, *length),
        Call::WriteFork {
            dir,
            name,
            fork,
            offset,
            bytes,
            ..
        } => written_part(alloc, *dir, name, *fork, *offset, bytes),
        Call::GetDirInfo { .. }
        | Call::GetCatInfo { .. }
        | Call::GetIndexed { .. }
        | Call::List { .. }
        | Call::ReadFork { .. }
        | Call::Create { .. }
        | Call::DirCreate { .. }
        | Call::Delete { .. }
        | Call::Rename { .. }
        | Call::CatMove { .. }
        | Call::SetFInfo { .. }
        | Call::SetCatInfo { .. }
        | Call::SetFLock { .. }
        | Call::RstFLock { .. }
        | Call::CreateFileId { .. }
        | Call::DeleteFileId { .. }
        | Call::ResolveFileId { .. } => unreachable!(),
    }
}

/// The fields of a call that sets dates and Finder bytes.
fn set_info_fields(alloc: Global, call: &Call) -> Result<Vec<OwnedBytes>, AllocError>
    requires { word_for call.now ≡ SetInfo }
    ensures fields { GivesItems (arguments call.now) result }
    ensures reads { IfOk result (λ fields. IsReadable call.now) }
{
    let Call::SetCatInfo {
        dir,
        name,
        created,
        modified,
        backup,
        info,
        ..
    } = call
    else {
        unreachable!()
    };
    let fields = target(alloc, *dir, name)?;
    dates_and_info(alloc, fields, *created, *modified, *backup, info)
}

/// The fields of a call that may change the volume.
fn changing_fields(alloc: Global, call: &Call) -> Result<Vec<OwnedBytes>, AllocError>
    requires { is_reading call.now ≡ false }
    ensures fields { GivesItems (arguments call.now) result }
    ensures reads { IfOk result (λ fields. IsReadable call.now) }
{
    match call {
        Call::Create { dir, name, .. }
        | Call::DirCreate { dir, name, .. }
        | Call::Delete { dir, name, .. }
        | Call::SetFLock { dir, name, .. }
        | Call::RstFLock { dir, name, .. }
        | Call::CreateFileId { dir, name, .. } => target(alloc, *dir, name),
        Call::Rename {
            dir,
            name,
            new_name,
            ..
        } => renaming(alloc, *dir, name, new_name),
        Call::CatMove {
            dir,
            name,
            new_dir,
            ..
        } => moving(alloc, *dir, name, *new_dir),
        Call::SetFInfo {
            dir,
            name,
            info,
            ..
        } => target_and_info(alloc, *dir, name, info),
        Call::SetCatInfo { .. } => set_info_fields(alloc, call),
        Call::DeleteFileId { id, .. } => one_number(alloc, *id),
        Call::SetEof { .. } | Call::WriteFork { .. } => writing_fields(alloc, call),
        Call::GetDirInfo { .. }
        | Call::GetCatInfo { .. }
        | Call::GetIndexed { .. }
        | Call::List { .. }
        | Call::ReadFork { .. }
        | Call::ResolveFileId { .. } => unreachable!(),
    }
}

/// The fields after the call's word.
pub(crate) fn argument_fields(alloc: Global, call: &Call) -> Result<Vec<OwnedBytes>, AllocError>
    ensures fields { IfOk result (λ fields. fields.items ≡ arguments call.now) }
    ensures reads { IfOk result (λ fields. IsReadable call.now) }
{
    if call.is_reading() {
        reading_fields(alloc, call)
    } else {
        changing_fields(alloc, call)
    }
}

//! What each call makes of a volume's blocks.

ghost use Rattle.std.specs.Prelude.{◌≡◌, false, IsTrue};
ghost use Rattle.hfs_model.specs.Step.{is_reading, is_writing};
ghost use Rattle.hfs_call_edits.specs.Edits.{HasForkRoom, HasForkWritten, IsEditOf};
ghost use Rattle.hfs_call_edits.specs.Serving.{sets_info};
ghost use Rattle.hfs_call_patches.specs.CallChanges.{Makes};

use crate::editing::{Editing, Refusal};
use hfs_blocks::Blocks;
use hfs_call_patches::{Change, ForkWrite};
use hfs_model::{Call, ItemSettings};
use std::alloc::{AllocError, Global};

/// Whether the call writes a fork.
fn is_writing(call: &Call) -> bool
    ensures { result ≡ is_writing call.now }
{
    match call {
        Call::SetEof { .. } | Call::WriteFork { .. } => true,
        Call::GetDirInfo { .. }
        | Call::GetCatInfo { .. }
        | Call::GetIndexed { .. }
        | Call::List { .. }
        | Call::ReadFork { .. }
        | Call::Create { .. }
        | Call::DirCreate { .. }
        | Call::Delete { .. }
        | Call::Rename { .. }
        | Call::CatMove { .. }
        | Call::SetFInfo { .. }
        | Call::SetCatInfo { .. }
        | Call::SetFLock { .. }
        | Call::RstFLock { .. }
        | Call::CreateFileId { .. }
        | Call::DeleteFileId { .. }
        | Call::ResolveFileId { .. } => false,
    }
}

impl<B: Blocks> Editing<'_, B> {
    /// What a call that changes the volume makes of it, or what refuses it. Fails only when out of memory.
    pub fn edit(&self, alloc: Global, call: &Call) -> Result<Result<Change, Refusal>, AllocError>
        requires { is_reading call.now ≡ false }
        ensures made { Makes result (IsEditOf call.now) B.total B.blocks self.now }
        ensures room { Makes result (HasForkRoom call.now) B.total B.blocks self.now }
        ensures forks { Makes result (HasForkWritten call.now) B.total B.blocks self.now }
    {
        if is_writing(call) {
            return self.write(alloc, call);
        }
        self.change_item(alloc, call)
    }

    /// What a call that changes items of the catalog makes of the volume.
    fn change_item(&self, alloc: Global, call: &Call) -> Result<Result<Change, Refusal>, AllocError>
        requires changes { is_reading call.now ≡ false }
        requires other { is_writing call.now ≡ false }
        ensures { Makes result (IsEditOf call.now) B.total B.blocks self.now }
    {
        match call {
            Call::Create { dir, name, now } => self.create(alloc, *dir, name.as_slice(), *now),
            Call::DirCreate { dir, name, now } => {
                self.dir_create(alloc, *dir, name.as_slice(), *now)
            }
            Call::Delete { dir, name, now } => self.delete(alloc, *dir, name.as_slice(), *now),
            Call::Rename {
                dir,
                name,
                new_name,
                now,
            } => self.rename(alloc, *dir, name.as_slice(), new_name.as_slice(), *now),
            Call::CatMove {
                dir,
                name,
                new_dir,
                now,
            } => self.cat_move(alloc, *dir, name.as_slice(), *new_dir, *now),
            Call::CreateFileId { dir, name, now } => {
                self.create_file_id(alloc, *dir, name.as_slice(), *now)
            }
            Call::DeleteFileId { id, now } => self.delete_file_id(alloc, *id, *now),
            Call::SetFLock { dir, name, now } => {
                self.set_lock(alloc, *dir, name.as_slice(), true, *now)
            }
            Call::RstFLock { dir, name, now } => {
                self.set_lock(alloc, *dir, name.as_slice(), false, *now)
            }
            Call::SetFInfo { .. } | Call::SetCatInfo { .. } => self.set_info(alloc, call),
            Call::GetDirInfo { .. }
            | Call::GetCatInfo { .. }
            | Call::GetIndexed { .. }
            | Call::List { .. }
            | Call::ReadFork { .. }
            | Call::ResolveFileId { .. }
            | Call::SetEof { .. }
            | Call::WriteFork { .. } => unreachable!(),
        }
    }

    /// What a call that sets dates or Finder bytes makes of the volume.
    fn set_info(&self, alloc: Global, call: &Call) -> Result<Result<Change, Refusal>, AllocError>
        requires { IsTrue (sets_info call.now) }
        ensures { Makes result (IsEditOf call.now) B.total B.blocks self.now }
    {
        match call {
            Call::SetFInfo {
                dir,
                name,
                info,
                now,
            } => self.set_f_info(alloc, *dir, name.as_slice(), info, *now),
            Call::SetCatInfo {
                dir,
                name,
                created,
                modified,
                backup,
                info,
                now,
            } => {
                let settings = ItemSettings {
                    created: *created,
                    modified: *modified,
                    backup: *backup,
                    info: *info,
                };
                self.set_cat_info(alloc, *dir, name.as_slice(), &settings, *now)
            }
            Call::GetDirInfo { .. }
            | Call::GetCatInfo { .. }
            | Call::GetIndexed { .. }
            | Call::List { .. }
            | Call::ReadFork { .. }
            | Call::ResolveFileId { .. }
            | Call::SetFLock { .. }
            | Call::RstFLock { .. }
            | Call::Create { .. }
            | Call::DirCreate { .. }
            | Call::Delete { .. }
            | Call::Rename { .. }
            | Call::CatMove { .. }
            | Call::CreateFileId { .. }
            | Call::DeleteFileId { .. }
            | Call::SetEof { .. }
            | Call::WriteFork { .. } => unreachable!(),
        }
    }

    /// What a call that writes a fork makes of the volume.
    fn write(&self, alloc: Global, call: &Call) -> Result<Result<Change, Refusal>, AllocError>
        requires { IsTrue (is_writing call.now) }
        ensures made { Makes result (IsEditOf call.now) B.total B.blocks self.now }
        ensures room { Makes result (HasForkRoom call.now) B.total B.blocks self.now }
        ensures forks { Makes result (HasForkWritten call.now) B.total B.blocks self.now }
    {
        match call {
            Call::SetEof {
                dir,
                name,
                fork,
                length,
                now,
            } => self.set_eof(alloc, *dir, name.as_slice(), *fork, *length, *now),
            Call::WriteFork {
                dir,
                name,
                fork,
                offset,
                bytes,
                now,
            } => {
                let write = ForkWrite {
                    fork: *fork,
                    offset: *offset,
                    bytes: bytes.as_slice(),
                };
                self.write_fork(alloc, *dir, name.as_slice(), &write, *now)
            }
            Call::GetDirInfo { .. }
            | Call::GetCatInfo { .. }
            | Call::GetIndexed { .. }
            | Call::List { .. }
            | Call::ReadFork { .. }
            | Call::Create { .. }
            | Call::DirCreate { .. }
            | Call::Delete { .. }
            | Call::Rename { .. }
            | Call::CatMove { .. }
            | Call::SetFInfo { .. }
            | Call::SetCatInfo { .. }
            | Call::SetFLock { .. }
            | Call::RstFLock { .. }
            | Call::CreateFileId { .. }
            | Call::DeleteFileId { .. }
            | Call::ResolveFileId { .. } => unreachable!(),
        }
    }
}

//! CreateFileId and DeleteFileId.

ghost use Rattle.std.specs.Prelude.{◌≡◌, IfOk};
ghost use Rattle.hfs_model.specs.declared.call.Call.TheVariants as call;
ghost use Rattle.hfs_model.specs.declared.reply.Value.TheVariants as value;
ghost use Rattle.hfs_model.specs.FileIds.{to_create_file_id, to_delete_file_id};
ghost use Rattle.hfs_call_edits.specs.Edits.{IsEditOf, ChoosesFileBy, change_at, IsThreadlessIn};
ghost use Rattle.hfs_call_patches.specs.CallChanges.{Makes};

use crate::choosing_file_ids;
use crate::editing::{Editing, Refusal};
use hfs_blocks::{Blocks, Patch};
use hfs_call_patches::{Change, patch_create_file_id, patch_delete_file_id};
use hfs_fields::{CatKey, FileRecord};
use hfs_model::Value;
use std::alloc::{AllocError, Global};

impl<B: Blocks> Editing<'_, B> {
    /// The folder's file of that name, which has no thread, with its key, or the code that refuses to give it one.
    fn file_without_id(&self, dir: u32, name: &[u8]) -> Result<(CatKey, FileRecord), i16>
        ensures choice { ChoosesFileBy (λ v. to_create_file_id v dir name.now)
            (B.blocks self.now) result }
        ensures threadless { IfOk result (IsThreadlessIn (B.blocks self.now)) }
    {
        choosing_file_ids::file_without_id(&self.nodes(), self.volume.mdb, dir, name)
    }

    /// The file with that ID, which has a thread, with its key, or the code that refuses to remove it.
    fn file_with_id(&self, id: u32) -> Result<(CatKey, FileRecord), i16>
        ensures { ChoosesFileBy (λ v. to_delete_file_id v id) (B.blocks self.now) result }
    {
        choosing_file_ids::file_with_id(&self.nodes(), self.volume.mdb, id)
    }

    /// A change of blocks and of the moment of the last change only, which answers with an ID.
    fn change_to_id(&self, patch: Patch, id: u32, now: u32) -> Change
        ensures { result ≡ change_at now (B.blocks self.now) patch (value.Id id) }
    {
        Change {
            value: Value::Id(id),
            ..self.change(patch, now)
        }
    }

    /// What CreateFileId makes of the volume. Fails only when out of memory.
    pub(crate) fn create_file_id(
        &self,
        alloc: Global,
        dir: u32,
        name: &[u8],
        now: u32,
    ) -> Result<Result<Change, Refusal>, AllocError>
        ensures { Makes result (IsEditOf (call.CreateFileId dir name.now now))
            B.total B.blocks self.now }
    {
        let (key, file) = match self.file_without_id(dir, name) {
            Ok(chosen) => chosen,
            Err(code) => return Ok(Err(Refusal::Code(code))),
        };
        if let Some(refusal) = self.lacks_one() {
            return Ok(Err(refusal));
        }
        let patch = patch_create_file_id(alloc, &self.volume, &key, &file, now)?;
        Ok(Ok(self.change_to_id(patch, file.id, now)))
    }

    /// What DeleteFileId makes of the volume. Fails only when out of memory.
    pub(crate) fn delete_file_id(
        &self,
        alloc: Global,
        id: u32,
        now: u32,
    ) -> Result<Result<Change, Refusal>, AllocError>
        ensures { Makes result (IsEditOf (call.DeleteFileId id now)) B.total B.blocks self.now }
    {
        let (key, file) = match self.file_with_id(id) {
            Ok(chosen) => chosen,
            Err(code) => return Ok(Err(Refusal::Code(code))),
        };
        let patch = patch_delete_file_id(alloc, &self.volume, &key, &file, now)?;
        Ok(Ok(self.change(patch, now)))
    }
}

//! Create and DirCreate.

ghost use Rattle.hfs_model.specs.declared.call.Call.TheVariants as call;
ghost use Rattle.hfs_call_edits.specs.Edits.{IsEditOf};
ghost use Rattle.hfs_call_patches.specs.CallChanges.{Makes};

use crate::editing::{Editing, Refusal};
use hfs_blocks::Blocks;
use hfs_call_patches::{Change, add_new_file, add_new_folder};
use std::alloc::{AllocError, Global};

impl<B: Blocks> Editing<'_, B> {
    /// What Create makes of the volume. Fails only when out of memory.
    pub(crate) fn create(
        &self,
        alloc: Global,
        dir: u32,
        name: &[u8],
        now: u32,
    ) -> Result<Result<Change, Refusal>, AllocError>
        ensures { Makes result (IsEditOf (call.Create dir name.now now)) B.total B.blocks self.now }
    {
        let found = match self.new_place(dir, name) {
            Ok(found) => found,
            Err(code) => return Ok(Err(Refusal::Code(code))),
        };
        if let Some(refusal) = self.lacks_one() {
            return Ok(Err(refusal));
        }
        let change = add_new_file(alloc, &self.volume, dir, &found, now)?;
        Ok(Ok(change))
    }

    /// What DirCreate makes of the volume. Fails only when out of memory.
    pub(crate) fn dir_create(
        &self,
        alloc: Global,
        dir: u32,
        name: &[u8],
        now: u32,
    ) -> Result<Result<Change, Refusal>, AllocError>
        ensures { Makes result (IsEditOf (call.DirCreate dir name.now now))
            B.total B.blocks self.now }
    {
        let found = match self.new_place(dir, name) {
            Ok(found) => found,
            Err(code) => return Ok(Err(Refusal::Code(code))),
        };
        if let Some(refusal) = self.lacks_two() {
            return Ok(Err(refusal));
        }
        let change = add_new_folder(alloc, &self.volume, dir, &found, now)?;
        Ok(Ok(change))
    }
}

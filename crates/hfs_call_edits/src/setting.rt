//! What the calls that set something make of a volume's blocks.

ghost use Rattle.hfs_model.specs.declared.call.Call.TheVariants as call;
ghost use Rattle.hfs_record_edits.specs.SettingLaws.{lock_call};
ghost use Rattle.hfs_call_edits.specs.Edits.{IsEditOf};
ghost use Rattle.hfs_call_patches.specs.Settings.{set_cat_info_call};
ghost use Rattle.hfs_call_patches.specs.CallChanges.{Makes};

use crate::editing::{Editing, Refusal};
use hfs_blocks::Blocks;
use hfs_call_patches::{
    Change, FoundFile, FoundFolder, patch_set_f_info, patch_set_file_info, patch_set_folder_info,
    patch_set_lock,
};
use hfs_catalog::ItemRecord;
use hfs_model::ItemSettings;
use std::alloc::{AllocError, Global};

impl<B: Blocks> Editing<'_, B> {
    /// What SetFInfo makes of the volume. Fails only when out of memory.
    pub(crate) fn set_f_info(
        &self,
        alloc: Global,
        dir: u32,
        name: &[u8],
        info: &[u8; 16],
        now: u32,
    ) -> Result<Result<Change, Refusal>, AllocError>
        ensures { Makes result (IsEditOf (call.SetFInfo dir name.now info.now now))
            B.total B.blocks self.now }
    {
        let found = match self.file_to_set(dir, name) {
            Ok(found) => found,
            Err(code) => return Ok(Err(Refusal::Code(code))),
        };
        let patch = patch_set_f_info(alloc, &self.volume, &found, info, now)?;
        Ok(Ok(self.change(patch, now)))
    }

    /// What SetCatInfo makes of the volume. Fails only when out of memory.
    pub(crate) fn set_cat_info(
        &self,
        alloc: Global,
        dir: u32,
        name: &[u8],
        settings: &ItemSettings,
        now: u32,
    ) -> Result<Result<Change, Refusal>, AllocError>
        ensures { Makes result (IsEditOf (set_cat_info_call dir name.now settings.now now))
            B.total B.blocks self.now }
    {
        let placed = match self.item_to_set(dir, name) {
            Ok(placed) => placed,
            Err(code) => return Ok(Err(Refusal::Code(code))),
        };
        let place = placed.place;
        let item = placed.item;
        let key = item.key;
        match item.body {
            ItemRecord::Folder(folder) => {
                let found = FoundFolder { key, folder, place };
                let patch = patch_set_folder_info(alloc, &self.volume, &found, settings, now)?;
                Ok(Ok(self.change(patch, now)))
            }
            ItemRecord::File(file) => {
                let found = FoundFile { key, file, place };
                let patch = patch_set_file_info(alloc, &self.volume, &found, settings, now)?;
                Ok(Ok(self.change(patch, now)))
            }
        }
    }

    /// What SetFLock or RstFLock makes of the volume. Fails only when out of memory.
    pub(crate) fn set_lock(
        &self,
        alloc: Global,
        dir: u32,
        name: &[u8],
        locked: bool,
        now: u32,
    ) -> Result<Result<Change, Refusal>, AllocError>
        ensures { Makes result (IsEditOf (lock_call locked dir name.now now))
            B.total B.blocks self.now }
    {
        let found = match self.file_to_change(dir, name) {
            Ok(found) => found,
            Err(code) => return Ok(Err(Refusal::Code(code))),
        };
        let patch = patch_set_lock(alloc, &self.volume, &found, locked, now)?;
        Ok(Ok(self.change(patch, now)))
    }
}

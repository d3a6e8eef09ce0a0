//! What a change chooses first: an item, an ID, or the code that refuses it.

ghost use Rattle.std.specs.Prelude.{◌≡◌, ◌<◌, IsTrue, Ok, IfOk, OnOk};
ghost use Rattle.hfs_model.specs.Children.{entries_of, valence};
ghost use Rattle.hfs_model.specs.Choices.{child_to_change, file_to_change, to_delete, to_rename, to_move, to_create, to_set_f_info, to_set_cat_info, is_locked, lock_code};
ghost use Rattle.hfs_model.specs.FileIds.{to_create_file_id, to_delete_file_id};
ghost use Rattle.hfs_store.specs.PlainVolume.{IsPlaceIn};
ghost use Rattle.hfs_fields.specs.Names.{is_item_name};

use super::PlainVolume;
use crate::entries::{
    child_named, has_thread, is_bad_move, is_busy, is_folder, is_folder_kind, is_full, is_held,
    is_locked_file, is_taken, valence,
};
use crate::reading;
use hfs_fields::is_item_name;
use hfs_model::{
    BAD_MOVE, BAD_NAME, BUSY, DUPLICATE, FILE_ID_EXISTS, FILE_LOCKED, FOLDER_FULL, HARDWARE_LOCKED,
    NOT_A_FILE, NOT_A_FOLDER, NOT_FOUND, SOFTWARE_LOCKED,
};

impl PlainVolume {
    pub(crate) fn is_locked(&self) -> bool
        ensures { result ≡ is_locked self.now }
    {
        self.hardware_locked || self.software_locked
    }

    /// The code of a locked volume.
    pub(crate) fn lock_code(&self) -> i16
        ensures { result ≡ lock_code self.now }
    {
        if self.hardware_locked {
            HARDWARE_LOCKED
        } else {
            SOFTWARE_LOCKED
        }
    }

    /// The place of the folder's item of that name, in a volume that may be changed.
    #[tactic(auto, unfolding(hfs_model::specs::Choices::child_to_change))]
    pub(crate) fn child_to_change(&self, dir: u32, name: &[u8]) -> Result<usize, i16>
        ensures { IsPlaceIn self.now (child_to_change self.now dir name.now) result }
    {
        if self.is_locked() {
            return Err(self.lock_code());
        }
        if !is_item_name(name) {
            return Err(BAD_NAME);
        }
        let entries = self.entries();
        if !is_folder(entries, dir) {
            return Err(NOT_A_FOLDER);
        }
        match child_named(entries, dir, name) {
            None => Err(NOT_FOUND),
            Some(at) => Ok(at),
        }
    }

    #[tactic(auto, unfolding(hfs_model::specs::Choices::to_delete))]
    pub(crate) fn to_delete(&self, dir: u32, name: &[u8]) -> Result<usize, i16>
        ensures { IsPlaceIn self.now (to_delete self.now dir name.now) result }
    {
        let at = self.child_to_change(dir, name)?;
        let entries = self.entries();
        let entry = &entries[at];
        if is_busy(entries, entry) {
            return Err(BUSY);
        }
        if is_locked_file(&entry.1.kind) {
            return Err(FILE_LOCKED);
        }
        Ok(at)
    }

    /// The same for a file.
    #[tactic(auto, unfolding(hfs_model::specs::Choices::file_to_change))]
    pub(crate) fn file_to_change(&self, dir: u32, name: &[u8]) -> Result<usize, i16>
        ensures { IsPlaceIn self.now (file_to_change self.now dir name.now) result }
    {
        let at = self.child_to_change(dir, name)?;
        if is_folder_kind(&self.entries()[at].1.kind) {
            return Err(NOT_FOUND);
        }
        Ok(at)
    }

    #[tactic(auto, unfolding(hfs_model::specs::Choices::to_rename))]
    pub(crate) fn to_rename(&self, dir: u32, name: &[u8], new_name: &[u8]) -> Result<usize, i16>
        ensures place { IsPlaceIn self.now (to_rename self.now dir name.now new_name.now) result }
        ensures named { OnOk result (IsTrue (is_item_name new_name.now)) }
    {
        if self.is_locked() {
            return Err(self.lock_code());
        }
        if !is_item_name(new_name) {
            return Err(BAD_NAME);
        }
        let at = self.child_to_change(dir, name)?;
        let entries = self.entries();
        let entry = &entries[at];
        if is_locked_file(&entry.1.kind) {
            return Err(FILE_LOCKED);
        }
        if is_taken(entries, dir, new_name, entry.0) {
            return Err(DUPLICATE);
        }
        Ok(at)
    }

    #[tactic(auto, unfolding(hfs_model::specs::Choices::to_move))]
    pub(crate) fn to_move(&self, dir: u32, name: &[u8], new_dir: u32) -> Result<usize, i16>
        ensures place { IsPlaceIn self.now (to_move self.now dir name.now new_dir) result }
        ensures room { OnOk result (valence (entries_of self.now) new_dir < 65535) }
    {
        let at = self.child_to_change(dir, name)?;
        let entries = self.entries();
        let entry = &entries[at];
        if !is_folder(entries, new_dir) {
            return Err(NOT_A_FOLDER);
        }
        if is_bad_move(entries, entry, new_dir) {
            return Err(BAD_MOVE);
        }
        if is_held(entries, new_dir, name) {
            return Err(DUPLICATE);
        }
        if is_full(entries, new_dir) {
            return Err(FOLDER_FULL);
        }
        Ok(at)
    }

    #[tactic(auto, unfolding(hfs_model::specs::Choices::to_create))]
    pub(crate) fn to_create(&self, dir: u32, name: &[u8]) -> Result<u32, i16>
        ensures id { result ≡ to_create self.now dir name.now }
        ensures next { OnOk result (to_create self.now dir name.now ≡ Ok self.now.next_id) }
        ensures below { IfOk result (λ id. id < 4294967295) }
        ensures named { OnOk result (IsTrue (is_item_name name.now)) }
        ensures room { OnOk result (valence (entries_of self.now) dir < 65535) }
    {
        if self.is_locked() {
            return Err(self.lock_code());
        }
        if !is_item_name(name) {
            return Err(BAD_NAME);
        }
        let entries = self.entries();
        if !is_folder(entries, dir) {
            return Err(NOT_A_FOLDER);
        }
        if is_held(entries, dir, name) {
            return Err(DUPLICATE);
        }
        if is_full(entries, dir) || self.next_id == 4294967295 {
            return Err(FOLDER_FULL);
        }
        Ok(self.next_id)
    }

    #[tactic(auto, unfolding(hfs_model::specs::Choices::to_set_f_info))]
    pub(crate) fn to_set_f_info(&self, dir: u32, name: &[u8]) -> Result<usize, i16>
        ensures { IsPlaceIn self.now (to_set_f_info self.now dir name.now) result }
    {
        let at = self.file_to_change(dir, name)?;
        if is_locked_file(&self.entries()[at].1.kind) {
            return Err(FILE_LOCKED);
        }
        Ok(at)
    }

    #[tactic(auto, unfolding(hfs_model::specs::Choices::to_set_cat_info))]
    pub(crate) fn to_set_cat_info(&self, dir: u32, name: &[u8]) -> Result<usize, i16>
        ensures { IsPlaceIn self.now (to_set_cat_info self.now dir name.now) result }
    {
        let at = self.child_to_change(dir, name)?;
        if is_locked_file(&self.entries()[at].1.kind) {
            return Err(FILE_LOCKED);
        }
        Ok(at)
    }

    #[tactic(auto, unfolding(hfs_model::specs::FileIds::to_create_file_id))]
    pub(crate) fn to_create_file_id(&self, dir: u32, name: &[u8]) -> Result<usize, i16>
        ensures { IsPlaceIn self.now (to_create_file_id self.now dir name.now) result }
    {
        let at = self.child_to_change(dir, name)?;
        let kind = &self.entries()[at].1.kind;
        if is_folder_kind(kind) {
            return Err(NOT_A_FILE);
        }
        if has_thread(kind) {
            return Err(FILE_ID_EXISTS);
        }
        Ok(at)
    }

    #[tactic(auto, unfolding(hfs_model::specs::FileIds::to_delete_file_id))]
    pub(crate) fn to_delete_file_id(&self, id: u32) -> Result<usize, i16>
        ensures { IsPlaceIn self.now (to_delete_file_id self.now id) result }
    {
        if self.is_locked() {
            return Err(self.lock_code());
        }
        reading::file_of_id(self.entries(), id)
    }
}

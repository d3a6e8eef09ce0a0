//! The changes, each after what it chooses first.

ghost use Rattle.std.specs.Prelude.{◌≡◌, OnErr};
ghost use Rattle.hfs_model.specs.Changes.{delete, rename, cat_move, create, set_f_info, set_cat_info, set_lock, new_file, new_folder};
ghost use Rattle.hfs_model.specs.FileIds.{create_file_id, delete_file_id};
ghost use Rattle.hfs_store.specs.PlainVolume.{GivesOutcome};

use super::PlainVolume;
use crate::changes::{
    add_item, move_item, remove_item, rename_item, set_finder, set_info, set_lock, set_thread,
};
use crate::entries::{new_file, new_folder, new_item};
use crate::reading::{refusal, success};
use hfs_fields::Name;
use hfs_model::{Kind, Reply, Value};
use std::alloc::AllocError;

impl PlainVolume {
    /// Deletes a file or an empty folder.
    #[tactic(auto, unfolding(hfs_model::specs::Changes::delete))]
    pub fn delete(&mut self, dir: u32, name: &[u8], now: u32) -> Reply
        ensures { (self.new, result) ≡ delete self.old dir name.now now }
    {
        match self.to_delete(dir, name) {
            Ok(at) => {
                remove_item(&mut self.items, at, dir, now);
                self.changed = now;
                success(Value::Nothing)
            }
            Err(code) => refusal(code),
        }
    }

    /// Moves an item to another folder.
    #[tactic(auto, unfolding(hfs_model::specs::Changes::cat_move))]
    pub fn cat_move(&mut self, dir: u32, name: &[u8], new_dir: u32, now: u32) -> Reply
        ensures { (self.new, result) ≡ cat_move self.old dir name.now new_dir now }
    {
        match self.to_move(dir, name, new_dir) {
            Ok(at) => {
                move_item(&mut self.items, at, dir, new_dir, now);
                self.changed = now;
                success(Value::Nothing)
            }
            Err(code) => refusal(code),
        }
    }

    /// Sets the first 16 Finder bytes of a file.
    #[tactic(auto, unfolding(hfs_model::specs::Changes::set_f_info))]
    pub fn set_f_info(&mut self, dir: u32, name: &[u8], info: &[u8; 16], now: u32) -> Reply
        ensures { (self.new, result) ≡ set_f_info self.old dir name.now info.now now }
    {
        match self.to_set_f_info(dir, name) {
            Ok(at) => {
                set_finder(&mut self.items, at, info);
                self.changed = now;
                success(Value::Nothing)
            }
            Err(code) => refusal(code),
        }
    }

    /// Sets the dates and the Finder bytes of an item.
    #[tactic(auto, unfolding(hfs_model::specs::Changes::set_cat_info))]
    pub fn set_cat_info(
        &mut self,
        dir: u32,
        name: &[u8],
        created: u32,
        modified: u32,
        backup: u32,
        info: [u8; 32],
        now: u32,
    ) -> Reply
        ensures { (self.new, result)
            ≡ set_cat_info self.old dir name.now created modified backup info now }
    {
        match self.to_set_cat_info(dir, name) {
            Ok(at) => {
                set_info(&mut self.items, at, created, modified, backup, info);
                self.changed = now;
                success(Value::Nothing)
            }
            Err(code) => refusal(code),
        }
    }

    /// Locks or unlocks a file.
    #[tactic(auto, unfolding(hfs_model::specs::Changes::set_lock))]
    pub fn set_lock(&mut self, locked: bool, dir: u32, name: &[u8], now: u32) -> Reply
        ensures { (self.new, result) ≡ set_lock locked self.old dir name.now now }
    {
        match self.file_to_change(dir, name) {
            Ok(at) => {
                set_lock(&mut self.items, at, locked);
                self.changed = now;
                success(Value::Nothing)
            }
            Err(code) => refusal(code),
        }
    }

    /// Gives a file a thread.
    #[tactic(auto, unfolding(hfs_model::specs::FileIds::create_file_id))]
    pub fn create_file_id(&mut self, dir: u32, name: &[u8], now: u32) -> Reply
        ensures { (self.new, result) ≡ create_file_id self.old dir name.now now }
    {
        match self.to_create_file_id(dir, name) {
            Ok(at) => {
                let id = self.entries()[at].0;
                set_thread(&mut self.items, at, true);
                self.changed = now;
                success(Value::Id(id))
            }
            Err(code) => refusal(code),
        }
    }

    /// Removes a file's thread.
    #[tactic(auto, unfolding(hfs_model::specs::FileIds::delete_file_id))]
    pub fn delete_file_id(&mut self, id: u32, now: u32) -> Reply
        ensures { (self.new, result) ≡ delete_file_id self.old id now }
    {
        match self.to_delete_file_id(id) {
            Ok(at) => {
                set_thread(&mut self.items, at, false);
                self.changed = now;
                success(Value::Nothing)
            }
            Err(code) => refusal(code),
        }
    }

    /// Renames an item.
    #[tactic(auto, unfolding(hfs_model::specs::Changes::rename))]
    pub fn rename(&mut self, dir: u32, name: &[u8], new_name: &[u8], now: u32) -> Reply
        ensures { (self.new, result) ≡ rename self.old dir name.now new_name.now now }
    {
        match self.to_rename(dir, name, new_name) {
            Ok(at) => {
                let Some(new_name) = Name::new(new_name) else {
                    unreachable!()
                };
                rename_item(&mut self.items, at, new_name);
                self.changed = now;
                success(Value::Nothing)
            }
            Err(code) => refusal(code),
        }
    }

    /// A new item of that kind.
    #[tactic(auto, unfolding(hfs_model::specs::Changes::create))]
    pub(crate) fn add(
        &mut self,
        kind: Kind,
        dir: u32,
        name: &[u8],
        now: u32,
    ) -> Result<Reply, AllocError>
        ensures ok { GivesOutcome (create kind self.old dir name.now now) self.new result }
        ensures err { OnErr result (self.new ≡ self.old) }
    {
        match self.to_create(dir, name) {
            Ok(id) => {
                let Some(name) = Name::new(name) else {
                    unreachable!()
                };
                add_item(&mut self.items, id, new_item(kind, dir, name, now), now)?;
                self.next_id = id + 1;
                self.changed = now;
                Ok(success(Value::Id(id)))
            }
            Err(code) => Ok(refusal(code)),
        }
    }

    /// A new, empty file.
    pub fn create(&mut self, dir: u32, name: &[u8], now: u32) -> Result<Reply, AllocError>
        ensures ok { GivesOutcome (create new_file self.old dir name.now now) self.new result }
        ensures err { OnErr result (self.new ≡ self.old) }
    {
        let kind = new_file(self.alloc);
        self.add(kind, dir, name, now)
    }

    /// A new, empty folder.
    pub fn dir_create(&mut self, dir: u32, name: &[u8], now: u32) -> Result<Reply, AllocError>
        ensures ok { GivesOutcome (create new_folder self.old dir name.now now) self.new result }
        ensures err { OnErr result (self.new ≡ self.old) }
    {
        self.add(new_folder(), dir, name, now)
    }
}

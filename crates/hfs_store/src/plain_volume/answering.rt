//! What a plain volume answers without a change.

ghost use Rattle.std.specs.Prelude.{◌≡◌};
ghost use Rattle.hfs_model.specs.Children.{entries_of};
ghost use Rattle.hfs_model.specs.Reading.{get_dir_info, get_cat_info, get_indexed, list, read_fork};
ghost use Rattle.hfs_model.specs.FileIds.{resolve_file_id};
ghost use Rattle.hfs_store.specs.PlainVolume.{Gives};

use super::PlainVolume;
use crate::reading;
use hfs_model::{Fork, Reply};
use std::alloc::AllocError;

impl PlainVolume {
    /// Answers with the folder that has this ID.
    pub fn get_dir_info(&self, dir: u32) -> Reply
        ensures { result ≡ get_dir_info (entries_of self.now) dir }
    {
        reading::get_dir_info(self.entries(), dir)
    }

    /// Answers with the folder's item of that name.
    pub fn get_cat_info(&self, dir: u32, name: &[u8]) -> Reply
        ensures { result ≡ get_cat_info (entries_of self.now) dir name.now }
    {
        reading::get_cat_info(self.entries(), dir, name)
    }

    /// Answers with the folder's child at that place in name order, counted from 1.
    pub fn get_indexed(&self, dir: u32, index: u32) -> Result<Reply, AllocError>
        ensures { Gives (get_indexed (entries_of self.now) dir index) result }
    {
        reading::get_indexed(self.alloc, self.entries(), dir, index)
    }

    /// Answers with the folder's children, in name order.
    pub fn list(&self, dir: u32) -> Result<Reply, AllocError>
        ensures { Gives (list (entries_of self.now) dir) result }
    {
        reading::list(self.alloc, self.entries(), dir)
    }

    /// At most `count` bytes of a file's fork, starting at an offset.
    pub fn read_fork(
        &self,
        dir: u32,
        name: &[u8],
        fork: Fork,
        offset: u32,
        count: u32,
    ) -> Result<Reply, AllocError>
        ensures { Gives (read_fork (entries_of self.now) dir name.now fork offset count) result }
    {
        reading::read_fork(self.alloc, self.entries(), dir, name, fork, offset, count)
    }

    /// The folder and the name of the file with that ID, by its thread.
    pub fn resolve_file_id(&self, id: u32) -> Reply
        ensures { result ≡ resolve_file_id (entries_of self.now) id }
    {
        reading::resolve_file_id(self.entries(), id)
    }
}

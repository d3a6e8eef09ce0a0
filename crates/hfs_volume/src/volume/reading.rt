//! What a mounted volume answers without a change: folders, items, lists, parts of forks.

ghost use Rattle.std.specs.Prelude.{◌≡◌, IfOk};
ghost use Rattle.hfs_model.specs.Reading.{get_dir_info, get_cat_info, get_indexed, list, part_of};
ghost use Rattle.hfs_model.specs.FileIds.{resolve_file_id};
ghost use Rattle.hfs_blocks.specs.Blocks.{block_at};
ghost use Rattle.hfs_items.specs.Brief.{without_ids};
ghost use Rattle.hfs_space.specs.Results.{Gives};
ghost use Rattle.hfs_volume.specs.Opening.{opened_fork};
ghost use Rattle.hfs_volume.specs.Serving.{entries_in, fork_in, fork_reply};
ghost use Rattle.hfs_volume.specs.Mounted.{AreForksIn};

use super::Volume;
use crate::fork::{FileFork, fork_record, read_part};
use crate::open_fork::{OpenFork, Opened};
use hfs_fields::FileRecord;
use hfs_items::{self as queries, Detail, refusal};
use hfs_model::{Fork, PARAMETER, Reply};
use std::alloc::{AllocError, Global};

impl Volume {
    /// Answers with the folder that has this ID; -120 if no folder has it. Takes no memory.
    pub fn get_dir_info(&self, dir: u32) -> Reply
        ensures { result ≡ get_dir_info (entries_in self.now.current) dir }
    {
        queries::get_dir_info(&self.catalog_nodes(), dir)
    }

    /// Answers with the folder's item of that name, ignoring the case of ASCII letters: -37 if the name isn't an item name, -120
    /// if `dir` isn't the ID of a folder, -43 if the folder has no item of that name. Takes no memory.
    pub fn get_cat_info(&self, dir: u32, name: &[u8]) -> Reply
        ensures { result ≡ get_cat_info (entries_in self.now.current) dir name.now }
    {
        queries::get_cat_info(&self.catalog_nodes(), dir, name)
    }

    /// Answers with the folder's child at that place in name order, counted from 1: -50 if `index` is 0, -120 if `dir` isn't the
    /// ID of a folder, -43 if the folder has fewer children. Takes no memory.
    pub fn get_indexed(&self, dir: u32, index: u32) -> Reply
        ensures { result ≡ get_indexed (entries_in self.now.current) dir index }
    {
        queries::get_indexed(&self.catalog_nodes(), dir, index)
    }

    /// Answers with all the folder's children, in name order: -120 if `dir` isn't the ID of a folder. Fails only when out of
    /// memory.
    pub fn list(&self, alloc: Global, dir: u32) -> Result<Reply, AllocError>
        ensures { IfOk result (λ reply. reply ≡ list (entries_in self.now.current) dir) }
    {
        queries::list(alloc, &self.catalog_nodes(), dir, Detail::Full)
    }

    /// The reply to `list`, but with `has_id` false for each item: no thread is looked up, which is most of the work of `list`.
    /// Fails only when out of memory.
    pub fn list_in_brief(&self, alloc: Global, dir: u32) -> Result<Reply, AllocError>
        ensures { Gives (without_ids (list (entries_in self.now.current) dir)) result }
    {
        queries::list(alloc, &self.catalog_nodes(), dir, Detail::Brief)
    }

    /// Answers with the folder and the name of the file with that ID: -1302 if it is the ID of a folder, -1300 if no file with
    /// that ID has a thread. Takes no memory.
    pub fn resolve_file_id(&self, id: u32) -> Reply
        ensures { result ≡ resolve_file_id (entries_in self.now.current) id }
    {
        queries::resolve_file_id(&self.catalog_nodes(), id)
    }

    /// At most 65,536 bytes of a file's fork, starting at an offset: -50 if `count` is above that; -37, -120 and -43 as for
    /// [`Volume::get_cat_info`]; -43 if the item is a folder; and -39, with the bytes that there are, if the fork ends before
    /// `count` of them. Reads only the blocks that have one of these bytes. Fails only when out of memory.
    pub fn read_fork(
        &self,
        alloc: Global,
        dir: u32,
        name: &[u8],
        fork: Fork,
        offset: u32,
        count: u32,
    ) -> Result<Reply, AllocError>
        ensures { Gives (fork_reply self.now.current dir name.now fork offset count) result }
    {
        if count > 65536 {
            return Ok(refusal(PARAMETER));
        }
        match queries::file_named(&self.catalog_nodes(), dir, name) {
            Ok(file) => self.fork_part(alloc, &file, fork, offset, count),
            Err(reply) => Ok(reply),
        }
    }

    /// A part of one of a file's forks.
    #[tactic(auto, using(hfs_check::proofs::LawsProved::trees_are_sound))]
    fn fork_part(
        &self,
        alloc: Global,
        file: &FileRecord,
        fork: Fork,
        offset: u32,
        count: u32,
    ) -> Result<Reply, AllocError>
        requires { AreForksIn (block_at self.now.current) file.now }
        ensures { Gives (part_of (fork_in self.now.current fork file.now) offset count) result }
    {
        let (kind, record) = fork_record(file, fork);
        let fork = FileFork {
            file: file.id,
            kind,
            record,
        };
        read_part(
            alloc,
            &self.image.blocks(),
            &self.mdb,
            &self.extents_nodes(),
            &fork,
            offset,
            count,
        )
    }

    /// Opens a file's fork, to be read from its beginning on: -37, -120 and -43 as for [`Volume::read_fork`]. Fails only when out
    /// of memory.
    pub fn open_fork(
        &self,
        alloc: Global,
        dir: u32,
        name: &[u8],
        fork: Fork,
    ) -> Result<Opened<'_>, AllocError>
        ensures { Gives (opened_fork (entries_in self.now.current) dir name.now fork) result }
    {
        match queries::file_named(&self.catalog_nodes(), dir, name) {
            Ok(file) => Ok(Opened::Fork(self.open_file(alloc, &file, fork)?)),
            Err(reply) => Ok(Opened::Refused(reply)),
        }
    }

    /// One of a file's forks.
    #[tactic(auto, using(hfs_check::proofs::LawsProved::trees_are_sound))]
    fn open_file(
        &self,
        alloc: Global,
        file: &FileRecord,
        fork: Fork,
    ) -> Result<OpenFork<'_>, AllocError>
        requires { AreForksIn (block_at self.now.current) file.now }
        ensures { IfOk result (λ source. source ≡ fork_in self.now.current fork file.now) }
    {
        let (kind, record) = fork_record(file, fork);
        OpenFork::new(
            alloc,
            self.image.blocks(),
            &self.mdb,
            &self.extents_nodes(),
            file.id,
            kind,
            &record,
        )
    }
}

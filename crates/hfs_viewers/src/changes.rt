//! What each change makes of a table. A change that `step` refuses leaves it as it was.
ghost use Rattle.std.specs.Prelude.{IsTrue, OnOk, OnErr};
ghost use Rattle.hfs_model.specs.Changes.{set_f_info, set_lock, delete, new_file, new_folder};
ghost use Rattle.hfs_model.specs.FileIds.{create_file_id, delete_file_id};
ghost use Rattle.hfs_model.specs.Lawful.{AreLawful};
ghost use Rattle.hfs_model.specs.Step.{step};
ghost use Rattle.hfs_viewers.specs.RowEdits.{Adds, AddsRow, Leaves, IsNew, SetsCatInfo, SetsEof, WritesFork};
ghost use Rattle.hfs_viewers.specs.InPlace.{is_in_place};
ghost use Rattle.hfs_viewers.specs.Tables.{items_of, volume_of, IsTable};

use crate::edits;
use crate::edits::new_row;
use crate::place::Place;
use crate::row::RowKind;
use crate::table::Table;
use crate::writing_forks::{ForkEdit, edit_fork};
use hfs_fields::Name;
use hfs_model::{Call, Fork, ItemSettings, SharedBytes, reading_leaves};
use std::alloc::{AllocError, Global};

impl Table {
    /// Sets the first 16 Finder bytes of a file.
    pub fn set_f_info(&mut self, dir: u32, name: &[u8], info: &[u8; 16], now: u32)
        requires { IsTable self.old }
        ensures { Leaves self.new (set_f_info (volume_of self.old) dir name.now info.now now).0 }
    {
        let id = match self.to_set_f_info(dir, name) {
            Ok(found) => found.id,
            Err(_) => return,
        };
        edits::set_finder(&mut self.by_id, id, info);
        self.changed = now;
    }

    /// Sets the dates and the Finder bytes of an item.
    pub fn set_cat_info(&mut self, dir: u32, name: &[u8], settings: &ItemSettings, now: u32)
        requires { IsTable self.old }
        ensures { SetsCatInfo dir name.now settings.now now self.old self.new }
    {
        let id = match self.to_set_cat_info(dir, name) {
            Ok(found) => found.id,
            Err(_) => return,
        };
        edits::set_info(&mut self.by_id, id, settings);
        self.changed = now;
    }

    /// Makes a fork of a file `length` bytes long, by cutting it or adding zeros at its end. When out of memory, the items are as
    /// they were.
    pub fn set_eof(
        &mut self,
        alloc: Global,
        dir: u32,
        name: &[u8],
        fork: Fork,
        length: u32,
        now: u32,
    ) -> Result<(), AllocError>
        requires { IsTable self.old }
        ensures ok { OnOk result (SetsEof dir name.now fork length now self.old self.new) }
        ensures err { OnErr result (Leaves self.new (volume_of self.old)) }
    {
        let id = match self.to_set_eof(dir, name, length) {
            Ok(found) => found.id,
            Err(_) => return Ok(()),
        };
        let size = self.mdb.allocation_block_size;
        let edit = ForkEdit::SetLength { count: length };
        edit_fork(alloc, &mut self.by_id, id, size, fork, edit, now)?;
        self.changed = now;
        Ok(())
    }

    /// Writes bytes over a fork of a file; the bytes are shared from then on. When out of memory, the items are as they were.
    pub fn write_fork(
        &mut self,
        alloc: Global,
        dir: u32,
        name: &[u8],
        fork: Fork,
        offset: u32,
        bytes: &SharedBytes,
        now: u32,
    ) -> Result<(), AllocError>
        requires { IsTable self.old }
        ensures ok { OnOk result (WritesFork dir name.now fork offset bytes.now now self.old self.new) }
        ensures err { OnErr result (Leaves self.new (volume_of self.old)) }
    {
        let id = match self.to_write_fork(dir, name, fork, offset, bytes.as_slice()) {
            Ok(found) => found.id,
            Err(_) => return Ok(()),
        };
        let size = self.mdb.allocation_block_size;
        let edit = ForkEdit::Write { offset, bytes };
        edit_fork(alloc, &mut self.by_id, id, size, fork, edit, now)?;
        self.changed = now;
        Ok(())
    }

    /// Locks or unlocks a file.
    pub fn set_lock(&mut self, locked: bool, dir: u32, name: &[u8], now: u32)
        requires { IsTable self.old }
        ensures { Leaves self.new (set_lock locked (volume_of self.old) dir name.now now).0 }
    {
        let id = match self.file_to_change(dir, name) {
            Ok(found) => found.id,
            Err(_) => return,
        };
        edits::set_lock(&mut self.by_id, id, locked);
        self.changed = now;
    }

    /// Gives a file a thread.
    pub fn create_file_id(&mut self, dir: u32, name: &[u8], now: u32)
        requires { IsTable self.old }
        ensures { Leaves self.new (create_file_id (volume_of self.old) dir name.now now).0 }
    {
        let id = match self.to_create_file_id(dir, name) {
            Ok(found) => found.id,
            Err(_) => return,
        };
        edits::set_thread(&mut self.by_id, id, true);
        self.changed = now;
    }

    /// Removes the thread of the file with that ID.
    pub fn delete_file_id(&mut self, id: u32, now: u32)
        requires { IsTable self.old }
        ensures { Leaves self.new (delete_file_id (volume_of self.old) id now).0 }
    {
        let id = match self.to_delete_file_id(id) {
            Ok(found) => found.id,
            Err(_) => return,
        };
        edits::set_thread(&mut self.by_id, id, false);
        self.changed = now;
    }

    /// A new item of that kind. Fails only when out of memory, and then the items are as they were.
    #[tactic(auto, unfolding(hfs_model::specs::Changes::create))]
    fn add(&mut self, kind: RowKind, dir: u32, name: &[u8], now: u32) -> Result<(), AllocError>
        requires table { IsTable self.old }
        requires lawful { AreLawful (items_of self.old) self.old.next_id }
        requires kind { IsNew self.old.mdb kind }
        ensures ok { OnOk result (AddsRow kind dir name.now now self.old self.new) }
        ensures err { OnErr result (Leaves self.new (volume_of self.old)) }
    {
        let id = match self.to_create(dir, name) {
            Ok(id) => id,
            Err(_) => return Ok(()),
        };
        let Some(name) = Name::new(name) else {
            unreachable!()
        };
        let place = Place { parent: dir, name };
        let row = new_row(kind, dir, name, now);
        let Ok(_tied) = self.by_name.insert(place, id) else {
            return Err(AllocError);
        };
        let Ok(_old) = self.by_id.insert(id, row) else {
            self.by_name.remove(&place);
            return Err(AllocError);
        };
        edits::add_child(&mut self.by_id, dir, now);
        self.next_id = id + 1;
        self.changed = now;
        Ok(())
    }

    /// A new, empty file. Fails only when out of memory, and then the items are as they were.
    pub fn create(
        &mut self,
        alloc: Global,
        dir: u32,
        name: &[u8],
        now: u32,
    ) -> Result<(), AllocError>
        requires table { IsTable self.old }
        requires lawful { AreLawful (items_of self.old) self.old.next_id }
        ensures ok { OnOk result (Adds new_file dir name.now now self.old self.new) }
        ensures err { OnErr result (Leaves self.new (volume_of self.old)) }
    {
        let kind = edits::new_file(alloc);
        self.add(kind, dir, name, now)
    }

    /// A new, empty folder. Fails only when out of memory, and then the items are as they were.
    pub fn dir_create(&mut self, dir: u32, name: &[u8], now: u32) -> Result<(), AllocError>
        requires table { IsTable self.old }
        requires lawful { AreLawful (items_of self.old) self.old.next_id }
        ensures ok { OnOk result (Adds new_folder dir name.now now self.old self.new) }
        ensures err { OnErr result (Leaves self.new (volume_of self.old)) }
    {
        let kind = edits::new_folder();
        self.add(kind, dir, name, now)
    }

    /// Removes an item.
    pub fn delete(&mut self, dir: u32, name: &[u8], now: u32)
        requires { IsTable self.old }
        ensures { Leaves self.new (delete (volume_of self.old) dir name.now now).0 }
    {
        let found = match self.to_delete(dir, name) {
            Ok(found) => found,
            Err(_) => return,
        };
        let id = found.id;
        let from = found.row.place();
        self.by_name.remove(&from);
        self.by_id.remove(&id);
        edits::drop_child(&mut self.by_id, dir, now);
        self.changed = now;
    }

    /// Takes in a change that takes no memory. A change that is refused leaves the table as it was.
    fn absorb_in_place(&mut self, call: &Call)
        requires table { IsTable self.old }
        requires in_place { IsTrue (is_in_place call.now) }
        ensures { Leaves self.new (step (volume_of self.old) call.now).0 }
    {
        match call {
            Call::SetFInfo {
                dir,
                name,
                info,
                now,
            } => self.set_f_info(*dir, name.as_slice(), info, *now),
            Call::SetCatInfo {
                dir,
                name,
                created,
                modified,
                backup,
                info,
                now,
            } => {
                let settings = ItemSettings {
                    created: *created,
                    modified: *modified,
                    backup: *backup,
                    info: *info,
                };
                self.set_cat_info(*dir, name.as_slice(), &settings, *now);
            }
            Call::SetFLock { dir, name, now } => self.set_lock(true, *dir, name.as_slice(), *now),
            Call::RstFLock { dir, name, now } => self.set_lock(false, *dir, name.as_slice(), *now),
            Call::Delete { dir, name, now } => self.delete(*dir, name.as_slice(), *now),
            Call::CreateFileId { dir, name, now } => {
                self.create_file_id(*dir, name.as_slice(), *now);
            }
            Call::DeleteFileId { id, now } => self.delete_file_id(*id, *now),
            Call::Create { .. }
            | Call::DirCreate { .. }
            | Call::Rename { .. }
            | Call::CatMove { .. }
            | Call::GetDirInfo { .. }
            | Call::GetCatInfo { .. }
            | Call::GetIndexed { .. }
            | Call::List { .. }
            | Call::ReadFork { .. }
            | Call::ResolveFileId { .. }
            | Call::SetEof { .. }
            | Call::WriteFork { .. } => unreachable!(),
        }
    }

    /// Takes in a change. A change that is refused leaves the table as it was, and so does a call that reads. Fails only when out
    /// of memory, and then the items are as they were.
    pub fn absorb(&mut self, alloc: Global, call: &Call) -> Result<(), AllocError>
        requires table { IsTable self.old }
        requires lawful { AreLawful (items_of self.old) self.old.next_id }
        ensures ok { OnOk result (Leaves self.new (step (volume_of self.old) call.now).0) }
        ensures err { OnErr result (Leaves self.new (volume_of self.old)) }
    {
        reading_leaves();
        match call {
            Call::Create { dir, name, now } => self.create(alloc, *dir, name.as_slice(), *now),
            Call::DirCreate { dir, name, now } => self.dir_create(*dir, name.as_slice(), *now),
            Call::Rename {
                dir,
                name,
                new_name,
                now,
            } => self.rename(*dir, name.as_slice(), new_name.as_slice(), *now),
            Call::CatMove {
                dir,
                name,
                new_dir,
                now,
            } => self.cat_move(*dir, name.as_slice(), *new_dir, *now),
            Call::SetEof {
                dir,
                name,
                fork,
                length,
                now,
            } => self.set_eof(alloc, *dir, name.as_slice(), *fork, *length, *now),
            Call::WriteFork {
                dir,
                name,
                fork,
                offset,
                bytes,
                now,
            } => self.write_fork(alloc, *dir, name.as_slice(), *fork, *offset, bytes, *now),
            Call::SetFInfo { .. }
            | Call::SetCatInfo { .. }
            | Call::SetFLock { .. }
            | Call::RstFLock { .. }
            | Call::Delete { .. }
            | Call::CreateFileId { .. }
            | Call::DeleteFileId { .. } => {
                self.absorb_in_place(call);
                Ok(())
            }
            Call::GetDirInfo { .. }
            | Call::GetCatInfo { .. }
            | Call::GetIndexed { .. }
            | Call::List { .. }
            | Call::ReadFork { .. }
            | Call::ResolveFileId { .. } => Ok(()),
        }
    }
}

//! A plain, slow volume in memory, which answers every call exactly as the definitions say.

ghost use Rattle.std.specs.Prelude.{◌≡◌, ℕ, ◌<◌, ◌≤◌, false, IsTrue, IfOk, OnOk, OnErr};
ghost use Rattle.hfs_model.specs.Runs.{run};
ghost use Rattle.hfs_model.specs.Children.{entries_of, valence};
ghost use Rattle.hfs_model.specs.Step.{step, is_reading, new_volume};
ghost use Rattle.hfs_store.specs.Setting.{is_setting};
ghost use Rattle.hfs_store.specs.PlainVolume.{AreEntries, GivesOutcome, HasMadeSome, HasOneMore, unlocked_volume, with_block_size, with_last, with_locks};

use crate::entries::{new_folder, new_item, valence};
use hfs_fields::Name;
use hfs_model::{Call, Item, Reply, Value};
use std::alloc::{AllocError, Global};
use std::marker::Model;

mod answering;
mod changing;
mod choices;
mod forks;

/// A volume as a list of items in the order of their IDs. Contracts see the model volume: a finite map from ID to item, the next
/// ID, the moment of the last change, two locks and the size of an allocation block.
///
/// Each call searches the whole list, some of them once for each item. The methods that are named after a call answer as
/// [`PlainVolume::call`] does; `docs/CALLS.md` says how. `Err` comes only when out of memory; then the volume is as it was.
#[derive(Drop)]
pub struct PlainVolume {
    alloc: Global,
    items: Vec<(u32, Item)>,
    next_id: u32,
    changed: u32,
    hardware_locked: bool,
    software_locked: bool,
    block_size: u32,
}

impl Model for PlainVolume {
    ghost use Rattle.hfs_model.specs.Volume.{Volume, volume_code};

    ghost Value = { Volume };

    ghost coded = { volume_code };

    ghost use Rattle.hfs_store.specs.PlainVolume.{volume_of, IsPlainVolume};

    ghost view = { volume_of };

    ghost invariant = { IsPlainVolume };
}

#[tactic(auto, using(crate::proofs::ById::entries_back))]
impl PlainVolume {
    /// A new volume with only its root, and allocation blocks of 512 bytes. `Err` only when out of memory.
    pub fn new(alloc: Global, name: Name, now: u32) -> Result<Self, AllocError>
        ensures { IfOk result (λ s. s ≡ new_volume name now) }
    {
        let mut items = Vec::new(alloc);
        items.push((2, new_item(new_folder(), 1, name, now)))?;
        Ok(PlainVolume {
            alloc,
            items,
            next_id: 16,
            changed: now,
            hardware_locked: false,
            software_locked: false,
            block_size: 512,
        })
    }

    /// The volume of these items, with no lock set, and allocation blocks of 512 bytes. Their IDs must rise and be below
    /// `next_id`, and no folder may have more than 65,535 items. Takes no memory.
    pub fn of(alloc: Global, items: Vec<(u32, Item)>, next_id: u32, changed: u32) -> Self
        requires { AreEntries items.items next_id }
        ensures { result ≡ unlocked_volume items.items next_id changed }
    {
        PlainVolume {
            alloc,
            items,
            next_id,
            changed,
            hardware_locked: false,
            software_locked: false,
            block_size: 512,
        }
    }

    /// Adds an item under an ID that is not below the next one, which becomes the ID after it. In this way a volume is built item
    /// by item, in the order of the IDs. `Err` only when out of memory, and then the volume is as it was.
    #[tactic(auto)]
    pub fn lay(&mut self, id: u32, item: Item) -> Result<(), AllocError>
        requires free { self.old.next_id ≤ id }
        requires last { id < 4294967295 }
        requires room { valence (entries_of self.old) item.parent < 65535 }
        ensures laid { OnOk result (self.new ≡ with_last self.old id item) }
        ensures counted { OnOk result (HasOneMore self.old self.new item.parent) }
        ensures err { OnErr result (self.new ≡ self.old) }
    {
        let next_id = id + 1;
        self.items.push((id, item))?;
        self.next_id = next_id;
        Ok(())
    }

    /// Sets the two locks.
    pub fn set_locks(&mut self, hardware: bool, software: bool)
        ensures { self.new ≡ with_locks hardware software self.old }
    {
        self.hardware_locked = hardware;
        self.software_locked = software;
    }

    /// Sets how many bytes an allocation block has.
    pub fn set_block_size(&mut self, bytes: u32)
        ensures { self.new ≡ with_block_size bytes self.old }
    {
        self.block_size = bytes;
    }

    /// The ID that the next new item gets.
    pub fn next_id(&self) -> u32
        ensures { result ≡ self.now.next_id }
    {
        self.next_id
    }

    /// The number of items whose parent is the folder with that ID, at most 65,535.
    #[tactic(auto)]
    pub fn valence(&self, dir: u32) -> u32
        ensures count { result ≡ valence (entries_of self.now) dir }
        ensures most { result ≤ 65535 }
    {
        valence(self.entries(), dir) as u32
    }

    /// The moment of the last change.
    pub fn changed(&self) -> u32
        ensures { result ≡ self.now.changed }
    {
        self.changed
    }

    /// Whether the drive is locked.
    pub fn is_hardware_locked(&self) -> bool
        ensures { result ≡ self.now.hardware_locked }
    {
        self.hardware_locked
    }

    /// Whether the volume itself is locked.
    pub fn is_software_locked(&self) -> bool
        ensures { result ≡ self.now.software_locked }
    {
        self.software_locked
    }

    /// How many bytes an allocation block has.
    pub fn block_size(&self) -> u32
        ensures { result ≡ self.now.block_size }
    {
        self.block_size
    }

    /// The items in the order of their IDs.
    pub fn entries(&self) -> &[(u32, Item)]
        ensures entries { result.now ≡ entries_of self.now }
        ensures room { (id : ℕ) → valence result.now id ≤ 65535 }
    {
        &self.items
    }

    /// Answers a call. A call that is refused, or for which memory ran out, changes nothing.
    #[tactic(auto)]
    pub fn call(&mut self, call: &Call) -> Result<Reply, AllocError>
        ensures ok { GivesOutcome (step self.old call.now) self.new result }
        ensures err { OnErr result (self.new ≡ self.old) }
    {
        if call.is_reading() {
            self.read(call)
        } else {
            self.change(call)
        }
    }

    /// Answers a call that only reads.
    #[tactic(auto)]
    fn read(&self, call: &Call) -> Result<Reply, AllocError>
        requires { IsTrue (is_reading call.now) }
        ensures { GivesOutcome (step self.now call.now) self.now result }
    {
        match call {
            Call::GetDirInfo { dir } => Ok(self.get_dir_info(*dir)),
            Call::GetCatInfo { dir, name } => Ok(self.get_cat_info(*dir, name.as_slice())),
            Call::GetIndexed { dir, index } => self.get_indexed(*dir, *index),
            Call::List { dir } => self.list(*dir),
            Call::ReadFork {
                dir,
                name,
                fork,
                offset,
                count,
            } => self.read_fork(*dir, name.as_slice(), *fork, *offset, *count),
            Call::ResolveFileId { id } => Ok(self.resolve_file_id(*id)),
            Call::Create { .. }
            | Call::DirCreate { .. }
            | Call::Delete { .. }
            | Call::Rename { .. }
            | Call::CatMove { .. }
            | Call::SetFInfo { .. }
            | Call::SetCatInfo { .. }
            | Call::SetFLock { .. }
            | Call::RstFLock { .. }
            | Call::CreateFileId { .. }
            | Call::DeleteFileId { .. }
            | Call::SetEof { .. }
            | Call::WriteFork { .. } => unreachable!(),
        }
    }

    /// Answers a call that may change the volume: here the names, places and threads of its items, in [`PlainVolume::set`] what
    /// else a reply says about them, and in [`PlainVolume::write`] the bytes of its forks.
    #[tactic(auto)]
    fn change(&mut self, call: &Call) -> Result<Reply, AllocError>
        requires { is_reading call.now ≡ false }
        ensures ok { GivesOutcome (step self.old call.now) self.new result }
        ensures err { OnErr result (self.new ≡ self.old) }
    {
        match call {
            Call::Create { dir, name, now } => self.create(*dir, name.as_slice(), *now),
            Call::DirCreate { dir, name, now } => self.dir_create(*dir, name.as_slice(), *now),
            Call::Delete { dir, name, now } => Ok(self.delete(*dir, name.as_slice(), *now)),
            Call::Rename {
                dir,
                name,
                new_name,
                now,
            } => Ok(self.rename(*dir, name.as_slice(), new_name.as_slice(), *now)),
            Call::CatMove {
                dir,
                name,
                new_dir,
                now,
            } => Ok(self.cat_move(*dir, name.as_slice(), *new_dir, *now)),
            Call::SetFInfo { .. }
            | Call::SetCatInfo { .. }
            | Call::SetFLock { .. }
            | Call::RstFLock { .. } => Ok(self.set(call)),
            Call::CreateFileId { dir, name, now } => {
                Ok(self.create_file_id(*dir, name.as_slice(), *now))
            }
            Call::DeleteFileId { id, now } => Ok(self.delete_file_id(*id, *now)),
            Call::SetEof { .. } | Call::WriteFork { .. } => self.write(call),
            Call::GetDirInfo { .. }
            | Call::GetCatInfo { .. }
            | Call::GetIndexed { .. }
            | Call::List { .. }
            | Call::ReadFork { .. }
            | Call::ResolveFileId { .. } => unreachable!(),
        }
    }

    /// Answers a call that sets an item's Finder bytes, dates or lock. Memory never runs out here.
    #[tactic(auto)]
    fn set(&mut self, call: &Call) -> Reply
        requires { IsTrue (is_setting call.now) }
        ensures { (self.new, result) ≡ step self.old call.now }
    {
        match call {
            Call::SetFInfo {
                dir,
                name,
                info,
                now,
            } => self.set_f_info(*dir, name.as_slice(), info, *now),
            Call::SetCatInfo {
                dir,
                name,
                created,
                modified,
                backup,
                info,
                now,
            } => self.set_cat_info(
                *dir,
                name.as_slice(),
                *created,
                *modified,
                *backup,
                *info,
                *now,
            ),
            Call::SetFLock { dir, name, now } => self.set_lock(true, *dir, name.as_slice(), *now),
            Call::RstFLock { dir, name, now } => self.set_lock(false, *dir, name.as_slice(), *now),
            Call::GetDirInfo { .. }
            | Call::GetCatInfo { .. }
            | Call::GetIndexed { .. }
            | Call::List { .. }
            | Call::ReadFork { .. }
            | Call::Create { .. }
            | Call::DirCreate { .. }
            | Call::Delete { .. }
            | Call::Rename { .. }
            | Call::CatMove { .. }
            | Call::CreateFileId { .. }
            | Call::DeleteFileId { .. }
            | Call::ResolveFileId { .. }
            | Call::SetEof { .. }
            | Call::WriteFork { .. } => unreachable!(),
        }
    }

    /// Answers the calls one after another, with their replies in order. `Err` only when out of memory: then some of the first
    /// calls were made, and their replies are lost.
    #[tactic(auto)]
    pub fn run(&mut self, calls: &[Call]) -> Result<Vec<Reply>, AllocError>
        ensures ok { IfOk result (λ replies. (self.new, replies.items) ≡ run self.old calls.now) }
        ensures err { OnErr result (HasMadeSome self.old self.new calls.now) }
    {
        let mut replies = Vec::new(self.alloc);
        for call in calls {
            let reply = self.call(call)?;
            replies.push(reply)?;
        }
        Ok(replies)
    }
}

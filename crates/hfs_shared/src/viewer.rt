//! A viewer: its seat, and the longest list that it has seen or learned.
ghost use Rattle.std.specs.Prelude.{◌≡◌, ◌⊎◌, ◌+◌, length, OnErr, IsTrue};
ghost use mathlib.Core.List.{IsPrefix};
ghost use Rattle.hfs_shared.specs.Lists.{GivesReply};
ghost use Rattle.hfs_model.specs.Step.{is_reading};
ghost use Rattle.hfs_model.specs.declared.call.Call.TheVariants.{GetDirInfo, GetCatInfo, GetIndexed, List, ReadFork};

use crate::front::Front;
use crate::seat::Seat;
use crate::told::Told;
use hfs_model::{Call, Fork, Reply, SharedBytes};
use std::alloc::Global;
use std::marker::Model;

/// Why a viewer gives no reply.
#[derive(Clone, Copy, Debug)]
pub enum ViewFault {
    /// Out of memory, which only happens to replies with a list or bytes.
    Memory,
    /// There is no copy to read, such as after the pair was ended.
    Gone,
}

/// A reader of what is published, which waits for nobody. Contracts see the history's name and its seen list: the longest that it
/// read or learned.
#[derive(Drop)]
pub struct Viewer {
    // None if no rows are made: then it only learns.
    seat: Option<Seat>,
    front: Front,
}

impl Model for Viewer {
    ghost use Rattle.std.specs.Prelude.{◌≡◌, IfSome};
    ghost use Rattle.hfs_shared.specs.Histories.{Known};

    ghost Value = { Known };

    ghost use Rattle.hfs_shared.specs.contracts.item.Item as item;
    ghost use Rattle.std.specs.Coded.{codes};

    ghost coded = { Prim.hlevel (codes, item.the_row.coded) };

    ghost view = { λ v. v.front };

    ghost invariant = { λ v. IfSome v.seat (λ met. met.book ≡ v.front.book) };
}

impl Viewer {
    /// The viewer of a seat, which has seen the list that was taken there.
    pub(crate) fn new(seat: Seat) -> Viewer
        ensures { result ≡ seat }
    {
        let front = seat.met().again();
        Viewer {
            seat: Some(seat),
            front,
        }
    }

    /// A viewer that has seen this list, and has no copy to read.
    pub(crate) fn unseated(front: Front) -> Viewer
        ensures { result ≡ front }
    {
        Viewer { seat: None, front }
    }

    /// Answers a call that reads, on the volume of the list that is published now, of which everything that this viewer saw or
    /// learned is a beginning. `Memory` when out of memory; `Gone` if there is no copy to read, such as after the pair was ended.
    pub fn read(&mut self, alloc: Global, call: &Call) -> Result<Reply, ViewFault>
        requires { IsTrue (is_reading call.now) }
        ensures ok { GivesReply call.now self.old self.new result }
        ensures err { OnErr result (self.new ≡ self.old) }
    {
        let Some(seat) = &mut self.seat else {
            return Err(ViewFault::Gone);
        };
        let reply = seat.read(&self.front, alloc, call)?;
        self.front = seat.met().again();
        Ok(reply)
    }

    /// Answers with the folder that has this ID, with the codes of `Volume::get_dir_info`.
    pub fn dir_info(&mut self, alloc: Global, dir: u32) -> Result<Reply, ViewFault>
        ensures ok { GivesReply (GetDirInfo dir) self.old self.new result }
        ensures err { OnErr result (self.new ≡ self.old) }
    {
        self.read(alloc, &Call::GetDirInfo { dir })
    }

    /// Answers with the folder's item of that name, with the codes of `Volume::get_cat_info`.
    pub fn info(&mut self, alloc: Global, dir: u32, name: SharedBytes) -> Result<Reply, ViewFault>
        ensures ok { GivesReply (GetCatInfo dir name) self.old self.new result }
        ensures err { OnErr result (self.new ≡ self.old) }
    {
        self.read(alloc, &Call::GetCatInfo { dir, name })
    }

    /// Answers with the folder's child at that place in name order, counted from 1, with the codes of `Volume::get_indexed`.
    pub fn indexed(&mut self, alloc: Global, dir: u32, index: u32) -> Result<Reply, ViewFault>
        ensures ok { GivesReply (GetIndexed dir index) self.old self.new result }
        ensures err { OnErr result (self.new ≡ self.old) }
    {
        self.read(alloc, &Call::GetIndexed { dir, index })
    }

    /// Answers with all the folder's children, in name order, with the codes of `Volume::list`.
    pub fn list(&mut self, alloc: Global, dir: u32) -> Result<Reply, ViewFault>
        ensures ok { GivesReply (List dir) self.old self.new result }
        ensures err { OnErr result (self.new ≡ self.old) }
    {
        self.read(alloc, &Call::List { dir })
    }

    /// At most 65,536 bytes of a file's fork, starting at an offset, with the codes of `Volume::read_fork`.
    pub fn read_fork(
        &mut self,
        alloc: Global,
        dir: u32,
        name: SharedBytes,
        fork: Fork,
        offset: u32,
        count: u32,
    ) -> Result<Reply, ViewFault>
        ensures ok { GivesReply (ReadFork dir name fork offset count) self.old self.new result }
        ensures err { OnErr result (self.new ≡ self.old) }
    {
        let call = Call::ReadFork {
            dir,
            name,
            fork,
            offset,
            count,
        };
        self.read(alloc, &call)
    }

    /// Takes in a published list of the same pair: from now on this viewer shows no less. Takes no memory.
    pub fn learn(&mut self, told: &Told)
        requires { told.now.book ≡ self.old.book }
        ensures longer { (self.new.list ≡ self.old.list) ⊎ (self.new.list ≡ told.now.list) }
        ensures saw { IsPrefix self.old.list self.new.list }
        ensures told { IsPrefix told.now.list self.new.list }
        ensures book { self.new.book ≡ self.old.book }
    {
        self.front = self.front.longer(told.front());
    }

    /// How many changes the seen list has. Takes no memory.
    pub fn changes(&self) -> u64
        ensures { length self.now.list ≡ result + 1 }
    {
        self.front.changes()
    }
}

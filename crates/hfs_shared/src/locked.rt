//! What lies under the lock: the volume with its journal, and the published list of its changes.
ghost use Rattle.std.specs.Prelude.{◌≡◌, ◌⊎◌, ◌≤◌, [], length, drop, ◌-◌, IfOk, OnErr, IfErr};
ghost use Rattle.hfs_check.specs.VolumeOf.{volume_of};
ghost use Rattle.hfs_shared.specs.Journals.{published, NoneAccepted};
ghost use Rattle.hfs_shared.specs.Desks.{IsApplied, IsHeadline};
ghost use Rattle.hfs_shared.specs.Faults.{IsCallFault};
ghost use Rattle.hfs_shared.specs.Lockeds.{LockedState, locked_state, desk_of, IsUnderLock, KeepsUp, ShowsOf, GathersOf, CoversAllOrSame};
ghost use Rattle.hfs_shared.specs.Plans.{IsPlanned};
ghost use Rattle.hfs_shared.specs.Shareds.{told_of};

use crate::desk::{CallFault, Desk};
use crate::pass::Pass;
use crate::session::Session;
use crate::{Pair, Told};
use hfs_model::{Call, Entry, Reply};
use std::alloc::Global;
use std::marker::{Model, PhantomData};
use std::sync::Wait;

mod closing;

/// A desk, and the published list of its journal. Contracts see the desk, and how many entries the list covers.
#[derive(Drop)]
pub struct Locked<K: Session> {
    desk: Desk,
    pair: Pair,
    // How many entries' changes the pair has.
    added: usize,
    shown: usize,
    of: PhantomData<K>,
}

impl<K: Session> Model for Locked<K> {
    ghost use Rattle.hfs_shared.specs.Lockeds.{LockedState, locked_state, IsLocked};

    ghost Value = { LockedState };

    ghost view = { λ l. locked_state l.desk l.shown };

    ghost invariant = { λ l. IsLocked K.book K.base K.plan l.desk l.pair l.added l.shown };
}

impl<K: Session> Locked<K> {
    /// A desk with no entries, and a pair that has only the opening.
    pub(crate) fn new(desk: Desk, pair: Pair) -> Locked<K>
        requires empty { desk.journal ≡ [] }
        requires base { desk.base ≡ K.base }
        requires headline { IsHeadline desk.base desk.current desk.written desk.journal }
        requires book { pair.book ≡ K.book }
        requires all { pair.all ≡ published (volume_of desk.base) [] 0 }
        requires shown { pair.shown ≡ published (volume_of desk.base) [] 0 }
        ensures { result ≡ locked_state desk 0 }
    {
        Locked {
            desk,
            pair,
            added: 0,
            shown: 0,
            of: PhantomData,
        }
    }

    /// Makes a call of a worker, which adds one entry to the journal. `Stamp` if the pass doesn't have its worker's next number;
    /// this is checked before anything else.
    pub fn apply(&mut self, alloc: Global, pass: &mut Pass, call: &Call) -> Result<Reply, CallFault>
        requires { IsPlanned K.plan pass.old.worker pass.old.number call.now }
        ensures ok { IfOk result (λ r.
            IsApplied (desk_of self.old) pass.old call.now r (desk_of self.new) pass.new) }
        ensures shown { self.new.shown ≡ self.old.shown }
        ensures headline { IsUnderLock K.base K.plan self.new }
        ensures err { OnErr result ((self.new ≡ self.old) × (pass.new ≡ pass.old)) }
        ensures fault { IfErr result (IsCallFault (desk_of self.old) pass.old) }
    {
        self.desk.apply(alloc, pass, call)
    }

    /// How many entries the published list covers.
    pub fn shown(&self) -> u64
        ensures number { result ≡ self.now.shown }
        ensures headline { IsUnderLock K.base K.plan self.now }
    {
        self.shown as u64
    }

    /// Shows viewers everything that waits, in one step, or nothing when out of memory. Returns the list that is published then.
    pub fn publish<R: Wait>(&mut self, rt: &R) -> Told
        ensures desk { desk_of self.new ≡ desk_of self.old }
        ensures shown { CoversAllOrSame self.old self.new.shown }
        ensures idle { KeepsUp self.old self.new.shown }
        ensures told { result
            ≡ told_of K.book (volume_of K.base) self.old.journal self.new.shown }
        ensures headline { IsUnderLock K.base K.plan self.new }
    {
        let journal = self.desk.journal();
        self.added = gather(&mut self.pair, journal, self.added);
        self.shown = show(rt, &mut self.pair, self.added, journal.len(), self.shown);
        self.pair.told(self.shown as u64, journal.len() as u64)
    }
}

// Adds the changes of the next entries to the pair, as far as memory allows. Returns how many entries the pair then has.
fn gather(pair: &mut Pair, journal: &[Entry], added: usize) -> usize
    requires { added ≤ length journal.now }
    ensures order { (added ≤ result) × (result ≤ length journal.now) }
    ensures lists { GathersOf pair.old journal.now added pair.new result }
    ensures idle { NoneAccepted (drop added journal.now) → result ≡ length journal.now }
{
    added + pair.add_entries(&journal[added..])
}

// Shows what the pair has, if it has the changes of all entries. Returns how many entries the published list then covers.
fn show<R: Wait>(rt: &R, pair: &mut Pair, added: usize, made: usize, shown: usize) -> usize
    ensures shown { ((result ≡ made) × (added ≡ made)) ⊎ (result ≡ shown) }
    ensures lists { ShowsOf pair.old added shown pair.new result }
    ensures idle { pair.old.all ≡ pair.old.shown → added ≡ made → result ≡ made }
{
    if added == made && pair.publish(rt) {
        return made;
    }
    shown
}

//! The lock, held.
ghost use Rattle.std.specs.Prelude.{◌≡◌, IfOk, OnErr, IfErr};
ghost use Rattle.hfs_check.specs.VolumeOf.{volume_of};
ghost use Rattle.hfs_shared.specs.Desks.{IsApplied};
ghost use Rattle.hfs_shared.specs.Faults.{IsCallFault};
ghost use Rattle.hfs_shared.specs.Lockeds.{LockedState, desk_of, IsUnderLock, KeepsUp, CoversAllOrSame};
ghost use Rattle.hfs_shared.specs.Plans.{IsPlanned};
ghost use Rattle.hfs_shared.specs.Shareds.{IsToldOf};

use crate::Told;
use crate::desk::CallFault;
use crate::locked::Locked;
use crate::pass::Pass;
use crate::session::Session;
use hfs_model::{Call, Reply};
use std::alloc::Global;
use std::marker::Model;
use std::sync::{MutexGuard, Wait};

/// Holds the lock until it is dropped, and offers the calls of what lies under it. Contracts see what lies there: the image as it
/// was mounted, the image as it is now, the blocks of forks that were written since, the journal, how many workers there are, and
/// how many entries the published list covers.
#[derive(Drop)]
pub struct Guard<'a, K: Session> {
    inner: MutexGuard<'a, Locked<K>>,
}

impl<'a, K: Session> Model for Guard<'a, K> {
    ghost use Rattle.std.specs.Sync.Mutex.{mutex_guard_value};
    ghost use Rattle.hfs_shared.specs.Lockeds.{LockedState};

    ghost Value = { LockedState };

    ghost view = { λ g. mutex_guard_value g.inner };
}

impl<'a, K: Session> Guard<'a, K> {
    pub(crate) fn new(inner: MutexGuard<'a, Locked<K>>) -> Guard<'a, K> {
        Guard { inner }
    }
}

impl<K: Session> Guard<'_, K> {
    /// Makes a call of a worker: adds one entry to the journal and one to the pass's number. `Stamp` if that number isn't its
    /// worker's next one; this is checked before anything else. At a fault nothing has changed. A session without a plan takes
    /// any call.
    pub fn apply(&mut self, alloc: Global, pass: &mut Pass, call: &Call) -> Result<Reply, CallFault>
        requires { IsPlanned K.plan pass.old.worker pass.old.number call.now }
        ensures ok { IfOk result (λ r.
            IsApplied (desk_of self.old) pass.old call.now r (desk_of self.new) pass.new) }
        ensures shown { self.new.shown ≡ self.old.shown }
        ensures headline { IsUnderLock K.base K.plan self.new }
        ensures err { OnErr result ((self.new ≡ self.old) × (pass.new ≡ pass.old)) }
        ensures fault { IfErr result (IsCallFault (desk_of self.old) pass.old) }
    {
        self.inner.apply(alloc, pass, call)
    }

    /// Shows viewers everything that waits, in one step, or nothing when out of memory. Returns the list that is published then.
    pub fn publish<R: Wait>(&mut self, rt: &R) -> Told
        ensures desk { desk_of self.new ≡ desk_of self.old }
        ensures shown { CoversAllOrSame self.old self.new.shown }
        ensures idle { KeepsUp self.old self.new.shown }
        ensures number { result.shown ≡ self.new.shown }
        ensures told { IsToldOf K.book (volume_of K.base) self.old.journal result }
        ensures headline { IsUnderLock K.base K.plan self.new }
    {
        self.inner.publish(rt)
    }

    /// How many entries of the journal the published list covers. Takes no memory.
    pub fn shown(&self) -> u64
        ensures number { result ≡ self.now.shown }
        ensures headline { IsUnderLock K.base K.plan self.now }
    {
        self.inner.shown()
    }
}

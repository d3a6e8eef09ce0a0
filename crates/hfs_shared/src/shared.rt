//! The shared volume.
ghost use Rattle.std.specs.Prelude.{◌≡◌, IfOk, OnErr, IfErr};
ghost use Rattle.hfs_shared.specs.Closings.{IsClosedAs};
ghost use Rattle.hfs_shared.specs.Faults.{IsFaultUnder};
ghost use Rattle.hfs_shared.specs.Plans.{ArePlanned, IsPlanned};
ghost use Rattle.hfs_shared.specs.Shareds.{IsSomeCall};

use crate::closed::Closed;
use crate::desk::CallFault;
use crate::guard::Guard;
use crate::locked::Locked;
use crate::pass::Pass;
use crate::session::Session;
use crate::{Told, Viewer};
use hfs_model::{Call, Reply};
use std::alloc::Global;
use std::sync::{Mutex, Wait};

/// A volume with its journal under one lock, for workers with passes, and the list of its changes, which viewers read without the
/// lock.
#[derive(Drop)]
pub struct Shared<K: Session> {
    lock: Mutex<Locked<K>>,
}

impl<K: Session> Shared<K> {
    pub(crate) fn new(locked: Locked<K>) -> Shared<K> {
        Shared {
            lock: Mutex::new(locked),
        }
    }

    /// What lies under the lock, for a caller that owns all of it.
    pub fn into_locked(self) -> Locked<K> {
        let Shared { lock } = self;
        lock.into_inner()
    }

    /// Takes the lock, and waits for it.
    pub fn lock<R: Wait>(&self, rt: &R) -> Guard<'_, K> {
        Guard::new(self.lock.lock(rt))
    }

    /// Makes one call under the lock, and publishes what waits. Returns the reply, and the list that is published then. At a
    /// fault, as for [`Guard::apply`], nothing has changed.
    pub fn call<R: Wait>(
        &self,
        rt: &R,
        alloc: Global,
        pass: &mut Pass,
        call: Call,
    ) -> Result<(Reply, Told), CallFault>
        requires { IsPlanned K.plan pass.old.worker pass.old.number call }
        ensures ok { IfOk result (λ r.
            IsSomeCall K.book K.base K.plan pass.old call r.0 r.1 pass.new) }
        ensures err { OnErr result (pass.new ≡ pass.old) }
        ensures fault { IfErr result (IsFaultUnder pass.old.number) }
    {
        let mut guard = self.lock(rt);
        let reply = guard.apply(alloc, pass, &call)?;
        let told = guard.publish(rt);
        Ok((reply, told))
    }

    /// Ends the sharing, waiting for viewers that are reading; the viewer that is lent, which must be of the same `Shared`,
    /// learns everything that was published. Refused, as by [`Locked::close`], if the passes are not those of all workers, each
    /// once and with its next number: then the same parts are handed back, and the viewer is unchanged.
    pub fn close<R: Wait>(
        self,
        rt: &R,
        passes: Vec<Pass>,
        viewer: &mut Viewer,
    ) -> Result<Closed, (Shared<K>, Vec<Pass>)>
        requires { viewer.old.book ≡ K.book }
        ensures ok { IfOk result (λ c. IsClosedAs K.base c passes.items viewer.old viewer.new) }
        ensures planned { IfOk result (λ c. ArePlanned K.plan c.journal.items) }
        ensures err { IfErr result (λ e. (e.1 ≡ passes) × (viewer.new ≡ viewer.old)) }
    {
        match self.into_locked().close(rt, passes, viewer) {
            Ok(closed) => Ok(closed),
            Err((locked, passes)) => Err((Shared::new(locked), passes)),
        }
    }
}

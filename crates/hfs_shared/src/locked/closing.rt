//! Ending what lies under the lock once all workers have given their passes back.
ghost use Rattle.std.specs.Prelude.{◌≡◌, IfOk, IfErr, MatchResult};
ghost use mathlib.Core.List.{IsPrefix};
ghost use Rattle.hfs_check.specs.VolumeOf.{volume_of};
ghost use Rattle.hfs_shared.specs.Journals.{published};
ghost use Rattle.hfs_shared.specs.Closings.{AreAllPasses, AreTheirPasses, GivesAll, HasNoOthers, IsClosedAs, IsWhether};
ghost use Rattle.hfs_shared.specs.Lockeds.{IsUnderLock};
ghost use Rattle.hfs_shared.specs.Plans.{ArePlanned};

use super::Locked;
use crate::Viewer;
use crate::closed::Closed;
use crate::pass::Pass;
use crate::session::Session;
use std::sync::Wait;

impl<K: Session> Locked<K> {
    /// Ends the pair, waiting for viewers that are reading; the viewer that is lent, which must be of this pair, learns
    /// everything that was published. Refused exactly when the passes are not those of all workers, each once and with its next
    /// number: then the same parts are handed back, and the viewer is unchanged.
    pub fn close<R: Wait>(
        self,
        rt: &R,
        passes: Vec<Pass>,
        viewer: &mut Viewer,
    ) -> Result<Closed, (Locked<K>, Vec<Pass>)>
        requires { viewer.old.book ≡ K.book }
        ensures exactly { MatchResult result (λ _. AreTheirPasses passes.items self)
            (λ _. AreTheirPasses passes.items self → ⊥) }
        ensures ok { IfOk result (λ c. IsClosedAs K.base c passes.items viewer.old viewer.new) }
        ensures all { IfOk result (λ c. GivesAll self c) }
        ensures planned { IfOk result (λ c. ArePlanned K.plan c.journal.items) }
        ensures err { IfErr result (λ e.
            (e.0 ≡ self) × (e.1 ≡ passes) × (viewer.new ≡ viewer.old)) }
    {
        if !self.are_all(&passes) {
            return Err((self, passes));
        }
        self.teach(rt, viewer);
        Ok(self.end(rt))
    }

    // Whether these are the passes of all workers, each once and with its next number.
    fn are_all(&self, passes: &Vec<Pass>) -> bool
        ensures { IsWhether result
            (AreAllPasses passes.now.items self.now.workers self.now.journal) }
    {
        self.desk.are_all(passes)
    }

    // The viewer learns everything that was published. Waits if the viewer knows of more, which no viewer of this pair does.
    fn teach<R: Wait>(&self, rt: &R, viewer: &mut Viewer)
        requires { viewer.old.book ≡ K.book }
        ensures seen { viewer.new.list
            ≡ published (volume_of K.base) self.now.journal self.now.shown }
        ensures begins { IsPrefix viewer.old.list viewer.new.list }
    {
        self.pair.teach(rt, viewer);
    }

    // Ends the pair, waiting for its readers, and returns the rest.
    fn end<R: Wait>(self, rt: &R) -> Closed
        ensures base { result.volume.base ≡ self.base }
        ensures current { result.volume.current ≡ self.current }
        ensures written { result.volume.written ≡ self.written }
        ensures journal { result.journal.items ≡ self.journal }
        ensures shown { result.shown ≡ self.shown }
        ensures headline { IsUnderLock K.base K.plan self }
        ensures others { HasNoOthers self.workers self.journal }
    {
        let Locked {
            desk,
            pair,
            added: _,
            shown,
            of: _,
        } = self;
        pair.end(rt);
        let (volume, journal) = desk.into_parts();
        Closed {
            volume,
            journal,
            shown: shown as u64,
        }
    }
}

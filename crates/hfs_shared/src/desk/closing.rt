//! Taking a desk apart once all workers have given their passes back.
ghost use Rattle.std.specs.Prelude.{◌≡◌};
ghost use Rattle.hfs_shared.specs.Closings.{HasPass, AreAllPasses, HasNoOthers, IsWhether};
ghost use Rattle.hfs_shared.specs.Desks.{pass_state, IsHeadline};

use super::Desk;
use crate::pass::Pass;
use hfs_model::Entry;
use hfs_volume::Volume;

impl Desk {
    /// The volume.
    pub(crate) fn volume(&self) -> &Volume
        ensures base { result.now.base ≡ self.now.base }
        ensures current { result.now.current ≡ self.now.current }
    {
        &self.volume
    }

    /// The volume, without its journal.
    pub(crate) fn into_volume(self) -> Volume
        ensures base { result.base ≡ self.base }
        ensures current { result.current ≡ self.current }
    {
        let Desk {
            volume,
            journal: _,
            next: _,
        } = self;
        volume
    }

    /// The volume and the journal.
    pub(crate) fn into_parts(self) -> (Volume, Vec<Entry>)
        ensures base { result.0.base ≡ self.base }
        ensures current { result.0.current ≡ self.current }
        ensures written { result.0.written ≡ self.written }
        ensures journal { result.1.items ≡ self.journal }
        ensures headline { IsHeadline self.base self.current self.written self.journal }
        ensures others { HasNoOthers self.workers self.journal }
    {
        let Desk {
            volume,
            journal,
            next: _,
        } = self;
        (volume, journal)
    }

    /// Whether these are the passes of all workers, each once and with its next number.
    pub(crate) fn are_all(&self, passes: &Vec<Pass>) -> bool
        ensures { IsWhether result
            (AreAllPasses passes.now.items self.now.workers self.now.journal) }
    {
        if passes.len() != self.next.len() {
            return false;
        }
        for at in 0..self.next.len() {
            if !has(passes, at as u32 + 1, self.next[at]) {
                return false;
            }
        }
        true
    }
}

// Whether this pass is among them.
fn has(passes: &Vec<Pass>, worker: u32, number: u64) -> bool
    ensures { IsWhether result (HasPass passes.now.items (pass_state worker number)) }
{
    for pass in passes {
        if pass.is(worker, number) {
            return true;
        }
    }
    false
}

//! The end of a run: its volume, taken back from what was shared.
ghost use Rattle.std.specs.Prelude.{◌≡◌, ◌<◌, IfOk, IfErr, get_or, length, map};
ghost use Rattle.hfs_scripts.specs.declared.lines.Caller.{Caller};
ghost use Rattle.hfs_runs.specs.Answers.{kept_replies, replies_of};
ghost use Rattle.hfs_runs.specs.Runs.{IsHandedOut};
ghost use Rattle.hfs_runs.specs.Tellings.{AreOf, OfEach};

use crate::codes::are_coded;
use crate::replies::Replies;
use crate::script_fault::ScriptFault;
use crate::telling::learn_all;
use crate::viewing::Viewing;
use hfs_model::Reply;
use hfs_shared::{Done, Pass, Session, Shared, Told, Viewer};
use hfs_volume::Volume;
use std::alloc::{AllocError, Global};
use std::sync::Wait;

// The passes of workers that have ended, and what they were answered.
fn part_dones(
    alloc: Global,
    dones: Vec<Done>,
) -> Result<(Vec<Pass>, Vec<Vec<(Reply, Told)>>), AllocError>
    ensures passes { IfOk result (λ r. r.0.items ≡ map (λ done. done.pass) dones.items) }
    ensures replies { IfOk result (λ r. r.1.items ≡ map (λ done. done.replies) dones.items) }
{
    let mut passes = Vec::new(alloc);
    let mut replies = Vec::new(alloc);
    for done in dones {
        let Done {
            pass,
            replies: got,
            ..
        } = done;
        passes.push(pass)?;
        replies.push(got)?;
    }
    Ok((passes, replies))
}

// The viewers that have read, and what they were answered.
fn part_viewings(
    alloc: Global,
    viewings: Vec<Viewing>,
) -> Result<(Vec<Viewer>, Vec<Vec<Reply>>), AllocError>
    ensures viewers { IfOk result (λ r. r.0.items ≡ map (λ one. one.viewer) viewings.items) }
    ensures replies { IfOk result (λ r. r.1.items ≡ map (λ one. one.replies) viewings.items) }
{
    let mut viewers = Vec::new(alloc);
    let mut replies = Vec::new(alloc);
    for viewing in viewings {
        let Viewing {
            viewer,
            replies: got,
            ..
        } = viewing;
        viewers.push(viewer)?;
        replies.push(got)?;
    }
    Ok((viewers, replies))
}

// Closes the shared volume with a viewer, which learns all lists that workers were given; returns it with what was answered, of
// which its journal has the codes.
fn close_by<K: Session, R: Wait>(
    rt: &R,
    alloc: Global,
    shared: Shared<K>,
    dones: Vec<Done>,
    viewer: &mut Viewer,
) -> Result<(Volume, Vec<Vec<(Reply, Told)>>), ScriptFault>
    requires book { viewer.old.book ≡ K.book }
    requires told { OfEach (AreOf K.book) dones.items }
    ensures ok { IfOk result (λ r. IsHandedOut K.base K.plan r.0 dones.items) }
    ensures replies { IfOk result (λ r. r.1.items ≡ map (λ done. done.replies) dones.items) }
    ensures err { IfErr result (λ fault. fault ≡ ScriptFault.Memory) }
{
    learn_all(viewer, &dones);
    let (passes, replies) = part_dones(alloc, dones)?;
    let Ok(closed) = shared.close(rt, passes, viewer) else {
        return Err(ScriptFault::Memory);
    };
    // As little as passes that are refused, this can't come: both are of the same calls.
    if !are_coded(&replies, &closed.journal) {
        return Err(ScriptFault::Memory);
    }
    Ok((closed.volume, replies))
}

/// Closes the shared volume with the first viewer, which learns all lists that workers were given; returns it with what all
/// callers were answered. Fails only when out of memory.
pub fn close<K: Session, R: Wait>(
    rt: &R,
    alloc: Global,
    shared: Shared<K>,
    dones: Vec<Done>,
    viewings: Vec<Viewing>,
) -> Result<(Volume, Replies), ScriptFault>
    requires some { 0 < length viewings.items }
    requires book { (v : _) → (get_or viewings.items 0 v).viewer.book ≡ K.book }
    requires told { OfEach (AreOf K.book) dones.items }
    ensures ok { IfOk result (λ r. IsHandedOut K.base K.plan r.0 dones.items) }
    ensures replies { IfOk result (λ r. (caller : Caller)
        → kept_replies r.1 caller ≡ replies_of dones.items viewings.items caller) }
    ensures told { IfOk result (λ r.
        r.1.workers.items ≡ map (λ done. done.replies) dones.items) }
    ensures err { IfErr result (λ fault. fault ≡ ScriptFault.Memory) }
{
    let (readers, viewers) = part_viewings(alloc, viewings)?;
    let mut readers = readers;
    let (volume, workers) = close_by(rt, alloc, shared, dones, &mut readers[0])?;
    Ok((volume, Replies { workers, viewers }))
}

//! The parts of a shared volume, before a session names them.
ghost use Rattle.std.specs.Prelude.{◌≡◌, ◌<◌, ◌≤◌, [], ◌∷◌, IfOk, IfErr, IfSome};
ghost use Rattle.hfs_shared.specs.Desks.{desk_state, IsHeadline};
ghost use Rattle.hfs_shared.specs.Shareds.{AreFirstPasses, IsStartOf};

use crate::desk::Desk;
use crate::locked::Locked;
use crate::pass::Pass;
use crate::session::Session;
use crate::shared::Shared;
use crate::{Pair, PairFault, Viewer};
use hfs_volume::Volume;
use std::alloc::Global;
use std::marker::Model;
use std::sync::Wait;

/// Why a volume was not shared.
#[derive(Clone, Copy, Debug)]
pub enum Why {
    /// Out of memory.
    Memory,
    /// There was no room for another viewer.
    NoPlace,
}

/// A volume that was not shared, and why.
#[derive(Drop)]
pub struct StartFault {
    pub why: Why,
    /// The volume that was given. Its bytes are as they were, but its blocks may no longer be kept as changed.
    pub volume: Volume,
}

/// A volume that is about to be shared, with no call made yet. Contracts see the name of the published list's history, the image
/// that is shared, whose volume opens that list, and how many workers there are.
#[derive(Drop)]
pub struct Parts {
    desk: Desk,
    pair: Pair,
}

impl Model for Parts {
    ghost use Rattle.hfs_shared.specs.Shareds.{PartsState, parts_state, IsUnused};

    ghost Value = { PartsState };

    ghost view = { λ p. parts_state p.desk p.pair };

    ghost invariant = { λ p. IsUnused p.desk p.pair };
}

impl Parts {
    /// The parts of a volume for `workers` workers and `viewers` viewers, with the passes of workers 1, 2 and so on, and viewers
    /// that have seen the volume as it is now. At a fault the volume is handed back: `Memory` when out of memory, `NoPlace` if
    /// there was no room for a viewer.
    pub fn start<R: Wait>(
        rt: &R,
        alloc: Global,
        volume: Volume,
        workers: u32,
        viewers: u32,
    ) -> Result<(Parts, Vec<Pass>, Vec<Viewer>), StartFault>
        requires workers { (0 < workers) × (workers ≤ 8) }
        requires viewers { (0 < viewers) × (viewers ≤ 8) }
        ensures ok { IfOk result (λ r. IsStartOf volume workers viewers r.0 r.1.items r.2.items) }
        ensures err { IfErr result (λ f. f.volume.current ≡ volume.current) }
    {
        let (desk, passes) = begin(alloc, volume, workers)?;
        match Pair::start(rt, alloc, desk.volume(), viewers) {
            Ok((pair, viewers)) => Ok((Parts { desk, pair }, passes, viewers)),
            Err(PairFault::Memory) => Err(fault(Why::Memory, desk.into_volume())),
            Err(PairFault::NoPlace) => Err(fault(Why::NoPlace, desk.into_volume())),
        }
    }

    /// The parts of a volume that no viewer reads, for `workers` workers, with their passes as for [`Parts::start`]. Nothing is
    /// kept for viewers. The one viewer has seen the volume as it is now: it learns published lists and serves to close, but any
    /// read through it is `Gone`. At a fault, which is `Memory`, the volume is handed back.
    pub fn start_unread(
        alloc: Global,
        volume: Volume,
        workers: u32,
    ) -> Result<(Parts, Vec<Pass>, Viewer), StartFault>
        requires { (0 < workers) × (workers ≤ 8) }
        ensures ok { IfOk result (λ r. IsStartOf volume workers 1 r.0 r.1.items (r.2 ∷ [])) }
        ensures err { IfErr result (λ f. f.volume.current ≡ volume.current) }
    {
        let (desk, passes) = begin(alloc, volume, workers)?;
        let (pair, viewer) = Pair::start_unread(desk.volume());
        Ok((Parts { desk, pair }, passes, viewer))
    }

    /// Shares the volume in a session, which names its history and its image. Takes no memory.
    pub fn share<K: Session>(self) -> Shared<K>
        requires { (self.book ≡ K.book) × (self.base ≡ K.base) }
    {
        let Parts { desk, pair } = self;
        Shared::new(Locked::new(desk, pair))
    }
}

// A desk over the volume, and the first passes.
fn begin(alloc: Global, volume: Volume, workers: u32) -> Result<(Desk, Vec<Pass>), StartFault>
    requires { workers ≤ 8 }
    ensures desk { IfOk result (λ r. r.0
        ≡ desk_state volume.current volume.current [] [] workers) }
    ensures headline { IfOk result (λ r.
        IsHeadline r.0.base r.0.current r.0.written r.0.journal) }
    ensures passes { IfOk result (λ r. AreFirstPasses workers r.1.items) }
    ensures err { IfErr result (λ f. f.volume.current ≡ volume.current) }
{
    let Some(passes) = first_passes(alloc, workers) else {
        return Err(fault(Why::Memory, volume));
    };
    match new_desk(alloc, volume, workers) {
        Ok(desk) => Ok((desk, passes)),
        Err(volume) => Err(fault(Why::Memory, volume)),
    }
}

fn fault(why: Why, volume: Volume) -> StartFault
    ensures { result.volume ≡ volume }
{
    StartFault { why, volume }
}

// A desk over the volume, which is mounted anew. When out of memory, the volume is handed back.
fn new_desk(alloc: Global, volume: Volume, workers: u32) -> Result<Desk, Volume>
    requires { workers ≤ 8 }
    ensures ok { IfOk result (λ d. d ≡ desk_state volume.current volume.current [] [] workers) }
    ensures headline { IfOk result (λ d. IsHeadline d.base d.current d.written d.journal) }
    ensures err { IfErr result (λ v. v.current ≡ volume.current) }
{
    match volume.mounted_anew(alloc) {
        Ok(volume) => Desk::new(alloc, volume, workers),
        Err(failed) => Err(failed.value),
    }
}

// The first passes of `workers` workers. None when out of memory.
fn first_passes(alloc: Global, workers: u32) -> Option<Vec<Pass>>
    requires { workers ≤ 8 }
    ensures { IfSome result (λ v. AreFirstPasses workers v.items) }
{
    let mut passes = Vec::new(alloc);
    for worker in 0..workers {
        if passes.push(Pass::first(worker + 1)).is_err() {
            return None;
        }
    }
    Some(passes)
}

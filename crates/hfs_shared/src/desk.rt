//! A volume with its journal.
ghost use Rattle.std.specs.Prelude.{◌≡◌, ◌≤◌, ◌<◌, [], length, IfOk, OnErr, IfErr};
ghost use Rattle.hfs_shared.specs.Desks.{DeskState, desk_state, pass_state, wanted, want_of, want_in, entry_of, IsHeadline, IsApplied};
ghost use Rattle.hfs_shared.specs.Faults.{IsCallFault};

use crate::pass::Pass;
use hfs_model::{Call, DISK_FULL, Entry, Reply, Value, Want};
use hfs_volume::Volume;
use std::alloc::Global;
use std::marker::Model;

mod closing;

/// Why a call was not made. Nothing has changed then.
#[derive(Clone, Copy, Debug)]
pub enum CallFault {
    /// The pass doesn't have its worker's next number, or there is no such worker; then `wanted` is 0.
    Stamp { wanted: u64, given: u64 },
    /// Out of memory.
    Memory,
}

/// A volume and the journal of its calls. Contracts see the image as it was mounted, the image as it is now, the blocks of forks
/// that were written since, the journal, and how many workers there are. The journal is legal over the mounted volume, and the
/// volume is the one after it.
#[derive(Drop)]
pub struct Desk {
    volume: Volume,
    journal: Vec<Entry>,
    next: Vec<u64>,
}

impl Model for Desk {
    ghost use Rattle.std.specs.Prelude.{length};
    ghost use Rattle.hfs_shared.specs.Desks.{DeskState, desk_state, IsHeadline, IsCounted};

    ghost Value = { DeskState };

    ghost view = { λ d. desk_state d.volume.base d.volume.current d.volume.written d.journal.items (length d.next.items) };

    ghost invariant = { λ d. IsHeadline d.volume.base d.volume.current d.volume.written d.journal.items × IsCounted d.next.items d.journal.items };
}

impl Desk {
    /// A desk over a volume with no changed blocks, for `workers` workers. When out of memory, the volume is handed back.
    pub fn new(alloc: Global, volume: Volume, workers: u32) -> Result<Desk, Volume>
        requires workers { workers ≤ 8 }
        requires fresh { volume.current ≡ volume.base }
        requires unwritten { volume.written ≡ [] }
        ensures ok { IfOk result (λ d. d ≡ desk_state volume.base volume.base [] [] workers) }
        ensures headline { IfOk result (λ d. IsHeadline d.base d.current d.written d.journal) }
        ensures err { IfErr result (λ v. v ≡ volume) }
    {
        let Ok(next) = Vec::from_elem(alloc, 1u64, workers as usize) else {
            return Err(volume);
        };
        volume.agrees_with_base();
        Ok(Desk {
            volume,
            journal: Vec::new(alloc),
            next,
        })
    }

    // The next number of a worker, or 0.
    fn wanted(&self, worker: u32) -> u64
        ensures { result ≡ wanted self.now.workers self.now.journal worker }
    {
        if worker == 0 || worker as usize > self.next.len() {
            return 0;
        }
        self.next[worker as usize - 1]
    }

    /// The entries of the journal.
    pub fn journal(&self) -> &[Entry]
        ensures entries { result.now ≡ self.now.journal }
        ensures headline { IsHeadline self.now.base self.now.current self.now.written
            self.now.journal }
    {
        &self.journal
    }

    /// Makes a call of a worker, which adds one entry to the journal. `Stamp` if the pass doesn't have its worker's next number;
    /// this is checked before anything else.
    pub fn apply(&mut self, alloc: Global, pass: &mut Pass, call: &Call) -> Result<Reply, CallFault>
        ensures ok { IfOk result (λ r. IsApplied self.old pass.old call.now r self.new pass.new) }
        ensures err { OnErr result ((self.new ≡ self.old) × (pass.new ≡ pass.old)) }
        ensures fault { IfErr result (IsCallFault self.old pass.old) }
    {
        let wanted = self.wanted(pass.worker());
        let number = pass.number();
        if number != wanted {
            return Err(CallFault::Stamp {
                wanted,
                given: number,
            });
        }
        if self.journal.reserve(1).is_err() {
            return Err(CallFault::Memory);
        }
        let Ok(copy) = call.copied() else {
            return Err(CallFault::Memory);
        };
        let Ok(reply) = self.volume.call(alloc, call) else {
            return Err(CallFault::Memory);
        };
        self.volume.agrees_with_base();
        let worker = pass.worker();
        self.journal
            .push_reserved(entry(worker, number, copy, &reply));
        self.next[worker as usize - 1] = number + 1;
        pass.raise();
        Ok(reply)
    }
}

// The journal's entry of a call.
fn entry(worker: u32, stamp: u64, call: Call, reply: &Reply) -> Entry
    ensures { result ≡ entry_of (pass_state worker stamp) call reply.now }
{
    Entry {
        worker,
        stamp,
        call,
        code: reply.code,
        want: want_of(reply),
    }
}

// The room that a reply says was lacking.
fn want_of(reply: &Reply) -> Option<Want>
    ensures { result ≡ want_of reply.now }
{
    if reply.code == DISK_FULL {
        return want_in(&reply.value);
    }
    None
}

// The room that a value says was lacking.
fn want_in(value: &Value) -> Option<Want>
    ensures { result ≡ want_in value.now }
{
    match value {
        Value::Full { free, depth } => Some(Want::Nodes {
            free: *free,
            depth: *depth,
        }),
        Value::Room { free, wanted } => Some(Want::Room {
            free: *free,
            wanted: *wanted,
        }),
        Value::ExtentNodes { free, depth } => Some(Want::ExtentNodes {
            free: *free,
            depth: *depth,
        }),
        Value::Nothing
        | Value::Id(_)
        | Value::One(_)
        | Value::Many(_)
        | Value::Bytes(_)
        | Value::Place { .. } => None,
    }
}

//! The writer's side of what is published.
ghost use Rattle.std.specs.Prelude.{◌≡◌, ◌≢◌, ◌<◌, ◌≤◌, true, IfOk, MatchBool};
ghost use mathlib.Core.List.{IsPrefix};
ghost use Rattle.hfs_check.specs.VolumeOf.{volume_of};
ghost use Rattle.hfs_shared.specs.Answers.{IsAllOrNothing};
ghost use Rattle.hfs_shared.specs.Histories.{known, opened};
ghost use Rattle.hfs_shared.specs.Pairs.{with_all_shown, IsOpened, with_call, SawOpeningOf};
ghost use Rattle.hfs_shared.specs.Tolds.{told};

use crate::copies::Copies;
use crate::front::Front;
use crate::told::Told;
use crate::unread::Unread;
use crate::viewer::Viewer;
use hfs_model::Call;
use hfs_volume::Volume;
use std::alloc::Global;
use std::marker::Model;
use std::sync::Wait;

mod entries;

/// Why a pair was not made.
#[derive(Clone, Copy, Debug)]
pub enum PairFault {
    /// Out of memory.
    Memory,
    /// There was no room for another reader.
    NoPlace,
}

/// Whether viewers read, and what is kept for them.
#[derive(Drop)]
pub enum Kind {
    Read(Copies),
    Unread(Unread),
}

/// A published list, two copies of a volume's rows if viewers read it, and the changes that wait. Contracts see the history's
/// name, the list with all changes that were added, and the published list, which is a beginning of it.
#[derive(Drop)]
pub struct Pair {
    kind: Kind,
}

impl Model for Pair {
    ghost use Rattle.hfs_shared.specs.Pairs.{PairState};
    ghost use Rattle.hfs_shared.specs.Kinds.{pair_of};

    ghost Value = { PairState };

    ghost use Rattle.hfs_shared.specs.contracts.item.Item as item;
    ghost use Rattle.std.specs.Coded.{codes};

    ghost coded = { Prim.hlevel (codes, item.the_row.coded) };

    ghost view = { λ p. pair_of p.kind };
}

impl Pair {
    // The list that is published.
    fn published(&self) -> &Front
        ensures { result.now ≡ known self.now.book self.now.shown }
    {
        match &self.kind {
            Kind::Read(copies) => copies.published(),
            Kind::Unread(unread) => unread.published(),
        }
    }

    /// The published list as a `Told`: it covers `shown` of a journal's `made` entries. Takes no memory.
    pub fn told(&self, shown: u64, made: u64) -> Told
        ensures { result ≡ told (known self.now.book self.now.shown) shown made }
    {
        Told::new(self.published().again(), shown, made)
    }

    /// Whether everything that was added is published. Takes no memory.
    pub fn is_shown(&self) -> bool
        ensures { MatchBool result (self.now.all ≡ self.now.shown) (self.now.all ≢ self.now.shown) }
    {
        match &self.kind {
            Kind::Read(copies) => copies.is_shown(),
            Kind::Unread(unread) => unread.is_shown(),
        }
    }

    /// Adds a change after all others; it waits to be published. Returns whether it did: not when out of memory.
    pub fn add(&mut self, call: &Call) -> bool
        ensures { IsAllOrNothing result (with_call self.old call.now) self.old self.new }
    {
        match &mut self.kind {
            Kind::Read(copies) => match call.copied() {
                Ok(call) => copies.add(call),
                Err(_) => false,
            },
            Kind::Unread(unread) => unread.add(call),
        }
    }

    /// Shows viewers everything that waits, in one step, and returns whether nothing waits any more. When out of memory, nothing
    /// is shown, and everything goes on waiting. If nobody reads the pair, everything is then published.
    pub fn publish<R: Wait>(&mut self, rt: &R) -> bool
        ensures published { IsAllOrNothing result (with_all_shown self.old) self.old self.new }
        ensures idle { self.old.all ≡ self.old.shown → result ≡ true }
    {
        match &mut self.kind {
            Kind::Read(copies) => copies.publish(rt),
            Kind::Unread(unread) => {
                unread.publish();
                true
            }
        }
    }

    /// The viewer learns everything that is published. Waits if the viewer knows of more, which no viewer of this pair does.
    pub fn teach<R: Wait>(&self, rt: &R, viewer: &mut Viewer)
        requires { viewer.old.book ≡ self.now.book }
        ensures list { viewer.new.list ≡ self.now.shown }
        ensures saw { IsPrefix viewer.old.list viewer.new.list }
        ensures book { viewer.new.book ≡ viewer.old.book }
    {
        let front = self.published().again();
        if front.changes() < viewer.changes() {
            for _ in rt.forever() {}
            unreachable!()
        }
        viewer.learn(&Told::new(front, 0, 0));
    }

    /// Gives up the copies, and waits for their readers to do so. From then on viewers are `Gone`.
    pub fn end<R: Wait>(self, rt: &R) {
        let Pair { kind } = self;
        match kind {
            Kind::Read(copies) => copies.end(rt),
            Kind::Unread(_unread) => {}
        }
    }

    /// A pair over the volume, and `viewers` viewers, each of which has seen only the opening. `NoPlace` if there was no room for
    /// a reader.
    pub fn start<R: Wait>(
        rt: &R,
        alloc: Global,
        volume: &Volume,
        viewers: u32,
    ) -> Result<(Pair, Vec<Viewer>), PairFault>
        requires { (0 < viewers) × (viewers ≤ 8) }
        ensures pair { IfOk result (λ r. IsOpened (volume_of volume.now.current) r.0) }
        ensures viewers { IfOk result (λ r. SawOpeningOf viewers r.0.book volume.now r.1.items) }
    {
        let (copies, viewers) = Copies::start(rt, alloc, volume, viewers)?;
        let kind = Kind::Read(copies);
        Ok((Pair { kind }, viewers))
    }

    /// A pair over the volume that nobody reads, so that no rows are made. Its one viewer has seen only the opening; it learns
    /// published lists, and any read through it is `Gone`. Takes no memory.
    pub fn start_unread(volume: &Volume) -> (Pair, Viewer)
        ensures pair { IsOpened (volume_of volume.now.current) result.0 }
        ensures viewer { result.1 ≡ known result.0.book (opened (volume_of volume.now.current)) }
    {
        let (front, history) = Front::open(volume);
        let viewer = Viewer::unseated(front.again());
        let kind = Kind::Unread(Unread::new(front, history));
        (Pair { kind }, viewer)
    }
}

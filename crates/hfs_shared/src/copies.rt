//! The writer's side where viewers read: two copies of the rows.
ghost use Rattle.std.specs.Prelude.{◌≡◌, ◌≢◌, ◌<◌, ◌≤◌, ◌++◌, ◌∷◌, [], true, drop, None, IfOk, MatchBool};
ghost use Rattle.left_right.specs.Sides.{view as seat_view};
ghost use Rattle.hfs_shared.specs.Answers.{IsAllOrNothing};
ghost use Rattle.hfs_shared.specs.Histories.{known, opened};
ghost use Rattle.hfs_shared.specs.Lists.{Sits};
ghost use Rattle.hfs_shared.specs.Pairs.{PairState, with_all_shown, whole, IsOpened, IsPair, HaveSeen, with_call, SawOpeningOf};
ghost use Rattle.hfs_shared.specs.Writers.{pending_in, waiting_in, KeepsLog, KeepsPending, HasOpened, IsPairIn, ShowsAllOrSame};
ghost use Rattle.hfs_check.specs.VolumeOf.{volume_of};

use crate::front::{Front, History};
use crate::pair::PairFault;
use crate::published::{Change, Published};
use crate::rule::{PairWriter, Sees, Tells};
use crate::seat::Seat;
use crate::viewer::Viewer;
use core::mem::{ManuallyDrop, replace_with};
use hfs_model::Call;
use hfs_viewers::Rows;
use hfs_volume::Volume;
use std::alloc::Global;
use std::marker::Model;
use std::sync::Wait;

/// Two copies of a volume's rows, one of which viewers read, and the changes that wait. Contracts see the history's name, the
/// list with all changes that were added, and the published list, which is a beginning of it.
pub struct Copies {
    writer: PairWriter,
    front: Front,
    history: History,
    // A change in the list for which the writer had no memory.
    owed: Option<Change>,
}

impl Model for Copies {
    ghost use Rattle.hfs_shared.specs.Pairs.{PairState, pair_state, IsPair};

    ghost Value = { PairState };

    ghost use Rattle.hfs_shared.specs.contracts.item.Item as item;
    ghost use Rattle.std.specs.Coded.{codes};

    ghost coded = { Prim.hlevel (codes, item.the_row.coded) };

    ghost view = { λ p. pair_state p.front p.writer.desk.shown.value };

    ghost use Rattle.std.specs.Prelude.{drop};

    ghost invariant = { λ p. IsPair p.front p.history.head.book p.writer.desk.shown.value (drop p.writer.behind p.writer.log.items) p.owed };
}

impl Copies {
    /// The list that is published. Takes no memory.
    pub fn published(&self) -> &Front
        ensures { result.now ≡ known self.now.book self.now.shown }
    {
        &self.writer.published().front
    }

    /// Whether all that was added is published. Takes no memory.
    pub fn is_shown(&self) -> bool
        ensures { MatchBool result (self.now.all ≡ self.now.shown) (self.now.all ≢ self.now.shown) }
    {
        self.front.changes() == self.writer.published().front.changes()
    }

    /// Adds a change after all others; it waits to be published. Returns whether it did: not when out of memory.
    pub fn add(&mut self, call: Call) -> bool
        ensures { IsAllOrNothing result (with_call self.old call) self.old self.new }
    {
        if !settle(&mut self.writer, &mut self.owed) {
            return false;
        }
        let mut front = self.front.again();
        if !front.add(&self.history, &call) {
            return false;
        }
        let change = Change {
            call,
            front: front.again(),
        };
        self.owed = hand_over(&mut self.writer, change);
        self.front = front;
        true
    }

    /// Shows viewers everything that waits, in one step, and returns whether nothing waits any more. When out of memory, nothing
    /// is shown, and everything goes on waiting.
    pub fn publish<R: Wait>(&mut self, rt: &R) -> bool
        ensures published { IsAllOrNothing result (with_all_shown self.old) self.old self.new }
        ensures idle { self.old.all ≡ self.old.shown → result ≡ true }
    {
        if self.is_shown() {
            return true;
        }
        if !settle(&mut self.writer, &mut self.owed) {
            return false;
        }
        let parts = (&self.front, &self.history, &self.owed, rt);
        replace_with(
            &mut self.writer,
            parts,
            |writer, (front, history, owed, rt)| { show_all(writer, front, history, owed, rt) },
        )
    }

    /// Gives up the copies, and waits for their readers to do so. From then on viewers are `Gone`.
    pub fn end<R: Wait>(self, rt: &R) {
        let Copies {
            writer,
            front: _,
            history: _,
            owed: _,
        } = self;
        drop(writer.take(rt));
    }

    /// Copies of the volume's rows, and `viewers` viewers, each of which has seen only the opening. `NoPlace` if there was no
    /// room for a reader.
    pub fn start<R: Wait>(
        rt: &R,
        alloc: Global,
        volume: &Volume,
        viewers: u32,
    ) -> Result<(Copies, Vec<Viewer>), PairFault>
        requires { (0 < viewers) × (viewers ≤ 8) }
        ensures copies { IfOk result (λ r. IsOpened (volume_of volume.now.current) r.0) }
        ensures viewers { IfOk result (λ r. SawOpeningOf viewers r.0.book volume.now r.1.items) }
    {
        let (front, history) = Front::open(volume);
        let writer = open_writer(rt, alloc, volume, &front, viewers)?;
        let (writer, viewers) = seat_all(alloc, writer, &front, viewers);
        match viewers {
            Ok(viewers) => {
                let copies = Copies {
                    writer,
                    front,
                    history,
                    owed: None,
                };
                Ok((copies, viewers))
            }
            Err(fault) => {
                drop(writer.take(rt));
                Err(fault)
            }
        }
    }
}

// Copies that are dropped are leaked, since the writer would have to wait for readers. `end` gives them up.
impl Drop for Copies {
    fn drop(self) {
        let Self {
            writer,
            front: _,
            history: _,
            owed: _,
        } = self;
        let _leaked = unsafe { ManuallyDrop::new_unchecked(writer) };
    }
}

// Appends the change. It is handed back when out of memory.
fn hand_over(writer: &mut PairWriter, change: Change) -> Option<Change>
    ensures desk { writer.new.desk ≡ writer.old.desk }
    ensures pending { waiting_in writer.new result ≡ pending_in writer.old ++ change ∷ [] }
{
    match writer.append(change) {
        Ok(()) => None,
        Err(change) => Some(change),
    }
}

// Appends the change that is owed, if any, and returns whether none is owed any more.
fn settle(writer: &mut PairWriter, owed: &mut Option<Change>) -> bool
    ensures desk { writer.new.desk ≡ writer.old.desk }
    ensures pending { waiting_in writer.new owed.new ≡ waiting_in writer.old owed.old }
    ensures none { MatchBool result (owed.new ≡ None) (owed.new ≢ None) }
{
    let Some(change) = owed.take() else {
        return true;
    };
    *owed = hand_over(writer, change);
    owed.is_none()
}

// The writer of two copies of the volume's rows, already published.
fn open_writer<R: Wait>(
    rt: &R,
    alloc: Global,
    volume: &Volume,
    front: &Front,
    viewers: u32,
) -> Result<PairWriter, PairFault>
    requires room { (0 < viewers) × (viewers ≤ 8) }
    requires front { front.now.list ≡ opened (volume_of volume.now.current) }
    ensures { IfOk result (λ w. HasOpened front.now w) }
{
    let first = copy_of(alloc, volume, front)?;
    let second = copied(&first)?;
    let Ok(writer) = PairWriter::new(alloc, first, second, viewers as usize) else {
        return Err(PairFault::Memory);
    };
    let (writer, shown) = writer.publish_as::<Sees, R>(rt);
    if shown.is_err() {
        drop(writer.take(rt));
        return Err(PairFault::Memory);
    }
    Ok(writer)
}

// A copy of the volume's rows.
fn copy_of(alloc: Global, volume: &Volume, front: &Front) -> Result<Published, PairFault>
    requires { front.now.list ≡ opened (volume_of volume.now.current) }
    ensures { IfOk result (λ x. x ≡ whole front.now) }
{
    let Ok(rows) = Rows::of(alloc, volume) else {
        return Err(PairFault::Memory);
    };
    Ok(Published {
        rows,
        front: front.again(),
    })
}

// A second copy like this one.
fn copied(copy: &Published) -> Result<Published, PairFault>
    ensures { IfOk result (λ x. x ≡ copy.now) }
{
    let Ok(rows) = copy.rows.clone() else {
        return Err(PairFault::Memory);
    };
    Ok(Published {
        rows,
        front: copy.front.again(),
    })
}

// Makes the viewers, each of which gets the name of the history from the writer.
fn seat_all(
    alloc: Global,
    mut writer: PairWriter,
    front: &Front,
    count: u32,
) -> (PairWriter, Result<Vec<Viewer>, PairFault>)
    requires { Sits front.now (seat_view writer.desk.place) }
    ensures writer { KeepsPending writer result.0 }
    ensures viewers { IfOk result.1 (λ v. HaveSeen count front.now v.items) }
{
    let mut viewers = Vec::new(alloc);
    for _i in 0..count {
        if let Err(fault) = seat_one(&mut writer, front, &mut viewers) {
            return (writer, Err(fault));
        }
    }
    (writer, Ok(viewers))
}

// One more viewer.
fn seat_one(
    writer: &mut PairWriter,
    front: &Front,
    viewers: &mut Vec<Viewer>,
) -> Result<(), PairFault>
    requires { Sits front.now (seat_view writer.old.desk.place) }
    ensures viewer { IfOk result (λ _. viewers.new.items ≡ viewers.old.items ++ front.now ∷ []) }
    ensures view { seat_view writer.new.desk.place ≡ seat_view writer.old.desk.place }
    ensures same { KeepsLog writer.old writer.new }
{
    let viewer = seat(writer, front)?;
    match viewers.push(viewer) {
        Ok(()) => Ok(()),
        Err(_) => Err(PairFault::Memory),
    }
}

// A viewer over a new reader.
fn seat(writer: &mut PairWriter, front: &Front) -> Result<Viewer, PairFault>
    requires { Sits front.now (seat_view writer.old.desk.place) }
    ensures viewer { IfOk result (λ v. v ≡ front.now) }
    ensures view { seat_view writer.new.desk.place ≡ seat_view writer.old.desk.place }
    ensures same { KeepsLog writer.old writer.new }
{
    let mut reader = match writer.factory().reader() {
        Ok(reader) => reader,
        Err(_) => return Err(PairFault::NoPlace),
    };
    reader.learn::<Tells>(writer.tell::<Tells>());
    Ok(Viewer::new(Seat::new(reader, front.again())))
}

// Shows readers everything that is pending, if nothing is owed.
fn show_all<R: Wait>(
    writer: PairWriter,
    front: &Front,
    history: &History,
    owed: &Option<Change>,
    rt: &R,
) -> (PairWriter, bool)
    requires pair { IsPairIn front.now history.now.head.book writer owed.now }
    requires none { owed.now ≡ None }
    ensures pair { IsPairIn front.now history.now.head.book result.0 owed.now }
    ensures shown { ShowsAllOrSame result.1 front.now writer result.0 }
{
    let (writer, shown) = writer.publish_as::<Sees, R>(rt);
    (writer, shown.is_ok())
}

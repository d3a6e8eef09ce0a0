//! A reader of the pair, with the list that it took last.
ghost use Rattle.std.specs.Prelude.{◌≡◌, ◌+◌, length, IfOk, IfErr, IfSome, IsNone, IsTrue};
ghost use Rattle.left_right.specs.Sides.{view as seat_view};
ghost use Rattle.hfs_model.specs.Step.{is_reading};
ghost use Rattle.hfs_shared.specs.Lists.{Sits, GivesReply, HasTaken, AreShorter};

use crate::front::Front;
use crate::rule::{PairReader, Sees};
use crate::viewer::ViewFault;
use core::mem::replace_with;
use hfs_model::{Call, Reply};
use std::alloc::{AllocError, Global};
use std::marker::Model;

/// A reader, which waits for nobody. Contracts see the last list that it took.
#[derive(Drop)]
pub struct Seat {
    reader: PairReader,
    met: Front,
}

impl Model for Seat {
    ghost use Rattle.left_right.specs.Sides.{view as seat_view};
    ghost use Rattle.hfs_shared.specs.Histories.{Known};
    ghost use Rattle.hfs_shared.specs.Lists.{Sits};

    ghost Value = { Known };

    ghost use Rattle.hfs_shared.specs.contracts.item.Item as item;
    ghost use Rattle.std.specs.Coded.{codes};

    ghost coded = { Prim.hlevel (codes, item.the_row.coded) };

    ghost view = { λ s. s.met };

    ghost invariant = { λ s. Sits s.met (seat_view s.reader.place) };
}

impl Seat {
    /// The seat of a reader that was handed this list.
    pub fn new(reader: PairReader, met: Front) -> Seat
        requires { Sits met (seat_view reader.place) }
        ensures { result ≡ met }
    {
        Seat { reader, met }
    }

    /// The last list that it took.
    pub fn met(&self) -> &Front
        ensures { result.now ≡ self.now }
    {
        &self.met
    }

    /// Answers a call that reads, on the volume of the list that is current now, of which the given list is a beginning. `Memory`
    /// when out of memory; `Gone` if there is no copy to read.
    pub fn read(&mut self, front: &Front, alloc: Global, call: &Call) -> Result<Reply, ViewFault>
        requires book { self.old.book ≡ front.now.book }
        requires reading { IsTrue (is_reading call.now) }
        ensures ok { GivesReply call.now front.now self.new result }
        ensures book { self.new.book ≡ self.old.book }
    {
        let parts = (&self.met, front, alloc, call);
        let found = replace_with(
            &mut self.reader,
            parts,
            |reader, (met, front, alloc, call)| { read(reader, met, front, alloc, call) },
        );
        let Ok((reply, met)) = found else {
            return Err(ViewFault::Gone);
        };
        self.met = met;
        match reply {
            Some(Ok(reply)) => Ok(reply),
            Some(Err(_)) => Err(ViewFault::Memory),
            None => Err(ViewFault::Gone),
        }
    }
}

// One read, with the list that was taken. The copy is refused only if it has less than what was seen or learned, so never if
// nothing was learned since the last read.
fn read(
    reader: PairReader,
    met: &Front,
    front: &Front,
    alloc: Global,
    call: &Call,
) -> (
    PairReader,
    Result<(Option<Result<Reply, AllocError>>, Front), ()>,
)
    requires sits { Sits met.now (seat_view reader.place) }
    requires book { met.now.book ≡ front.now.book }
    requires reading { IsTrue (is_reading call.now) }
    ensures none { IfErr result.1 (λ _. Sits met.now (seat_view result.0.place)) }
    ensures met { IfOk result.1 (λ r. HasTaken r.1 (seat_view result.0.place) met.now) }
    ensures reads { IfOk result.1 (λ r. IfSome r.0 (λ x. GivesReply call.now front.now r.1 x)) }
    ensures stale { IfOk result.1 (λ r. IsNone r.0 → AreShorter r.1 met.now front.now) }
{
    let reading = match reader.enter_as::<Sees>() {
        Ok(reading) => reading,
        Err(reader) => return (reader, Err(())),
    };
    let now = reading.get();
    let met = now.front.again();
    let reply = if front.begins(&met) {
        Some(now.rows.read(alloc, call))
    } else {
        None
    };
    (reading.leave(), Ok((reply, met)))
}

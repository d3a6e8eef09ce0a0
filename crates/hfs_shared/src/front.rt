//! A beginning of the history, as a token that can be copied.
ghost use Rattle.std.specs.Prelude.{◌≡◌, ◌⊎◌, ◌+◌, true, length};
ghost use mathlib.Core.List.{IsPrefix};
ghost use Rattle.hfs_shared.specs.Answers.{IsAllOrNothing, IsWhetherPrefix};
ghost use Rattle.hfs_shared.specs.Histories.{with_change, opened};
ghost use Rattle.hfs_check.specs.VolumeOf.{volume_of};

use crate::item::{Add, Item, Law, Nothing, Opens};
use hfs_model::Call;
use hfs_volume::Volume;
use logbook::{Offer, Seen, Start, Word};
use std::marker::Model;

// Nobody makes this many changes; the bound keeps the numbers from overflowing.
const MOST: u64 = 1 << 62;

/// The word of a history: how many changes it has.
#[derive(Drop)]
pub struct History {
    pub head: Word<Item, u64, Law>,
    ghost head_is: { (head.tracked ≡ true) × (head.key ≡ 0) },
}

/// A list that a history once had. Contracts see the history's name and the list.
#[derive(Drop)]
pub struct Front {
    changes: u64,
    seen: Seen<Item, u64, Law>,
}

impl Model for Front {
    ghost use Rattle.std.specs.Prelude.{◌≡◌, ◌+◌, length};
    ghost use Rattle.hfs_shared.specs.Histories.{Known, known};

    ghost Value = { Known };

    ghost use Rattle.hfs_shared.specs.contracts.item.Item as item;
    ghost use Rattle.std.specs.Coded.{codes};

    ghost coded = { Prim.hlevel (codes, item.the_row.coded) };

    ghost view = { λ f. known f.seen.book f.seen.log };

    ghost invariant = { λ f. length f.seen.log ≡ f.changes + 1 };
}

impl Front {
    /// A history that has only the opening.
    pub fn open(volume: &Volume) -> (Front, History)
        ensures list { result.0.list ≡ opened (volume_of volume.now.current) }
        ensures book { result.1.head.book ≡ result.0.book }
    {
        let (seen, mut pens) = Seen::open_row::<Volume, Opens>(volume, Start::alone(), 1);
        let mut pen = pens.take();
        let head = Word::tracked(0, &mut pen);
        (Front { changes: 0, seen }, History { head })
    }

    /// How many changes it has.
    pub fn changes(&self) -> u64
        ensures { length self.now.list ≡ result + 1 }
    {
        self.changes
    }

    /// A copy.
    pub fn again(&self) -> Front
        ensures { result ≡ self.now }
    {
        Front {
            changes: self.changes,
            seen: self.seen.again(),
        }
    }

    /// The longer of two fronts of one history, which the other begins.
    pub fn longer(&self, other: &Front) -> Front
        requires { other.now.book ≡ self.now.book }
        ensures one { (result ≡ self.now) ⊎ (result ≡ other.now) }
        ensures this { IsPrefix self.now.list result.list }
        ensures that { IsPrefix other.now.list result.list }
        ensures book { result.book ≡ self.now.book }
    {
        let mut both = self.seen.again();
        both.learn(&other.seen);
        if self.changes < other.changes {
            other.again()
        } else {
            self.again()
        }
    }

    /// Whether this is a beginning of the other, of the same history.
    pub fn begins(&self, other: &Front) -> bool
        requires { other.now.book ≡ self.now.book }
        ensures { IsWhetherPrefix result self.now.list other.now.list }
    {
        let mut both = self.seen.again();
        both.learn(&other.seen);
        if other.changes < self.changes {
            return false;
        }
        true
    }

    /// Adds a change, and returns whether it did. It does if nobody else adds.
    pub fn add(&mut self, history: &History, call: &Call) -> bool
        requires { history.now.head.book ≡ self.old.book }
        ensures { IsAllOrNothing result (with_change self.old call.now) self.old self.new }
    {
        if self.changes >= MOST {
            return false;
        }
        let mut seen = self.seen.again();
        let mut offer: Offer<Item, u64, Law, Nothing> = seen.plain::<Nothing, Call, Add>(call);
        let mut pen = seen.no_pen();
        let changes = self.changes;
        let found = history
            .head
            .compare_exchange::<Add, Nothing>(
                changes,
                changes + 1,
                &mut seen,
                &mut offer,
                &mut pen,
            );
        if found != changes {
            return false;
        }
        *self = Front {
            changes: changes + 1,
            seen,
        };
        true
    }
}

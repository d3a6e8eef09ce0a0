//! The writer's side if nobody reads: only the list.
ghost use Rattle.std.specs.Prelude.{◌≡◌, ◌≢◌, MatchBool};
ghost use Rattle.hfs_shared.specs.Answers.{IsAllOrNothing};
ghost use Rattle.hfs_shared.specs.Histories.{known};
ghost use Rattle.hfs_shared.specs.Pairs.{pair, with_all_shown, with_call};

use crate::front::{Front, History};
use hfs_model::Call;
use std::marker::Model;

/// A published list of which no rows are made. Contracts see the history's name, the list with all changes that were added, and
/// the list that is published.
#[derive(Drop)]
pub struct Unread {
    front: Front,
    shown: Front,
    history: History,
}

impl Model for Unread {
    ghost use Rattle.hfs_shared.specs.Pairs.{PairState, pair, IsUnread};

    ghost Value = { PairState };

    ghost use Rattle.hfs_shared.specs.contracts.item.Item as item;
    ghost use Rattle.std.specs.Coded.{codes};

    ghost coded = { Prim.hlevel (codes, item.the_row.coded) };

    ghost view = { λ u. pair u.front.book u.front.list u.shown.list };

    ghost invariant = { λ u. IsUnread u.front u.history.head.book u.shown };
}

impl Unread {
    /// The list of `front`, at the head of this history: nothing else was added, and all of it is published.
    pub fn new(front: Front, history: History) -> Unread
        requires { history.head.book ≡ front.book }
        ensures { result ≡ pair front.book front.list front.list }
    {
        Unread {
            shown: front.again(),
            front,
            history,
        }
    }

    /// The list that is published.
    pub fn published(&self) -> &Front
        ensures { result.now ≡ known self.now.book self.now.shown }
    {
        &self.shown
    }

    /// Whether everything that was added is published.
    pub fn is_shown(&self) -> bool
        ensures { MatchBool result (self.now.all ≡ self.now.shown) (self.now.all ≢ self.now.shown) }
    {
        self.front.changes() == self.shown.changes()
    }

    /// Adds a change after all others, and returns whether it did.
    pub fn add(&mut self, call: &Call) -> bool
        ensures { IsAllOrNothing result (with_call self.old call.now) self.old self.new }
    {
        self.front.add(&self.history, call)
    }

    /// Publishes everything that was added.
    pub fn publish(&mut self)
        ensures { self.new ≡ with_all_shown self.old }
    {
        self.shown = self.front.again();
    }
}

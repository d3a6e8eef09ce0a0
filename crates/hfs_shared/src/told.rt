//! The published list as a caller gets it.
ghost use Rattle.std.specs.Prelude.{◌≡◌};
ghost use Rattle.hfs_shared.specs.Tolds.{ToldState, told};

use crate::front::Front;
use std::marker::Model;

/// A list that was published. Contracts see the list with its history's name, how many entries of the journal it covers, and
/// how many there were when it was made.
#[derive(Drop)]
pub struct Told {
    front: Front,
    shown: u64,
    made: u64,
}

impl Model for Told {
    ghost use Rattle.hfs_shared.specs.Tolds.{ToldState, told};

    ghost Value = { ToldState };

    ghost use Rattle.hfs_shared.specs.contracts.item.Item as item;
    ghost use Rattle.std.specs.Coded.{codes};

    ghost coded = { Prim.hlevel (codes, item.the_row.coded) };

    ghost view = { λ t. told t.front t.shown t.made };
}

impl Told {
    /// The list of a front, with both numbers.
    pub(crate) fn new(front: Front, shown: u64, made: u64) -> Told
        ensures { result ≡ told front shown made }
    {
        Told { front, shown, made }
    }

    /// How many entries of the journal the list covers. Takes no memory.
    pub fn shown(&self) -> u64
        ensures { result ≡ self.now.shown }
    {
        self.shown
    }

    /// How many entries the journal had when this value was made. Takes no memory.
    pub fn made(&self) -> u64
        ensures { result ≡ self.now.made }
    {
        self.made
    }

    /// The list.
    pub(crate) fn front(&self) -> &Front
        ensures { (result.now.book ≡ self.now.book) × (result.now.list ≡ self.now.list) }
    {
        &self.front
    }
}

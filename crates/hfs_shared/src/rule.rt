//! The rule of the pair of copies: what readers get is the rows of the published list, and each list that was seen is a
//! beginning of it.
use crate::front::Front;
use crate::published::{Change, Published};
use atomic_table::{Join, Split};
use crossbeam_utils::rule::{Outcome, Protocol};
use left_right::reader::Reader;
use left_right::writer::Writer;

/// What a seat has seen of the published list, if anything. No value of this type is made.
pub type View = Option<Front>;

/// The rule itself.
pub struct Shows;

impl Protocol<Published, View> for Shows {
    ghost use Rattle.std.specs.Prelude.{None};
    ghost use Rattle.hfs_shared.specs.Lists.{Keeps};

    ghost holds = { Keeps };

    ghost first = { None };
}

/// Entering, and publishing: after it, the seat has seen the published list.
pub struct Sees;

impl Outcome<Published, View> for Sees {
    ghost use Rattle.hfs_shared.specs.Lists.{Shown};

    ghost then = { Shown };
}

/// What the writer hands to a reader.
pub struct Tells;

impl Split<View> for Tells {
    ghost left = { λ v. v };

    ghost right = { λ v. v };
}

impl Join<View> for Tells {
    ghost use Rattle.std.specs.Prelude.{None};

    ghost both = { λ v w. w };

    ghost spent = { None };
}

pub type PairReader = Reader<Published, View, Shows>;

pub type PairWriter = Writer<Published, Change, View, Shows>;

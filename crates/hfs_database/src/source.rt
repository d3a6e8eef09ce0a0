//! The trait of sources.
ghost use Rattle.std.specs.Prelude.{◌≡◌, List, IfErr, IfOk, OnOk};
ghost use Rattle.hfs_database.specs.Taken.{TakenRow};

use crate::row_taker::RowTaker;

/// What has rows for a taker. Contracts see a source as the rows that it gives: how the list of a taker changes when it is given
/// all of them. Giving them may read the source, so they are stated by the source before and after.
pub trait RowSource {
    /// What is known of the rows once all are given.
    type Told: Copy;

    /// Why they were not all given.
    type Fault: Copy;

    ghost Gives: { Self → Self → List TakenRow → List TakenRow → Type 0 };

    /// How the list changes whether or not all are given.
    ghost Begins: { Self → Self → List TakenRow → List TakenRow → Type 0 };

    ghost Tells: { Self → Self → Self.Told → Type 0 };

    /// Which fault may be returned.
    ghost Fails: { Self → Self → Self.Fault → Type 0 };

    /// Gives a taker all rows, in order.
    fn give<T: RowTaker>(&mut self, taker: &mut T) -> Result<Self::Told, Self::Fault>
        ensures whole { OnOk result (Gives self.old self.new (T.given taker.old) (T.given taker.new)) }
        ensures part { Begins self.old self.new (T.given taker.old) (T.given taker.new) }
        ensures told { IfOk result (Tells self.old self.new) }
        ensures fault { IfErr result (Fails self.old self.new) }
        ensures reference { T.reference taker.new ≡ T.reference taker.old }
        ensures place { T.place taker.new ≡ T.place taker.old };
}

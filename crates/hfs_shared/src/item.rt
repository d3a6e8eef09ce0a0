//! The history of what is published, and its rule.
use hfs_model::Call;
use hfs_viewers::Rows;
use hfs_volume::Volume;
use logbook::{Gain, Opening, Plain, Play, Rule};

/// A member of a published list: the volume that opens it, or a change. Only contracts speak of lists of them; the code keeps
/// none.
pub enum Item {
    Opening(Rows),
    Change(Call),
}

/// The rule of the history: its word is the number of changes.
pub struct Law;

impl Rule<Item, u64> for Law {
    ghost use Rattle.std.specs.Prelude.{[]};
    ghost use base.Fml.{ftrue};
    ghost use Rattle.hfs_shared.specs.Histories.{IsKept};

    ghost holds = { λ cells log. IsKept cells log };

    ghost first = { [] };

    ghost hinted = { λ n log. Unit {0} };

    ghost shows = { λ log. [] };

    ghost keeps = { λ names log. ftrue };

    ghost moves = { λ ask before after answer. Unit {0} };
}

/// Callers trade nothing.
pub struct Nothing;

impl Gain<Item, u64> for Nothing {
    ghost use base.Fml.{ftrue};

    ghost after = { λ names about answer. ftrue };
}

/// A step that adds a change.
pub struct Add;

impl Play<Item, u64> for Add {
    ghost use Rattle.hfs_shared.specs.Histories.{Adds};

    ghost then = { Adds };
}

impl Plain<Call, Item, u64> for Add {
    ghost use Rattle.std.specs.Prelude.{None};
    ghost use Rattle.hfs_shared.specs.declared.item.Item.TheVariants.{Change};

    ghost ask = { λ call. Change call };

    ghost state = { λ call. None };
}

/// A history begins with only its opening.
pub struct Opens;

impl Opening<Volume, Item> for Opens {
    ghost use Rattle.hfs_shared.specs.Histories.{opened};
    ghost use Rattle.hfs_check.specs.VolumeOf.{volume_of};

    ghost log = { λ n volume. opened (volume_of volume.current) };
}

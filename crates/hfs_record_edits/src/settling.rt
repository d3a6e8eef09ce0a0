//! The last record of a fork.

ghost use Rattle.std.specs.Prelude.{◌≡◌, ◌+◌, ◌<◌, ◌≤◌, OnOk, length, take};
ghost use Rattle.hfs_btree_edits.specs.Edits.{Edits};
ghost use Rattle.hfs_space.specs.Extents.{fork_byte};
ghost use Rattle.hfs_space.specs.TreeKeys.{IsExtentsTree};
ghost use Rattle.hfs_record_edits.specs.Whole.{EditsFork, HasExtents, LastMayChange, HasSameRoom};

use crate::editing::set_record;
use crate::threes::{blocks_at, three_at};
use hfs_btree_edits::NodesMut;
use hfs_fields::Extent;
use hfs_space::ForkKind;
use std::alloc::{AllocError, Global};

/// Gives the last of a fork's `places` extents their current values: those in its last record, or, if it has none, those in its
/// own. `first` are the first three before that.
pub(crate) fn settle_last<S: NodesMut>(
    alloc: Global,
    nodes: &mut S,
    file: u32,
    fork: ForkKind,
    first: &[Extent; 3],
    extents: &[Extent],
    places: usize,
) -> Result<(), AllocError>
    requires tree { IsExtentsTree (S.nodes nodes.old) }
    requires some { 3 ≤ places }
    requires within { places ≤ length extents.now }
    requires last { LastMayChange file (fork_byte fork) first.now extents.now places
        (S.nodes nodes.old) }
    ensures edits { Edits result (EditsFork file (fork_byte fork)) S.nodes nodes.old nodes.new }
    ensures has { OnOk result (HasExtents file (fork_byte fork) (take 3 extents.now)
        (take places extents.now) (S.nodes nodes.new)) }
    ensures room { Edits result HasSameRoom S.nodes nodes.old nodes.new }
    ensures kept { OnOk result (S.kept nodes.new ≡ S.kept nodes.old) }
{
    if places == 3 {
        return Ok(());
    }
    let at = places - 3;
    let block = blocks_at(extents, 0, at);
    let three = three_at(extents, at);
    set_record(alloc, nodes, file, fork, block as u16, &three)?;
    Ok(())
}

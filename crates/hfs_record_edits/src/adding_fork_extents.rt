//! Adding records of a fork to the extents tree.

ghost use Rattle.std.specs.Prelude.{◌≡◌, ◌+◌, ◌*◌, ◌/◌, ◌^◌, ◌<◌, ◌≤◌, OnOk, length, take, drop};
ghost use Rattle.hfs_btree.specs.Header.{header_in};
ghost use Rattle.hfs_btree_edits.specs.Edits.{Edits};
ghost use Rattle.hfs_space.specs.Extents.{block_total, fork_byte};
ghost use Rattle.hfs_space.specs.TreeKeys.{IsExtentsTree};
ghost use Rattle.hfs_record_edits.specs.Need.{HasNodesFor};
ghost use Rattle.hfs_record_edits.specs.Threes.{AreThrees};
ghost use Rattle.hfs_record_edits.specs.Whole.{EditsFork, HasExtents};

use crate::editing::add_record;
use crate::threes::{blocks_at, three_at};
use hfs_btree_edits::NodesMut;
use hfs_fields::Extent;
use hfs_space::ForkKind;
use std::alloc::{AllocError, Global};

/// Puts the fork's extents from `places` on into new records, three into each; a record begins where the one before it ends.
pub(crate) fn add_records<S: NodesMut>(
    alloc: Global,
    nodes: &mut S,
    file: u32,
    fork: ForkKind,
    extents: &[Extent],
    places: usize,
) -> Result<(), AllocError>
    requires tree { IsExtentsTree (S.nodes nodes.old) }
    requires some { 3 ≤ places }
    requires within { places ≤ length extents.now }
    requires has { HasExtents file (fork_byte fork) (take 3 extents.now) (take places extents.now)
        (S.nodes nodes.old) }
    requires threes { AreThrees (drop places extents.now) }
    requires few { block_total extents.now ≤ 65535 }
    requires room { HasNodesFor (length (drop places extents.now) / 3) (S.nodes nodes.old) }
    requires small { 512 * (header_in (S.nodes nodes.old)).nodes < 2 ^ 32 }
    requires file { (header_in (S.nodes nodes.old)).nodes ≤ length (S.nodes nodes.old) }
    ensures edits { Edits result (EditsFork file (fork_byte fork)) S.nodes nodes.old nodes.new }
    ensures has { OnOk result (HasExtents file (fork_byte fork) (take 3 extents.now) extents.now
        (S.nodes nodes.new)) }
    ensures kept { OnOk result (S.kept nodes.new ≡ S.kept nodes.old) }
{
    let mut at = places;
    let mut block = blocks_at(extents, 0, places);
    while at < extents.len() {
        let three = three_at(extents, at);
        add_record(alloc, nodes, file, fork, block as u16, &three)?;
        block += blocks_at(extents, at, 3);
        at += 3;
    }
    Ok(())
}

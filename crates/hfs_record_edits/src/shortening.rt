//! Cutting a fork to its first blocks, with its records in the extents tree.

ghost use Rattle.std.specs.Prelude.{◌≡◌, ◌≤◌, IfOk, OnOk};
ghost use Rattle.hfs_space.specs.Extents.{AreExtentsWithin, block_total, fork_byte};
ghost use Rattle.hfs_space.specs.TreeKeys.{IsExtentsTree, extents_through};
ghost use Rattle.hfs_record_edits.specs.Whole.{IsWhole};
ghost use Rattle.hfs_record_edits.specs.Shortening.{HasShortened};

use crate::cuts::{cut_all, surplus};
use crate::records::cut_records;
use crate::settling::settle_last;
use crate::threes::{three_at, threes_left};
use hfs_btree_edits::NodesMut;
use hfs_fields::Extent;
use hfs_space::{ForkKind, fork_extents};
use std::alloc::{AllocError, Global};

/// What is left of a fork that lost its last blocks, and what it lost.
#[derive(Drop)]
pub struct ShortFork {
    /// The first three extents that it has now.
    pub first: [Extent; 3],
    /// The blocks that it lost, as extents.
    pub surplus: Vec<Extent>,
}

/// Cuts a fork, whose own record has the extents `first`, to its first `count` blocks. Each extent keeps its place; one that
/// loses its last block becomes 0, 0. Records without blocks are then removed from the extents tree.
///
/// The work is going through the fork's records, and a search and a removal for each one that is removed.
///
/// Errors: `AllocError` if memory was refused. Then nothing is known of the nodes, which must be thrown away.
///
/// Source: Inside Macintosh: Files, chapter 2, 'Extents overflow file'.
pub fn shorten_fork<S: NodesMut>(
    alloc: Global,
    nodes: &mut S,
    file: u32,
    fork: ForkKind,
    first: &[Extent; 3],
    count: u16,
) -> Result<ShortFork, AllocError>
    requires tree { IsExtentsTree (S.nodes nodes.old) }
    requires whole { IsWhole file (fork_byte fork) first.now (S.nodes nodes.old) }
    requires within { AreExtentsWithin 65535
        (extents_through (S.nodes nodes.old) file fork first.now) }
    requires few { block_total (extents_through (S.nodes nodes.old) file fork first.now) ≤ 65535 }
    ensures short { IfOk result (λ short. HasShortened file (fork_byte fork) first.now count short
        (S.nodes nodes.old) (S.nodes nodes.new)) }
    ensures kept { OnOk result (S.kept nodes.new ≡ S.kept nodes.old) }
{
    let mut extents = fork_extents(alloc, nodes, file, fork, first)?;
    let lost = surplus(alloc, &extents, u32::from(count))?;
    let places = 3 * threes_left(&extents, u32::from(count)) + 3;
    cut_records(alloc, nodes, file, fork, count)?;
    cut_all(&mut extents, u32::from(count));
    settle_last(alloc, nodes, file, fork, first, &extents, places)?;
    Ok(ShortFork {
        first: three_at(&extents, 0),
        surplus: lost,
    })
}

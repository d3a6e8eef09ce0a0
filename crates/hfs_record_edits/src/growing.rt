//! Adding blocks to a fork, with its records in the extents tree.

ghost use Rattle.std.specs.Prelude.{◌≡◌, ◌+◌, ◌*◌, ◌^◌, ◌<◌, ◌≤◌, IfNone, IfOk, IfErr, OnOk, MatchOption, length};
ghost use Rattle.std.specs.List.{All};
ghost use Rattle.hfs_btree.specs.Header.{header_in};
ghost use Rattle.hfs_space.specs.Extents.{AreExtentsWithin, fork_byte};
ghost use Rattle.hfs_space.specs.TreeKeys.{IsExtentsTree, extents_through};
ghost use Rattle.hfs_record_edits.specs.Need.{HasNodesFor};
ghost use Rattle.hfs_record_edits.specs.Whole.{IsWhole};
ghost use Rattle.hfs_record_edits.specs.Growing.{HasRoomFor, IsWantOfNodes, GivesGrown};

use crate::adding_fork_extents::add_records;
use crate::extents_need;
use crate::lengthening::lengthen;
use crate::settling::settle_last;
use crate::threes::three_at;
use hfs_btree::{Nodes, read_header};
use hfs_btree_edits::NodesMut;
use hfs_fields::Extent;
use hfs_space::{ForkKind, fork_extents};
use std::alloc::{AllocError, Global};

/// Too few free nodes in the extents tree.
#[derive(Clone, Copy, Debug, PartialEq, Eq)]
pub struct NodesWanted {
    /// How many nodes are free.
    pub free: u32,
    /// How many levels the tree has.
    pub depth: u16,
}

/// The free nodes and levels of an extents tree, if it has fewer free nodes than `coming` more records may need.
fn nodes_wanted<N: Nodes>(nodes: &N, coming: u32) -> Option<NodesWanted>
    requires { IsExtentsTree (N.nodes nodes.now) }
    ensures { MatchOption result (HasNodesFor coming (N.nodes nodes.now))
        (IsWantOfNodes coming (N.nodes nodes.now)) }
{
    let header = read_header(nodes);
    let need = extents_need(coming, header.depth, header.records);
    let free = u64::from(header.free_nodes);
    if free < need {
        return Some(NodesWanted {
            free: header.free_nodes,
            depth: header.depth,
        });
    }
    None
}

/// Adds blocks to a fork whose own record has the extents `first`, and returns the first three extents that it then has; the
/// others are in the extents tree. A piece that begins directly after the fork's last block lengthens its last extent. Any other
/// takes the next place, in a new record of three if all places are in use. The key of such a record has the number of the fork's
/// blocks before it.
///
/// Errors: `NodesWanted` exactly when the extents tree has fewer free nodes than the added records may need (`extents_need`);
/// nothing is written then. `AllocError` if memory was refused; then nothing is known of the nodes, which must be thrown away.
///
/// Source: Inside Macintosh: Files, chapter 2, 'Extents overflow file'.
pub fn lengthen_fork<S: NodesMut>(
    alloc: Global,
    nodes: &mut S,
    file: u32,
    fork: ForkKind,
    first: &[Extent; 3],
    pieces: &[Extent],
) -> Result<Result<[Extent; 3], NodesWanted>, AllocError>
    requires tree { IsExtentsTree (S.nodes nodes.old) }
    requires whole { IsWhole file (fork_byte fork) first.now (S.nodes nodes.old) }
    requires some { All (λ piece. 0 < piece.count) pieces.now }
    requires within { AreExtentsWithin 65535 pieces.now }
    requires few { HasRoomFor (extents_through (S.nodes nodes.old) file fork first.now) pieces.now }
    requires small { 512 * (header_in (S.nodes nodes.old)).nodes < 2 ^ 32 }
    requires file { (header_in (S.nodes nodes.old)).nodes ≤ length (S.nodes nodes.old) }
    ensures grown { IfOk result (GivesGrown file (fork_byte fork) first.now pieces.now
        (S.nodes nodes.old) (S.nodes nodes.new)) }
    ensures refused { IfOk result (λ answer. IfErr answer (λ _. nodes.new ≡ nodes.old)) }
    ensures kept { OnOk result (S.kept nodes.new ≡ S.kept nodes.old) }
{
    let mut extents = fork_extents(alloc, nodes, file, fork, first)?;
    let places = extents.len();
    lengthen(&mut extents, pieces)?;
    let coming = (extents.len() - places) / 3;
    if let Some(wanted) = nodes_wanted(nodes, coming as u32) {
        return Ok(Err(wanted));
    }
    settle_last(alloc, nodes, file, fork, first, &extents, places)?;
    add_records(alloc, nodes, file, fork, &extents, places)?;
    Ok(Ok(three_at(&extents, 0)))
}

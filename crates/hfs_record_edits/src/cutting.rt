//! Removing the records of a fork's end from the extents tree.

ghost use Rattle.std.specs.Prelude.{◌≡◌, OnOk};
ghost use Rattle.hfs_btree_edits.specs.Edits.{Edits};
ghost use Rattle.hfs_space.specs.TreeKeys.{IsExtentsTree, overflow_of};
ghost use Rattle.hfs_record_edits.specs.Cutting.{IsBefore, FindsRecordFrom, HasCutFork};

use hfs_btree::{Nodes, Walk};
use hfs_btree_edits::NodesMut;
use hfs_btree_removal::remove;
use hfs_fields::ExtKey;
use std::alloc::{AllocError, Global};

/// The key of the first record of the fork from this key on, if there is one. Takes no memory.
fn next_of_fork<N: Nodes>(nodes: &N, from: &ExtKey) -> Option<ExtKey>
    requires { IsExtentsTree (N.nodes nodes.now) }
    ensures { FindsRecordFrom from.now (overflow_of (N.nodes nodes.now)) result }
{
    let walk = Walk::from(nodes, from);
    match walk.pair() {
        Some(pair) if pair.key.file == from.file && pair.key.fork == from.fork => Some(pair.key),
        _ => None,
    }
}

/// Removes the fork's records from this key on from the extents tree: those with the key's fork and file whose block isn't before
/// the key's. Writes nothing if there are none. An empty tree has no levels, and its nodes are free.
///
/// The work is a search and a removal for each record that is removed, however many others there are.
///
/// Errors: `AllocError` if memory was refused. Then nothing is known of the nodes, which must be thrown away.
///
/// Source: Inside Macintosh: Files, chapter 2, 'Extents overflow file'.
pub fn cut_fork<S: NodesMut>(alloc: Global, nodes: &mut S, from: &ExtKey) -> Result<(), AllocError>
    requires { IsExtentsTree (S.nodes nodes.old) }
    ensures cut { Edits result (HasCutFork from.now) S.nodes nodes.old nodes.new }
    ensures none { IsBefore from.now (overflow_of (S.nodes nodes.old)) → nodes.new ≡ nodes.old }
    ensures kept { OnOk result (S.kept nodes.new ≡ S.kept nodes.old) }
{
    while let Some(key) = next_of_fork(nodes, from) {
        remove(alloc, nodes, &key)?;
    }
    Ok(())
}

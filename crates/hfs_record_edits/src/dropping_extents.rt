//! The records of the extents tree of a file that is deleted.

ghost use Rattle.std.specs.Prelude.{◌≡◌, OnOk};
ghost use Rattle.hfs_space.specs.TreeKeys.{IsExtentsTree, overflow_of};
ghost use Rattle.hfs_record_edits.specs.Overflows.{AreOfOthers, FindsKeyOf};
ghost use Rattle.hfs_btree_edits.specs.Edits.{Edits};
ghost use Rattle.hfs_record_edits.specs.Dropped.{HasDroppedOverflow};

use hfs_btree::{Nodes, Walk};
use hfs_btree_edits::NodesMut;
use hfs_btree_removal::remove;
use hfs_fields::ExtKey;
use std::alloc::{AllocError, Global};

/// The key of a file's first record in the extents tree, if it has one. Takes no memory.
fn first_of_file<N: Nodes>(nodes: &N, file: u32) -> Option<ExtKey>
    requires { IsExtentsTree (N.nodes nodes.now) }
    ensures { FindsKeyOf file (overflow_of (N.nodes nodes.now)) result }
{
    let least = ExtKey {
        fork: 0,
        file,
        block: 0,
    };
    let walk = Walk::from(nodes, &least);
    match walk.pair() {
        Some(pair) if pair.key.file == file => Some(pair.key),
        _ => None,
    }
}

/// Removes all records of a file from the extents tree, for both its forks. Writes nothing if it has none.
///
/// The work is a search and a removal for each of the file's own records, however many other files have.
///
/// Errors: `AllocError` if memory was refused. Then nothing is known of the nodes, which must be thrown away.
///
/// Source: Inside Macintosh: Files, chapter 2, 'Extents overflow file'.
pub fn drop_overflow<S: NodesMut>(alloc: Global, nodes: &mut S, file: u32) -> Result<(), AllocError>
    requires { IsExtentsTree (S.nodes nodes.old) }
    ensures dropped { Edits result (HasDroppedOverflow file) S.nodes nodes.old nodes.new }
    ensures none { AreOfOthers file (overflow_of (S.nodes nodes.old)) → nodes.new ≡ nodes.old }
    ensures kept { OnOk result (S.kept nodes.new ≡ S.kept nodes.old) }
{
    while let Some(key) = first_of_file(nodes, file) {
        remove(alloc, nodes, &key)?;
    }
    Ok(())
}

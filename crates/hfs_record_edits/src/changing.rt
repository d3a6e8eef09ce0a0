//! Changing a record of the extents tree in place.

ghost use Rattle.std.specs.Prelude.{◌≡◌, OnOk, length};
ghost use Rattle.hfs_fields.specs.Keys.{ext_cmp};
ghost use Rattle.hfs_btree.specs.Pairs.{lookup};
ghost use Rattle.hfs_btree_edits.specs.Conditions.{IsThere};
ghost use Rattle.hfs_btree_edits.specs.Edits.{Edits, HasReplaced};
ghost use Rattle.hfs_space.specs.TreeKeys.{ext_keys, IsExtentsTree, overflow_of};

use hfs_btree_edits::{NodesMut, replace};
use hfs_fields::ExtKey;
use std::alloc::{AllocError, Global};

/// Gives the record with this key another body. No node is added or removed, and one leaf is written.
///
/// Errors: `AllocError` if memory was refused. Then nothing is known of the nodes, which must be thrown away.
pub fn change<S: NodesMut>(
    alloc: Global,
    nodes: &mut S,
    key: &ExtKey,
    body: &[u8],
) -> Result<(), AllocError>
    requires tree { IsExtentsTree (S.nodes nodes.old) }
    requires long { length body.now ≡ 12 }
    requires there { IsThere (lookup ext_cmp key.now (overflow_of (S.nodes nodes.old))) }
    ensures changed { Edits result (HasReplaced ext_keys key.now body.now)
        S.nodes nodes.old nodes.new }
    ensures kept { OnOk result (S.kept nodes.new ≡ S.kept nodes.old) }
{
    replace(alloc, nodes, key, body)
}

//! Lowering index keys, so that a new key isn't below all keys of a node on its way.

ghost use Rattle.std.specs.Prelude.{◌≡◌, ◌<◌, true, [], OnOk, length, slice_index_or};
ghost use Rattle.hfs_btree.specs.Header.{tree_content};
ghost use Rattle.hfs_btree.specs.Sound.{IsSound};
ghost use Rattle.hfs_btree.specs.Tree.{records_in};
ghost use Rattle.hfs_btree_edits.specs.Edits.{Edits, IsAboveFirst};
ghost use Rattle.hfs_btree_insertion.specs.Lowering.{HasFirstKey, HasLowFirst, HasLowered};

use hfs_btree::{Key, child_in, child_of, entry_in, is_above, read_header};
use hfs_btree_edits::{NodesMut, store_replaced, viewed};
use std::alloc::{AllocError, Global};

/// Gives an index node's first record this key.
fn set_first<K: Key, S: NodesMut>(
    alloc: Global,
    nodes: &mut S,
    n: u32,
    key: &K,
) -> Result<(), AllocError>
    requires within { n < length (S.nodes nodes.old) }
    requires some { 0 < length (records_in (S.nodes nodes.old) n) }
    requires index { K.is_index (slice_index_or (records_in (S.nodes nodes.old) n) 0 []) ≡ true }
    ensures set { Edits result (HasFirstKey K.Key n key.now) S.nodes nodes.old nodes.new }
    ensures kept { OnOk result (S.kept nodes.new ≡ S.kept nodes.old) }
{
    let mut bytes = [0; 512];
    nodes.read(n, &mut bytes);
    let node = viewed(nodes, n, &bytes);
    let child = child_of::<K>(node.record(0));
    let made = key.index_record(alloc, child)?;
    store_replaced(nodes, n, &node, 0, made)
}

/// Gives an index node's first record this key if its own is above it. The node was read into `bytes`.
fn lower_first<K: Key, S: NodesMut>(
    alloc: Global,
    nodes: &mut S,
    n: u32,
    bytes: &[u8; 512],
    key: &K,
) -> Result<(), AllocError>
    requires read { bytes.now ≡ slice_index_or (S.nodes nodes.old) n [] }
    requires within { n < length (S.nodes nodes.old) }
    requires some { 0 < length (records_in (S.nodes nodes.old) n) }
    requires index { K.is_index (slice_index_or (records_in (S.nodes nodes.old) n) 0 []) ≡ true }
    ensures low { Edits result (HasLowFirst K.Key n key.now) S.nodes nodes.old nodes.new }
    ensures kept { OnOk result (S.kept nodes.new ≡ S.kept nodes.old) }
{
    let Some(first) = entry_in(bytes, 0) else {
        unreachable!()
    };
    if is_above(first, key) {
        set_first(alloc, nodes, n, key)
    } else {
        Ok(())
    }
}

/// Lowers the first key of each index node on the way to a key that is below all keys of that node. In an exact tree there is
/// none if the key is above the least.
pub(crate) fn lower_keys<K: Key, S: NodesMut>(
    alloc: Global,
    nodes: &mut S,
    key: &K,
) -> Result<(), AllocError>
    requires sound { IsSound K.Key (S.nodes nodes.old) }
    requires above { IsAboveFirst K.compare key.now (tree_content K.Key (S.nodes nodes.old)) }
    ensures lowered { Edits result (HasLowered K.Key key.now 0) S.nodes nodes.old nodes.new }
    ensures kept { OnOk result (S.kept nodes.new ≡ S.kept nodes.old) }
{
    let header = read_header(nodes);
    let mut bytes = [0; 512];
    let mut n = header.root;
    let mut here = header.depth.saturating_sub(1);
    while here > 0 {
        nodes.read(n, &mut bytes);
        let next = child_in(&bytes, key);
        lower_first(alloc, nodes, n, &bytes, key)?;
        n = next;
        here -= 1;
    }
    Ok(())
}

//! The left edge of a tree: the first node of each level, where the least pair comes first.

ghost use Rattle.std.specs.Prelude.{◌≡◌, ◌<◌, true, [], IsTrue, IfOk, OnOk, length, slice_index_or};
ghost use Rattle.hfs_btree.specs.Header.{header_in, depth_of, tree_content};
ghost use Rattle.hfs_btree.specs.Sound.{IsSound};
ghost use Rattle.hfs_btree.specs.Tree.{records_in};
ghost use Rattle.hfs_btree_edits.specs.Edits.{Edits};
ghost use Rattle.hfs_record_edits.specs.Edge.{edge, HasSetFirst, HasSetEdge, HasLowerLeast, IsBelowAll, AreOfOneLength};

use hfs_btree::{Header, Key, child_of};
use hfs_btree_edits::{NodesMut, store_replaced, viewed};
use std::alloc::{AllocError, Global};

/// Gives the first record of an index node this key, and returns the child that the record names.
fn set_first<K: Key, S: NodesMut>(
    alloc: Global,
    nodes: &mut S,
    n: u32,
    key: &K,
) -> Result<u32, AllocError>
    requires within { n < length (S.nodes nodes.old) }
    requires some { 0 < length (records_in (S.nodes nodes.old) n) }
    requires index { K.is_index (slice_index_or (records_in (S.nodes nodes.old) n) 0 []) ≡ true }
    ensures set { IfOk result (HasSetFirst K.Key n key.now (S.nodes nodes.old) (S.nodes nodes.new)) }
    ensures kept { OnOk result (S.kept nodes.new ≡ S.kept nodes.old) }
{
    let mut bytes = [0; 512];
    nodes.read(n, &mut bytes);
    let node = viewed(nodes, n, &bytes);
    let child = child_of::<K>(node.record(0));
    let made = key.index_record(alloc, child)?;
    store_replaced(nodes, n, &node, 0, made)?;
    Ok(child)
}

/// Gives the first record of each index node of the left edge this key, and returns the first leaf.
fn set_edge<K: Key, S: NodesMut>(
    alloc: Global,
    nodes: &mut S,
    header: &Header,
    key: &K,
) -> Result<u32, AllocError>
    requires sound { IsSound K.Key (S.nodes nodes.old) }
    requires header { header.now ≡ header_in (S.nodes nodes.old) }
    requires some { 0 < depth_of (S.nodes nodes.old) }
    ensures leaf { IfOk result (λ n. n ≡ edge K.Key (S.nodes nodes.old) 0) }
    ensures set { Edits result (HasSetEdge K.Key key.now 0) S.nodes nodes.old nodes.new }
    ensures kept { OnOk result (S.kept nodes.new ≡ S.kept nodes.old) }
{
    let mut n = header.root;
    let mut here = header.depth - 1;
    while here > 0 {
        n = set_first(alloc, nodes, n, key)?;
        here -= 1;
    }
    Ok(n)
}

/// Puts the pair, whose key is below all others, in place of the least one. Its key becomes the first index key in each node of
/// the left edge. Takes no node.
pub(crate) fn put_least<K: Key, S: NodesMut>(
    alloc: Global,
    nodes: &mut S,
    header: &Header,
    key: &K,
    body: &[u8],
) -> Result<(), AllocError>
    requires sound { IsSound K.Key (S.nodes nodes.old) }
    requires header { header.now ≡ header_in (S.nodes nodes.old) }
    requires some { 0 < depth_of (S.nodes nodes.old) }
    requires allowed { IsTrue (K.is_body_len (length body.now)) }
    requires below { IsBelowAll K.compare key.now (tree_content K.Key (S.nodes nodes.old)) }
    requires even { AreOfOneLength K.is_leaf }
    ensures lower { Edits result (HasLowerLeast K.Key key.now body.now)
        S.nodes nodes.old nodes.new }
    ensures kept { OnOk result (S.kept nodes.new ≡ S.kept nodes.old) }
{
    let n = set_edge(alloc, nodes, header, key)?;
    let mut bytes = [0; 512];
    nodes.read(n, &mut bytes);
    let leaf = viewed(nodes, n, &bytes);
    let made = key.leaf_record(alloc, body)?;
    store_replaced(nodes, n, &leaf, 0, made)
}

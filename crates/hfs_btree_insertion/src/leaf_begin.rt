//! A record that begins a new leaf.

ghost use Rattle.std.specs.Prelude.{◌≡◌, ◌+◌, ◌^◌, ◌<◌, ◌≤◌, true, None, IsTrue, OnOk, length};
ghost use Rattle.hfs_btree.specs.Node.{node_of, size_of};
ghost use Rattle.hfs_fields.specs.Each.{Each};
ghost use Rattle.hfs_btree.specs.Header.{header_in, depth_of, free_nodes, tree_content};
ghost use Rattle.hfs_btree.specs.Pairs.{IsAbove, lookup};
ghost use Rattle.hfs_btree.specs.Sound.{IsSound, IsStray};
ghost use Rattle.hfs_btree.specs.Tree.{records_of, pairs_of};
ghost use Rattle.hfs_btree_edits.specs.Edits.{Edits};
ghost use Rattle.hfs_btree_insertion.specs.Begun.{IsAboveLeaf, IsBehindLeaf, HasBegunAt, HasEntryBegun};
ghost use Rattle.hfs_btree_insertion.specs.Cut.{IsBranch};
ghost use Rattle.hfs_btree_insertion.specs.Growth.{HasRoom, HasRoomOnWay, IsLow};

use crate::cut_place::child_named;
use crate::halving::put_behind;
use crate::leaf_put::{count_record, put_record};
use crate::way::{node_at, size_in};
use hfs_btree::{Key, Nodes, count_in, descend, forward_in, place_in, place_in_index, read_header};
use hfs_btree_edits::{NodesMut, claim_node};
use std::alloc::{AllocError, Global};

/// Whether a leaf is the last, has no room for a record of `len` bytes, and has only keys below this one.
pub(crate) fn is_below<K: Key>(bytes: &[u8; 512], key: &K, len: usize) -> bool
    requires leaf { Each (λ e. K.is_leaf e ≡ true) (records_of (node_of bytes.now)) }
    requires short { len ≤ 140 }
    ensures above { result ≡ true → IsAbove K.compare key.now (pairs_of K.Key bytes.now) }
    ensures full { result ≡ true → 496 < size_of (records_of (node_of bytes.now)) + (len + 2) }
{
    if forward_in(bytes) != 0 {
        return false;
    }
    if size_in(bytes) + len + 2 <= 496 {
        return false;
    }
    if place_in(bytes, key) < count_in(bytes) {
        return false;
    }
    true
}

/// Whether a record of `len` bytes with this key comes after all others, and the last leaf has no room for it.
pub(crate) fn comes_last<K: Key, N: Nodes>(nodes: &N, key: &K, len: usize) -> bool
    requires sound { IsSound K.Key (N.nodes nodes.now) }
    requires some { 0 < depth_of (N.nodes nodes.now) }
    requires short { len ≤ 140 }
    ensures { result ≡ true → IsBehindLeaf K.Key (N.nodes nodes.now) key.now len }
{
    let header = read_header(nodes);
    let mut bytes = [0; 512];
    descend(nodes, &header, key, &mut bytes);
    is_below(&bytes, key, len)
}

/// Puts a record into leaf `m`, a stray node, which is then after the leaf that a record of index node `parent` names. A new
/// record after that one names `m`.
fn begin_child<K: Key, S: NodesMut>(
    alloc: Global,
    nodes: &mut S,
    key: &K,
    entry: Vec<u8>,
    parent: u32,
    place: usize,
    m: u32,
) -> Result<(), AllocError>
    requires sound { IsSound K.Key (S.nodes nodes.old) }
    requires branch { IsBranch K.Key (S.nodes nodes.old) 0 parent place }
    requires stray { IsStray K.Key (S.nodes nodes.old) m }
    requires within { m < length (S.nodes nodes.old) }
    requires room { HasRoom (S.nodes nodes.old) (K.INDEX_KEY_LEN + 5) parent }
    requires leaf { IsTrue (K.is_leaf entry.items) }
    requires few { (header_in (S.nodes nodes.old)).records + 1 < 2 ^ 32 }
    ensures begun { Edits result (HasBegunAt K.Key key.now entry.items parent place m)
        S.nodes nodes.old nodes.new }
    ensures kept { OnOk result (S.kept nodes.new ≡ S.kept nodes.old) }
{
    let n = child_named::<K, S>(nodes, parent, place);
    let above = key.index_record(alloc, m)?;
    put_record(nodes, parent, place + 1, above)?;
    put_behind(alloc, nodes, n, m, entry)?;
    count_record(alloc, nodes)
}

/// Puts a record into a new leaf, after the one where the search for its key ends, all of whose keys are below it. The node above
/// has room for an index record. Takes one free node.
pub(crate) fn begin_leaf<K: Key, S: NodesMut>(
    alloc: Global,
    nodes: &mut S,
    key: &K,
    entry: Vec<u8>,
) -> Result<(), AllocError>
    requires sound { IsSound K.Key (S.nodes nodes.old) }
    requires low { IsLow K.Key (S.nodes nodes.old) key.now }
    requires deep { 1 < depth_of (S.nodes nodes.old) }
    requires behind { IsAboveLeaf K.Key (S.nodes nodes.old) key.now }
    requires room { HasRoomOnWay K.Key (S.nodes nodes.old) key.now 1 }
    requires free { 0 < free_nodes (S.nodes nodes.old) }
    requires file { (header_in (S.nodes nodes.old)).nodes ≤ length (S.nodes nodes.old) }
    requires few { (header_in (S.nodes nodes.old)).records + 1 < 2 ^ 32 }
    requires leaf { IsTrue (K.is_leaf entry.items) }
    requires keyed { K.leaf_key entry.items ≡ key.now }
    requires absent { lookup K.compare key.now (tree_content K.Key (S.nodes nodes.old)) ≡ None }
    ensures begun { Edits result (HasEntryBegun K.Key key.now entry.items) S.nodes nodes.old nodes.new }
    ensures kept { OnOk result (S.kept nodes.new ≡ S.kept nodes.old) }
{
    let m = claim_node::<K, S>(alloc, nodes)?;
    let header = read_header(nodes);
    let mut bytes = [0; 512];
    let parent = node_at(nodes, &header, key, 1, &mut bytes);
    let place = place_in_index(&bytes, key);
    begin_child(alloc, nodes, key, entry, parent, place, m)
}

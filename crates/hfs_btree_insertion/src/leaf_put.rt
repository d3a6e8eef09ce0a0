//! Putting a record into a leaf with room for it.

ghost use Rattle.std.specs.Prelude.{◌≡◌, ◌+◌, ◌^◌, ◌<◌, ◌≤◌, None, IsTrue, OnOk, [], length, slice_index_or};
ghost use Rattle.hfs_btree.specs.Node.{size_of};
ghost use Rattle.hfs_btree.specs.Header.{header_in, record_in, depth_of, tree_content};
ghost use Rattle.hfs_btree.specs.Pairs.{lookup};
ghost use Rattle.hfs_btree.specs.Search.{leaf_for};
ghost use Rattle.hfs_btree.specs.Sound.{IsSound};
ghost use Rattle.hfs_btree_edits.specs.Edits.{Edits};
ghost use Rattle.hfs_btree_edits.specs.Stored.{Decodes};
ghost use Rattle.hfs_btree_insertion.specs.Stored.{HasRecordPut, CountsOneMore, HasEntryPut};
ghost use Rattle.hfs_btree_insertion.specs.Growth.{HasLeafRoom, IsRootLow};
ghost use Rattle.hfs_btree.specs.Tree.{records_in};

use hfs_btree::{Key, descend, place_in, read_header};
use hfs_btree_edits::{NodesMut, put_header, store_inserted, viewed};
use std::alloc::{AllocError, Global};

/// Puts a record into node `n`, which was read into `bytes`, in front of the one at a place.
fn put_in_read<S: NodesMut>(
    nodes: &mut S,
    n: u32,
    bytes: &[u8; 512],
    place: usize,
    entry: Vec<u8>,
) -> Result<(), AllocError>
    requires node { Decodes (S.nodes nodes.old) n }
    requires read { bytes.now ≡ slice_index_or (S.nodes nodes.old) n [] }
    requires place { place ≤ length (records_in (S.nodes nodes.old) n) }
    requires room { size_of (records_in (S.nodes nodes.old) n) + (length entry.items + 2) ≤ 496 }
    ensures put { Edits result (HasRecordPut n place entry.items) S.nodes nodes.old nodes.new }
    ensures kept { OnOk result (S.kept nodes.new ≡ S.kept nodes.old) }
{
    let node = viewed(nodes, n, bytes);
    store_inserted(nodes, n, &node, place, entry)
}

/// Puts a record into node `n`, in front of the one at a place.
pub(crate) fn put_record<S: NodesMut>(
    nodes: &mut S,
    n: u32,
    place: usize,
    entry: Vec<u8>,
) -> Result<(), AllocError>
    requires node { Decodes (S.nodes nodes.old) n }
    requires place { place ≤ length (records_in (S.nodes nodes.old) n) }
    requires room { size_of (records_in (S.nodes nodes.old) n) + (length entry.items + 2) ≤ 496 }
    ensures put { Edits result (HasRecordPut n place entry.items) S.nodes nodes.old nodes.new }
    ensures kept { OnOk result (S.kept nodes.new ≡ S.kept nodes.old) }
{
    let mut bytes = [0; 512];
    nodes.read(n, &mut bytes);
    put_in_read(nodes, n, &bytes, place, entry)
}

/// Counts one more record in the header record.
pub(crate) fn count_record<S: NodesMut>(alloc: Global, nodes: &mut S) -> Result<(), AllocError>
    requires within { 0 < length (S.nodes nodes.old) }
    requires long { 30 ≤ length (record_in (S.nodes nodes.old) 0 0) }
    requires few { (header_in (S.nodes nodes.old)).records + 1 < 2 ^ 32 }
    ensures counted { Edits result CountsOneMore S.nodes nodes.old nodes.new }
    ensures kept { OnOk result (S.kept nodes.new ≡ S.kept nodes.old) }
{
    let mut header = read_header(nodes);
    header.records += 1;
    put_header(alloc, nodes, &header)
}

/// Puts a leaf's record into leaf `n`, where the search for its key ends, and which has room for it. The leaf was read into
/// `bytes`.
pub(crate) fn put_in_leaf<K: Key, S: NodesMut>(
    alloc: Global,
    nodes: &mut S,
    key: &K,
    n: u32,
    bytes: &[u8; 512],
    entry: Vec<u8>,
) -> Result<(), AllocError>
    requires sound { IsSound K.Key (S.nodes nodes.old) }
    requires some { 0 < depth_of (S.nodes nodes.old) }
    requires few { (header_in (S.nodes nodes.old)).records + 1 < 2 ^ 32 }
    requires leaf { IsTrue (K.is_leaf entry.items) }
    requires keyed { K.leaf_key entry.items ≡ key.now }
    requires absent { lookup K.compare key.now (tree_content K.Key (S.nodes nodes.old)) ≡ None }
    requires low { IsRootLow K.Key (S.nodes nodes.old) key.now }
    requires found { n ≡ leaf_for K.Key (S.nodes nodes.old) key.now }
    requires read { bytes.now ≡ slice_index_or (S.nodes nodes.old) n [] }
    requires room { size_of (records_in (S.nodes nodes.old) n) + (length entry.items + 2) ≤ 496 }
    ensures put { Edits result (HasEntryPut K.Key key.now entry.items) S.nodes nodes.old nodes.new }
    ensures kept { OnOk result (S.kept nodes.new ≡ S.kept nodes.old) }
{
    let place = place_in(bytes, key);
    put_in_read(nodes, n, bytes, place, entry)?;
    count_record(alloc, nodes)
}

/// Puts a leaf's record into the leaf where the search for its key ends, which has room for it.
pub(crate) fn put_entry<K: Key, S: NodesMut>(
    alloc: Global,
    nodes: &mut S,
    key: &K,
    entry: Vec<u8>,
) -> Result<(), AllocError>
    requires sound { IsSound K.Key (S.nodes nodes.old) }
    requires some { 0 < depth_of (S.nodes nodes.old) }
    requires few { (header_in (S.nodes nodes.old)).records + 1 < 2 ^ 32 }
    requires leaf { IsTrue (K.is_leaf entry.items) }
    requires keyed { K.leaf_key entry.items ≡ key.now }
    requires absent { lookup K.compare key.now (tree_content K.Key (S.nodes nodes.old)) ≡ None }
    requires low { IsRootLow K.Key (S.nodes nodes.old) key.now }
    requires room { HasLeafRoom K.Key (S.nodes nodes.old) key.now (length entry.items) }
    ensures put { Edits result (HasEntryPut K.Key key.now entry.items) S.nodes nodes.old nodes.new }
    ensures kept { OnOk result (S.kept nodes.new ≡ S.kept nodes.old) }
{
    let header = read_header(nodes);
    let mut bytes = [0; 512];
    let n = descend(nodes, &header, key, &mut bytes);
    put_in_leaf(alloc, nodes, key, n, &bytes, entry)
}

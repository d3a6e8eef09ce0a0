//! Where a node is cut, and the index record that names its second part.

ghost use Rattle.std.specs.Prelude.{◌≡◌, ℕ, ◌+◌, ◌*◌, ◌<◌, ◌≤◌, true, false, All, IfOk, List, [], length, take, drop, slice_index_or};
ghost use Rattle.hfs_btree.specs.Node.{Fits, node_of, size_of};
ghost use Rattle.hfs_fields.specs.Each.{Each};
ghost use Rattle.hfs_btree.specs.Header.{record_in};
ghost use Rattle.hfs_btree.specs.Tree.{records_in, records_of, reads_at};
ghost use Rattle.hfs_btree_insertion.specs.Cut.{LeaveRoom, IsRoomyCut, child_at};
ghost use Rattle.hfs_btree_insertion.specs.Halves.{NamesHalf, IsPlaceBehind};

use crate::record_key::key_at;
use crate::way::size_in;
use hfs_btree::{Key, NodeView, Nodes, child_of, place_above, place_in, view};
use std::alloc::{AllocError, Global};

/// The number of bytes if they count, otherwise 0.
fn bytes_if(counts: bool, bytes: usize) -> usize
    ensures { result ≤ bytes }
{
    if counts { bytes } else { 0 }
}

/// Whether a node with `size` bytes of records, to which one of `len` bytes is added, is cut after the first `before` of them. It
/// is if the rest leaves room for the new record, and a cut after the next one, of `here` bytes, would leave none, or parts that
/// differ more. `come` is what the new record adds to the first part in both cuts. If the parts differ as much in both, the cut
/// is after the next record if the new one comes after that.
fn is_middle(before: usize, here: usize, come: usize, size: usize, len: usize) -> bool
    requires before { before ≤ size }
    requires here { here ≤ 142 }
    requires come { come ≤ 284 }
    requires over { 354 < size }
    requires fits { size ≤ 496 }
    requires len { len ≤ 140 }
    ensures some { result ≡ true → 0 < before }
    ensures room { result ≡ true → size + (len + 2) ≤ 496 + before }
    ensures few { result ≡ false → before + here + (len + 2) ≤ 496 }
    ensures even { result ≡ false → 2 * (before + here) ≤ size + (len + 144) }
{
    let all = size + len + 2;
    if before == 0 {
        return false;
    }
    if all > 496 + before {
        return false;
    }
    if before + here + len + 2 > 496 {
        return true;
    }
    if 2 * before + here + come < all + bytes_if(come == 0, 1) {
        return false;
    }
    true
}

/// The place where the records of a node, of `size` bytes, are cut when one of `len` bytes is added in front of record `at`: as
/// near to the middle as possible while each part still has room for the new one.
#[tactic(auto, using(hfs_btree::proofs::SizeLemmas::sizes))]
fn half_place(node: &NodeView<'_>, size: usize, at: usize, len: usize) -> usize
    requires size { size ≡ size_of node.now.records }
    requires over { 354 < size }
    requires fits { Fits node.now }
    requires short { All (λ r. length r ≤ 140) node.now.records }
    requires len { len ≤ 140 }
    ensures some { 0 < result }
    ensures within { result < length node.now.records }
    ensures first { LeaveRoom (take result node.now.records) len }
    ensures second { LeaveRoom (drop result node.now.records) len }
{
    let mut before = 0;
    for i in 0..node.len() {
        let here = node.record(i).len() + 2;
        let come = bytes_if(at <= i, len + 2) + bytes_if(at <= i + 1, len + 2);
        if is_middle(before, here, come, size, len) {
            return i;
        }
        before += here;
    }
    unreachable!()
}

/// The same, except that the last record of the level's last node goes to the new node alone if the new one comes after it; so
/// nodes are full where keys rise.
fn part_place(node: &NodeView<'_>, size: usize, at: usize, len: usize) -> usize
    requires size { size ≡ size_of node.now.records }
    requires over { 354 < size }
    requires fits { Fits node.now }
    requires short { All (λ r. length r ≤ 140) node.now.records }
    requires len { len ≤ 140 }
    ensures some { 0 < result }
    ensures within { result < length node.now.records }
    ensures first { at ≤ result → LeaveRoom (take result node.now.records) len }
    ensures second { LeaveRoom (drop result node.now.records) len }
{
    if at == node.len() && at > 1 && node.forward() == 0 {
        at - 1
    } else {
        half_place(node, size, at, len)
    }
}

/// The place in a node, `above` levels above the leaves, in front of which a record with this key goes.
fn new_place<K: Key>(bytes: &[u8; 512], key: &K, above: u16) -> usize
    requires { Each (λ e. reads_at K.Key above e ≡ true) (records_of (node_of bytes.now)) }
    ensures { IsPlaceBehind K.Key key.now above (records_of (node_of bytes.now)) result }
{
    if above == 0 {
        return place_in(bytes, key);
    }
    match view(bytes) {
        Ok(node) => place_above(&node, key),
        Err(_) => 0,
    }
}

/// The place where node `n` is cut, which has more than 354 bytes of records and is `above` levels above the leaves, when a
/// record of `len` bytes is added on the way to a key.
pub(crate) fn cut_place<K: Key, N: Nodes>(
    nodes: &N,
    n: u32,
    key: &K,
    above: u16,
    len: usize,
) -> usize
    requires within { n < length (N.nodes nodes.now) }
    requires reads { Each (λ e. reads_at K.Key above e ≡ true) (records_in (N.nodes nodes.now) n) }
    requires over { 354 < size_of (records_in (N.nodes nodes.now) n) }
    requires short { All (λ r. length r ≤ 140) (records_in (N.nodes nodes.now) n) }
    requires len { len ≤ 140 }
    ensures some { 0 < result }
    ensures less { result < length (records_in (N.nodes nodes.now) n) }
    ensures room { IsRoomyCut K.Key (N.nodes nodes.now) key.now above n result len }
{
    let mut bytes = [0; 512];
    nodes.read(n, &mut bytes);
    let at = new_place(&bytes, key, above);
    let size = size_in(&bytes);
    match view(&bytes) {
        Ok(node) => part_place(&node, size, at, len),
        Err(_) => unreachable!(),
    }
}

/// An index record that names node `m`, with the key of a record of node `n`, which is `above` levels above the leaves.
pub(crate) fn half_entry<K: Key, N: Nodes>(
    alloc: Global,
    nodes: &N,
    n: u32,
    place: usize,
    above: u16,
    m: u32,
) -> Result<Vec<u8>, AllocError>
    requires within { n < length (N.nodes nodes.now) }
    requires place { place < length (records_in (N.nodes nodes.now) n) }
    requires reads { reads_at K.Key above (record_in (N.nodes nodes.now) n place) ≡ true }
    ensures { IfOk result (λ made. NamesHalf K.Key (N.nodes nodes.now) n place above m made.items) }
{
    let mut bytes = [0; 512];
    nodes.read(n, &mut bytes);
    match view(&bytes) {
        Ok(node) => {
            let key: K = key_at(node.record(place), above);
            let entry = key.index_record(alloc, m)?;
            Ok(entry)
        }
        Err(_) => unreachable!(),
    }
}

/// The child that a record of index node `n` names.
pub(crate) fn child_named<K: Key, N: Nodes>(nodes: &N, n: u32, place: usize) -> u32
    requires within { n < length (N.nodes nodes.now) }
    requires place { place < length (records_in (N.nodes nodes.now) n) }
    requires reads { K.is_index (record_in (N.nodes nodes.now) n place) ≡ true }
    ensures { result ≡ child_at K.Key (N.nodes nodes.now) n place }
{
    let mut bytes = [0; 512];
    nodes.read(n, &mut bytes);
    match view(&bytes) {
        Ok(node) => child_of::<K>(node.record(place)),
        Err(_) => unreachable!(),
    }
}

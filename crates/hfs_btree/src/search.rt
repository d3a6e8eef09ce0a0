//! Looking up keys.

ghost use Rattle.std.specs.Prelude.{◌≡◌, ℕ, ◌<◌, ◌≤◌, true, List, [], Ok, IfOk, IfSome, length, map, option_map, slice_index_or};
ghost use Rattle.std.specs.List.{prefix_len};
ghost use Rattle.hfs_btree.specs.Node.{node_of};
ghost use Rattle.hfs_fields.specs.Each.{Each};
ghost use Rattle.hfs_btree.specs.Tree.{records_of, pair_of};
ghost use Rattle.hfs_btree.specs.Header.{header_in, record_in, depth_of, tree_content, IsBodyUnder, IsNextAfter};
ghost use Rattle.hfs_btree.specs.LeafPairs.{leaf_body, leaf_after, leaf_first};
ghost use Rattle.hfs_btree.specs.Search.{is_not_above, branch_place, child_for, leaf_for};
ghost use Rattle.hfs_btree.specs.Sound.{IsSound};

use crate::entry::{body_of, child_of, is_above, key_of};
use crate::header::Header;
use crate::index_search::child_by_halves;
use crate::key::Key;
use crate::leaf::forward_in;
use crate::nodes::Nodes;
use crate::{NodeView, view};
use std::alloc::{AllocError, Global};

/// The header record of a tree whose node 0 has one.
pub fn read_header<N: Nodes>(nodes: &N) -> Header
    requires { 30 ≤ length (record_in (N.nodes nodes.now) 0 0) }
    ensures { result ≡ header_in (N.nodes nodes.now) }
{
    let mut bytes = [0; 512];
    nodes.read(0, &mut bytes);
    match view(&bytes) {
        Ok(node) => Header::read(node.record(0)),
        Err(_) => unreachable!(),
    }
}

/// The place of an index node's first record whose key is above this one, or after the last, whatever the order of its keys.
pub fn place_above<K: Key>(node: &NodeView<'_>, key: &K) -> usize
    requires { Each (λ entry. K.is_index entry ≡ true) node.now.records }
    ensures { result ≡ prefix_len (is_not_above K.Key key.now) node.now.records }
{
    for i in 0..node.len() {
        let above = is_above(node.record(i), key);
        if above {
            return i;
        }
    }
    node.len()
}

/// The place of the index record whose child is where the search for a key goes on.
pub fn place_in_index<K: Key>(bytes: &[u8; 512], key: &K) -> usize
    requires { Each (λ entry. K.is_index entry ≡ true) (records_of (node_of bytes.now)) }
    ensures { result ≡ branch_place K.Key key.now bytes.now }
{
    match view(bytes) {
        Ok(node) => place_above(&node, key).saturating_sub(1),
        Err(_) => 0,
    }
}

/// The child where the search for a key goes on.
pub fn child_in<K: Key>(bytes: &[u8; 512], key: &K) -> u32
    requires some { 0 < length (records_of (node_of bytes.now)) }
    requires whole { Each (λ entry. K.is_index entry ≡ true) (records_of (node_of bytes.now)) }
    ensures { result ≡ child_for K.Key key.now (records_of (node_of bytes.now)) }
{
    match view(bytes) {
        Ok(node) => {
            let place = place_above(&node, key);
            child_of::<K>(node.record(place.saturating_sub(1)))
        }
        Err(_) => unreachable!(),
    }
}

/// The leaf where the search for a key ends, with its bytes.
pub fn descend<K: Key, N: Nodes>(nodes: &N, header: &Header, key: &K, bytes: &mut [u8; 512]) -> u32
    requires sound { IsSound K.Key (N.nodes nodes.now) }
    requires header { header.now ≡ header_in (N.nodes nodes.now) }
    requires some { 0 < depth_of (N.nodes nodes.now) }
    ensures leaf { result ≡ leaf_for K.Key (N.nodes nodes.now) key.now }
    ensures bytes { bytes.new ≡ slice_index_or (N.nodes nodes.now) result [] }
{
    let mut n = header.root;
    let mut below = header.depth - 1;
    nodes.read(n, bytes);
    while below > 0 {
        n = child_by_halves(bytes, key);
        below -= 1;
        nodes.read(n, bytes);
    }
    n
}

/// The body of the record with this key, in a leaf.
pub(crate) fn body_in<'a, K: Key>(bytes: &'a [u8; 512], key: &K) -> Option<&'a [u8]>
    requires { Each (λ entry. K.is_leaf entry ≡ true) (records_of (node_of bytes.now)) }
    ensures { option_map (λ body. body.now) result ≡ leaf_body K.Key bytes.now key.now }
{
    let Ok(node) = view(bytes) else {
        return None;
    };
    for i in 0..node.len() {
        let entry = node.record(i);
        let order = key.compare_leaf(entry);
        if order.is_eq() {
            return Some(body_of::<K>(entry));
        }
    }
    None
}

/// The body under the key, or None if the tree has no key that is equal to it in the order.
///
/// Reads the header node and one node of each level, and takes memory only for the body.
pub fn find<K: Key, N: Nodes>(
    alloc: Global,
    nodes: &N,
    key: &K,
) -> Result<Option<Vec<u8>>, AllocError>
    requires { IsSound K.Key (N.nodes nodes.now) }
    ensures { IfOk result (IsBodyUnder K.Key (N.nodes nodes.now) key.now) }
{
    let header = read_header(nodes);
    if header.depth == 0 {
        return Ok(None);
    }
    let mut bytes = [0; 512];
    descend(nodes, &header, key, &mut bytes);
    match body_in(&bytes, key) {
        Some(body) => Ok(Some(Vec::from_slice(alloc, body)?)),
        None => Ok(None),
    }
}

/// The first record of a leaf whose key is above this one.
fn after_in<'a, K: Key>(bytes: &'a [u8; 512], key: &K) -> Option<&'a [u8]>
    requires { Each (λ entry. K.is_leaf entry ≡ true) (records_of (node_of bytes.now)) }
    ensures first { option_map (λ e. pair_of K.Key e.now) result
        ≡ leaf_after K.Key bytes.now key.now }
    ensures leaf { IfSome result (λ entry. K.is_leaf entry.now ≡ true) }
{
    let Ok(node) = view(bytes) else {
        return None;
    };
    for i in 0..node.len() {
        let entry = node.record(i);
        let order = key.compare_leaf(entry);
        if order.is_lt() {
            return Some(entry);
        }
    }
    None
}

/// The first record of a leaf.
fn first_in<K: Key>(bytes: &[u8; 512]) -> Option<&[u8]>
    requires { Each (λ entry. K.is_leaf entry ≡ true) (records_of (node_of bytes.now)) }
    ensures first { option_map (λ e. pair_of K.Key e.now) result ≡ leaf_first K.Key bytes.now }
    ensures leaf { IfSome result (λ entry. K.is_leaf entry.now ≡ true) }
{
    let Ok(node) = view(bytes) else {
        return None;
    };
    if node.is_empty() {
        return None;
    }
    Some(node.record(0))
}

/// The key of a leaf's record, and a copy of its body.
fn pair_in<K: Key>(alloc: Global, entry: &[u8]) -> Result<(K, Vec<u8>), AllocError>
    requires { K.is_leaf entry.now ≡ true }
    ensures { IfOk result (λ p. (p.0, p.1.items) ≡ pair_of K.Key entry.now) }
{
    let key = key_of(entry);
    let body = Vec::from_slice(alloc, body_of::<K>(entry))?;
    Ok((key, body))
}

/// The first pair whose key is above this one, or None if there is none. The key itself need not be in the tree.
///
/// Reads the header node, one node of each level, and at the end of a leaf the next one. Takes memory only for the pair.
pub fn next_after<K: Key, N: Nodes>(
    alloc: Global,
    nodes: &N,
    key: &K,
) -> Result<Option<(K, Vec<u8>)>, AllocError>
    requires { IsSound K.Key (N.nodes nodes.now) }
    ensures { IfOk result (IsNextAfter K.Key (N.nodes nodes.now) key.now) }
{
    let header = read_header(nodes);
    if header.depth == 0 {
        return Ok(None);
    }
    let mut bytes = [0; 512];
    descend(nodes, &header, key, &mut bytes);
    if let Some(entry) = after_in(&bytes, key) {
        return Ok(Some(pair_in(alloc, entry)?));
    }
    let right = forward_in(&bytes);
    if right == 0 {
        return Ok(None);
    }
    nodes.read(right, &mut bytes);
    match first_in::<K>(&bytes) {
        Some(entry) => Ok(Some(pair_in(alloc, entry)?)),
        None => Ok(None),
    }
}

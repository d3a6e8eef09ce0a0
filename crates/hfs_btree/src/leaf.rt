//! Places in a leaf.

ghost use Rattle.std.specs.Prelude.{◌≡◌, ℕ, ◌<◌, ◌≤◌, true, List, [], IfSome, MatchOption, length, map, slice_index_or};
ghost use Rattle.hfs_btree.specs.Node.{node_of};
ghost use Rattle.hfs_fields.specs.Each.{Each};
ghost use Rattle.hfs_btree.specs.LeafPairs.{IsPlaceFrom};
ghost use Rattle.hfs_btree.specs.Tree.{records_of, forward_of, pair_of};
ghost use Rattle.hfs_btree.specs.Sound.{HasStructure};
ghost use Rattle.hfs_btree.specs.Walk.{rest_at, IsAtLeaf, IsWalk, GoesOnSame};

use crate::key::Key;
use crate::nodes::Nodes;
use crate::view;

/// Bytes that are no node.
pub(crate) fn no_leaf() -> [u8; 512]
    ensures records { records_of (node_of result) ≡ [] }
    ensures forward { forward_of (node_of result) ≡ 0 }
{
    [0; 512]
}

/// How many records a node has; 0 if the bytes are no node.
pub fn count_in(bytes: &[u8; 512]) -> usize
    ensures { result ≡ length (records_of (node_of bytes.now)) }
{
    match view(bytes) {
        Ok(node) => node.len(),
        Err(_) => 0,
    }
}

/// The next node of the level; 0 at its end.
pub fn forward_in(bytes: &[u8; 512]) -> u32
    ensures { result ≡ forward_of (node_of bytes.now) }
{
    match view(bytes) {
        Ok(node) => node.forward(),
        Err(_) => 0,
    }
}

/// The record at a place, if there is one.
pub fn entry_in(bytes: &[u8; 512], place: usize) -> Option<&[u8]>
    ensures { MatchOption result (length (records_of (node_of bytes.now)) ≤ place)
        (λ entry. (place < length (records_of (node_of bytes.now)))
        × (entry.now ≡ slice_index_or (records_of (node_of bytes.now)) place [])) }
{
    let Ok(node) = view(bytes) else {
        return None;
    };
    if place < node.len() {
        Some(node.record(place))
    } else {
        None
    }
}

/// The place of the first record whose key isn't below this one, or after the last.
pub fn place_in<K: Key>(bytes: &[u8; 512], key: &K) -> usize
    requires { Each (λ entry. K.is_leaf entry ≡ true) (records_of (node_of bytes.now)) }
    ensures within { result ≤ length (records_of (node_of bytes.now)) }
    ensures from { IsPlaceFrom K.Key bytes.now key.now result }
{
    let Ok(node) = view(bytes) else {
        return 0;
    };
    for i in 0..node.len() {
        let order = key.compare_leaf(node.record(i));
        if !order.is_gt() {
            return i;
        }
    }
    node.len()
}

/// Goes on to the next leaf if this one, which has `count` records, has none from the place on. Returns the place there, and how
/// many leaves follow at most.
pub(crate) fn settle<K: Key, N: Nodes>(
    nodes: &N,
    bytes: &mut [u8; 512],
    count: usize,
    place: usize,
    most: u32,
) -> (usize, u32)
    requires structure { HasStructure K.Key (N.nodes nodes.now) }
    requires count { count ≡ length (records_of (node_of bytes.old)) }
    requires at { IsAtLeaf K.Key (N.nodes nodes.now) bytes.old place most }
    ensures walk { IsWalk K.Key (N.nodes nodes.now) bytes.new result.0 result.1 }
    ensures same { GoesOnSame K.Key (N.nodes nodes.now)
        bytes.old place most bytes.new result.0 result.1 }
{
    if place < count {
        return (place, most);
    }
    let next = forward_in(bytes);
    if next == 0 {
        return (place, most);
    }
    nodes.read(next, bytes);
    (0, most - 1)
}

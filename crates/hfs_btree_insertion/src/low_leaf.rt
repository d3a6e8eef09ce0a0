//! The leaf for a new record, if no index key must be lowered for it.

ghost use Rattle.std.specs.Prelude.{◌≡◌, ◌<◌, ◌≤◌, true, [], IfSome, length, slice_index_or};
ghost use Rattle.hfs_btree.specs.Node.{node_of};
ghost use Rattle.hfs_fields.specs.Each.{Each};
ghost use Rattle.hfs_btree.specs.Header.{header_in, depth_of};
ghost use Rattle.hfs_btree.specs.Search.{IsRisingFor};
ghost use Rattle.hfs_btree.specs.Sound.{IsSound};
ghost use Rattle.hfs_btree.specs.Tree.{records_of};
ghost use Rattle.hfs_btree_insertion.specs.Growth.{HasLowKey, IsChildFor};
ghost use Rattle.hfs_btree_insertion.specs.Room.{IsLowLeaf};

use hfs_btree::{Header, Key, Nodes, child_of, first_above, view};

/// The child where the search for a key goes on from an index node; None if all of the node's keys are above the key.
fn low_child<K: Key>(bytes: &[u8; 512], key: &K) -> Option<u32>
    requires index { Each (λ entry. K.is_index entry ≡ true) (records_of (node_of bytes.now)) }
    requires rising { IsRisingFor K.Key key.now (records_of (node_of bytes.now)) }
    ensures child { IfSome result (IsChildFor K.Key key.now bytes.now) }
    ensures low { IfSome result (λ child. HasLowKey K.Key key.now bytes.now) }
{
    let Ok(node) = view(bytes) else {
        return None;
    };
    let place = first_above(&node, key);
    if place == 0 {
        return None;
    }
    Some(child_of::<K>(node.record(place - 1)))
}

/// The leaf where the search for a key ends, with its bytes, unless an index node on the way has all of its keys above the key.
/// Reads one node of each level.
pub(crate) fn low_leaf<K: Key, N: Nodes>(
    nodes: &N,
    header: &Header,
    key: &K,
    bytes: &mut [u8; 512],
) -> Option<u32>
    requires sound { IsSound K.Key (N.nodes nodes.now) }
    requires header { header.now ≡ header_in (N.nodes nodes.now) }
    requires some { 0 < depth_of (N.nodes nodes.now) }
    ensures low { IfSome result (IsLowLeaf K.Key (N.nodes nodes.now) key.now) }
    ensures bytes { IfSome result (λ n. bytes.new ≡ slice_index_or (N.nodes nodes.now) n []) }
{
    let mut n = header.root;
    let mut here = header.depth - 1;
    nodes.read(n, bytes);
    while here > 0 {
        let Some(child) = low_child(bytes, key) else {
            return None;
        };
        n = child;
        here -= 1;
        nodes.read(n, bytes);
    }
    Some(n)
}

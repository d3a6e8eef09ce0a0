//! Where a record is in a tree.

ghost use Rattle.std.specs.Prelude.{◌≡◌, ◌<◌, true, None, IfNone, IfSome, MatchOption, length};
ghost use Rattle.hfs_btree.specs.Node.{node_of};
ghost use Rattle.hfs_fields.specs.Each.{Each};
ghost use Rattle.hfs_btree.specs.Pairs.{lookup};
ghost use Rattle.hfs_btree.specs.Tree.{records_of, pairs_of};
ghost use Rattle.hfs_btree.specs.Header.{body_at};
ghost use Rattle.hfs_btree.specs.Sound.{IsSound};
ghost use Rattle.hfs_btree_edits.specs.Entries.{HasBodyAt, HasKeyAt, IsPlaceOf};
ghost use Rattle.hfs_btree_edits.specs.Conditions.{IsThere};

use hfs_btree::{Key, Nodes, descend, read_header, view};

/// Where a record is in a tree.
#[derive(Clone, Copy)]
pub struct RecordPlace {
    /// The number of its leaf.
    pub leaf: u32,
    /// The leaf's bytes, as they were read.
    pub bytes: [u8; 512],
    /// Which of the leaf's records it is.
    pub at: usize,
}

/// Which record of a leaf has this key, or None if none has.
fn seek_in<K: Key>(bytes: &[u8; 512], key: &K) -> Option<usize>
    requires { Each (λ entry. K.is_leaf entry ≡ true) (records_of (node_of bytes.now)) }
    ensures none { IfNone result (lookup K.compare key.now (pairs_of K.Key bytes.now) ≡ None) }
    ensures within { IfSome result (λ i. i < length (records_of (node_of bytes.now))) }
    ensures equal { IfSome result (HasKeyAt K.Key key.now bytes.now) }
    ensures body { IfSome result (HasBodyAt K.Key key.now bytes.now) }
{
    let Ok(node) = view(bytes) else {
        return None;
    };
    for i in 0..node.len() {
        let order = key.compare_leaf(node.record(i));
        if order.is_eq() {
            return Some(i);
        }
    }
    None
}

/// Which record has this key, in a leaf that has one.
pub fn place_of<K: Key>(bytes: &[u8; 512], key: &K) -> usize
    requires leaf { Each (λ entry. K.is_leaf entry ≡ true) (records_of (node_of bytes.now)) }
    requires there { IsThere (lookup K.compare key.now (pairs_of K.Key bytes.now)) }
    ensures within { result < length (records_of (node_of bytes.now)) }
    ensures equal { HasKeyAt K.Key key.now bytes.now result }
    ensures body { HasBodyAt K.Key key.now bytes.now result }
{
    let Some(at) = seek_in(bytes, key) else {
        unreachable!();
    };
    at
}

/// The place of the record with this key, or None if the tree has no key that is equal to it in the order.
///
/// Reads the header node and one node of each level, and takes no memory.
pub fn seek<K: Key, N: Nodes>(nodes: &N, key: &K) -> Option<RecordPlace>
    requires { IsSound K.Key (N.nodes nodes.now) }
    ensures { MatchOption result (body_at K.Key (N.nodes nodes.now) key.now ≡ None)
        (IsPlaceOf K.Key (N.nodes nodes.now) key.now) }
{
    let header = read_header(nodes);
    if header.depth == 0 {
        return None;
    }
    let mut bytes = [0; 512];
    let leaf = descend(nodes, &header, key, &mut bytes);
    match seek_in(&bytes, key) {
        Some(at) => Some(RecordPlace { leaf, bytes, at }),
        None => None,
    }
}

/// The place of the record with this key, in a tree that has one.
///
/// Reads the header node and one node of each level, and takes no memory.
pub fn find_place<K: Key, N: Nodes>(nodes: &N, key: &K) -> RecordPlace
    requires sound { IsSound K.Key (N.nodes nodes.now) }
    requires there { IsThere (body_at K.Key (N.nodes nodes.now) key.now) }
    ensures { IsPlaceOf K.Key (N.nodes nodes.now) key.now result }
{
    let Some(place) = seek(nodes, key) else {
        unreachable!();
    };
    place
}

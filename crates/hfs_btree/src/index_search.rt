//! Where the search for a key goes on in an index node with rising keys, found by binary search.

ghost use Rattle.std.specs.Prelude.{◌≡◌, ℕ, ◌<◌, ◌≤◌, true, length};
ghost use Rattle.std.specs.List.{prefix_len};
ghost use Rattle.hfs_btree.specs.Node.{node_of};
ghost use Rattle.hfs_fields.specs.Each.{Each};
ghost use Rattle.hfs_btree.specs.Tree.{records_of};
ghost use Rattle.hfs_btree.specs.Search.{is_not_above, child_for, IsRisingFor};

use crate::entry::{child_of, is_above};
use crate::key::Key;
use crate::{NodeView, view};

/// The middle of a range of places.
fn middle(from: usize, to: usize) -> usize
    requires some { from < to }
    requires few { to ≤ 248 }
    ensures low { from ≤ result }
    ensures high { result < to }
{
    from + (to - from) / 2
}

/// The place of an index node's first record whose key is above this one, or after the last. The search for the key goes on in
/// the child of the record before it.
pub fn first_above<K: Key>(node: &NodeView<'_>, key: &K) -> usize
    requires index { Each (λ entry. K.is_index entry ≡ true) node.now.records }
    requires rising { IsRisingFor K.Key key.now node.now.records }
    ensures { result ≡ prefix_len (is_not_above K.Key key.now) node.now.records }
{
    let mut from = 0;
    let mut to = node.len();
    while from < to {
        let place = middle(from, to);
        if is_above(node.record(place), key) {
            to = place;
        } else {
            from = place + 1;
        }
    }
    from
}

/// The child where the search for a key goes on.
pub(crate) fn child_by_halves<K: Key>(bytes: &[u8; 512], key: &K) -> u32
    requires some { 0 < length (records_of (node_of bytes.now)) }
    requires index { Each (λ entry. K.is_index entry ≡ true) (records_of (node_of bytes.now)) }
    requires rising { IsRisingFor K.Key key.now (records_of (node_of bytes.now)) }
    ensures { result ≡ child_for K.Key key.now (records_of (node_of bytes.now)) }
{
    match view(bytes) {
        Ok(node) => {
            let place = first_above(&node, key);
            child_of::<K>(node.record(place.saturating_sub(1)))
        }
        Err(_) => unreachable!(),
    }
}

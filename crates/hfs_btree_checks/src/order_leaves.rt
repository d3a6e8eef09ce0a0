//! The order of a tree's leaf keys.

ghost use Rattle.std.specs.Prelude.{◌≡◌, true, None};
ghost use Rattle.hfs_btree.specs.Node.{node_of};
ghost use Rattle.hfs_fields.specs.Each.{Each};
ghost use Rattle.hfs_btree.specs.Tree.{records_of, pairs_of};
ghost use Rattle.hfs_btree.specs.Header.{tree_content};
ghost use Rattle.hfs_btree.specs.Sound.{HasStructure, HasCounts};
ghost use Rattle.hfs_btree_checks.specs.Order.{rise_fault, pair_order_fault, leaf_order_fault};
ghost use Rattle.hfs_btree_checks.specs.Rises.{is_past, fall_from, last_key, fall_number, fall_leaf};

use hfs_btree::{Key, Nodes, count_in, forward_in, key_of, read_header, view};

/// Whether a key is above the one before it, if there is one.
fn is_past<K: Key>(last: Option<K>, key: &K) -> bool
    ensures { result ≡ is_past K.compare last key.now }
{
    match last {
        Some(last) => last.compare(key).is_lt(),
        None => true,
    }
}

/// The place of the first record of a leaf whose key isn't above the one before it. `last` is the key before the leaf; if there
/// is no such record, it becomes the leaf's last key.
fn fall_in<K: Key>(bytes: &[u8; 512], last: &mut Option<K>) -> Option<usize>
    requires { Each (λ entry. K.is_leaf entry ≡ true) (records_of (node_of bytes.now)) }
    ensures fall { result ≡ fall_from K.compare last.old 0 (pairs_of K.Key bytes.now) }
    ensures last { result ≡ None → last.new ≡ last_key last.old (pairs_of K.Key bytes.now) }
{
    let Ok(node) = view(bytes) else {
        return None;
    };
    for i in 0..node.len() {
        let key = key_of(node.record(i));
        if !is_past(*last, &key) {
            return Some(i);
        }
        *last = Some(key);
    }
    None
}

/// A leaf record whose key doesn't rise above those before it.
#[derive(Clone, Copy)]
struct Fall {
    /// The leaf that holds it.
    leaf: u32,
    /// Its number among all leaf records, counted from 0.
    number: usize,
}

/// The first such record, if there is one. Reads each leaf up to it once.
fn first_fall<K: Key, N: Nodes>(nodes: &N) -> Option<Fall>
    requires structure { HasStructure K.Key (N.nodes nodes.now) }
    requires counts { HasCounts K.Key (N.nodes nodes.now) }
    ensures number { fall_number result ≡ pair_order_fault K.Key (N.nodes nodes.now) }
    ensures leaf { fall_leaf result ≡ leaf_order_fault K.Key (N.nodes nodes.now) }
{
    let header = read_header(nodes);
    let mut n = header.first_leaf;
    let mut before = 0;
    let mut last: Option<K> = None;
    let mut bytes = [0; 512];
    while n != 0 {
        nodes.read(n, &mut bytes);
        if let Some(place) = fall_in(&bytes, &mut last) {
            return Some(Fall {
                leaf: n,
                number: before + place,
            });
        }
        before += count_in(&bytes);
        n = forward_in(&bytes);
    }
    None
}

/// The result of `ShapedTree::rise_fault`.
pub(crate) fn rise_fault<K: Key, N: Nodes>(nodes: &N) -> Option<usize>
    requires structure { HasStructure K.Key (N.nodes nodes.now) }
    requires counts { HasCounts K.Key (N.nodes nodes.now) }
    ensures { result ≡ rise_fault K.compare (tree_content K.Key (N.nodes nodes.now)) }
{
    match first_fall::<K, N>(nodes) {
        Some(fall) => Some(fall.number),
        None => None,
    }
}

/// The result of `ShapedTree::leaf_order_fault`.
pub(crate) fn leaf_order_fault<K: Key, N: Nodes>(nodes: &N) -> Option<u32>
    requires structure { HasStructure K.Key (N.nodes nodes.now) }
    requires counts { HasCounts K.Key (N.nodes nodes.now) }
    ensures { result ≡ leaf_order_fault K.Key (N.nodes nodes.now) }
{
    match first_fall::<K, N>(nodes) {
        Some(fall) => Some(fall.leaf),
        None => None,
    }
}

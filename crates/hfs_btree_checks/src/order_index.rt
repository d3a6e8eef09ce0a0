//! The order of index keys.

ghost use Rattle.std.specs.Prelude.{◌≡◌, ◌≤◌, true, map};
ghost use Rattle.std.specs.Option.{is_none};
ghost use Rattle.hfs_fields.specs.Each.{Each};
ghost use Rattle.hfs_btree.specs.Tree.{pair_of, under};
ghost use Rattle.hfs_btree.specs.Sound.{HasStructure};
ghost use Rattle.hfs_btree_checks.specs.Order.{first_unkeyed, are_keys_in_order, index_order_fault};
ghost use Rattle.hfs_btree_checks.specs.Subtree.{HasRange, IsSubtree, is_subtree_keyed};

use crate::key_range::{KeyRange, is_between, joined, widened};
use hfs_btree::{Key, NodeView, Nodes, child_of, read_header, view};

/// What the keys of a node and of those below it show.
#[derive(Clone, Copy)]
struct Subtree<K> {
    /// The range of the leaf keys.
    range: Option<KeyRange<K>>,
    /// Whether the node's own index keys are in order.
    keyed: bool,
    /// Whether those of each index node below it are in order as well.
    ordered: bool,
}

/// The key and the child of an index record.
fn index_entry<K: Key>(entry: &[u8]) -> (K, u32)
    requires { K.is_index entry.now ≡ true }
    ensures { result ≡ (K.index_key entry.now, K.child entry.now) }
{
    match K::read_index(entry) {
        Some(read) => read,
        None => unreachable!(),
    }
}

/// The range of a leaf's keys. Keys are compared in place, and only those that the range takes are copied.
fn leaf_range<K: Key>(node: &NodeView<'_>) -> Option<KeyRange<K>>
    requires { Each (λ entry. K.is_leaf entry ≡ true) node.now.records }
    ensures { HasRange K.compare result (map (pair_of K.Key) node.now.records) }
{
    let mut range = None;
    for i in 0..node.len() {
        range = widened(range, node.record(i));
    }
    range
}

/// What the keys of node `n`, which is `above` levels above the leaves, and of those below it show. Reads each node once.
fn read_subtree<K: Key, N: Nodes>(nodes: &N, n: u32, above: u16) -> Subtree<K>
    requires { IsSubtree K.Key (N.nodes nodes.now) above n }
    ensures range { HasRange K.compare result.range (under K.Key (N.nodes nodes.now) above n) }
    ensures keyed { result.keyed ≡ are_keys_in_order K.Key (N.nodes nodes.now) above n }
    ensures ordered { result.ordered ≡ is_subtree_keyed K.Key (N.nodes nodes.now) above n }
{
    let mut bytes = [0; 512];
    nodes.read(n, &mut bytes);
    let Ok(node) = view(&bytes) else {
        unreachable!()
    };
    if above == 0 {
        return Subtree {
            range: leaf_range(&node),
            keyed: true,
            ordered: true,
        };
    }
    let mut range = None;
    let mut before = None;
    let mut keyed = true;
    let mut below = true;
    for i in 0..node.len() {
        let (key, child) = index_entry::<K>(node.record(i));
        let part = read_subtree::<K, N>(nodes, child, above - 1);
        let right = is_between(&key, before, part.range);
        keyed &= right;
        below &= part.ordered;
        range = joined(range, part.range);
        before = part.range;
    }
    Subtree {
        range,
        keyed,
        ordered: keyed & below,
    }
}

/// The first node, among node `n` and those below it that are `at` levels above the leaves, whose own index keys are not in
/// order. Node `n` is `above` levels above the leaves.
fn first_unkeyed<K: Key, N: Nodes>(nodes: &N, n: u32, above: u16, at: u16) -> Option<u32>
    requires tree { IsSubtree K.Key (N.nodes nodes.now) above n }
    requires below { at ≤ above }
    ensures { result ≡ first_unkeyed K.Key (N.nodes nodes.now) n above at }
{
    if above == at {
        let found = read_subtree::<K, N>(nodes, n, above);
        return if found.keyed { None } else { Some(n) };
    }
    let mut bytes = [0; 512];
    nodes.read(n, &mut bytes);
    let Ok(node) = view(&bytes) else {
        unreachable!()
    };
    for i in 0..node.len() {
        let child = child_of::<K>(node.record(i));
        let below = first_unkeyed::<K, N>(nodes, child, above - 1, at);
        if below.is_some() {
            return below;
        }
    }
    None
}

/// Whether the index keys of a tree that has its shape are in order: each is at most its child's least leaf key, and above the
/// greatest of the previous child.
///
/// Reads each node of the levels once, and takes no memory.
pub fn index_keys_in_order<K: Key, N: Nodes>(nodes: &N) -> bool
    requires { HasStructure K.Key (N.nodes nodes.now) }
    ensures { result ≡ is_none (index_order_fault K.Key (N.nodes nodes.now)) }
{
    let header = read_header(nodes);
    if header.depth == 0 {
        return true;
    }
    let found = read_subtree::<K, N>(nodes, header.root, header.depth - 1);
    found.ordered
}

/// The first node, level by level, whose index keys are not in order, of a tree that has its shape.
///
/// If there is none, reads each node of the levels once; otherwise goes through the nodes again for each level.
pub(crate) fn index_order_fault<K: Key, N: Nodes>(nodes: &N) -> Option<u32>
    requires { HasStructure K.Key (N.nodes nodes.now) }
    ensures { result ≡ index_order_fault K.Key (N.nodes nodes.now) }
{
    if index_keys_in_order::<K, N>(nodes) {
        return None;
    }
    let header = read_header(nodes);
    let mut at = header.depth;
    while at > 1 {
        at -= 1;
        let found = first_unkeyed::<K, N>(nodes, header.root, header.depth - 1, at);
        if found.is_some() {
            return found;
        }
    }
    None
}

//! The check of a tree's header node.

ghost use Rattle.std.specs.Prelude.{◌≡◌, true, false, MatchOption};
ghost use Rattle.hfs_btree_checks.specs.Shape.{is_header_value, is_header_record, is_header_with, own_header};

use hfs_btree::{Header, Key, NodeKind, NodeView};

/// Whether a node is a header node with three records, the first of at least 106 bytes.
fn is_header(node: &NodeView) -> bool
    ensures { result ≡ is_header_value node.now }
{
    match node.kind() {
        NodeKind::Header => node.len() == 3 && node.record(0).len() >= 106,
        NodeKind::Index | NodeKind::Map | NodeKind::Leaf => false,
    }
}

/// Whether the header record is that of a tree with these keys in a file of `size` bytes.
#[tactic(auto, unfolding(crate::specs::Shape::is_header_record))]
fn is_right_header<K: Key>(header: &Header, size: u32) -> bool
    ensures { result ≡ is_header_record K.Key size header.now }
{
    header.node_size == 512
        && header.key_len == K::INDEX_KEY_LEN
        && header.nodes >= 1
        && 512 * u64::from(header.nodes) <= u64::from(size)
        && header.depth <= 16
}

/// The header record of a tree with these keys in a file of `size` bytes, from node 0. None exactly when node 0 or its header
/// record isn't that of such a tree.
pub(crate) fn checked_header<K: Key>(node: &NodeView, size: u32) -> Option<Header>
    ensures { MatchOption result (is_header_with K.Key size node.now ≡ false)
        (λ header. (is_header_with K.Key size node.now ≡ true) × (header ≡ own_header node.now)) }
{
    if !is_header(node) {
        return None;
    }
    let header = Header::read(node.record(0));
    if is_right_header::<K>(&header, size) {
        Some(header)
    } else {
        None
    }
}

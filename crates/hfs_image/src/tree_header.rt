//! What a tree's header node says before anything else of the tree was read.
ghost use Rattle.std.specs.Prelude.{◌≡◌, true, false, IfOk, MatchOption};
ghost use Rattle.hfs_btree.specs.Node.{node_of};
ghost use Rattle.hfs_btree_checks.specs.Shape.{is_header_value, is_header_record, is_header_with, own_header};
ghost use Rattle.hfs_image.specs.TreeReads.{FindsHead};

use hfs_btree::{Header, Key, NodeKind, NodeView, view};
use std::alloc::{AllocError, Global};

/// What a header node says about its tree's map.
#[derive(Drop)]
pub(crate) struct TreeHead {
    /// How many nodes the tree has.
    pub(crate) nodes: u32,
    /// The first map node; 0 if there is none.
    pub(crate) first: u32,
    /// The header node's part of the node map.
    pub(crate) map: Vec<u8>,
}

/// Whether a node is a header node with three records, the first of at least 106 bytes.
fn is_header(node: &NodeView) -> bool
    ensures { result ≡ is_header_value node.now }
{
    match node.kind() {
        NodeKind::Header => node.len() == 3 && node.record(0).len() >= 106,
        NodeKind::Index | NodeKind::Map | NodeKind::Leaf => false,
    }
}

/// Whether the header record is that of a tree with these keys in a file of `size` bytes.
#[tactic(auto, unfolding(hfs_btree_checks::specs::Shape::is_header_record))]
fn is_right_header<K: Key>(header: &Header, size: u32) -> bool
    ensures { result ≡ is_header_record K.Key size header.now }
{
    header.node_size == 512
        && header.key_len == K::INDEX_KEY_LEN
        && header.nodes >= 1
        && 512 * u64::from(header.nodes) <= u64::from(size)
        && header.depth <= 16
}

/// The header record of a tree with these keys in a file of `size` bytes, from node 0. None exactly when it isn't the header node
/// of such a tree.
fn right_header<K: Key>(node: &NodeView, size: u32) -> Option<Header>
    ensures { MatchOption result (is_header_with K.Key size node.now ≡ false)
        (λ header. (is_header_with K.Key size node.now ≡ true) × (header ≡ own_header node.now)) }
{
    if !is_header(node) {
        return None;
    }
    let header = Header::read(node.record(0));
    if is_right_header::<K>(&header, size) {
        Some(header)
    } else {
        None
    }
}

/// What node 0 says about a tree with these keys in a file of `size` bytes. None exactly when it isn't the header node of such a
/// tree.
pub(crate) fn read_head<K: Key>(
    alloc: Global,
    block: &[u8; 512],
    size: u32,
) -> Result<Option<TreeHead>, AllocError>
    ensures { IfOk result (FindsHead K.Key size (node_of block.now)) }
{
    let Ok(node) = view(block) else {
        return Ok(None);
    };
    let Some(header) = right_header::<K>(&node, size) else {
        return Ok(None);
    };
    let map = Vec::from_slice(alloc, node.record(2))?;
    Ok(Some(TreeHead {
        nodes: header.nodes,
        first: node.forward(),
        map,
    }))
}

//! Whether a tree's index keys are exact.

use crate::node_table::NodeTable;
use hfs_btree::{Key, NodeKind, Nodes, view};

/// The first key of a leaf or an index node.
fn first_key<K: Key>(bytes: &[u8; 512]) -> Option<K> {
    let Ok(node) = view(bytes) else {
        return None;
    };
    if node.is_empty() {
        return None;
    }
    let entry = node.record(0);
    match node.kind() {
        NodeKind::Leaf => match K::read_leaf(entry) {
            Some((key, _start)) => Some(key),
            None => None,
        },
        NodeKind::Index | NodeKind::Header | NodeKind::Map => match K::read_index(entry) {
            Some((key, _child)) => Some(key),
            None => None,
        },
    }
}

/// Whether each key of an index node is equal in order to its child's first key; true for any other node.
fn has_first_keys<K: Key>(nodes: &NodeTable, bytes: &[u8; 512]) -> bool {
    let Ok(node) = view(bytes) else {
        return true;
    };
    if node.kind() != NodeKind::Index {
        return true;
    }
    let mut below = [0; 512];
    for i in 0..node.len() {
        let Some((key, child)) = K::read_index(node.record(i)) else {
            return false;
        };
        if child >= nodes.count() {
            return false;
        }
        nodes.read(child, &mut below);
        let Some(first) = first_key::<K>(&below) else {
            return false;
        };
        if !key.compare(&first).is_eq() {
            return false;
        }
    }
    true
}

/// Whether each key of each index node is equal in order to its child's first key. Nodes of zeros are skipped.
pub fn is_exact<K: Key>(nodes: &NodeTable) -> bool {
    let mut bytes = [0; 512];
    for n in 1..nodes.count() {
        nodes.read(n, &mut bytes);
        if !has_first_keys::<K>(nodes, &bytes) {
            return false;
        }
    }
    true
}

//! The first key of a node.

ghost use Rattle.std.specs.Prelude.{◌≡◌, ◌≢◌, ◌<◌, true, length};
ghost use Rattle.hfs_btree.specs.declared.kind.NodeKind.TheVariants.{Leaf};
ghost use Rattle.hfs_btree_edits.specs.Entries.{first_record};

use hfs_btree::{Key, Node, NodeKind, index_key_of, key_of};

/// The first key of a leaf or an index node.
pub fn first_key_of<K: Key>(node: &Node) -> K
    requires some { 0 < length node.now.records }
    requires leaf { node.now.kind ≡ Leaf → K.is_leaf (first_record node.now) ≡ true }
    requires index { node.now.kind ≢ Leaf → K.is_index (first_record node.now) ≡ true }
    ensures leaf { node.now.kind ≡ Leaf → result ≡ K.leaf_key (first_record node.now) }
    ensures index { node.now.kind ≢ Leaf → result ≡ K.index_key (first_record node.now) }
{
    let entry = node.records.record(0);
    match node.kind {
        NodeKind::Leaf => key_of(entry),
        NodeKind::Index | NodeKind::Header | NodeKind::Map => index_key_of(entry),
    }
}

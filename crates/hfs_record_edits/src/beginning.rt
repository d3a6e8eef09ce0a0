//! The first pair of an empty tree.

ghost use Rattle.std.specs.Prelude.{◌≡◌, ◌<◌, ◌≤◌, IsTrue, IfOk, OnOk, length};
ghost use Rattle.hfs_btree.specs.Header.{header_in, depth_of, free_nodes};
ghost use Rattle.hfs_btree.specs.Sound.{IsSound};
ghost use Rattle.hfs_btree_edits.specs.Edits.{Edits};
ghost use Rattle.hfs_record_edits.specs.Beginning.{IsLoneLeaf, HasBegun};

use hfs_btree::{Key, Node, NodeKind, Records, read_header};
use hfs_btree_edits::{NodesMut, claim_node, put_header, store};
use std::alloc::{AllocError, Global};

/// A leaf with this one record, and no neighbours.
fn lone_leaf(alloc: Global, entry: Vec<u8>) -> Result<Node, AllocError>
    ensures { IfOk result (IsLoneLeaf entry.items) }
{
    let mut records = Records::new(alloc);
    records.push(entry)?;
    Ok(Node {
        forward: 0,
        backward: 0,
        kind: NodeKind::Leaf,
        height: 1,
        records,
    })
}

/// Puts the pair into an empty tree: a free node becomes its root, its first leaf and its last leaf.
pub(crate) fn begin<K: Key, S: NodesMut>(
    alloc: Global,
    nodes: &mut S,
    key: &K,
    body: &[u8],
) -> Result<(), AllocError>
    requires sound { IsSound K.Key (S.nodes nodes.old) }
    requires allowed { IsTrue (K.is_body_len (length body.now)) }
    requires empty { depth_of (S.nodes nodes.old) ≡ 0 }
    requires free { 0 < free_nodes (S.nodes nodes.old) }
    requires file { (header_in (S.nodes nodes.old)).nodes ≤ length (S.nodes nodes.old) }
    ensures begun { Edits result (HasBegun K.Key key.now body.now) S.nodes nodes.old nodes.new }
    ensures kept { OnOk result (S.kept nodes.new ≡ S.kept nodes.old) }
{
    let entry = key.leaf_record(alloc, body)?;
    let leaf = lone_leaf(alloc, entry)?;
    let n = claim_node::<K, S>(alloc, nodes)?;
    store(nodes, n, &leaf)?;
    let mut header = read_header(nodes);
    header.depth = 1;
    header.root = n;
    header.records = 1;
    header.first_leaf = n;
    header.last_leaf = n;
    put_header(alloc, nodes, &header)
}

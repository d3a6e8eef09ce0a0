//! A new root.

ghost use Rattle.std.specs.Prelude.{◌≡◌, ◌∷◌, [], ◌+◌, ◌-◌, ◌<◌, ◌≤◌, IfOk, OnOk, length};
ghost use Rattle.hfs_btree_edits.specs.Edits.{Edits};
ghost use Rattle.hfs_btree_insertion.specs.Growth.{HasRaised};
ghost use Rattle.hfs_btree.specs.Header.{header_in, depth_of, free_nodes};
ghost use Rattle.hfs_btree_insertion.specs.Raise.{IsRootAbove, HasRootPut};
ghost use Rattle.hfs_btree.specs.Sound.{IsSound, IsStray};

use crate::record_key::key_at;
use hfs_btree::{Header, Key, Node, NodeKind, Nodes, Records, read_header};
use hfs_btree_edits::{NodesMut, claim_node, load, put_header, store};
use std::alloc::{AllocError, Global};

/// A node with one record, which names the root.
fn root_above<K: Key, N: Nodes>(
    alloc: Global,
    nodes: &N,
    header: &Header,
) -> Result<Node, AllocError>
    requires sound { IsSound K.Key (N.nodes nodes.now) }
    requires header { header.now ≡ header_in (N.nodes nodes.now) }
    requires some { 0 < depth_of (N.nodes nodes.now) }
    ensures above { IfOk result (IsRootAbove K.Key (N.nodes nodes.now)) }
    ensures one { IfOk result (λ node. length node.records ≡ 1) }
{
    let old = load(alloc, nodes, header.root)?;
    let key: K = key_at(old.records.record(0), header.depth - 1);
    let entry = key.index_record(alloc, header.root)?;
    let mut records = Records::new(alloc);
    records.push(entry)?;
    Ok(Node {
        forward: 0,
        backward: 0,
        kind: NodeKind::Index,
        height: header.depth as u8 + 1,
        records,
    })
}

/// Puts a node that names the root in place of node `m`, a stray one, and makes it the root.
fn put_root<K: Key, S: NodesMut>(alloc: Global, nodes: &mut S, m: u32) -> Result<(), AllocError>
    requires sound { IsSound K.Key (S.nodes nodes.old) }
    requires some { 0 < depth_of (S.nodes nodes.old) }
    requires shallow { depth_of (S.nodes nodes.old) ≤ 15 }
    requires stray { IsStray K.Key (S.nodes nodes.old) m }
    requires within { m < length (S.nodes nodes.old) }
    ensures put { OnOk result (HasRootPut K.Key (S.nodes nodes.old) (S.nodes nodes.new) m) }
    ensures kept { OnOk result (S.kept nodes.new ≡ S.kept nodes.old) }
{
    let mut header = read_header(nodes);
    let root = root_above::<K, S>(alloc, nodes, &header)?;
    store(nodes, m, &root)?;
    header.root = m;
    header.depth += 1;
    put_header(alloc, nodes, &header)
}

/// Puts a new root above the old one, with one record that names it. Takes one free node.
pub(crate) fn raise<K: Key, S: NodesMut>(alloc: Global, nodes: &mut S) -> Result<(), AllocError>
    requires sound { IsSound K.Key (S.nodes nodes.old) }
    requires some { 0 < depth_of (S.nodes nodes.old) }
    requires shallow { depth_of (S.nodes nodes.old) ≤ 15 }
    requires free { 0 < free_nodes (S.nodes nodes.old) }
    requires file { (header_in (S.nodes nodes.old)).nodes ≤ length (S.nodes nodes.old) }
    ensures raised { Edits result (HasRaised K.Key) S.nodes nodes.old nodes.new }
    ensures kept { OnOk result (S.kept nodes.new ≡ S.kept nodes.old) }
{
    let m = claim_node::<K, S>(alloc, nodes)?;
    put_root::<K, S>(alloc, nodes, m)
}

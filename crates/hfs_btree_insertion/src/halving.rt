//! A node that is put after another, with a record of its own or some of the other's.

ghost use Rattle.std.specs.Prelude.{◌≡◌, ◌≢◌, ◌<◌, ◌≤◌, OnOk, length};
ghost use Rattle.hfs_btree_insertion.specs.Begun.{HasBehind};
ghost use Rattle.hfs_btree.specs.Header.{record_in};
ghost use Rattle.hfs_btree.specs.Tree.{node_in, records_in, forward_of};
ghost use Rattle.hfs_btree_edits.specs.Stored.{Decodes, IsLink, HasBackward};
ghost use Rattle.hfs_btree_edits.specs.Edits.{Edits};
ghost use Rattle.hfs_btree_insertion.specs.Halves.{HasHalved};
ghost use Rattle.hfs_btree_insertion.specs.Stored.{HasLinked, HasLastLeaf};

use hfs_btree::{Node, Records, read_header};
use hfs_btree_edits::{NodesMut, load, put_header, store};
use std::alloc::{AllocError, Global};

/// Sets the backward link of a node.
fn link_back<S: NodesMut>(alloc: Global, nodes: &mut S, n: u32, left: u32) -> Result<(), AllocError>
    requires { Decodes (S.nodes nodes.old) n }
    ensures linked { Edits result (HasBackward n left) S.nodes nodes.old nodes.new }
    ensures kept { OnOk result (S.kept nodes.new ≡ S.kept nodes.old) }
{
    let mut node = load(alloc, nodes, n)?;
    node.backward = left;
    store(nodes, n, &node)
}

/// Sets the last leaf in the header record.
fn put_last<S: NodesMut>(alloc: Global, nodes: &mut S, n: u32) -> Result<(), AllocError>
    requires within { 0 < length (S.nodes nodes.old) }
    requires long { 30 ≤ length (record_in (S.nodes nodes.old) 0 0) }
    ensures put { Edits result (HasLastLeaf n) S.nodes nodes.old nodes.new }
    ensures kept { OnOk result (S.kept nodes.new ≡ S.kept nodes.old) }
{
    let mut header = read_header(nodes);
    header.last_leaf = n;
    put_header(alloc, nodes, &header)
}

/// Sets the backward link of the node that a new node `n` of a level comes before; if there is none and `n` is a leaf, the header
/// record names it as the last.
fn link_right<S: NodesMut>(
    alloc: Global,
    nodes: &mut S,
    right: u32,
    n: u32,
    leaves: bool,
) -> Result<(), AllocError>
    requires right { IsLink (S.nodes nodes.old) right }
    requires within { 0 < length (S.nodes nodes.old) }
    requires long { 30 ≤ length (record_in (S.nodes nodes.old) 0 0) }
    ensures linked { Edits result (HasLinked right n leaves) S.nodes nodes.old nodes.new }
    ensures kept { OnOk result (S.kept nodes.new ≡ S.kept nodes.old) }
{
    if right != 0 {
        link_back(alloc, nodes, right, n)
    } else if leaves {
        put_last(alloc, nodes, n)
    } else {
        Ok(())
    }
}

/// Moves the records of node `n` from a place on to node `m`, which is then after it in its level: sets the links on both sides,
/// and the header record's last leaf if `n` was the last of the leaves.
pub(crate) fn halve<S: NodesMut>(
    alloc: Global,
    nodes: &mut S,
    n: u32,
    m: u32,
    place: usize,
    leaves: bool,
) -> Result<(), AllocError>
    requires first { (n ≢ 0) × Decodes (S.nodes nodes.old) n }
    requires second { (m ≢ 0) × (m < length (S.nodes nodes.old)) }
    requires place { place ≤ length (records_in (S.nodes nodes.old) n) }
    requires right { IsLink (S.nodes nodes.old) (forward_of (node_in (S.nodes nodes.old) n)) }
    requires long { 30 ≤ length (record_in (S.nodes nodes.old) 0 0) }
    ensures halved { Edits result (HasHalved n m place leaves) S.nodes nodes.old nodes.new }
    ensures kept { OnOk result (S.kept nodes.new ≡ S.kept nodes.old) }
{
    let mut first = load(alloc, nodes, n)?;
    let right = first.forward;
    let mut second = first.split_off(place)?;
    first.forward = m;
    second.backward = n;
    store(nodes, n, &first)?;
    store(nodes, m, &second)?;
    link_right(alloc, nodes, right, m, leaves)
}

/// Puts a record into node `m`, which is then after leaf `n`: sets the links on both sides, and the header record's last leaf if
/// `n` was the last.
pub(crate) fn put_behind<S: NodesMut>(
    alloc: Global,
    nodes: &mut S,
    n: u32,
    m: u32,
    entry: Vec<u8>,
) -> Result<(), AllocError>
    requires first { (n ≢ 0) × Decodes (S.nodes nodes.old) n }
    requires second { (m ≢ 0) × (m < length (S.nodes nodes.old)) }
    requires short { length entry.items ≤ 140 }
    requires right { IsLink (S.nodes nodes.old) (forward_of (node_in (S.nodes nodes.old) n)) }
    requires long { 30 ≤ length (record_in (S.nodes nodes.old) 0 0) }
    ensures behind { Edits result (HasBehind n m entry.items) S.nodes nodes.old nodes.new }
    ensures kept { OnOk result (S.kept nodes.new ≡ S.kept nodes.old) }
{
    let mut first = load(alloc, nodes, n)?;
    let right = first.forward;
    let mut records = Records::new(alloc);
    records.push(entry)?;
    let second = Node {
        forward: right,
        backward: n,
        kind: first.kind,
        height: first.height,
        records,
    };
    first.forward = m;
    store(nodes, n, &first)?;
    store(nodes, m, &second)?;
    link_right(alloc, nodes, right, m, true)
}

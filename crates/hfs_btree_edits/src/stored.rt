//! Nodes that are read into memory and written back.

ghost use Rattle.std.specs.Prelude.{◌≡◌, ◌<◌, ◌≤◌, [], Ok, IfOk, OnOk, insert, length, slice_index_or, slice_set};
ghost use Rattle.hfs_btree.specs.Node.{Fits, node_from, node_of, size_of};
ghost use Rattle.hfs_btree.specs.Tree.{node_in};
ghost use Rattle.hfs_btree_edits.specs.Stored.{Decodes, HasStored};

use crate::nodes_mut::NodesMut;
use hfs_btree::{
    BLANK_NODE, Descriptor, InsertedRow, Node, NodeView, Nodes, RecordRow, Records, ReplacedRow,
    encode, encode_row, view,
};
use std::alloc::{AllocError, Global};

/// A copy of a node's records, with room for one more.
fn copied_records(alloc: Global, node: &NodeView<'_>) -> Result<Records, AllocError>
    ensures { IfOk result (λ records. records ≡ node.now.records) }
{
    let mut records = Vec::with_capacity(alloc, node.len() + 1)?;
    for i in 0..node.len() {
        let record = Vec::from_slice(alloc, node.record(i))?;
        records.push(record)?;
    }
    Ok(Records::from_vec(records))
}

/// A copy of a node, with room for one more record.
pub(crate) fn copy_of(alloc: Global, node: &NodeView<'_>) -> Result<Node, AllocError>
    ensures { IfOk result (λ copy. copy ≡ node.now) }
{
    let records = copied_records(alloc, node)?;
    Ok(Node {
        forward: node.forward(),
        backward: node.backward(),
        kind: node.kind(),
        height: node.height(),
        records,
    })
}

/// A copy of node `n`, which can be decoded, with room for one more record. Fails only when out of memory.
pub fn load<N: Nodes>(alloc: Global, nodes: &N, n: u32) -> Result<Node, AllocError>
    requires { Decodes (N.nodes nodes.now) n }
    ensures node { IfOk result (λ node. node_in (N.nodes nodes.now) n ≡ Ok node) }
    ensures fits { IfOk result Fits }
{
    let mut bytes = [0; 512];
    nodes.read(n, &mut bytes);
    let Ok(node) = view(&bytes) else {
        unreachable!()
    };
    let copy = copy_of(alloc, &node)?;
    Ok(copy)
}

/// Node `n`, which can be decoded, in the bytes that were read of it.
pub fn viewed<'a, N: Nodes>(nodes: &N, n: u32, bytes: &'a [u8; 512]) -> NodeView<'a>
    requires decodes { Decodes (N.nodes nodes.now) n }
    requires read { bytes.now ≡ slice_index_or (N.nodes nodes.now) n [] }
    ensures node { node_in (N.nodes nodes.now) n ≡ Ok result }
    ensures bytes { node_of bytes.now ≡ Ok result }
    ensures fits { Fits result }
{
    let Ok(node) = view(bytes) else {
        unreachable!()
    };
    node
}

/// Writes a node with this descriptor and a row of records, which fit, as node `n`.
pub fn store_row<S: NodesMut, R: RecordRow>(
    nodes: &mut S,
    n: u32,
    head: &Descriptor,
    row: &R,
) -> Result<(), AllocError>
    requires within { n < length (S.nodes nodes.old) }
    requires fits { size_of (R.records row.now) ≤ 496 }
    ensures stored { OnOk result (HasStored n (node_from head.now (R.records row.now))
        (S.nodes nodes.old) (S.nodes nodes.new)) }
    ensures kept { OnOk result (S.kept nodes.new ≡ S.kept nodes.old) }
{
    let mut bytes = BLANK_NODE;
    encode_row(head, row, &mut bytes);
    nodes.write(n, &bytes)
}

/// Writes a node that fits as node `n`.
pub fn store<S: NodesMut>(nodes: &mut S, n: u32, node: &Node) -> Result<(), AllocError>
    requires within { n < length (S.nodes nodes.old) }
    requires fits { Fits node.now }
    ensures stored { OnOk result (HasStored n node.now (S.nodes nodes.old) (S.nodes nodes.new)) }
    ensures kept { OnOk result (S.kept nodes.new ≡ S.kept nodes.old) }
{
    let mut bytes = BLANK_NODE;
    encode(node, &mut bytes);
    nodes.write(n, &bytes)
}

/// Writes node `n` as this one with another record in place of one.
pub fn store_replaced<S: NodesMut>(
    nodes: &mut S,
    n: u32,
    node: &NodeView<'_>,
    place: usize,
    entry: Vec<u8>,
) -> Result<(), AllocError>
    requires within { n < length (S.nodes nodes.old) }
    requires place { place < length node.now.records }
    requires fits { size_of (slice_set node.now.records place entry.items) ≤ 496 }
    ensures stored { OnOk result (HasStored n
        (record node.now { records = slice_set node.now.records place entry.items })
        (S.nodes nodes.old) (S.nodes nodes.new)) }
    ensures kept { OnOk result (S.kept nodes.new ≡ S.kept nodes.old) }
{
    let head = node.descriptor();
    let bytes = entry.as_slice();
    let row = ReplacedRow {
        node,
        place,
        entry: bytes,
    };
    store_row(nodes, n, &head, &row)
}

/// Writes node `n` as this one with one more record, in front of the one at a place or after the last.
pub fn store_inserted<S: NodesMut>(
    nodes: &mut S,
    n: u32,
    node: &NodeView<'_>,
    place: usize,
    entry: Vec<u8>,
) -> Result<(), AllocError>
    requires within { n < length (S.nodes nodes.old) }
    requires place { place ≤ length node.now.records }
    requires fits { size_of (insert node.now.records place entry.items) ≤ 496 }
    ensures stored { OnOk result (HasStored n
        (record node.now { records = insert node.now.records place entry.items })
        (S.nodes nodes.old) (S.nodes nodes.new)) }
    ensures kept { OnOk result (S.kept nodes.new ≡ S.kept nodes.old) }
{
    let head = node.descriptor();
    let bytes = entry.as_slice();
    let row = InsertedRow {
        node,
        place,
        entry: bytes,
    };
    store_row(nodes, n, &head, &row)
}

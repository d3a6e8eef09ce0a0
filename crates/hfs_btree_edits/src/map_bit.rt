//! The bit of a node in the node map.

ghost use Rattle.std.specs.Prelude.{◌≡◌, ◌*◌, ◌<◌, ◌≤◌, [], false, IfNone, IfOk, IfSome, OnOk, MatchOption, length, slice_index_or};
ghost use Rattle.hfs_btree.specs.Node.{node_of};
ghost use Rattle.hfs_btree.specs.Tree.{records_of};
ghost use Rattle.hfs_btree.specs.Header.{header_in, record_in, bit_of, free_nodes};
ghost use Rattle.hfs_btree.specs.Sound.{HasMap};
ghost use Rattle.hfs_btree_edits.specs.MapPlaces.{IsPlaceOfNode, IsClearAt, HasWrittenAt, KeepsBitsBut, AreAllSet};

use crate::nodes_mut::NodesMut;
use crate::stored::{store_replaced, viewed};
use hfs_btree::{Nodes, bit_at, forward_in, view};
use std::alloc::{AllocError, Global};

/// Where a node's bit is.
#[derive(Clone, Copy)]
pub(crate) struct MapBit {
    /// The node that has the part of the map.
    pub node: u32,
    /// Which of that node's records the part is.
    pub entry: usize,
    /// Which bit of the part it is, counting the highest of a byte first.
    pub bit: usize,
    /// The number of the node that the bit is for.
    pub number: u32,
}

/// The part of the map in a node's record; empty if there is no such record.
fn part_of(bytes: &[u8; 512], entry: usize) -> &[u8]
    ensures part { result.now ≡ slice_index_or (records_of (node_of bytes.now)) entry [] }
    ensures short { length result.now ≤ 494 }
{
    let Ok(node) = view(bytes) else {
        return &[];
    };
    if entry < node.len() {
        node.record(entry)
    } else {
        &[]
    }
}

/// How many bytes at the beginning have all their bits set.
fn full_bytes(bytes: &[u8]) -> usize
    requires { length bytes.now ≤ 494 }
    ensures within { result ≤ length bytes.now }
    ensures full { AreAllSet (8 * result) bytes.now }
{
    for i in 0..bytes.len() {
        if bytes[i] != 255 {
            return i;
        }
    }
    bytes.len()
}

/// The first clear bit among the first `count` of these bytes, or of as many as there are.
fn first_clear(bytes: &[u8], count: usize) -> Option<usize>
    requires { length bytes.now ≤ 494 }
    ensures { MatchOption result (AreAllSet count bytes.now)
        (λ i. (i < count) × (i < 8 * length bytes.now) × (bit_of bytes.now i ≡ false)) }
{
    let full = 8 * full_bytes(bytes);
    for i in full..count.min(8 * bytes.len()) {
        if !bit_at(bytes, i) {
            return Some(i);
        }
    }
    None
}

/// Where the bit of node `n` is, in a tree of `count` nodes; None if it isn't one of them.
pub(crate) fn bit_of_node<N: Nodes>(nodes: &N, count: u32, n: u32) -> Option<MapBit>
    requires some { 0 < length (N.nodes nodes.now) }
    requires map { HasMap (N.nodes nodes.now) }
    requires counted { count ≡ (header_in (N.nodes nodes.now)).nodes }
    ensures none { IfNone result (count ≤ n) }
    ensures place { IfSome result (IsPlaceOfNode (N.nodes nodes.now)) }
    ensures number { IfSome result (λ at. at.number ≡ n) }
{
    let mut bytes = [0; 512];
    let mut node = 0;
    let mut entry = 2;
    let mut before = 0;
    let mut most = count;
    loop {
        nodes.read(node, &mut bytes);
        let bits = 8 * part_of(&bytes, entry).len();
        if (n as usize) < before + bits {
            return Some(MapBit {
                node,
                entry,
                bit: n as usize - before,
                number: n,
            });
        }
        node = forward_in(&bytes);
        if node == 0 || most == 0 {
            return None;
        }
        entry = 0;
        before += bits;
        most -= 1;
    }
}

/// The first clear bit of the node map, in a tree of `count` nodes; None if no node is free.
pub(crate) fn free_bit<N: Nodes>(nodes: &N, count: u32) -> Option<MapBit>
    requires some { 0 < length (N.nodes nodes.now) }
    requires map { HasMap (N.nodes nodes.now) }
    requires counted { count ≡ (header_in (N.nodes nodes.now)).nodes }
    ensures none { IfNone result (free_nodes (N.nodes nodes.now) ≡ 0) }
    ensures place { IfSome result (IsPlaceOfNode (N.nodes nodes.now)) }
    ensures within { IfSome result (λ at. at.number < count) }
    ensures clear { IfSome result (IsClearAt (N.nodes nodes.now)) }
{
    let mut bytes = [0; 512];
    let mut node = 0;
    let mut entry = 2;
    let mut before = 0;
    let mut most = count;
    loop {
        if before >= count as usize {
            return None;
        }
        nodes.read(node, &mut bytes);
        let part = part_of(&bytes, entry);
        if let Some(bit) = first_clear(part, count as usize - before) {
            return Some(MapBit {
                node,
                entry,
                bit,
                number: (before + bit) as u32,
            });
        }
        before += 8 * part.len();
        node = forward_in(&bytes);
        if node == 0 || most == 0 {
            return None;
        }
        entry = 0;
        most -= 1;
    }
}

/// Writes bit `i`, the highest of a byte first.
fn write_in(bytes: &mut [u8], i: usize, value: bool)
    requires { i < 8 * length bytes.old }
    ensures here { bit_of bytes.new i ≡ value }
    ensures others { KeepsBitsBut i bytes.old bytes.new }
    ensures length { length bytes.new ≡ length bytes.old }
{
    if value {
        bytes[i / 8] |= 1 << (7 - i % 8);
    } else {
        bytes[i / 8] &= !(1 << (7 - i % 8));
    }
}

/// A copy of these bytes with this value for bit `i`, counting the highest of a byte first.
fn rewritten(alloc: Global, old: &[u8], i: usize, value: bool) -> Result<Vec<u8>, AllocError>
    requires { i < 8 * length old.now }
    ensures here { IfOk result (λ made. bit_of made.items i ≡ value) }
    ensures others { IfOk result (λ made. KeepsBitsBut i old.now made.items) }
    ensures length { IfOk result (λ made. length made.items ≡ length old.now) }
{
    let mut bytes = Vec::from_slice(alloc, old)?;
    write_in(bytes.as_mut_slice(), i, value);
    Ok(bytes)
}

/// Writes a bit of the node map.
pub(crate) fn put_bit<S: NodesMut>(
    alloc: Global,
    nodes: &mut S,
    at: MapBit,
    value: bool,
) -> Result<(), AllocError>
    requires { at.bit < 8 * length (record_in (S.nodes nodes.old) at.node at.entry) }
    ensures put { OnOk result (HasWrittenAt at value (S.nodes nodes.old) (S.nodes nodes.new)) }
    ensures kept { OnOk result (S.kept nodes.new ≡ S.kept nodes.old) }
{
    let mut bytes = [0; 512];
    nodes.read(at.node, &mut bytes);
    let node = viewed(nodes, at.node, &bytes);
    let part = rewritten(alloc, node.record(at.entry), at.bit, value)?;
    store_replaced(nodes, at.node, &node, at.entry, part)
}

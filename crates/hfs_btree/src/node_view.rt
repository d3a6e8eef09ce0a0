//! A node that is read in its bytes.
ghost use Rattle.std.specs.Prelude.{◌≡◌, ◌+◌, ◌<◌, ◌≤◌, ◌==◌, ◌&&◌, [], ◌≢◌, IfOk, IfErr, length, slice_index_or, true};
ghost use Rattle.hfs_btree.specs.Node.{node_of, offset_of, count_of, are_inside, are_rising, record_of, descriptor_of, Fits};

use crate::bytes::{count_at, offset_at};
use crate::fault::NodeFault;
use crate::kind::{NodeKind, kind_from};
use crate::node::Descriptor;
use hfs_fields::u32_at;
use std::marker::Model;

/// A node that is read in its 512 bytes, without copying anything or taking memory.
#[derive(Debug, Drop)]
pub struct NodeView<'a> {
    bytes: &'a [u8; 512],
    kind: NodeKind,
}

impl<'a> Model for NodeView<'a> {
    ghost use Rattle.hfs_btree.specs.declared.node.Node.{Node};

    ghost Value = { Node };

    ghost use Rattle.hfs_btree.specs.Node.{node_with, IsNode};

    ghost view = { λ a. node_with a.kind a.bytes.now };

    ghost invariant = { λ a. IsNode a.kind a.bytes.now };
}

#[tactic(auto, unfolding(crate::specs::Node::are_inside))]
fn is_inside(bytes: &[u8; 512]) -> bool
    ensures { result ≡ are_inside bytes.now }
{
    let count = count_at(bytes);
    if count > 248 {
        return false;
    }
    let row = 510 - 2 * count;
    for i in 0..count + 1 {
        let offset = offset_at(bytes, i);
        if offset < 14 || offset > row {
            return false;
        }
    }
    true
}

/// Whether the offsets of the records and of the free space rise, and lie between the descriptor and the row of offsets.
fn is_in_order(bytes: &[u8; 512]) -> bool
    ensures { result ≡ (are_inside bytes.now && are_rising bytes.now) }
{
    let count = count_at(bytes);
    if count > 248 {
        return false;
    }
    let mut least = 14;
    for i in 0..count + 1 {
        let offset = offset_at(bytes, i);
        if offset < least {
            return false;
        }
        least = offset;
    }
    least <= 510 - 2 * count
}

/// Record `i` of a node.
#[tactic(auto, unfolding(crate::specs::Node::record_of))]
fn record_at(bytes: &[u8; 512], i: usize) -> &[u8]
    requires within { i ≤ 254 }
    requires rising { offset_of bytes.now i ≤ offset_of bytes.now (i + 1) }
    requires inside { offset_of bytes.now (i + 1) ≤ 512 }
    ensures { result.now ≡ record_of bytes.now i }
{
    let start = offset_at(bytes, i);
    let end = offset_at(bytes, i + 1);
    &bytes[start..end]
}

/// The node in these 512 bytes, or their first fault: the type, then an offset outside, then an offset
/// below the one before it. Takes no memory, so the fault is never `NodeFault::Memory`.
///
/// Source: Inside Macintosh: Files, chapter 2, "B*-Trees", the structure of nodes.
pub fn view(bytes: &[u8; 512]) -> Result<NodeView<'_>, NodeFault>
    ensures node { result ≡ node_of bytes.now }
    ensures fits { IfOk result Fits }
    ensures of_bytes { IfErr result (λ fault. fault ≢ NodeFault.Memory) }
{
    let Some(kind) = kind_from(bytes[8]) else {
        return Err(NodeFault::Kind);
    };
    if is_in_order(bytes) {
        return Ok(NodeView { bytes, kind });
    }
    if !is_inside(bytes) {
        return Err(NodeFault::Outside);
    }
    Err(NodeFault::NotRising)
}

impl<'a> NodeView<'a> {
    /// How many records the node has: at most 248.
    pub fn len(&self) -> usize
        ensures count { result ≡ length self.now.records }
        ensures few { result ≤ 248 }
    {
        count_at(self.bytes)
    }

    /// Whether the node has no records.
    pub fn is_empty(&self) -> bool
        ensures { result ≡ (length self.now.records == 0) }
    {
        self.len() == 0
    }

    /// Record `i`, counted from 0: at most 494 bytes.
    pub fn record(&self, i: usize) -> &'a [u8]
        requires { i < length self.now.records }
        ensures bytes { result.now ≡ slice_index_or self.now.records i [] }
        ensures short { length result.now ≤ 494 }
    {
        record_at(self.bytes, i)
    }

    /// The node's descriptor.
    pub fn descriptor(&self) -> Descriptor
        ensures { result ≡ descriptor_of self.now }
    {
        Descriptor {
            forward: self.forward(),
            backward: self.backward(),
            kind: self.kind(),
            height: self.height(),
        }
    }

    /// The next node of the level; 0 at its end (ndFLink).
    #[tactic(auto, unfolding(crate::specs::Node::node_with))]
    pub fn forward(&self) -> u32
        ensures { result ≡ self.now.forward }
    {
        let bytes = self.bytes;
        u32_at(bytes, 0)
    }

    /// The previous node of the level; 0 at its beginning (ndBLink).
    #[tactic(auto, unfolding(crate::specs::Node::node_with))]
    pub fn backward(&self) -> u32
        ensures { result ≡ self.now.backward }
    {
        let bytes = self.bytes;
        u32_at(bytes, 4)
    }

    /// The node's type (ndType).
    #[tactic(auto, unfolding(crate::specs::Node::node_with))]
    pub fn kind(&self) -> NodeKind
        ensures { result ≡ self.now.kind }
    {
        self.kind
    }

    /// The node's height (ndNHeight).
    #[tactic(auto, unfolding(crate::specs::Node::node_with))]
    pub fn height(&self) -> u8
        ensures { result ≡ self.now.height }
    {
        self.bytes[9]
    }
}

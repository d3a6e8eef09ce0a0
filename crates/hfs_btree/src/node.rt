//! A node in memory.
ghost use Rattle.std.specs.Prelude.{◌≡◌, ◌≤◌, ◌↔◌, IsTrue, OnOk, OnErr, IfOk, length, take, drop};
ghost use Rattle.hfs_btree.specs.Node.{Fits};

use crate::kind::NodeKind;
use crate::records::Records;
use std::alloc::AllocError;

/// The bytes of a node that was freed: zeros. They are no node.
pub const BLANK_NODE: [u8; 512] = [0; 512];

/// A node's descriptor, without the number of its records.
#[derive(Debug, Clone, Copy, PartialEq, Eq)]
pub struct Descriptor {
    /// ndFLink: the next node of the level; 0 at its end.
    pub forward: u32,
    /// ndBLink: the previous node of the level; 0 at its beginning.
    pub backward: u32,
    /// ndType: what the node is for.
    pub kind: NodeKind,
    /// ndNHeight: 1 for a leaf, one more for each index level.
    pub height: u8,
}

/// A node: its descriptor's fields and its records.
#[derive(Debug, Drop)]
pub struct Node {
    /// ndFLink: the next node of the level; 0 at its end.
    pub forward: u32,
    /// ndBLink: the previous node of the level; 0 at its beginning.
    pub backward: u32,
    /// ndType: what the node is for.
    pub kind: NodeKind,
    /// ndNHeight: 1 for a leaf, one more for each index level.
    pub height: u8,
    /// The records, in the order of their offsets.
    pub records: Records,
}

/// Whether the records and their offsets fit into a node.
#[tactic(auto, using(crate::proofs::SizeLemmas::sizes))]
pub fn fits(node: &Node) -> bool
    ensures { IsTrue result ↔ Fits node.now }
{
    let mut room = 496;
    for i in 0..node.records.len() {
        let len = node.records.record(i).len();
        if len + 2 > room {
            return false;
        }
        room -= len + 2;
    }
    true
}

impl Node {
    /// Cuts the node in two at place `at`: the second node has the records from there on, and the same links, kind and height as
    /// the first. If memory is refused, nothing changes.
    pub fn split_off(&mut self, at: usize) -> Result<Node, AllocError>
        requires { at ≤ length self.old.records }
        ensures first { OnOk result
            (self.new ≡ record self.old { records = take at self.old.records }) }
        ensures second { IfOk result (λ tail.
            tail ≡ record self.old { records = drop at self.old.records }) }
        ensures err { OnErr result (self.new ≡ self.old) }
    {
        let records = self.records.split_off(at)?;
        Ok(Node {
            forward: self.forward,
            backward: self.backward,
            kind: self.kind,
            height: self.height,
            records,
        })
    }
}

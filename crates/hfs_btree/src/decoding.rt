//! A node that is copied out of its bytes.
ghost use Rattle.std.specs.Prelude.{◌≡◌, Ok, IfOk, IfErr};
ghost use Rattle.hfs_btree.specs.Node.{node_of, Fits, IsFaultOfCopy};

use crate::fault::NodeFault;
use crate::node::Node;
use crate::node_view::{NodeView, view};
use crate::records::Records;
use std::alloc::{AllocError, Global};

impl<'a> NodeView<'a> {
    /// A copy of the records.
    fn copied_records(&self, alloc: Global) -> Result<Records, AllocError>
        ensures { IfOk result (λ records. records ≡ self.now.records) }
    {
        let mut records = Records::new(alloc);
        for i in 0..self.len() {
            let record = Vec::from_slice(alloc, self.record(i))?;
            records.push(record)?;
        }
        Ok(records)
    }

    /// A copy of the node.
    pub fn to_node(&self, alloc: Global) -> Result<Node, AllocError>
        ensures { IfOk result (λ node. node ≡ self.now) }
    {
        let records = self.copied_records(alloc)?;
        Ok(Node {
            forward: self.forward(),
            backward: self.backward(),
            kind: self.kind(),
            height: self.height(),
            records,
        })
    }
}

/// The node in these 512 bytes, or their first fault, as from `view`. The fault is `NodeFault::Memory` if the bytes are a node
/// and memory for its records was refused.
///
/// Source: Inside Macintosh: Files, chapter 2, "B*-Trees", the structure of nodes.
pub fn decode(alloc: Global, bytes: &[u8; 512]) -> Result<Node, NodeFault>
    ensures ok { IfOk result (λ node. node_of bytes.now ≡ Ok node) }
    ensures fault { IfErr result (λ fault. IsFaultOfCopy fault (node_of bytes.now)) }
    ensures fits { IfOk result Fits }
{
    let node = view(bytes)?;
    match node.to_node(alloc) {
        Ok(node) => Ok(node),
        Err(_) => Err(NodeFault::Memory),
    }
}

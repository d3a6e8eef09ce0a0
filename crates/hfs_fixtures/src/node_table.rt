//! Nodes in memory that can be written.

ghost use Rattle.std.specs.Prelude.{◌≡◌, ◌*◌, ◌<◌, ◌^◌};
ghost use Rattle.std.specs.Vec.{vec_len};

use hfs_btree::Nodes;
use hfs_btree_edits::NodesMut;
use std::alloc::{AllocError, Global};

/// Nodes in memory, one after the other.
#[derive(Drop)]
pub struct NodeTable {
    pub nodes: Vec<[u8; 512]>,
    ghost few: { vec_len nodes < 2 ^ 23 },
}

impl NodeTable {
    /// A copy of these nodes; None if there are too many.
    pub fn of_nodes(alloc: Global, nodes: &[[u8; 512]]) -> Result<Option<NodeTable>, AllocError> {
        let nodes = Vec::from_slice(alloc, nodes)?;
        if nodes.len() < 8_388_608 {
            Ok(Some(NodeTable { nodes }))
        } else {
            Ok(None)
        }
    }

    /// How many bytes the nodes have.
    pub fn size(&self) -> u32
        ensures { result ≡ 512 * vec_len self.now.nodes }
    {
        self.nodes.len() as u32 * 512
    }
}

impl Nodes for NodeTable {
    ghost nodes = { λ s. s.nodes.items };

    fn count(&self) -> u32 {
        self.nodes.len() as u32
    }

    fn read(&self, n: u32, into: &mut [u8; 512]) {
        *into = self.nodes[n as usize];
    }
}

impl NodesMut for NodeTable {
    ghost Kept = { Unit {0} };

    ghost kept = { λ s. tt };

    fn write(&mut self, n: u32, from: &[u8; 512]) -> Result<(), AllocError> {
        self.nodes[n as usize] = *from;
        Ok(())
    }
}

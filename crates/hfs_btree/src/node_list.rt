//! A list of nodes.

ghost use Rattle.std.specs.Prelude.{◌<◌, ◌^◌, length};

use crate::nodes::Nodes;

/// Nodes in memory, one after the other.
#[derive(Clone, Copy)]
pub struct NodeList<'a> {
    /// The nodes, counted from 0.
    pub nodes: &'a [[u8; 512]],
    ghost few: { length nodes.now < 2 ^ 32 },
}

impl Nodes for NodeList<'_> {
    ghost nodes = { λ s. s.nodes.now };

    fn count(&self) -> u32 {
        self.nodes.len() as u32
    }

    fn read(&self, n: u32, into: &mut [u8; 512]) {
        *into = self.nodes[n as usize];
    }
}

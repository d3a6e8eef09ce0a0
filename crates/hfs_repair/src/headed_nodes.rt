//! The nodes of a tree with another header node.

ghost use Rattle.std.specs.Prelude.{◌≡◌, ◌<◌, length};
ghost use Rattle.hfs_repair.specs.Recounted.{with_head};

use hfs_btree::Nodes;

/// The nodes of a tree's file, with other bytes in place of node 0.
#[derive(Drop)]
pub(crate) struct HeadedNodes<'a, N: Nodes> {
    /// The nodes of the file.
    pub(crate) nodes: &'a N,
    /// The bytes in place of node 0.
    pub(crate) head: [u8; 512],
    ghost some: { 0 < length (N.nodes nodes.now) },
}

impl<N: Nodes> Nodes for HeadedNodes<'_, N> {
    ghost nodes = { λ s. with_head (N.nodes s.nodes.now) s.head };

    fn count(&self) -> u32 {
        self.nodes.count()
    }

    fn read(&self, n: u32, into: &mut [u8; 512]) {
        if n == 0 {
            *into = self.head;
        } else {
            self.nodes.read(n, into);
        }
    }
}

//! The nodes of a file that lies in runs of blocks.

ghost use Rattle.std.specs.Prelude.{◌≡◌, length};
ghost use Rattle.hfs_blocks.specs.Blocks.{nodes_in, AreRunsWithin};

use crate::nodes::Nodes;
use hfs_blocks::{Blocks, Run, block_of};

/// The nodes of a file that lies in runs of blocks: node n is the n-th 512 bytes of the runs in order.
#[derive(Drop)]
pub struct RunNodes<'a, B: Blocks> {
    /// The blocks of the volume.
    pub blocks: &'a B,
    /// The runs of blocks in which the nodes lie, in the order of the nodes.
    pub runs: &'a [Run],
    ghost within: { AreRunsWithin runs.now (B.total blocks.now) },
}

impl<B: Blocks> Nodes for RunNodes<'_, B> {
    ghost nodes = { λ s. nodes_in (B.blocks s.blocks.now) s.runs.now };

    fn count(&self) -> u32 {
        self.runs.iter().map(|run| run.count).sum()
    }

    fn read(&self, n: u32, into: &mut [u8; 512]) {
        self.blocks.block(block_of(self.runs, n), into);
    }
}

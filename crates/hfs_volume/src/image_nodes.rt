//! The nodes of an image's trees.

ghost use Rattle.std.specs.Prelude.{◌≡◌};
ghost use Rattle.hfs_blocks.specs.Blocks.{block_at, block_count, nodes_in, AreRunsWithin};

use crate::image::ImageBlocks;
use hfs_blocks::Run;
use hfs_btree::{Nodes, RunNodes};
use std::marker::Model;

/// The nodes of one of an image's trees, as they are now. Contracts see the list of them.
#[derive(Drop)]
pub(crate) struct ImageNodes<'a> {
    blocks: ImageBlocks<'a>,
    /// The runs of blocks in which the nodes lie, in the order of the nodes.
    runs: &'a [Run],
}

impl<'a> Model for ImageNodes<'a> {
    ghost use Rattle.hfs_blocks.specs.Blocks.{block_at, block_count, nodes_in, AreRunsWithin};
    ghost use Rattle.hfs_btree.specs.Tree.{Store};

    ghost Value = { Store };

    ghost view = { λ t. nodes_in (block_at t.blocks.image.now.current) t.runs.now };

    ghost invariant = { λ t. AreRunsWithin t.runs.now (block_count t.blocks.image.now.current) };
}

impl<'a> ImageNodes<'a> {
    /// The nodes that lie in these runs of blocks.
    pub(crate) fn new(blocks: ImageBlocks<'a>, runs: &'a [Run]) -> ImageNodes<'a>
        requires { AreRunsWithin runs.now (block_count blocks.image.now.current) }
        ensures { result ≡ nodes_in (block_at blocks.entry.image.now.current) runs.now }
    {
        ImageNodes { blocks, runs }
    }
}

impl Nodes for ImageNodes<'_> {
    ghost nodes = { λ t. t };

    fn count(&self) -> u32 {
        let nodes = RunNodes {
            blocks: &self.blocks,
            runs: self.runs,
        };
        nodes.count()
    }

    fn read(&self, n: u32, into: &mut [u8; 512]) {
        let nodes = RunNodes {
            blocks: &self.blocks,
            runs: self.runs,
        };
        nodes.read(n, into);
    }
}

//! The nodes of a file in the blocks of a volume, with a patch over them.

ghost use Rattle.std.specs.Prelude.{ℕ, List};
ghost use Rattle.std.specs.List.{flat_map};
ghost use Rattle.hfs_blocks.specs.Blocks.{run_of, nodes_in, AreRunsWithin};
ghost use Rattle.hfs_btree.specs.Sound.{IsDistinct};
ghost use Rattle.hfs_blocks.specs.declared.run.Run.{Run};
ghost use Rattle.hfs_blocks.specs.Layers.{changes, over};
ghost use Rattle.hfs_btree_edits.specs.Files.{beside, distinct-prop, AreWithin};

use crate::nodes_mut::NodesMut;
use hfs_blocks::{Blocks, Patch, Run, block_of};
use hfs_btree::{Nodes, RunNodes};
use std::alloc::AllocError;

/// The nodes of a file that lies in runs of blocks, read through a patch and written into it.
#[derive(Drop)]
pub struct PatchNodes<'a, B: Blocks> {
    /// The blocks below the patch.
    pub below: &'a B,
    /// The runs of blocks in which the nodes lie, in the order of the nodes.
    pub runs: &'a [Run],
    /// The blocks that were written.
    pub patch: Patch,
    ghost within: { AreRunsWithin runs.now (B.total below.now) },
    ghost different: { IsDistinct (flat_map run_of runs.now) } by { distinct-prop (flat_map run_of runs.now) },
    ghost inside: { AreWithin (changes patch) (B.total below.now) },
}

impl<B: Blocks> Nodes for PatchNodes<'_, B> {
    ghost nodes = { λ s. nodes_in (over (changes s.patch) (B.blocks s.below.now)) s.runs.now };

    fn count(&self) -> u32 {
        let blocks = self.patch.over(self.below);
        let nodes = RunNodes {
            blocks: &blocks,
            runs: self.runs,
        };
        nodes.count()
    }

    fn read(&self, n: u32, into: &mut [u8; 512]) {
        let blocks = self.patch.over(self.below);
        let nodes = RunNodes {
            blocks: &blocks,
            runs: self.runs,
        };
        nodes.read(n, into);
    }
}

impl<B: Blocks> NodesMut for PatchNodes<'_, B> {
    ghost Kept = { B × List Run × (ℕ → List ℕ) };

    ghost kept = { λ s. (s.below.now, s.runs.now, beside (flat_map run_of s.runs.now) (over (changes s.patch) (B.blocks s.below.now))) };

    fn write(&mut self, n: u32, from: &[u8; 512]) -> Result<(), AllocError> {
        let block = block_of(self.runs, n);
        self.patch.put(block, from)?;
        Ok(())
    }
}

//! The file of a tree, and the tree apart from its two counts.

ghost use Rattle.std.specs.Prelude.{IfOk};
ghost use Rattle.hfs_check.specs.Sound.{IsMdbSound};
ghost use Rattle.hfs_repair.specs.Opened.{IsTreeAnswer};

use crate::right_counts::{RightCounts, right_counts};
use hfs_blocks::{Blocks, Run};
use hfs_btree::{Key, RunNodes};
use hfs_fields::{Extent, Mdb};
use hfs_space::{is_tree_file, tree_runs};
use std::alloc::{AllocError, Global};

/// Where a tree lies, and its two counts.
#[derive(Drop)]
pub(crate) struct TreeFile {
    /// The runs of its nodes, in order.
    pub(crate) runs: Vec<Run>,
    /// The two counts of its header record.
    pub(crate) counts: RightCounts,
}

/// The tree in a file of `size` bytes in these extents, if the file lies in the volume and the tree has its shape apart from the
/// counts of its header record. None exactly when it doesn't, or hasn't. Fails only when out of memory.
#[tactic(auto, using(crate::proofs::Openings::extents_within))]
pub(crate) fn tree_file<K: Key, B: Blocks>(
    alloc: Global,
    blocks: &B,
    mdb: &Mdb,
    extents: &[Extent],
    size: u32,
) -> Result<Option<TreeFile>, AllocError>
    requires { IsMdbSound (B.total blocks.now) mdb.now }
    ensures { IfOk result
        (IsTreeAnswer K.Key (B.total blocks.now) (B.blocks blocks.now) mdb.now extents.now size) }
{
    if !is_tree_file(mdb, extents, size) {
        return Ok(None);
    }
    let runs = tree_runs(alloc, blocks, mdb, extents, size)?;
    let nodes = RunNodes {
        blocks,
        runs: &runs,
    };
    match right_counts::<K, RunNodes<'_, B>>(alloc, &nodes, size)? {
        Some(counts) => Ok(Some(TreeFile { runs, counts })),
        None => Ok(None),
    }
}

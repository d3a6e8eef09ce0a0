//! The extents tree of a volume, apart from its two counts.

ghost use Rattle.std.specs.Prelude.{◌≡◌, true, false, Option, IfOk};
ghost use Rattle.hfs_space.specs.TreeKeys.{ext_keys};
ghost use Rattle.hfs_check.specs.Answers.{Answers};
ghost use Rattle.hfs_check.specs.declared.mount_fault.MountFault as fault;
ghost use Rattle.hfs_check.specs.Sound.{IsMdbSound};
ghost use Rattle.hfs_repair.specs.Opened as spec;
ghost use Rattle.hfs_repair.specs.Opened.{AreRightCounts, IsRight, IsExtentsAnswer};

use crate::headed_nodes::HeadedNodes;
use crate::right_counts::RightCounts;
use crate::tree_file::{TreeFile, tree_file};
use hfs_blocks::Blocks;
use hfs_btree::{Nodes, RunNodes};
use hfs_check::{MountFault, check_extents_tree};
use hfs_fields::{ExtKey, Mdb};
use std::alloc::{AllocError, Global};

/// Whether a check found nothing wrong. Fails only when out of memory.
pub(crate) fn is_right(answer: Result<(), MountFault>) -> Result<bool, AllocError>
    ensures { (found : Option fault.MountFault) → Answers found answer
        → IfOk result (IsRight found) }
{
    match answer {
        Ok(()) => Ok(true),
        Err(MountFault::Memory) => Err(AllocError),
        Err(_) => Ok(false),
    }
}

/// Whether an extents tree in a file of `size` bytes has only keys of data and resource forks, and is in order.
fn are_in_order<N: Nodes>(
    alloc: Global,
    nodes: &N,
    counts: &RightCounts,
    size: u32,
) -> Result<bool, AllocError>
    requires { AreRightCounts ext_keys size (N.nodes nodes.now) counts.now }
    ensures { IfOk result (λ right. right ≡ spec.are_extents_in_order (N.nodes nodes.now)) }
{
    let headed = HeadedNodes {
        nodes,
        head: counts.head,
    };
    is_right(check_extents_tree(alloc, &headed, size))
}

/// The extents tree, if its file lies in the volume and it is right apart from its two counts. None exactly when it isn't. Fails
/// only when out of memory.
pub(crate) fn extents_tree<B: Blocks>(
    alloc: Global,
    blocks: &B,
    mdb: &Mdb,
) -> Result<Option<TreeFile>, AllocError>
    requires { IsMdbSound (B.total blocks.now) mdb.now }
    ensures { IfOk result (IsExtentsAnswer (B.total blocks.now) (B.blocks blocks.now) mdb.now) }
{
    let size = mdb.extents_file_size;
    let Some(tree) = tree_file::<ExtKey, B>(alloc, blocks, mdb, &mdb.extents_file, size)? else {
        return Ok(None);
    };
    let nodes = RunNodes {
        blocks,
        runs: &tree.runs,
    };
    if are_in_order(alloc, &nodes, &tree.counts, size)? {
        Ok(Some(tree))
    } else {
        Ok(None)
    }
}

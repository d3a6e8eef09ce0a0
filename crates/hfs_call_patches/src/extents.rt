//! The extents of a fork, before it changes.

ghost use Rattle.std.specs.Prelude.{IfOk};
ghost use Rattle.hfs_check.specs.Sound.{AreBlocksSound};
ghost use Rattle.hfs_call_patches.specs.TreeFiles.{IsExtentsFile};
ghost use Rattle.hfs_call_patches.specs.Extents.{AreExtentsOf};

use crate::records::{fork_of, kind_of};
use hfs_blocks::{Blocks, Run};
use hfs_btree::RunNodes;
use hfs_fields::{Extent, FileRecord};
use hfs_model::Fork;
use hfs_space::fork_extents;
use std::alloc::{AllocError, Global};

/// All extents of a file's fork in a sound volume, given the runs of its extents tree. Fails only when out of memory.
pub(crate) fn extents_of<B: Blocks>(
    alloc: Global,
    blocks: &B,
    runs: &[Run],
    file: &FileRecord,
    fork: Fork,
) -> Result<Vec<Extent>, AllocError>
    requires sound { AreBlocksSound (B.total blocks.now) (B.blocks blocks.now) }
    requires file { IsExtentsFile runs.now (B.total blocks.now) (B.blocks blocks.now) }
    ensures { IfOk result (AreExtentsOf (B.blocks blocks.now) fork file.now) }
{
    let nodes = RunNodes { blocks, runs };
    let first = fork_of(fork, file).extents;
    fork_extents(alloc, &nodes, file.id, kind_of(fork), &first)
}

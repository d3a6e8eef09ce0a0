//! The counts in a tree's header record.

ghost use Rattle.std.specs.Prelude.{OnOk};
ghost use Rattle.hfs_blocks.specs.Blocks.{AreRunsWithin};
ghost use Rattle.hfs_repair.specs.Opened.{HasRightCounts};
ghost use Rattle.hfs_repair.specs.Placed.{AddsWrong, placed_in_head};

use crate::fixed::FixPlace;
use crate::tree_file::TreeFile;
use crate::wrong_number::{WrongNumber, push_long};
use hfs_blocks::{Blocks, block_of};
use hfs_btree::{Key, Nodes, RunNodes};
use hfs_fields::u16_at;
use std::alloc::AllocError;

/// Adds those of the two counts in a tree's header record that are wrong; a repair reports them with these places.
pub(crate) fn push_header_numbers<K: Key, B: Blocks>(
    wrong: &mut Vec<WrongNumber>,
    records: FixPlace,
    free: FixPlace,
    blocks: &B,
    tree: &TreeFile,
) -> Result<(), AllocError>
    requires within { AreRunsWithin tree.now.runs.items (B.total blocks.now) }
    requires right { HasRightCounts K.Key (B.blocks blocks.now) tree.now }
    ensures { OnOk result (AddsWrong wrong.old.items wrong.new.items
        (placed_in_head K.Key records free (B.blocks blocks.now) tree.now.runs.items)) }
{
    let nodes = RunNodes {
        blocks,
        runs: &tree.runs,
    };
    let mut bytes = [0; 512];
    nodes.read(0, &mut bytes);
    let start = 512 * block_of(&tree.runs, 0) as usize + u16_at(&bytes, 510) as usize;
    let counts = &tree.counts;
    push_long(
        wrong,
        records,
        counts.header.records,
        counts.records as usize,
        start + 6,
    )?;
    push_long(
        wrong,
        free,
        counts.header.free_nodes,
        counts.free_nodes as usize,
        start + 26,
    )
}

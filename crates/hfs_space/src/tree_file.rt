//! Where the nodes of a tree's file lie.

ghost use Rattle.std.specs.Prelude.{◌≡◌, ◌+◌, ◌*◌, ◌<◌, ◌≤◌, IfOk, min, take};
ghost use Rattle.hfs_blocks.specs.Blocks.{run_of, nodes_in, AreRunsWithin};
ghost use Rattle.hfs_space.specs.Extents.{IsExtentWithin, AreExtentsWithin};
ghost use Rattle.hfs_space.specs.Forks.{HasArea, run_in, blocks_each};
ghost use Rattle.hfs_space.specs.TreeFiles.{HaveTreeBlocks, HoldTreeNodes};

use hfs_blocks::{Blocks, Run};
use hfs_fields::{Extent, Mdb};
use std::alloc::{AllocError, Global};

/// The first blocks of an extent, no more than `most`.
fn first_blocks<B: Blocks>(blocks: &B, mdb: &Mdb, extent: Extent, most: u32) -> Run
    requires area { HasArea mdb.now (B.total blocks.now) }
    requires within { IsExtentWithin mdb.now.allocation_blocks extent }
    ensures run { run_of result ≡ take most (run_of (run_in mdb.now extent)) }
    ensures count { result.count ≡ min most (extent.count * blocks_each mdb.now) }
    ensures inside { result.first + result.count ≤ B.total blocks.now }
{
    if extent.count == 0 {
        return Run {
            first: 0,
            count: 0,
            before: 0,
        };
    }
    let each = mdb.allocation_block_size / 512;
    Run {
        first: u32::from(mdb.allocation_start) + u32::from(extent.first) * each,
        count: most.min(u32::from(extent.count) * each),
        before: 0,
    }
}

/// The runs of logical blocks that hold the nodes of a tree's file, in order: those of its extents that have blocks, cut where
/// the file of `size` bytes (drXTFlSize, drCTFlSize) ends. Fails only when out of memory.
///
/// Source: Inside Macintosh: Files, chapter 2, 'B*-trees'.
#[tactic(auto, unfolding(crate::specs::TreeFiles::tree_nodes))]
pub fn tree_runs<B: Blocks>(
    alloc: Global,
    blocks: &B,
    mdb: &Mdb,
    extents: &[Extent],
    size: u32,
) -> Result<Vec<Run>, AllocError>
    requires area { HasArea mdb.now (B.total blocks.now) }
    requires extents { AreExtentsWithin mdb.now.allocation_blocks extents.now }
    ensures within { IfOk result (λ runs. AreRunsWithin runs.items (B.total blocks.now)) }
    ensures numbers { IfOk result (HaveTreeBlocks mdb.now extents.now size) }
    ensures nodes { IfOk result (HoldTreeNodes (B.blocks blocks.now) mdb.now extents.now size) }
{
    let mut runs = Vec::new(alloc);
    let nodes = size.div_ceil(512);
    let mut rest = nodes;
    for extent in extents {
        let run = first_blocks(blocks, mdb, *extent, rest);
        if run.count > 0 {
            runs.push(Run {
                before: nodes - rest,
                ..run
            })?;
            rest -= run.count;
        }
    }
    Ok(runs)
}

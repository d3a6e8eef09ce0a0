//! How many owners each allocation block has.
ghost use Rattle.std.specs.Prelude.{◌≡◌, ◌==◌, map, count_by};
ghost use Rattle.std.specs.List.{range_with_len};
ghost use Rattle.hfs_space.specs.Extents.{extent_blocks};
ghost use Rattle.hfs_space.specs.Owners as spec;
ghost use Rattle.hfs_space.specs.Edges as edges;
ghost use Rattle.hfs_space.specs.Results.{GivesItems};

use hfs_fields::Extent;
use std::alloc::{AllocError, Global};

/// Which edge of an extent.
#[derive(Clone, Copy)]
pub(crate) enum Edge {
    /// Its first block.
    First,
    /// The block after its last.
    Behind,
}

/// The first block of an extent, or the one after its last.
fn block_at(extent: Extent, edge: Edge) -> u32
    ensures { result ≡ edges.block_at edge extent }
{
    match edge {
        Edge::First => u32::from(extent.first),
        Edge::Behind => u32::from(extent.first) + u32::from(extent.count),
    }
}

/// How many extents have that edge at each of the first `blocks` allocation blocks.
fn edge_counts(
    alloc: Global,
    blocks: u16,
    extents: &[Extent],
    edge: Edge,
) -> Result<Vec<usize>, AllocError>
    ensures { GivesItems (edges.edge_counts edge extents.now blocks) result }
{
    let mut counts = vec![in alloc; 0; usize::from(blocks)]?;
    for extent in extents {
        let block = block_at(*extent, edge) as usize;
        if block < counts.len() {
            counts[block] += 1;
        }
    }
    Ok(counts)
}

/// How many of the extents have each of the first `blocks` allocation blocks. The work is going through the extents once and
/// through the blocks once, however many blocks the extents have.
pub(crate) fn owner_counts(
    alloc: Global,
    blocks: u16,
    extents: &[Extent],
) -> Result<Vec<usize>, AllocError>
    ensures { GivesItems (spec.owner_counts (extent_blocks extents.now) blocks) result }
{
    let first = edge_counts(alloc, blocks, extents, Edge::First)?;
    let behind = edge_counts(alloc, blocks, extents, Edge::Behind)?;
    let mut counts = Vec::with_capacity(alloc, usize::from(blocks))?;
    let mut count = 0;
    for block in 0..usize::from(blocks) {
        count = count + first[block] - behind[block];
        counts.push(count)?;
    }
    Ok(counts)
}

//! Reading forks.

ghost use Rattle.std.specs.Prelude.{◌+◌, ◌-◌, ◌*◌, ◌<◌, ◌≤◌, length, OnOk, IfOk, take};
ghost use Rattle.hfs_blocks.specs.Blocks.{run_of};
ghost use Rattle.hfs_space.specs.Extents.{IsExtentWithin, AreExtentsWithin};
ghost use Rattle.hfs_space.specs.Forks.{HasArea, blocks_each, run_bytes, extent_bytes, fork_bytes, read_from, Gains, AddsPart, IsRead};
ghost use Rattle.hfs_space.specs.Places.{IsPlace, HasRead, HasPassed};

use crate::fork_place::ForkPlace;
use hfs_blocks::{Blocks, Run};
use hfs_fields::{Extent, Mdb};
use std::alloc::{AllocError, Global};

/// Appends the bytes of a run of blocks from `from` up to `end`. Reads only the blocks that have one of them.
fn read_run<B: Blocks>(
    blocks: &B,
    run: Run,
    from: u64,
    end: u64,
    bytes: &mut Vec<u8>,
) -> Result<(), AllocError>
    requires within { run.first + run.count ≤ B.total blocks.now }
    requires order { from ≤ end }
    requires fits { end ≤ 512 * run.count }
    ensures { OnOk result (AddsPart (B.blocks blocks.now) run from end bytes.old bytes.new) }
{
    let mut block = [0; 512];
    let mut at = from;
    while at < end {
        blocks.block(run.first + (at / 512) as u32, &mut block);
        let start = (at % 512) as usize;
        let stop = (end - at).min((512 - start) as u64) as usize + start;
        bytes.extend_from_slice(&block[start..stop])?;
        at += (stop - start) as u64;
    }
    Ok(())
}

/// Appends `count` bytes of an extent's blocks, from `from` on.
fn read_extent<B: Blocks>(
    blocks: &B,
    mdb: &Mdb,
    extent: Extent,
    from: u64,
    count: u64,
    bytes: &mut Vec<u8>,
) -> Result<(), AllocError>
    requires area { HasArea mdb.now (B.total blocks.now) }
    requires within { IsExtentWithin mdb.now.allocation_blocks extent }
    requires fits { from + count ≤ 512 * (extent.count * blocks_each mdb.now) }
    ensures { Gains result (B.blocks blocks.now) mdb.now extent from count bytes.old bytes.new }
{
    if count == 0 {
        return Ok(());
    }
    let each = mdb.allocation_block_size / 512;
    let run = Run {
        first: u32::from(mdb.allocation_start) + u32::from(extent.first) * each,
        count: u32::from(extent.count) * each,
        before: 0,
    };
    read_run(blocks, run, from, from + count, bytes)
}

/// Bytes of a fork with these extents and this logical length in bytes: `count` of them from `offset` on, or as many as there
/// are. Sums are taken in 64 bits. Reads only the blocks that have one of these bytes. Fails only when out of memory.
///
/// Source: Inside Macintosh: Files, chapter 2, 'Extents overflow file'.
pub fn read_fork<B: Blocks>(
    alloc: Global,
    blocks: &B,
    mdb: &Mdb,
    extents: &[Extent],
    length: u32,
    offset: u32,
    count: u32,
) -> Result<Vec<u8>, AllocError>
    requires area { HasArea mdb.now (B.total blocks.now) }
    requires extents { AreExtentsWithin mdb.now.allocation_blocks extents.now }
    ensures { IfOk result (IsRead (B.blocks blocks.now) mdb.now extents.now length offset count) }
{
    let end = u64::from(length).min(u64::from(offset) + u64::from(count));
    let mut skip = u64::from(offset);
    let mut rest = end.saturating_sub(skip);
    let mut bytes = Vec::with_capacity(alloc, rest as usize)?;
    let each = u64::from(mdb.allocation_block_size / 512);
    for extent in extents {
        let size = u64::from(extent.count) * each * 512;
        let passed = skip.min(size);
        let more = rest.min(size - passed);
        read_extent(blocks, mdb, *extent, passed, more, &mut bytes)?;
        skip -= passed;
        rest -= more;
    }
    Ok(bytes)
}

/// Reads on from a place in the bytes of a fork's extents: the next `count` bytes, or as many as there are, and the place after
/// them. Reading a fork piece by piece goes through each of its extents once. Fails only when out of memory.
pub fn read_on<B: Blocks>(
    alloc: Global,
    blocks: &B,
    mdb: &Mdb,
    extents: &[Extent],
    place: ForkPlace,
    count: u32,
) -> Result<(Vec<u8>, ForkPlace), AllocError>
    requires area { HasArea mdb.now (B.total blocks.now) }
    requires extents { AreExtentsWithin mdb.now.allocation_blocks extents.now }
    requires place { IsPlace mdb.now extents.now place }
    ensures bytes { IfOk result (HasRead (B.blocks blocks.now) mdb.now extents.now place count) }
    ensures place { IfOk result (λ read. IsPlace mdb.now extents.now read.1) }
    ensures rest { IfOk result (HasPassed (B.blocks blocks.now) mdb.now extents.now place count) }
{
    let each = u64::from(mdb.allocation_block_size / 512);
    let mut bytes = Vec::with_capacity(alloc, count as usize)?;
    let mut rest = u64::from(count);
    let mut at = place;
    while at.extent < extents.len() {
        let extent = extents[at.extent];
        let size = u64::from(extent.count) * each * 512;
        let more = rest.min(size - at.passed);
        read_extent(blocks, mdb, extent, at.passed, more, &mut bytes)?;
        rest -= more;
        at.passed += more;
        if at.passed < size {
            return Ok((bytes, at));
        }
        at = ForkPlace {
            extent: at.extent + 1,
            passed: 0,
        };
    }
    Ok((bytes, at))
}

//! Bytes of extents, starting at any offset.

ghost use Rattle.std.specs.Prelude.{◌≡◌, ◌-◌, ◌*◌};
ghost use Rattle.hfs_space.specs.Extents.{block_total, AreExtentsWithin};
ghost use Rattle.hfs_space.specs.Forks.{HasArea, blocks_each};
ghost use Rattle.hfs_volume.specs.ForkParts.{GivesExtentBytes};

use hfs_blocks::Blocks;
use hfs_fields::{Extent, Mdb};
use hfs_space::{ForkPlace, read_on};
use std::alloc::{AllocError, Global};

/// How many of the first `wanted` bytes lie past the blocks of these extents.
fn lacking(mdb: &Mdb, extents: &[Extent], wanted: u64) -> u64
    ensures { result ≡ wanted - 512 * (block_total extents.now * blocks_each mdb.now) }
{
    let each = u64::from(mdb.allocation_block_size / 512);
    let mut left = wanted;
    for extent in extents {
        let size = u64::from(extent.count) * each * 512;
        left = left.saturating_sub(size);
    }
    left
}

/// The bytes of these extents' blocks, one extent after the other: `count` of them from `offset` on, or as many as there are.
/// Fails only when out of memory.
pub(crate) fn read_extents<B: Blocks>(
    alloc: Global,
    blocks: &B,
    mdb: &Mdb,
    extents: &[Extent],
    offset: u32,
    count: u32,
) -> Result<Vec<u8>, AllocError>
    requires area { HasArea mdb.now (B.total blocks.now) }
    requires extents { AreExtentsWithin mdb.now.allocation_blocks extents.now }
    ensures { GivesExtentBytes (B.blocks blocks.now) mdb.now extents.now offset count result }
{
    let each = u64::from(mdb.allocation_block_size / 512);
    let lack = lacking(mdb, extents, u64::from(offset) + u64::from(count));
    let there = u64::from(count).saturating_sub(lack) as u32;
    let mut place = ForkPlace {
        extent: 0,
        passed: u64::from(offset),
    };
    while place.extent < extents.len() {
        let size = u64::from(extents[place.extent].count) * each * 512;
        if place.passed < size {
            let (bytes, _behind) = read_on(alloc, blocks, mdb, extents, place, there)?;
            return Ok(bytes);
        }
        place = ForkPlace {
            extent: place.extent + 1,
            passed: place.passed - size,
        };
    }
    Ok(Vec::new(alloc))
}

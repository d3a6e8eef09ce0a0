//! The free blocks that are added to a fork.

ghost use Rattle.std.specs.Prelude.{◌≡◌, ◌+◌, ◌<◌, ◌≤◌, IfOk};
ghost use Rattle.hfs_space.specs.Bitmap.{bitmap_len};
ghost use Rattle.hfs_space.specs.Extents.{block_total, AreExtentsWithin};
ghost use Rattle.hfs_model.specs.declared.journal.Want.TheVariants as want;
ghost use Rattle.hfs_call_patches.specs.Room as spec;

use hfs_blocks::Blocks;
use hfs_fields::{Extent, Mdb};
use hfs_model::Want;
use hfs_record_edits::lengthen;
use hfs_space::{Bitmap, Room, blocks_that_come};
use std::alloc::{AllocError, Global};

/// The blocks that are added to a fork, as pieces in order, and all extents that it then has.
#[derive(Drop)]
pub(crate) struct Growing {
    pub pieces: Vec<Extent>,
    pub extents: Vec<Extent>,
}

/// How many blocks the extents have.
pub(crate) fn block_count(extents: &[Extent]) -> u16
    requires { block_total extents.now < 65536 }
    ensures { result ≡ block_total extents.now }
{
    extents.iter().map(|extent| extent.count).sum()
}

/// The block directly after the last one of a fork with these extents; None if they have none.
fn block_after(extents: &[Extent]) -> Option<u16>
    requires { AreExtentsWithin 65535 extents.now }
    ensures { result ≡ spec.block_after extents.now }
{
    let mut after = None;
    for i in 0..extents.len() {
        let extent = extents[i];
        if extent.count > 0 {
            after = Some(extent.first + extent.count);
        }
    }
    after
}

/// The free blocks of a volume that are added to a fork with these extents, which wants this many more, or how many are free if
/// these are fewer. The only other error is running out of memory.
pub(crate) fn pieces_for<B: Blocks>(
    alloc: Global,
    blocks: &B,
    mdb: &Mdb,
    extents: &[Extent],
    wanted: u32,
) -> Result<Result<Vec<Extent>, Room>, AllocError>
    requires bitmap { mdb.now.bitmap_start + bitmap_len mdb.now.allocation_blocks
        ≤ B.total blocks.now }
    requires within { AreExtentsWithin 65535 extents.now }
    ensures choice { IfOk result
        (spec.GivesPieces (B.blocks blocks.now) mdb.now extents.now wanted) }
    ensures free { IfOk result (spec.GivesFree (B.blocks blocks.now) mdb.now wanted) }
{
    let bitmap = Bitmap {
        blocks,
        start: mdb.bitmap_start,
        count: mdb.allocation_blocks,
    };
    blocks_that_come(alloc, &bitmap, block_after(extents), wanted)
}

/// What is reported if fewer blocks are free than are wanted.
fn room_wanted(room: Room) -> Want
    ensures { result ≡ want.Room room.free room.wanted }
{
    Want::Room {
        free: room.free,
        wanted: room.wanted,
    }
}

/// The free blocks that are added to a fork with these extents, which wants this many more, and its extents with them; or the
/// lack of blocks. The only other error is running out of memory.
pub(crate) fn find_growing<B: Blocks>(
    alloc: Global,
    blocks: &B,
    mdb: &Mdb,
    extents: Vec<Extent>,
    wanted: u32,
) -> Result<Result<Growing, Want>, AllocError>
    requires bitmap { mdb.now.bitmap_start + bitmap_len mdb.now.allocation_blocks
        ≤ B.total blocks.now }
    requires within { AreExtentsWithin 65535 extents.items }
    requires few { mdb.now.allocation_blocks ≤ 65535 }
    ensures { IfOk result
        (spec.GivesGrowing (B.blocks blocks.now) mdb.now extents.items wanted) }
{
    let pieces = match pieces_for(alloc, blocks, mdb, &extents, wanted)? {
        Ok(pieces) => pieces,
        Err(room) => return Ok(Err(room_wanted(room))),
    };
    let mut all = extents;
    lengthen(&mut all, &pieces)?;
    Ok(Ok(Growing {
        pieces,
        extents: all,
    }))
}

//! The check of mounting on who owns the allocation blocks.
ghost use Rattle.std.specs.Prelude.{◌≡◌, ◌+◌, ◌<◌, ◌≤◌, ◌==◌, ◌&&◌, ◌||◌};
ghost use Rattle.hfs_space.specs.Bitmap.{bitmap_len, is_allowed, is_stray};
ghost use Rattle.hfs_space.specs.Extents.{extent_blocks};
ghost use Rattle.hfs_space.specs.Faults as spec;
ghost use Rattle.hfs_space.specs.Results.{Gives};

use crate::bitmap::Bitmap;
use crate::owners::owner_counts;
use hfs_blocks::Blocks;
use hfs_fields::{Extent, Mdb};
use std::alloc::{AllocError, Global};

/// Whether a block with this mark and this many owners is sound: it has none, or it has one and is marked.
fn is_sound(marked: bool, owners: usize) -> bool
    ensures { result ≡ is_allowed marked owners }
{
    owners == 0 || (owners == 1 && marked)
}

/// Whether a block with this mark and this many owners is marked and has none.
fn is_stray(marked: bool, owners: usize) -> bool
    ensures { result ≡ is_stray marked owners }
{
    owners == 0 && marked
}

/// The first fault of a volume's space; `owned` are all extents that have an owner: those of the files' forks, of the catalog
/// file, of the extents file and of the bad blocks. It is the first allocation block that has two owners, or that has one and
/// isn't marked in the bitmap; if there is none, but drFreeBks isn't the number of clear bits, it is the number of allocation
/// blocks. A block may be marked without an owner. Fails only when out of memory.
///
/// Source: Inside Macintosh: Files, chapter 2, 'Volume bitmap'.
#[tactic(auto, unfolding(crate::specs::Faults::space_fault))]
pub fn space_fault<B: Blocks>(
    alloc: Global,
    blocks: &B,
    mdb: &Mdb,
    owned: &[Extent],
) -> Result<Option<u32>, AllocError>
    requires { mdb.now.bitmap_start + bitmap_len mdb.now.allocation_blocks ≤ B.total blocks.now }
    ensures { Gives (spec.space_fault_with (B.blocks blocks.now) mdb.now owned.now) result }
{
    let bitmap = Bitmap {
        blocks,
        start: mdb.bitmap_start,
        count: mdb.allocation_blocks,
    };
    let marks = bitmap.marks(alloc)?;
    let counts = owner_counts(alloc, mdb.allocation_blocks, owned)?;
    for block in 0..mdb.allocation_blocks {
        let place = usize::from(block);
        let sound = is_sound(marks[place], counts[place]);
        if !sound {
            return Ok(Some(u32::from(block)));
        }
    }
    if bitmap.free_count() == u32::from(mdb.free_blocks) {
        Ok(None)
    } else {
        Ok(Some(u32::from(mdb.allocation_blocks)))
    }
}

/// How many allocation blocks are marked in the bitmap but have no owner; `owned` are all extents that have one. Fails only when
/// out of memory.
pub fn stray_count<B: Blocks>(
    alloc: Global,
    blocks: &B,
    mdb: &Mdb,
    owned: &[Extent],
) -> Result<u32, AllocError>
    requires { mdb.now.bitmap_start + bitmap_len mdb.now.allocation_blocks ≤ B.total blocks.now }
    ensures { Gives (spec.strays_with (B.blocks blocks.now) mdb.now owned.now) result }
{
    let bitmap = Bitmap {
        blocks,
        start: mdb.bitmap_start,
        count: mdb.allocation_blocks,
    };
    let marks = bitmap.marks(alloc)?;
    let counts = owner_counts(alloc, mdb.allocation_blocks, owned)?;
    let mut strays = 0;
    for block in 0..mdb.allocation_blocks {
        let place = usize::from(block);
        let stray = is_stray(marks[place], counts[place]);
        if stray {
            strays += 1;
        }
    }
    Ok(strays)
}

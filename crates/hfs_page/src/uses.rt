//! What each block is used for.
ghost use Rattle.std.specs.Prelude.{◌≡◌, ◌+◌, ◌≤◌, ◌<◌, IfOk, OnOk, length, map};
ghost use Rattle.std.specs.List.{range_with_len};
ghost use Rattle.hfs_space.specs.Bitmap.{is_used, bitmap_len};
ghost use Rattle.hfs_page.specs.Uses.{AreLaid, AreUsed, block_uses, unowned};

use crate::parts::{BlockUse, Holding, Part};
use hfs_blocks::Blocks;
use hfs_space::Bitmap;
use std::alloc::{AllocError, Global};

/// What a block without an owner is.
fn unowned(is_marked: bool) -> BlockUse
    ensures { result ≡ unowned is_marked }
{
    BlockUse {
        part: if is_marked { Part::Stray } else { Part::Free },
        fork: None,
    }
}

/// What the blocks are by their marks alone.
fn marked_uses<B: Blocks>(
    alloc: Global,
    bitmap: &Bitmap<'_, B>,
) -> Result<Vec<BlockUse>, AllocError>
    ensures { IfOk result (λ uses. uses.items ≡ map
        (λ block. unowned (is_used (B.blocks bitmap.now.blocks.now) bitmap.now.start block))
        (range_with_len 0 bitmap.now.count)) }
{
    let mut uses = Vec::with_capacity(alloc, usize::from(bitmap.count))?;
    for block in 0..bitmap.count {
        uses.push(unowned(bitmap.is_used(block)))?;
    }
    Ok(uses)
}

/// Sets the blocks of an extent.
fn lay(uses: &mut [BlockUse], holding: &Holding)
    ensures len { length uses.new ≡ length uses.old }
    ensures laid { AreLaid holding.now uses.old uses.new }
{
    let first = usize::from(holding.extent.first);
    let end = uses.len().min(first + usize::from(holding.extent.count));
    for block in first..end {
        uses[block] = holding.used;
    }
}

/// Sets the blocks of all extents; if two extents have the same block, the first counts.
pub fn lay_all(uses: &mut [BlockUse], holdings: &[Holding])
    ensures len { length uses.new ≡ length uses.old }
    ensures used { AreUsed holdings.now uses.old uses.new }
{
    let mut left = holdings.len();
    while left > 0 {
        left -= 1;
        lay(uses, &holdings[left]);
    }
}

/// What each allocation block is used for, by all extents of the volume and by its bitmap. The work is that of the blocks and of
/// the extents. Fails only when out of memory.
#[tactic(auto, unfolding(crate::specs::Uses::block_uses))]
pub fn block_uses<B: Blocks>(
    alloc: Global,
    bitmap: &Bitmap<'_, B>,
    holdings: &[Holding],
) -> Result<Vec<BlockUse>, AllocError>
    ensures { IfOk result (λ uses. uses.items ≡ block_uses holdings.now
        (is_used (B.blocks bitmap.now.blocks.now) bitmap.now.start) bitmap.now.count) }
{
    let mut uses = marked_uses(alloc, bitmap)?;
    lay_all(&mut uses, holdings);
    Ok(uses)
}

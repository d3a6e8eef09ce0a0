//! The bits of a fork's blocks in the volume bitmap, over a patch of a volume's blocks.

ghost use Rattle.std.specs.Prelude.{◌+◌, ◌≤◌, IfOk};
ghost use Rattle.hfs_blocks.specs.Layers.{changes, AreWithin};
ghost use Rattle.hfs_space.specs.Bitmap.{bitmap_len};
ghost use Rattle.hfs_space.specs.Extents.{AreExtentsWithin};
ghost use Rattle.hfs_call_patches.specs.Bits.{ClaimsOver, ReleasesOver};

use hfs_blocks::{Blocks, Patch};
use hfs_fields::{Extent, Mdb};
use hfs_record_edits::release_extents;
use hfs_space::{Bitmap, claim_extents};
use std::alloc::AllocError;

/// The patch in which the bits of the extents' blocks are set. Fails only when out of memory.
pub(crate) fn claim_over<B: Blocks>(
    below: &B,
    mdb: &Mdb,
    patch: Patch,
    extents: &[Extent],
) -> Result<Patch, AllocError>
    requires bitmap { mdb.now.bitmap_start + bitmap_len mdb.now.allocation_blocks
        ≤ B.total below.now }
    requires extents { AreExtentsWithin mdb.now.allocation_blocks extents.now }
    requires inside { AreWithin (changes patch) (B.total below.now) }
    ensures claimed { IfOk result (ClaimsOver (B.blocks below.now) mdb.now extents.now patch) }
    ensures inside { IfOk result (λ new. AreWithin (changes new) (B.total below.now)) }
{
    let bitmap = Bitmap {
        blocks: below,
        start: mdb.bitmap_start,
        count: mdb.allocation_blocks,
    };
    let mut bits = patch;
    claim_extents(&bitmap, &mut bits, extents)?;
    Ok(bits)
}

/// The patch in which the bits of the extents' blocks are clear. Fails only when out of memory.
pub(crate) fn release_over<B: Blocks>(
    below: &B,
    mdb: &Mdb,
    patch: Patch,
    extents: &[Extent],
) -> Result<Patch, AllocError>
    requires bitmap { mdb.now.bitmap_start + bitmap_len mdb.now.allocation_blocks
        ≤ B.total below.now }
    requires extents { AreExtentsWithin mdb.now.allocation_blocks extents.now }
    requires inside { AreWithin (changes patch) (B.total below.now) }
    ensures released { IfOk result (ReleasesOver (B.blocks below.now) mdb.now extents.now patch) }
    ensures inside { IfOk result (λ new. AreWithin (changes new) (B.total below.now)) }
{
    let bitmap = Bitmap {
        blocks: below,
        start: mdb.bitmap_start,
        count: mdb.allocation_blocks,
    };
    let mut bits = patch;
    release_extents(&bitmap, &mut bits, extents)?;
    Ok(bits)
}

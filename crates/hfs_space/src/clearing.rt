//! Zeros over part of a fork, which take no memory for whole blocks.

ghost use Rattle.std.specs.Prelude.{ℕ, ◌≡◌, ◌+◌, ◌-◌, ◌*◌, ◌<◌, ◌≤◌, ◌^◌, length, IfOk};
ghost use Rattle.hfs_blocks.specs.Layers.{changes, over, AreWithin};
ghost use Rattle.hfs_space.specs.Extents.{AreExtentsWithin, extent_blocks};
ghost use Rattle.hfs_space.specs.ForkLaws.{block_numbers};
ghost use Rattle.hfs_space.specs.ForkLengths.{all_bytes};
ghost use Rattle.hfs_space.specs.Forks.{HasArea};
ghost use Rattle.hfs_space.specs.Owners.{owners};
ghost use Rattle.hfs_space.specs.Parts.{with_part, zeros};
ghost use Rattle.hfs_space.specs.Clearing.{HaveZeros, KeepOthers, zeroed, patched};
ghost use Rattle.hfs_space.specs.Zeros.{AreAmong};

use crate::forks::clear_part;
use crate::tree_runs;
use crate::zero_runs::{ZeroRuns, runs_from};
use hfs_blocks::{Blocks, Patch};
use hfs_fields::{Extent, Mdb};
use std::alloc::{AllocError, Global};

/// Zeros over part of a fork: whole blocks of zeros, and over them the blocks of which only a part is zeros.
#[derive(Drop)]
pub struct Cleared {
    /// The whole blocks, to be laid over the volume's.
    pub zeros: ZeroRuns,
    /// The other blocks, at most two, to be laid over those.
    pub patch: Patch,
}

/// The fork's blocks from `first` up to `last`, counted from the fork's first, as runs of zeros.
fn whole_blocks<B: Blocks>(
    alloc: Global,
    blocks: &B,
    mdb: &Mdb,
    extents: &[Extent],
    first: u32,
    last: u32,
) -> Result<ZeroRuns, AllocError>
    requires area { HasArea mdb.now (B.total blocks.now) }
    requires extents { AreExtentsWithin mdb.now.allocation_blocks extents.now }
    requires once { (b : ℕ) → owners (extent_blocks extents.now) b ≤ 1 }
    requires order { first ≤ last }
    requires fits { last ≤ length (block_numbers mdb.now extents.now) }
    requires small { 512 * last < 2 ^ 32 }
    ensures written { IfOk result (λ runs. HaveZeros mdb.now extents.now
        (512 * first) (512 * (last - first))
        (B.blocks blocks.now) (zeroed runs (B.blocks blocks.now))) }
    ensures beside { IfOk result (λ runs. KeepOthers mdb.now extents.now
        (512 * first) (512 * (last - first))
        (B.blocks blocks.now) (zeroed runs (B.blocks blocks.now))) }
    ensures among { IfOk result (λ runs. AreAmong runs (B.total blocks.now)) }
{
    let runs = tree_runs(alloc, blocks, mdb, extents, 512 * last)?;
    let whole = runs_from(alloc, &runs, first)?;
    Ok(ZeroRuns::of(whole))
}

/// The bytes of a fork that are zeros, but for whole blocks: `front` bytes from `offset` on, and those from `back` up to `end`.
#[derive(Clone, Copy)]
struct ZeroEnds {
    offset: u32,
    front: u32,
    back: u32,
    end: u32,
}

/// A patch with zeros over these bytes of the fork.
fn two_parts<B: Blocks>(
    alloc: Global,
    blocks: &B,
    mdb: &Mdb,
    extents: &[Extent],
    zeros_at: ZeroEnds,
) -> Result<Patch, AllocError>
    requires area { HasArea mdb.now (B.total blocks.now) }
    requires extents { AreExtentsWithin mdb.now.allocation_blocks extents.now }
    requires once { (b : ℕ) → owners (extent_blocks extents.now) b ≤ 1 }
    requires front { zeros_at.offset + zeros_at.front ≤ zeros_at.end }
    requires from { zeros_at.offset ≤ zeros_at.back }
    requires back { zeros_at.back ≤ zeros_at.end }
    requires fits { zeros_at.end ≤ 512 * length (block_numbers mdb.now extents.now) }
    requires small { zeros_at.end < 2 ^ 32 }
    ensures written { IfOk result (λ patch.
        all_bytes (over (changes patch) (B.blocks blocks.now)) mdb.now extents.now
        ≡ with_part zeros_at.back (zeros (zeros_at.end - zeros_at.back))
        (with_part zeros_at.offset (zeros zeros_at.front)
        (all_bytes (B.blocks blocks.now) mdb.now extents.now))) }
    ensures beside { IfOk result (λ patch. KeepOthers mdb.now extents.now
        zeros_at.offset (zeros_at.end - zeros_at.offset)
        (B.blocks blocks.now) (over (changes patch) (B.blocks blocks.now))) }
    ensures within { IfOk result (λ patch. AreWithin (changes patch) (B.total blocks.now)) }
{
    let ZeroEnds {
        offset,
        front,
        back,
        end,
    } = zeros_at;
    let mut patch = Patch::new(alloc);
    clear_part(alloc, blocks, &mut patch, mdb, extents, offset, front)?;
    clear_part(alloc, blocks, &mut patch, mdb, extents, back, end - back)?;
    Ok(patch)
}

/// Zeros over `count` bytes of the blocks of a fork with these extents, from its byte `offset` on: over those of blocks that are
/// added to it, or over those that it gains when it is lengthened. The fork's other bytes stay, and so do all blocks that have
/// none of these bytes.
///
/// Memory is taken for each run of blocks and for at most two blocks, however many the zeros are. The work is going through the
/// extents once, and sorting those that have zeros.
///
/// Errors: `AllocError` if memory was refused.
///
/// Source: Inside Macintosh: Files, chapter 2, 'Extents overflow file'.
pub fn clear_fork<B: Blocks>(
    alloc: Global,
    blocks: &B,
    mdb: &Mdb,
    extents: &[Extent],
    offset: u32,
    count: u32,
) -> Result<Cleared, AllocError>
    requires area { HasArea mdb.now (B.total blocks.now) }
    requires extents { AreExtentsWithin mdb.now.allocation_blocks extents.now }
    requires once { (b : ℕ) → owners (extent_blocks extents.now) b ≤ 1 }
    requires fits { offset + count ≤ 512 * length (block_numbers mdb.now extents.now) }
    requires small { offset + count < 2 ^ 32 }
    ensures written { IfOk result (λ cleared. HaveZeros mdb.now extents.now offset count
        (B.blocks blocks.now) (patched cleared.patch cleared.zeros (B.blocks blocks.now))) }
    ensures beside { IfOk result (λ cleared. KeepOthers mdb.now extents.now offset count
        (B.blocks blocks.now) (patched cleared.patch cleared.zeros (B.blocks blocks.now))) }
    ensures within { IfOk result (λ cleared.
        AreWithin (changes cleared.patch) (B.total blocks.now)) }
    ensures among { IfOk result (λ cleared. AreAmong cleared.zeros (B.total blocks.now)) }
{
    let end = offset + count;
    let last = end / 512;
    let first = offset.div_ceil(512).min(last);
    let front = count.min((512 - offset % 512) % 512);
    let back = (offset + front).max(last * 512);
    let zeros = whole_blocks(alloc, blocks, mdb, extents, first, last)?;
    let zeros_at = ZeroEnds {
        offset,
        front,
        back,
        end,
    };
    let patch = two_parts(alloc, &zeros.over(blocks), mdb, extents, zeros_at)?;
    Ok(Cleared { zeros, patch })
}

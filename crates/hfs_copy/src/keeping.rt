//! Which blocks of a volume are written: those that differ from what they were, and the zero blocks of forks and among free
//! blocks.
ghost use Rattle.std.specs.Prelude.{◌≡◌, ◌≢◌, ◌+◌, ◌<◌, ◌≤◌, ◌∷◌, [], true, false, IfOk, OnOk};
ghost use Rattle.std.specs.List.{flat_map, range_with_len};
ghost use Rattle.hfs_blocks.specs.Blocks.{block_count, run_of};
ghost use Rattle.hfs_source.specs.Sparse.{zero_block};
ghost use Rattle.hfs_volume.specs.Image.{patched};
ghost use Rattle.hfs_copy.specs.GivenBack.{AreKeptOf};
ghost use Rattle.hfs_copy.specs.Keeping.{GainsChanged, GainsZeros, LieIn};

use crate::given_back::keep_given_back;
use hfs_blocks::{Blocks, Run};
use hfs_space::{ChangedBlocks, ChangedOver};
use hfs_volume::Volume;
use std::alloc::{AllocError, Global};

/// Whether two blocks are the same.
fn is_same(first: &[u8; 512], second: &[u8; 512]) -> bool
    ensures same { result ≡ true → first.now ≡ second.now }
    ensures others { result ≡ false → first.now ≢ second.now }
{
    first.as_slice() == second.as_slice()
}

/// Adds block `n` to the kept ones, if it is changed and differs from the one below. No other block is looked at, and each stays
/// as it was. Fails only when out of memory.
pub fn keep_changed<B: Blocks>(
    kept: &mut ChangedBlocks,
    now: &ChangedOver<'_, B>,
    n: u32,
) -> Result<(), AllocError>
    requires { n < B.total now.now.below.now }
    ensures { OnOk result (GainsChanged now.now.changed.now (B.blocks now.now.below.now) (n ∷ [])
        kept.old kept.new) }
{
    let Some(block) = now.changed.get(n) else {
        return Ok(());
    };
    let mut was = [0; 512];
    now.below.block(n, &mut was);
    if is_same(block, &was) {
        return Ok(());
    }
    kept.put(n, block)
}

/// Keeps those of the first `count` blocks that are changed and differ from what they were.
fn keep_all_changed<B: Blocks>(
    kept: &mut ChangedBlocks,
    now: &ChangedOver<'_, B>,
    count: u32,
) -> Result<(), AllocError>
    requires { count ≤ B.total now.now.below.now }
    ensures { OnOk result (GainsChanged now.now.changed.now (B.blocks now.now.below.now)
        (range_with_len 0 count) kept.old kept.new) }
{
    for n in 0..count {
        keep_changed(kept, now, n)?;
    }
    Ok(())
}

/// Whether a block has only zeros.
#[tactic(auto, unfolding(hfs_source::specs::Sparse::zero_block))]
pub(crate) fn is_zeros(block: &[u8; 512]) -> bool
    ensures zeros { result ≡ true → block.now ≡ zero_block }
    ensures others { result ≡ false → block.now ≢ zero_block }
{
    block.as_slice() == [0; 512].as_slice()
}

/// Keeps block `n`, if it has only zeros.
fn keep_zeros<B: Blocks>(kept: &mut ChangedBlocks, now: &B, n: u32) -> Result<(), AllocError>
    requires { n < B.total now.now }
    ensures { OnOk result (GainsZeros (B.blocks now.now) (n ∷ []) kept.old kept.new) }
{
    let mut block = [0; 512];
    now.block(n, &mut block);
    if !is_zeros(&block) {
        return Ok(());
    }
    kept.put(n, &block)
}

/// Keeps those of `count` blocks from number `first` on that have only zeros.
fn keep_zeros_of<B: Blocks>(
    kept: &mut ChangedBlocks,
    now: &B,
    first: u32,
    count: u32,
) -> Result<(), AllocError>
    requires { first + count ≤ B.total now.now }
    ensures { OnOk result (GainsZeros (B.blocks now.now) (range_with_len first count)
        kept.old kept.new) }
{
    for i in 0..count {
        keep_zeros(kept, now, first + i)?;
    }
    Ok(())
}

/// Keeps those of the blocks of these runs that have only zeros.
fn keep_zeros_in<B: Blocks>(
    kept: &mut ChangedBlocks,
    now: &B,
    runs: &[Run],
) -> Result<(), AllocError>
    requires { LieIn (B.total now.now) runs.now }
    ensures { OnOk result (GainsZeros (B.blocks now.now) (flat_map run_of runs.now)
        kept.old kept.new) }
{
    for run in runs {
        keep_zeros_of(kept, now, run.first, run.count)?;
    }
    Ok(())
}

/// The blocks of a volume that are written: each that differs from what it was when the volume was mounted; in the runs of forks,
/// each of zeros; and of the free blocks, each of zeros that is kept as changed. A block of zeros is as it was in a copy in which
/// it wasn't read, but not in the image. Laid over the bytes as they were mounted, they give the bytes as they are now. A block
/// of zeros takes a flag, and no bytes. Fails only when out of memory.
pub fn kept_blocks(
    alloc: Global,
    volume: &Volume,
    forks: &[Run],
    free: &[Run],
) -> Result<ChangedBlocks, AllocError>
    requires forks { LieIn (block_count volume.now.base) forks.now }
    requires free { LieIn (block_count volume.now.base) free.now }
    ensures kept { IfOk result (AreKeptOf volume.now (flat_map run_of forks.now)
        (flat_map run_of free.now)) }
    ensures makes { IfOk result (λ kept. patched kept volume.now.base ≡ volume.now.current) }
{
    let base = volume.base()?;
    let below = base.blocks();
    let changed = volume.changes();
    let now = changed.over(&below);
    let mut kept = ChangedBlocks::new(alloc);
    keep_all_changed(&mut kept, &now, now.count())?;
    keep_zeros_in(&mut kept, &now, forks)?;
    keep_given_back(&mut kept, changed, free)?;
    Ok(kept)
}

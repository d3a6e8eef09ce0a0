//! Reading the blocks that are needed.
ghost use Rattle.std.specs.Prelude.{◌≡◌, ℕ, ◌+◌, ◌<◌, ◌≤◌, IsSome, OnOk, IfOk, length};
ghost use Rattle.std.specs.List.{flat_map, range_with_len};
ghost use Rattle.hfs_blocks.specs.Blocks.{run_of, AreRunsWithin};
ghost use Rattle.hfs_blocks.specs.Layers.{changes, KeepsWithin};
ghost use Rattle.hfs_source.specs.Seen.{SeesMore};
ghost use Rattle.hfs_source.specs.Sparse.{HasEach, HasGrown, HasSome, StaysOf};

use crate::source::BlockSource;
use crate::sparse_blocks::SparseBlocks;
use hfs_blocks::Run;

/// The most blocks that are read at once: 64 KB.
const MOST_AT_ONCE: u32 = 128;

/// Why a block was not read.
#[derive(Clone, Copy, Debug, PartialEq, Eq)]
pub enum SparseFault {
    /// The reader failed, or ended too early.
    ReadFailed,
    /// Memory for the block was refused.
    Memory,
}

/// Reads some of the first of `most` blocks from number `first` on; those that were not read before are read in one read. Returns
/// how many, at least one. At an error, what was read before stays.
#[tactic(auto, using(crate::proofs::Seen::sees_itself))]
fn fetch_some<S: BlockSource>(
    source: &mut S,
    read: &mut SparseBlocks,
    first: u32,
    most: u32,
) -> Result<u32, SparseFault>
    requires some { 1 ≤ most }
    requires numbers { first + most ≤ 4294967296 }
    ensures has { IfOk result (HasSome read.new first most) }
    ensures grown { HasGrown read.old read.new }
    ensures stays { StaysOf (S.image source.old) read.old read.new }
    ensures within { (total : ℕ) → first + most ≤ total → KeepsWithin read.old read.new total }
    ensures image { S.image source.new ≡ S.image source.old }
    ensures sees { SeesMore (S.Holds source.old) (S.Holds source.new) read.old read.new }
{
    let unread = read.unread(first, most.min(MOST_AT_ONCE));
    if unread == 0 {
        return Ok(1);
    }
    read.read_range(source, first, unread)?;
    Ok(unread)
}

/// Reads block `n`, unless it was read before. At an error, what was read before stays.
pub fn fetch<S: BlockSource>(
    source: &mut S,
    read: &mut SparseBlocks,
    n: u32,
) -> Result<(), SparseFault>
    ensures has { OnOk result (IsSome (changes read.new n)) }
    ensures grown { HasGrown read.old read.new }
    ensures stays { StaysOf (S.image source.old) read.old read.new }
    ensures within { (total : ℕ) → n < total → KeepsWithin read.old read.new total }
    ensures image { S.image source.new ≡ S.image source.old }
    ensures sees { SeesMore (S.Holds source.old) (S.Holds source.new) read.old read.new }
{
    fetch_some(source, read, n, 1)?;
    Ok(())
}

/// Reads `count` blocks from number `first` on, each unless it was read before; up to 128 that are next to each other are read in
/// one read.
#[tactic(auto, using(crate::proofs::Seen::sees_itself))]
pub fn fetch_range<S: BlockSource>(
    source: &mut S,
    read: &mut SparseBlocks,
    first: u32,
    count: u32,
) -> Result<(), SparseFault>
    requires { first + count ≤ 4294967296 }
    ensures has { OnOk result (HasEach read.new (range_with_len first count)) }
    ensures grown { HasGrown read.old read.new }
    ensures stays { StaysOf (S.image source.old) read.old read.new }
    ensures within { (total : ℕ) → first + count ≤ total → KeepsWithin read.old read.new total }
    ensures image { S.image source.new ≡ S.image source.old }
    ensures sees { SeesMore (S.Holds source.old) (S.Holds source.new) read.old read.new }
{
    let mut left = count;
    while left > 0 {
        left -= fetch_some(source, read, first + (count - left), left)?;
    }
    Ok(())
}

/// Reads the blocks of these runs, each unless it was read before.
#[tactic(auto, using(crate::proofs::Seen::sees_itself))]
pub fn fetch_runs<S: BlockSource>(
    source: &mut S,
    read: &mut SparseBlocks,
    runs: &[Run],
) -> Result<(), SparseFault>
    requires { AreRunsWithin runs.now 4294967296 }
    ensures has { OnOk result (HasEach read.new (flat_map run_of runs.now)) }
    ensures grown { HasGrown read.old read.new }
    ensures stays { StaysOf (S.image source.old) read.old read.new }
    ensures within { (total : ℕ) → AreRunsWithin runs.now total
        → KeepsWithin read.old read.new total }
    ensures image { S.image source.new ≡ S.image source.old }
    ensures sees { SeesMore (S.Holds source.old) (S.Holds source.new) read.old read.new }
{
    for run in runs {
        fetch_range(source, read, run.first, run.count)?;
    }
    Ok(())
}

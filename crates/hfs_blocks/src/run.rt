//! A run of blocks, and the runs of a file.

ghost use Rattle.std.specs.Prelude.{◌≡◌, ℕ, ◌+◌, ◌<◌, ◌≤◌, length, slice_index_or};
ghost use Rattle.std.specs.List.{flat_map};
ghost use Rattle.hfs_blocks.specs.Blocks.{run_of, AreCounted, AreRunsWithin, IsBeforeEnd, IsRestAt};
ghost use Rattle.hfs_blocks.specs.declared.run.Run.{Run};

/// Consecutive blocks: the number of the first, counted from 0, and how many there are.
#[derive(Debug, Clone, Copy, PartialEq, Eq)]
pub struct Run {
    /// The number of its first block, counted from 0.
    pub first: u32,
    /// How many blocks it has.
    pub count: u32,
    /// How many blocks its file has in the runs before it; 0 if the run is no part of a file.
    pub before: u32,
}

/// The place of the run that holds node `n` of the file. A binary search.
fn place_of(runs: &[Run], n: u32) -> usize
    requires within { n < length (flat_map run_of runs.now) }
    requires counted { AreCounted runs.now }
    ensures within { result < length runs.now }
    ensures begins { (none : Run) → (slice_index_or runs.now result none).before ≤ n }
    ensures ends { (none : Run) → IsBeforeEnd n (slice_index_or runs.now result none) }
{
    runs.partition_point(|run| run.before <= n) - 1
}

/// The number of the block that holds node `n` of the file whose nodes lie in these runs. A binary search.
pub fn block_of(runs: &[Run], n: u32) -> u32
    requires within { n < length (flat_map run_of runs.now) }
    requires small { AreRunsWithin runs.now 4294967296 }
    ensures number { result ≡ slice_index_or (flat_map run_of runs.now) n 0 }
    ensures inside { (total : ℕ) → AreRunsWithin runs.now total → result < total }
{
    let run = runs[place_of(runs, n)];
    run.first + (n - run.before)
}

/// The blocks from node `n` of the file on that lie in one run with it, where the file's nodes lie in these runs. A binary search.
pub fn rest_of_run(runs: &[Run], n: u32) -> Run
    requires within { n < length (flat_map run_of runs.now) }
    requires small { AreRunsWithin runs.now 4294967296 }
    ensures some { 0 < result.count }
    ensures within { n + result.count ≤ length (flat_map run_of runs.now) }
    ensures numbers { IsRestAt runs.now n result }
    ensures inside { (total : ℕ) → AreRunsWithin runs.now total
        → result.first + result.count ≤ total }
{
    let whole = runs[place_of(runs, n)];
    let passed = n - whole.before;
    Run {
        first: whole.first + passed,
        count: whole.count - passed,
        before: n,
    }
}

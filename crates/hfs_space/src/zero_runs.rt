//! Runs of zeros over the blocks of a volume, which take no memory for their blocks.

ghost use Rattle.std.specs.Prelude.{◌≡◌, ◌<◌, ◌≤◌, IfOk, length, drop};
ghost use Rattle.std.specs.List.{All, flat_map, list_any};
ghost use Rattle.hfs_blocks.specs.Blocks.{run_of, AreRunsWithin};
ghost use Rattle.hfs_blocks.specs.Layers.{over, length-over};
ghost use Rattle.hfs_space.specs.Zeros.{is_of_run, zero_blocks, AreOnce, AreApart, StayAmong, HaveSameBlocks, HaveBegun, AreWhole-zero_blocks};

use hfs_blocks::{Blocks, Run};
use std::alloc::{AllocError, Global};
use std::marker::Model;

/// How many of the runs begin at this block or before it. A binary search.
fn begun(runs: &[Run], n: u32) -> usize
    requires { AreApart runs.now }
    ensures { HaveBegun runs.now n result }
{
    runs.partition_point(|run| run.first <= n)
}

/// Whether a block is in one of the runs.
fn is_in_runs(runs: &[Run], n: u32) -> bool
    requires { AreApart runs.now }
    ensures { result ≡ list_any (is_of_run n) runs.now }
{
    let count = begun(runs, n);
    if count == 0 {
        return false;
    }
    let run = runs[count - 1];
    n - run.first < run.count
}

/// Puts runs in the order of their blocks.
fn sort_runs(runs: &mut Vec<Run>)
    requires { AreOnce runs.old.items }
    ensures apart { AreApart runs.new.items }
    ensures same { HaveSameBlocks runs.old.items runs.new.items }
    ensures among { StayAmong runs.old.items runs.new.items }
{
    runs.sort_unstable_by_key(|run| run.first);
}

/// Runs of blocks that are zeros, to be laid over the blocks of a volume. They take memory for each run, and none for its blocks.
#[derive(Drop)]
pub struct ZeroRuns {
    runs: Vec<Run>,
}

impl Model for ZeroRuns {
    ghost use Rattle.std.specs.Prelude.{List};
    ghost use Rattle.hfs_blocks.specs.declared.run.Run.{Run};
    ghost use Rattle.hfs_space.specs.Zeros.{AreApart};

    ghost Value = { List Run };

    ghost view = { λ z. z.runs.items };

    ghost invariant = { λ z. AreApart z.runs.items };
}

impl ZeroRuns {
    /// These runs as blocks of zeros. Takes no memory.
    pub fn of(runs: Vec<Run>) -> ZeroRuns
        requires { AreOnce runs.items }
        ensures same { HaveSameBlocks runs.items result }
        ensures among { StayAmong runs.items result }
    {
        let mut runs = runs;
        sort_runs(&mut runs);
        ZeroRuns { runs }
    }

    /// The runs, in the order of their blocks.
    pub fn runs(&self) -> &[Run]
        ensures { result.now ≡ self.now }
    {
        &self.runs
    }

    /// Whether block `n` is one of the zeros. A binary search. Takes no memory.
    pub fn has(&self, n: u32) -> bool
        ensures { result ≡ list_any (is_of_run n) self.now }
    {
        is_in_runs(&self.runs, n)
    }

    /// The zeros over the blocks of a volume. Takes no memory.
    pub fn over<'a, B: Blocks>(&'a self, below: &'a B) -> Zeroed<'a, B>
        ensures zeros { result.zeros.now ≡ self.now }
        ensures below { result.below.now ≡ below.now }
    {
        Zeroed { below, zeros: self }
    }
}

/// Runs of zeros, and below them the blocks of a volume.
#[derive(Drop)]
pub struct Zeroed<'a, B: Blocks> {
    /// The blocks of the volume.
    pub below: &'a B,
    /// The blocks that are zeros in place of those.
    pub zeros: &'a ZeroRuns,
}

impl<B: Blocks> Blocks for Zeroed<'_, B> {
    ghost blocks = { λ s. over (zero_blocks s.zeros.now) (B.blocks s.below.now) };

    ghost total = { λ s. B.total s.below.now };

    fn count(&self) -> u32 {
        self.below.count()
    }

    fn block(&self, n: u32, into: &mut [u8; 512]) {
        if self.zeros.has(n) {
            *into = [0; 512];
        } else {
            self.below.block(n, into);
        }
    }

    ghost whole = { λ s n within. length-over (zero_blocks s.zeros.now) (B.blocks s.below.now) n (AreWhole-zero_blocks s.zeros.now) (B.whole s.below.now n within) };

    ghost few = { λ s. B.few s.below.now };
}

/// The blocks of a file's runs from its block `from` on.
///
/// Errors: `AllocError` if memory was refused.
pub fn runs_from(alloc: Global, runs: &[Run], from: u32) -> Result<Vec<Run>, AllocError>
    requires { AreRunsWithin runs.now 4294967296 }
    ensures blocks { IfOk result (λ rest. flat_map run_of rest.items
        ≡ drop from (flat_map run_of runs.now)) }
    ensures some { IfOk result (λ rest. All (λ run. 0 < run.count) rest.items) }
    ensures among { IfOk result (λ rest. StayAmong runs.now rest.items) }
{
    let mut rest = Vec::new(alloc);
    for i in 0..runs.len() {
        let run = runs[i];
        let passed = from.saturating_sub(run.before).min(run.count);
        if passed < run.count {
            rest.push(Run {
                first: run.first + passed,
                count: run.count - passed,
                before: 0,
            })?;
        }
    }
    Ok(rest)
}

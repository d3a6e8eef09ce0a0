//! The order of the runs that forks are to be put in.
ghost use Rattle.std.specs.Prelude.{◌≡◌, false, true, nat_le, IsTrue, MatchOption, slice_get};
ghost use Rattle.hfs_put.specs.Runs.{are_apart, end_of, last_end, next_run};

use hfs_put_sources::ForkRun;

/// The byte after the last run, if each run lies after the one before it; otherwise None.
pub(crate) fn apart_end(runs: &[ForkRun]) -> Option<u128>
    ensures { MatchOption result (are_apart 0 runs.now ≡ false)
        (λ end. (are_apart 0 runs.now ≡ true) × (end ≡ last_end 0 runs.now)) }
{
    let mut from = 0;
    for run in runs {
        let place = u128::from(run.place);
        if place < from {
            return None;
        }
        from = place + u128::from(run.len);
    }
    Some(from)
}

/// Whether a run ends at or before a byte.
fn is_ended(run: &ForkRun, byte: u64) -> bool
    ensures { result ≡ nat_le (end_of run.now) byte }
{
    run.place <= byte && run.len <= byte - run.place
}

/// How many of the runs, which lie in order, end at or before a byte. A binary search.
fn ended(runs: &[ForkRun], byte: u64) -> usize
    requires { IsTrue (are_apart 0 runs.now) }
    ensures { next_run runs.now byte ≡ slice_get runs.now result }
{
    runs.partition_point(|run| is_ended(run, byte))
}

/// The first of the runs, which lie in order, that ends after a byte. A binary search.
pub(crate) fn next_run(runs: &[ForkRun], byte: u64) -> Option<ForkRun>
    requires { IsTrue (are_apart 0 runs.now) }
    ensures { result ≡ next_run runs.now byte }
{
    runs.get(ended(runs, byte)).copied()
}

//! The numbers of a script's calls, each among its caller's own.
ghost use Rattle.std.specs.Prelude.{◌≡◌, ◌+◌, ◌<◌, ◌≤◌, ◌^◌, All, IfOk, map, slice_index};
ghost use Rattle.hfs_runs.specs.Asking.{AreNumbered, IsCounted, IsRaised, IsSmall, counted};

use hfs_scripts::{Caller, ScriptLine};
use std::alloc::{AllocError, Global};

/// Who makes a line's call, and the number of that call among the caller's own, counted from 1.
#[derive(Clone, Copy, Debug, PartialEq, Eq)]
pub struct Asked {
    pub caller: Caller,
    pub number: u64,
}

/// The lines of a script with their numbers.
pub fn number_lines(alloc: Global, lines: &[ScriptLine]) -> Result<Vec<Asked>, AllocError>
    requires { All (λ l. IsSmall l.caller) lines.now }
    ensures { IfOk result (λ v. AreNumbered (map (λ l. l.caller) lines.now) v.items) }
{
    let mut workers = [0u64; 9];
    let mut viewers = [0u64; 9];
    let mut numbered = Vec::new(alloc);
    for line in lines {
        let number = count_call(&mut workers, &mut viewers, line.caller);
        numbered.push(Asked {
            caller: line.caller,
            number,
        })?;
    }
    Ok(numbered)
}

// Counts one more call of a caller, and returns how many there are.
#[tactic(auto, using(crate::proofs::Counting::worker_counted, crate::proofs::Counting::viewer_counted))]
fn count_call(workers: &mut [u64; 9], viewers: &mut [u64; 9], caller: Caller) -> u64
    requires small { IsSmall caller }
    requires room { counted workers.old viewers.old caller < 2 ^ 63 }
    ensures number { result ≡ counted workers.old viewers.old caller + 1 }
    ensures counts { IsCounted workers.old viewers.old caller workers.new viewers.new }
{
    match caller {
        Caller::Worker(number) => one_more(workers, number),
        Caller::Viewer(number) => one_more(viewers, number),
    }
}

// Adds one to the count at that place, and returns it.
fn one_more(counts: &mut [u64; 9], place: u32) -> u64
    requires place { place ≤ 8 }
    requires room { slice_index counts.old place < 2 ^ 63 }
    ensures count { result ≡ slice_index counts.old place + 1 }
    ensures counts { IsRaised counts.old place counts.new }
{
    counts[place as usize] += 1;
    counts[place as usize]
}

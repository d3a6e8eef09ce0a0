//! The first blocks of runs.

ghost use Rattle.std.specs.Prelude.{◌≡◌, ◌<◌, ◌++◌, ◌^◌, OnOk, IfOk};
ghost use Rattle.hfs_space.specs.Pieces as spec;

use hfs_fields::Extent;
use std::alloc::{AllocError, Global};
use std::cmp::Ordering;

/// The first `count` blocks of a run, or as many as it has.
fn first_of(run: Extent, count: u32) -> Extent
    ensures { result ≡ spec.first_of count run }
{
    let most = u32::from(run.count);
    Extent {
        first: run.first,
        count: count.min(most) as u16,
    }
}

/// Adds the first `count` blocks of runs: each run whole, except that only as many blocks as are still wanted are taken of the
/// last one.
fn push_first_blocks(
    runs: &[Extent],
    count: u32,
    pieces: &mut Vec<Extent>,
) -> Result<(), AllocError>
    ensures { OnOk result
        (pieces.new.items ≡ pieces.old.items ++ spec.first_blocks count runs.now) }
{
    let mut rest = count;
    for run in runs {
        if rest == 0 {
            return Ok(());
        }
        pieces.push(first_of(*run, rest))?;
        rest = rest.saturating_sub(u32::from(run.count));
    }
    Ok(())
}

/// The first of the runs that has `count` blocks.
fn first_with(runs: &[Extent], count: u32) -> Option<Extent>
    ensures { result ≡ spec.first_with count runs.now }
{
    for run in runs {
        if count <= u32::from(run.count) {
            return Some(*run);
        }
    }
    None
}

/// The order of two runs by their lengths: the longer first, and of equal ones the lower.
fn by_length(x: &Extent, y: &Extent) -> Ordering
    ensures { result ≡ spec.by_length x.now y.now }
{
    y.count.cmp(&x.count).then(x.first.cmp(&y.first))
}

/// Puts runs in the order of their lengths, the longest first, and of equal ones the lowest.
fn sort_by_length(runs: &mut Vec<Extent>)
    ensures { spec.AreByLength runs.old.items runs.new.items }
{
    runs.sort_unstable_by(|x, y| by_length(x, y));
}

/// Adds `count` blocks of the lowest run that has that many; if none has, the first `count` of the runs by their lengths. Fails
/// only when out of memory.
pub(crate) fn pieces_of(
    alloc: Global,
    mut runs: Vec<Extent>,
    count: u32,
) -> Result<Vec<Extent>, AllocError>
    ensures { IfOk result (λ pieces. spec.AreOfRuns runs.items count pieces.items) }
{
    let mut pieces = Vec::new(alloc);
    if let Some(run) = first_with(&runs, count) {
        push_first_blocks(&[run], count, &mut pieces)?;
        return Ok(pieces);
    }
    sort_by_length(&mut runs);
    push_first_blocks(&runs, count, &mut pieces)?;
    Ok(pieces)
}

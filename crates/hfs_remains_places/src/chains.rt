//! Chains of parents, and those that have no end.
ghost use Rattle.std.specs.Prelude.{◌≡◌, ◌^◌, map, length, IfOk};
ghost use Rattle.std.specs.List.{range_with_len};
ghost use Rattle.hfs_remains_places.specs.Chains as spec;

use crate::things::Things;
use std::alloc::{AllocError, Global};

/// For each thing, the place of its parent's folder.
#[tactic(auto, unfolding(crate::specs::Chains::ups_of))]
pub(crate) fn ups_of(alloc: Global, things: &Things) -> Result<Vec<Option<usize>>, AllocError>
    ensures ups { IfOk result (λ ups. ups.items ≡ spec.ups_of things.now) }
    ensures all { IfOk result (λ ups. length ups.items ≡ length things.now) }
{
    let mut ups = Vec::new(alloc);
    let all = things.all();
    for thing in all {
        ups.push(things.folder(thing.parent))?;
    }
    Ok(ups)
}

/// The place that is noted for a place; None after the last.
fn place_at(places: &[Option<usize>], i: usize) -> Option<usize>
    ensures { result ≡ spec.place_at places.now i }
{
    if i < places.len() { places[i] } else { None }
}

/// Where twice as many steps lead as these.
fn twice(jumps: &[Option<usize>], i: usize) -> Option<usize>
    ensures { result ≡ spec.twice jumps.now i }
{
    match place_at(jumps, i) {
        Some(j) => place_at(jumps, j),
        None => None,
    }
}

/// For each place, where twice as many steps lead as these.
pub fn doubled(alloc: Global, jumps: &[Option<usize>]) -> Result<Vec<Option<usize>>, AllocError>
    ensures { IfOk result (λ made. made.items ≡ map (spec.twice jumps.now)
        (range_with_len 0 (length jumps.now))) }
{
    let mut made = Vec::new(alloc);
    for i in 0..jumps.len() {
        made.push(twice(jumps, i))?;
    }
    Ok(made)
}

/// For each place, where as many steps lead as there are numbers of folders.
fn far_jumps(alloc: Global, ups: &[Option<usize>]) -> Result<Vec<Option<usize>>, AllocError>
    ensures far { IfOk result (λ jumps. spec.LeadBy (2 ^ 32) ups.now jumps.items) }
    ensures all { IfOk result (λ jumps. length jumps.items ≡ length ups.now) }
{
    let mut jumps = Vec::from_slice(alloc, ups)?;
    let mut bits = 0u32;
    while bits < 32 {
        jumps = doubled(alloc, &jumps)?;
        bits += 1;
    }
    Ok(jumps)
}

/// For each place, whether its chain has no end. Each place is looked at once for each bit of a folder's number.
pub(crate) fn endless_of(alloc: Global, ups: &[Option<usize>]) -> Result<Vec<bool>, AllocError>
    ensures marks { IfOk result (λ marks. marks.items ≡ spec.endless_of ups.now) }
    ensures all { IfOk result (λ marks. length marks.items ≡ length ups.now) }
{
    let jumps = far_jumps(alloc, ups)?;
    let mut marks = Vec::new(alloc);
    for i in 0..ups.len() {
        marks.push(place_at(&jumps, i).is_some())?;
    }
    Ok(marks)
}

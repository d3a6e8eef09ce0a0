//! Items of one folder with the same name.
ghost use Rattle.std.specs.Prelude.{◌≡◌, ◌+◌, ◌<◌, IfOk, OnOk, length, take};
ghost use Rattle.hfs_put_plan.specs.Seen.{KnowsNames};
ghost use Rattle.hfs_put_plan.specs.Twins.{is_twin, later_twins, name_at};

use crate::seen::{Seen, folded};
use hfs_fields::Name;
use std::alloc::{AllocError, Global};

/// Whether the name at a place is that of an earlier one; it counts as seen then.
fn see_next(
    alloc: Global,
    names: &[Name],
    place: usize,
    seen: &mut Seen,
) -> Result<bool, AllocError>
    requires within { place < length names.now }
    requires known { KnowsNames seen.old (take place names.now) }
    ensures twin { IfOk result (λ twin. twin
        ≡ is_twin (take place names.now) (name_at names.now place)) }
    ensures known { OnOk result (KnowsNames seen.new (take (place + 1) names.now)) }
{
    let name = &names[place];
    let row = folded(alloc, name)?;
    let twin = seen.has(&row);
    seen.add(row)?;
    Ok(twin)
}

/// For each of the names of one folder's items, in order, whether an earlier one is the same, ignoring the case of the letters
/// from `a` to `z`. Fails only when out of memory.
#[tactic(auto, unfolding(crate::specs::Twins::later_twins))]
pub fn later_twins(alloc: Global, names: &[Name]) -> Result<Vec<bool>, AllocError>
    ensures { IfOk result (λ twins. twins.items ≡ later_twins names.now) }
{
    let mut seen = Seen::new(alloc);
    let mut twins = Vec::new(alloc);
    for place in 0..names.len() {
        let twin = see_next(alloc, names, place, &mut seen)?;
        twins.push(twin)?;
    }
    Ok(twins)
}

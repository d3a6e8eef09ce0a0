//! What a repair reports about the numbers that it mends.

ghost use Rattle.std.specs.Prelude.{◌≡◌, ◌<◌, ◌^◌, IfOk};
ghost use Rattle.hfs_repair.specs.Fields.{value_of};
ghost use Rattle.hfs_repair.specs.Fixes as spec;
ghost use Rattle.hfs_repair.specs.Fixes.{AreFixes};

use crate::field_value::FieldValue;
use crate::fixed::{Fix, FixPlace};
use crate::wrong_number::WrongNumber;
use std::alloc::{AllocError, Global};

/// The order of the numbers.
#[tactic(auto, unfolding(crate::specs::Fixes::rank))]
fn rank(place: FixPlace) -> u64
    ensures { result ≡ spec.rank place }
{
    match place {
        FixPlace::RootFiles => 0,
        FixPlace::FreeBlocks => 1,
        FixPlace::RootFolders => 2,
        FixPlace::Files => 3,
        FixPlace::Folders => 4,
        FixPlace::ExtentsRecords => 5,
        FixPlace::ExtentsFree => 6,
        FixPlace::CatalogRecords => 7,
        FixPlace::CatalogFree => 8,
        FixPlace::Valence(id) => 9 + u64::from(id),
    }
}

/// A number in four bytes.
fn widened(value: FieldValue) -> u32
    ensures { result ≡ value_of value }
{
    match value {
        FieldValue::Short(value) => u32::from(value),
        FieldValue::Long(value) => value,
    }
}

/// What a repair reports about a number.
fn fix_of(number: &WrongNumber) -> Fix
    ensures { result ≡ spec.fix_of number.now }
{
    Fix {
        place: number.place(),
        was: number.was(),
        now: widened(number.value()),
    }
}

/// What a repair reports about these numbers: each once, in the order of `FixPlace`. Fails only when out of memory.
pub(crate) fn fixes(alloc: Global, numbers: &[WrongNumber]) -> Result<Vec<Fix>, AllocError>
    ensures { IfOk result (λ fixes. AreFixes numbers.now fixes.items) }
{
    let mut fixes = Vec::new(alloc);
    for i in 0..numbers.len() {
        fixes.push(fix_of(&numbers[i]))?;
    }
    fixes.sort_unstable_by_key(|fix| rank(fix.place));
    Ok(fixes)
}

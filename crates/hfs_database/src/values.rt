//! Values of a row as parameters of a statement.
ghost use Rattle.std.specs.Prelude.{◌≡◌, ◌≤◌, ◌^◌, ℕ, [], map, ◌∷◌, ◌++◌, IfErr, IfOk, OnOk};
ghost use Rattle.sqlite.specs.declared.types.Value.TheVariants.{Int};
ghost use Rattle.sqlite.specs.Values.{bound, bound_value};
ghost use Rattle.sqlite_value.specs.Value.{owned};
ghost use Rattle.hfs_database.specs.declared.value.RowValue.TheVariants.{Number};
ghost use Rattle.hfs_database.specs.Refusals.{HasLargeNumber, IsUntaken};
ghost use Rattle.hfs_database.specs.Values.{sql_value};

use crate::{RowValue, TakerFault};
use sqlite::types::ValueRef;
use std::alloc::Global;

/// A value as a parameter. Fault: `CannotWrite` for a number that no column of SQLite can hold.
fn parameter(value: &RowValue) -> Result<ValueRef<'_>, TakerFault>
    ensures parameter { IfOk result (λ parameter. bound_value (owned parameter) ≡ sql_value value.now) }
    ensures large { IfErr result (IsUntaken ((n : ℕ) × (value.now ≡ Number n) × (2 ^ 63 ≤ n))) }
{
    match value {
        RowValue::Empty => Ok(ValueRef::Null),
        RowValue::Number(n) => match i64::try_from(*n) {
            Ok(n) => Ok(ValueRef::Int(n)),
            Err(_) => Err(TakerFault::CannotWrite),
        },
        RowValue::Text(text) => Ok(ValueRef::Text(text.as_slice())),
    }
}

/// Appends values as parameters. Faults: as for one value, `NoMemory`.
pub(crate) fn push_parameters<'a>(
    parameters: &mut Vec<ValueRef<'a>>,
    values: &'a [RowValue],
) -> Result<(), TakerFault>
    ensures pushed { OnOk result (bound parameters.new.items ≡ bound parameters.old.items
        ++ map sql_value values.now) }
    ensures large { IfErr result (IsUntaken (HasLargeNumber values.now)) }
{
    for value in values {
        match parameters.push(parameter(value)?) {
            Ok(()) => {}
            Err(_) => return Err(TakerFault::NoMemory),
        }
    }
    Ok(())
}

/// A row's parameters, after the number of the row that it belongs to. Faults: as for one value, `NoMemory`.
pub(crate) fn parameters_under<'a>(
    alloc: Global,
    owner: i64,
    values: &'a [RowValue],
) -> Result<Vec<ValueRef<'a>>, TakerFault>
    ensures parameters { IfOk result (λ parameters. bound parameters.items ≡ Int owner ∷ map sql_value values.now) }
    ensures large { IfErr result (IsUntaken (HasLargeNumber values.now)) }
{
    let mut parameters = Vec::new(alloc);
    match parameters.push(ValueRef::Int(owner)) {
        Ok(()) => {}
        Err(_) => return Err(TakerFault::NoMemory),
    }
    push_parameters(&mut parameters, values)?;
    Ok(parameters)
}

//! Items of one folder that get the same name, and the items that are still to be visited.
ghost use Rattle.std.specs.Prelude.{◌≡◌, ◌++◌, [], IfOk, OnOk, false, get_or, map, reverse};
ghost use Rattle.hfs_put_plan.specs.Twins.{later_twins};
ghost use Rattle.hfs_put_sources.specs.Walks.{marked, put_name_of, with_twin, with_twins};

use crate::item::SourceItem;
use hfs_fields::Name;
use hfs_put_plan::later_twins;
use std::alloc::{AllocError, Global};

/// The empty name, which no item gets.
fn no_name() -> Name
    ensures { result ≡ [] }
{
    match Name::of_bytes(&[]) {
        Some(name) => name,
        None => unreachable!(),
    }
}

/// The name that an item gets; the empty one if it has none.
fn put_name_of(item: &SourceItem) -> Name
    ensures { result ≡ put_name_of item.now }
{
    match item.plan().name {
        Some(name) => name,
        None => no_name(),
    }
}

/// The names that items get.
fn put_names(alloc: Global, items: &[SourceItem]) -> Result<Vec<Name>, AllocError>
    ensures { IfOk result (λ names. names.items ≡ map put_name_of items.now) }
{
    let mut names = Vec::new(alloc);
    for item in items {
        names.push(put_name_of(item))?;
    }
    Ok(names)
}

/// Whether an earlier item has the same name as the one at a place.
fn twin_at(twins: &[bool], place: usize) -> bool
    ensures { result ≡ get_or twins.now place false }
{
    twins.get(place).copied().unwrap_or(false)
}

/// Pushes items on the stack of those to be visited, last one first, so that the first comes next.
fn lay_marked(
    todo: &mut Vec<SourceItem>,
    items: Vec<SourceItem>,
    twins: &[bool],
) -> Result<(), AllocError>
    ensures { OnOk result (reverse todo.new.items ≡ marked items.items twins.now ++ reverse todo.old.items) }
{
    let mut items = items;
    while let Some(item) = items.pop() {
        let twin = twin_at(twins, items.len());
        todo.push(item.with_twin(twin))?;
    }
    Ok(())
}

/// Pushes the items of one folder on the stack of those to be visited, so that the first comes next, and notes for each whether
/// an earlier one has its name.
pub(crate) fn lay_on(
    alloc: Global,
    todo: &mut Vec<SourceItem>,
    items: Vec<SourceItem>,
) -> Result<(), AllocError>
    ensures { OnOk result (reverse todo.new.items ≡ with_twins items.items ++ reverse todo.old.items) }
{
    let names = put_names(alloc, &items)?;
    let twins = later_twins(alloc, &names)?;
    lay_marked(todo, items, &twins)
}

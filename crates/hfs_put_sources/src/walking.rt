//! The walk over everything that is to be put.
ghost use Rattle.std.specs.Prelude.{◌≡◌, IfOk, IfErr};
ghost use Rattle.hfs_put_sources.specs.Faults.{FailLater, IsFaultOf};
ghost use Rattle.hfs_put_sources.specs.Trees.{OfEachTree};
ghost use Rattle.hfs_put_sources.specs.Walks.{AreInside, IsWalk, is_entered, with_twins};

use crate::fault::HostFault;
use crate::folder::{FolderPlace, items_in};
use crate::item::SourceItem;
use crate::plan::{ItemPlan, PutOptions, is_folder};
use crate::told::ToldItems;
use crate::tree::HostTree;
use crate::twins::lay_on;
use hfs_put_plan::why_not;
use std::alloc::Global;

/// Whether it is a folder that can be put.
fn is_entered(plan: &ItemPlan) -> bool
    ensures { result ≡ is_entered plan.now }
{
    is_folder(plan.own) && why_not(&plan.found).is_none()
}

/// What is in the item at this place of the list.
fn items_inside<T: HostTree, B: ToldItems>(
    alloc: Global,
    tree: &mut T,
    told: &B,
    how: PutOptions,
    place: usize,
    item: &SourceItem,
) -> Result<Vec<SourceItem>, HostFault>
    ensures inside { IfOk result (λ inside. OfEachTree (T.Holds tree.new)
        (λ host. AreInside host (B.told told.now) how place item.now inside.items)) }
    ensures held { OfEachTree (T.Holds tree.new) (T.Holds tree.old) }
    ensures failed { IfErr result (IsFaultOf (T.Fails tree.old)) }
    ensures later { FailLater (T.Fails tree.new) (T.Fails tree.old) }
{
    if !is_entered(&item.plan()) {
        return Ok(Vec::new(alloc));
    }
    let folder = FolderPlace {
        path: item.path(),
        place: Some(place),
    };
    items_in(alloc, tree, told, how, &folder)
}

/// These items and everything in them, each followed by what is in it. What can't be put is listed, but nothing below it. If
/// items in one folder get the same name, the later ones are marked. Faults: the tree's first one; `NoMemory`.
pub fn walk<T: HostTree, B: ToldItems>(
    alloc: Global,
    tree: &mut T,
    told: &B,
    how: PutOptions,
    top: Vec<SourceItem>,
) -> Result<Vec<SourceItem>, HostFault>
    ensures items { IfOk result (λ items. OfEachTree (T.Holds tree.new)
        (λ host. IsWalk host (B.told told.now) how 0 (with_twins top.items) items.items)) }
    ensures held { OfEachTree (T.Holds tree.new) (T.Holds tree.old) }
    ensures failed { IfErr result (IsFaultOf (T.Fails tree.old)) }
    ensures later { FailLater (T.Fails tree.new) (T.Fails tree.old) }
{
    let mut items = Vec::new(alloc);
    let mut todo = Vec::new(alloc);
    lay_on(alloc, &mut todo, top)?;
    for _ in 0..u64::MAX {
        let Some(item) = todo.pop() else {
            return Ok(items);
        };
        let inside = items_inside(alloc, tree, told, how, items.len(), &item)?;
        lay_on(alloc, &mut todo, inside)?;
        items.push(item)?;
    }
    Err(HostFault::NoMemory)
}

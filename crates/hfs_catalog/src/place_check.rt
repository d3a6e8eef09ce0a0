//! The check at mounting on the order, the parents and the threads of a catalog.

ghost use Rattle.std.specs.Prelude.{◌≡◌, IfOk};
ghost use Rattle.hfs_catalog.specs.Indexes.{earlier};
ghost use Rattle.hfs_catalog.specs.Faults.{first_misplaced, place_fault};

use crate::index::IndexedCatalog;
use crate::order_check::first_not_above;
use crate::parent_check::first_wrong_parent;
use crate::thread_check::{first_unthreaded, first_wrong_thread};
use std::alloc::{AllocError, Global};

/// The earlier of two places.
fn earlier(a: Option<usize>, b: Option<usize>) -> Option<usize>
    ensures { result ≡ earlier a b }
{
    match (a, b) {
        (Some(i), Some(j)) => Some(if i <= j { i } else { j }),
        (Some(i), None) => Some(i),
        (None, _) => b,
    }
}

/// The number of the first record whose order, parent or thread is wrong.
fn first_misplaced(alloc: Global, catalog: &IndexedCatalog<'_>) -> Result<Option<usize>, AllocError>
    ensures { IfOk result (λ place. place ≡ first_misplaced catalog.now) }
{
    let records = catalog.records();
    let unordered = first_not_above(records);
    let lone = first_wrong_parent(alloc, catalog)?;
    let unthreaded = first_unthreaded(alloc, records)?;
    let astray = first_wrong_thread(catalog);
    let items = earlier(unordered, lone);
    let folders = earlier(items, unthreaded);
    Ok(earlier(folders, astray))
}

/// The number of the first record, from 0 on, that is out of order; or an item's whose parent is no folder or whose chain of
/// parents does not reach the root; or a folder's without a thread; or a thread's that does not lead to its item. If there is
/// none, the number of records, unless the keys of the index nodes are `in_order`. None if all are right.
///
/// Keys rise by the parent's ID and then by name, ignoring the case of ASCII letters ("Inside Macintosh: Files", chapter 2,
/// "Catalog file keys"). A thread is of its item's kind, and has its parent and, ignoring that case, its name. A file need not
/// have a thread.
///
/// Goes through the records a fixed number of times, and follows each part of a chain of parents at most twice. Takes memory for
/// a set of threads and a set of chains. `Err` only when out of memory.
#[tactic(auto, unfolding(crate::specs::Faults::place_fault))]
pub fn place_fault(
    alloc: Global,
    in_order: bool,
    catalog: &IndexedCatalog<'_>,
) -> Result<Option<usize>, AllocError>
    ensures { IfOk result (λ fault. fault ≡ place_fault in_order catalog.now) }
{
    let misplaced = first_misplaced(alloc, catalog)?;
    let unordered = if in_order { None } else { Some(catalog.len()) };
    Ok(misplaced.or(unordered))
}

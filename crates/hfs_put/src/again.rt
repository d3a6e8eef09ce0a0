//! A second look at the files of a host, after the last read.
ghost use Rattle.std.specs.Prelude.{◌≡◌, ◌↔◌, IfErr, IsTrue, OnOk, Some};
ghost use Rattle.hfs_put_sources.specs.Faults.{FailLater};
ghost use Rattle.hfs_put_sources.specs.Trees.{OfEachTree};
ghost use Rattle.hfs_put.specs.Again.{AreUnchanged, IsAsSeen, IsFaultUnless, IsUnchanged, seen_file};

use hfs_put_plan::EntryKind;
use hfs_put_sources::{HostFault, HostTime, HostTree, Look, SourceItem, cannot_read};
use std::alloc::Global;

/// Whether both are of the same kind, and files of the same length.
fn is_same_kind(kind: EntryKind, other: EntryKind) -> bool
    ensures { IsTrue result ↔ (kind ≡ other) }
{
    match kind {
        EntryKind::File(len) => match other {
            EntryKind::File(other_len) => len == other_len,
            EntryKind::Folder => false,
            EntryKind::Other => false,
        },
        EntryKind::Folder => match other {
            EntryKind::File(_) => false,
            EntryKind::Folder => true,
            EntryKind::Other => false,
        },
        EntryKind::Other => match other {
            EntryKind::File(_) => false,
            EntryKind::Folder => false,
            EntryKind::Other => true,
        },
    }
}

/// Whether both times are the same.
fn is_same_time(time: HostTime, other: HostTime) -> bool
    ensures { IsTrue result ↔ (time ≡ other) }
{
    time.seconds == other.seconds && time.nanoseconds == other.nanoseconds
}

/// Whether both looks saw the same.
fn is_same(look: Look, other: Look) -> bool
    ensures { IsTrue result ↔ (look ≡ other) }
{
    is_same_kind(look.kind, other.kind) && is_same_time(look.modified, other.modified)
}

/// Looks again at what a path leads to. Fault: `CannotRead` of the path, if it leads to nothing or to something else.
fn look_at_path<T: HostTree>(
    alloc: Global,
    tree: &mut T,
    path: &str,
    seen: Look,
) -> Result<(), HostFault>
    ensures same { OnOk result (OfEachTree (T.Holds tree.new) (λ host. host.target path.now ≡ Some seen)) }
    ensures held { OfEachTree (T.Holds tree.new) (T.Holds tree.old) }
    ensures failed { IfErr result (IsFaultUnless (T.Fails tree.old) (T.Holds tree.new)
        (λ host. host.target path.now ≡ Some seen)) }
    ensures later { FailLater (T.Fails tree.new) (T.Fails tree.old) }
{
    match tree.target(alloc, path)? {
        Some(look) => {
            if is_same(look, seen) {
                Ok(())
            } else {
                Err(cannot_read(alloc, path))
            }
        }
        None => Err(cannot_read(alloc, path)),
    }
}

/// What was seen of a file; None for a folder.
fn seen_file(look: Option<Look>) -> Option<Look>
    ensures { result ≡ seen_file look }
{
    match look {
        Some(look) => match look.kind {
            EntryKind::File(_) => Some(look),
            EntryKind::Folder => None,
            EntryKind::Other => None,
        },
        None => None,
    }
}

/// Looks again at a file, if one was seen.
fn look_at_file<T: HostTree>(
    alloc: Global,
    tree: &mut T,
    path: &str,
    seen: Option<Look>,
) -> Result<(), HostFault>
    ensures same { OnOk result (OfEachTree (T.Holds tree.new)
        (λ host. IsAsSeen host (Some path.now) (seen_file seen))) }
    ensures held { OfEachTree (T.Holds tree.new) (T.Holds tree.old) }
    ensures failed { IfErr result (IsFaultUnless (T.Fails tree.old) (T.Holds tree.new)
        (λ host. IsAsSeen host (Some path.now) (seen_file seen))) }
    ensures later { FailLater (T.Fails tree.new) (T.Fails tree.old) }
{
    match seen_file(seen) {
        Some(look) => look_at_path(alloc, tree, path, look),
        None => Ok(()),
    }
}

/// Looks again at both files of an item.
fn look_at_item<T: HostTree>(
    alloc: Global,
    tree: &mut T,
    item: &SourceItem,
) -> Result<(), HostFault>
    ensures same { OnOk result (OfEachTree (T.Holds tree.new) (λ host. IsUnchanged host item.now)) }
    ensures held { OfEachTree (T.Holds tree.new) (T.Holds tree.old) }
    ensures failed { IfErr result (IsFaultUnless (T.Fails tree.old) (T.Holds tree.new)
        (λ host. IsUnchanged host item.now)) }
    ensures later { FailLater (T.Fails tree.new) (T.Fails tree.old) }
{
    let plan = item.plan();
    look_at_file(alloc, tree, item.path(), plan.own)?;
    match item.double() {
        Some(path) => look_at_file(alloc, tree, path, plan.double),
        None => Ok(()),
    }
}

/// Looks again at the files of all items, their own and those that belong to them by their names. Faults: `CannotRead` of the
/// first file that is gone, has another length, or was changed at another time; those of the tree.
pub fn look_again<T: HostTree>(
    alloc: Global,
    tree: &mut T,
    items: &[SourceItem],
) -> Result<(), HostFault>
    ensures same { OnOk result (OfEachTree (T.Holds tree.new) (AreUnchanged items.now)) }
    ensures held { OfEachTree (T.Holds tree.new) (T.Holds tree.old) }
    ensures failed { IfErr result (IsFaultUnless (T.Fails tree.old) (T.Holds tree.new)
        (AreUnchanged items.now)) }
    ensures later { FailLater (T.Fails tree.new) (T.Fails tree.old) }
{
    for item in items {
        look_at_item(alloc, tree, item)?;
    }
    Ok(())
}

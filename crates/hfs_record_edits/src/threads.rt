//! Adding, removing and redirecting threads.
ghost use Rattle.std.specs.Prelude.{◌≡◌, ◌≤◌, None, OnOk};
ghost use Rattle.hfs_fields.specs.Keys.{cat_cmp};
ghost use Rattle.hfs_fields.specs.Records.{new_thread};
ghost use Rattle.hfs_fields.specs.RecordForms.{IsThreadRecordValue};
ghost use Rattle.hfs_fields.specs.Each.{Each};
ghost use Rattle.hfs_btree.specs.Pairs.{lookup};
ghost use Rattle.hfs_catalog.specs.Lookups.{first_key};
ghost use Rattle.hfs_catalog.specs.Sound.{IsRecord};
ghost use Rattle.hfs_catalog.specs.Tree.{IsCatalogTree, catalog_of};
ghost use Rattle.hfs_btree_edits.specs.Edits.{Edits};
ghost use Rattle.hfs_record_edits.specs.Finds.{AreThreadsReadable};
ghost use Rattle.hfs_record_edits.specs.ItemEdits.{ThreadCame, ThreadWent, ThreadTurned};
ghost use Rattle.hfs_record_edits.specs.Rooms.{IsInFile, HasRoom};
ghost use Rattle.hfs_record_edits.specs.Roots.{HasRoot};

use crate::bodies::thread_body;
use crate::keys::thread_key;
use crate::one_record::{put, set, take};
use hfs_btree::find;
use hfs_btree_edits::NodesMut;
use hfs_fields::{CatKey, Name, ThreadKind, ThreadRecord};
use std::alloc::{AllocError, Global};

/// Adds the thread of an ID that has none: it says that the item with this ID is a child of `dir` with this name.
///
/// Takes at most depth + 1 free nodes. After `AllocError` nothing is known of the nodes.
pub fn add_thread<N: NodesMut>(
    alloc: Global,
    nodes: &mut N,
    id: u32,
    kind: ThreadKind,
    dir: u32,
    name: &Name,
) -> Result<(), AllocError>
    requires tree { IsCatalogTree (N.nodes nodes.old) }
    requires root { HasRoot (catalog_of (N.nodes nodes.old)) }
    requires id { 2 ≤ id }
    requires absent { lookup cat_cmp (first_key id) (catalog_of (N.nodes nodes.old)) ≡ None }
    requires file { IsInFile (N.nodes nodes.old) }
    requires room { HasRoom (N.nodes nodes.old) }
    ensures came { Edits result (ThreadCame id kind dir name.now) N.nodes nodes.old nodes.new }
    ensures value { OnOk result (IsThreadRecordValue (new_thread kind dir name.now)) }
    ensures kept { OnOk result (N.kept nodes.new ≡ N.kept nodes.old) }
{
    let thread = ThreadRecord::new(kind, dir, *name);
    put(alloc, nodes, &thread_key(id), &thread_body(&thread))
}

/// Removes the thread of an ID, if it has one.
///
/// After `AllocError` nothing is known of the nodes.
pub fn drop_thread<N: NodesMut>(alloc: Global, nodes: &mut N, id: u32) -> Result<(), AllocError>
    requires tree { IsCatalogTree (N.nodes nodes.old) }
    requires records { Each IsRecord (catalog_of (N.nodes nodes.old)) }
    ensures went { Edits result (ThreadWent id) N.nodes nodes.old nodes.new }
    ensures kept { OnOk result (N.kept nodes.new ≡ N.kept nodes.old) }
{
    let key = thread_key(id);
    match find(alloc, nodes, &key)? {
        Some(_thread) => take(alloc, nodes, &key),
        None => Ok(()),
    }
}

/// Makes the thread of an ID, if it has one, lead to a key. Its kind and its reserved bytes stay.
pub(crate) fn turn_thread<N: NodesMut>(
    alloc: Global,
    nodes: &mut N,
    id: u32,
    to: &CatKey,
) -> Result<(), AllocError>
    requires tree { IsCatalogTree (N.nodes nodes.old) }
    requires records { Each IsRecord (catalog_of (N.nodes nodes.old)) }
    requires threads { AreThreadsReadable (catalog_of (N.nodes nodes.old)) }
    ensures turned { Edits result (ThreadTurned id to.now) N.nodes nodes.old nodes.new }
    ensures kept { OnOk result (N.kept nodes.new ≡ N.kept nodes.old) }
{
    let key = thread_key(id);
    let Some(body) = find(alloc, nodes, &key)? else {
        return Ok(());
    };
    let Some(thread) = ThreadRecord::read(&body) else {
        unreachable!()
    };
    let turned = ThreadRecord {
        parent: to.parent,
        name: to.name,
        ..thread
    };
    set(alloc, nodes, &key, &thread_body(&turned))
}

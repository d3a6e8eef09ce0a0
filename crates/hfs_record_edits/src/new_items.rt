//! Adding items.
ghost use Rattle.std.specs.Prelude.{◌≡◌, ◌≤◌, OnOk, length};
ghost use Rattle.hfs_fields.specs.RecordForms.{IsDirRecordValue, IsFileRecordValue};
ghost use Rattle.hfs_catalog.specs.Tree.{IsCatalogTree, catalog_of};
ghost use Rattle.hfs_btree_edits.specs.Edits.{Edits};
ghost use Rattle.hfs_record_edits.specs.ItemEdits.{IsNameFree, IsThreadKeyFree, FileCame, FolderAdded, FolderCame};
ghost use Rattle.hfs_record_edits.specs.Rooms.{IsInFile, HasRoom, HasRoomForTwo};
ghost use Rattle.hfs_record_edits.specs.Roots.{HasRoot};

use crate::bodies::{file_body, folder_body};
use crate::one_record::put;
use crate::threads::add_thread;
use hfs_btree_edits::NodesMut;
use hfs_fields::{CatKey, DirRecord, FileRecord, Name, ThreadKind};
use std::alloc::{AllocError, Global};

/// Adds a file to a folder that has no item of this name.
///
/// Takes at most depth + 1 free nodes. After `AllocError` nothing is known of the nodes.
pub fn add_file<N: NodesMut>(
    alloc: Global,
    nodes: &mut N,
    dir: u32,
    name: &Name,
    file: &FileRecord,
) -> Result<(), AllocError>
    requires tree { IsCatalogTree (N.nodes nodes.old) }
    requires root { HasRoot (catalog_of (N.nodes nodes.old)) }
    requires dir { 2 ≤ dir }
    requires absent { IsNameFree (N.nodes nodes.old) dir name.now }
    requires inside { IsInFile (N.nodes nodes.old) }
    requires room { HasRoom (N.nodes nodes.old) }
    ensures came { Edits result (FileCame dir name.now file.now) N.nodes nodes.old nodes.new }
    ensures value { OnOk result (IsFileRecordValue file.now) }
    ensures kept { OnOk result (N.kept nodes.new ≡ N.kept nodes.old) }
{
    let key = CatKey {
        parent: dir,
        name: *name,
    };
    put(alloc, nodes, &key, &file_body(file))
}

/// Adds a folder's record to a folder that has no item of this name.
fn add_folder<N: NodesMut>(
    alloc: Global,
    nodes: &mut N,
    dir: u32,
    name: &Name,
    folder: &DirRecord,
) -> Result<(), AllocError>
    requires tree { IsCatalogTree (N.nodes nodes.old) }
    requires root { HasRoot (catalog_of (N.nodes nodes.old)) }
    requires dir { 2 ≤ dir }
    requires absent { IsNameFree (N.nodes nodes.old) dir name.now }
    requires inside { IsInFile (N.nodes nodes.old) }
    requires room { HasRoom (N.nodes nodes.old) }
    ensures came { Edits result (FolderAdded dir name.now folder.now) N.nodes nodes.old nodes.new }
    ensures value { OnOk result (IsDirRecordValue folder.now) }
    ensures kept { OnOk result (N.kept nodes.new ≡ N.kept nodes.old) }
{
    let key = CatKey {
        parent: dir,
        name: *name,
    };
    put(alloc, nodes, &key, &folder_body(folder))
}

/// Adds a folder to a folder that has no item of this name, and its thread. Its ID has no thread yet.
///
/// Takes at most 2 × depth + 3 free nodes. After `AllocError` nothing is known of the nodes.
pub fn add_dir<N: NodesMut>(
    alloc: Global,
    nodes: &mut N,
    dir: u32,
    name: &Name,
    folder: &DirRecord,
) -> Result<(), AllocError>
    requires tree { IsCatalogTree (N.nodes nodes.old) }
    requires root { HasRoot (catalog_of (N.nodes nodes.old)) }
    requires dir { 2 ≤ dir }
    requires named { 1 ≤ length name.now }
    requires id { 2 ≤ folder.now.id }
    requires absent { IsNameFree (N.nodes nodes.old) dir name.now }
    requires threadless { IsThreadKeyFree (N.nodes nodes.old) folder.now.id }
    requires inside { IsInFile (N.nodes nodes.old) }
    requires room { HasRoomForTwo (N.nodes nodes.old) }
    ensures came { Edits result (FolderCame dir name.now folder.now) N.nodes nodes.old nodes.new }
    ensures kept { OnOk result (N.kept nodes.new ≡ N.kept nodes.old) }
{
    add_folder(alloc, nodes, dir, name, folder)?;
    add_thread(alloc, nodes, folder.id, ThreadKind::Folder, dir, name)
}

//! Threads of files in a catalog's nodes; bit 1 of the flags of the file's record is set and cleared with them.

ghost use Rattle.std.specs.Prelude.{◌≡◌, ◌≤◌, true, IsTrue, OnOk};
ghost use Rattle.hfs_fields.specs.Names.{is_item_name};
ghost use Rattle.hfs_fields.specs.Each.{Each};
ghost use Rattle.hfs_catalog.specs.Sound.{IsRecord};
ghost use Rattle.hfs_catalog.specs.Tree.{IsCatalogTree, catalog_of};
ghost use Rattle.hfs_record_edits.specs.Rooms.{IsInFile, HasRoom};
ghost use Rattle.hfs_record_edits.specs.Roots.{HasRoot};
ghost use Rattle.hfs_call_patches.specs.FileIds.{FileIdCame, FileIdWent, LacksThread};
ghost use Rattle.hfs_call_patches.specs.Settings.{IsFileUnder};
ghost use Rattle.hfs_btree_edits.specs.Edits.{Edits};

use hfs_btree_edits::NodesMut;
use hfs_catalog::ItemRecord;
use hfs_fields::{CatKey, FileRecord, ThreadKind};
use hfs_record_edits::{add_thread, drop_thread, set_record};
use std::alloc::{AllocError, Global};

/// Adds the thread of a file that has none, and sets the bit. Fails only when out of memory.
pub(crate) fn add_file_thread<N: NodesMut>(
    alloc: Global,
    nodes: &mut N,
    key: &CatKey,
    file: &FileRecord,
) -> Result<(), AllocError>
    requires tree { IsCatalogTree (N.nodes nodes.old) }
    requires root { HasRoot (catalog_of (N.nodes nodes.old)) }
    requires name { IsTrue (is_item_name key.now.name) }
    requires low { 2 ≤ key.now.parent }
    requires there { IsFileUnder key.now (catalog_of (N.nodes nodes.old)) }
    requires id { 2 ≤ file.now.id }
    requires absent { LacksThread file.now.id (catalog_of (N.nodes nodes.old)) }
    requires inside { IsInFile (N.nodes nodes.old) }
    requires room { HasRoom (N.nodes nodes.old) }
    ensures came { Edits result (FileIdCame key.now file.now) N.nodes nodes.old nodes.new }
    ensures kept { OnOk result (N.kept nodes.new ≡ N.kept nodes.old) }
{
    let flagged = FileRecord {
        flags: file.flags.with_thread(true),
        ..*file
    };
    set_record(alloc, nodes, key, &ItemRecord::File(flagged))?;
    add_thread(
        alloc,
        nodes,
        file.id,
        ThreadKind::File,
        key.parent,
        &key.name,
    )
}

/// Removes the thread of a file, and clears the bit. Fails only when out of memory.
pub(crate) fn drop_file_thread<N: NodesMut>(
    alloc: Global,
    nodes: &mut N,
    key: &CatKey,
    file: &FileRecord,
) -> Result<(), AllocError>
    requires tree { IsCatalogTree (N.nodes nodes.old) }
    requires records { Each IsRecord (catalog_of (N.nodes nodes.old)) }
    requires name { IsTrue (is_item_name key.now.name) }
    requires there { IsFileUnder key.now (catalog_of (N.nodes nodes.old)) }
    ensures went { Edits result (FileIdWent key.now file.now) N.nodes nodes.old nodes.new }
    ensures kept { OnOk result (N.kept nodes.new ≡ N.kept nodes.old) }
{
    let flagged = FileRecord {
        flags: file.flags.with_thread(false),
        ..*file
    };
    set_record(alloc, nodes, key, &ItemRecord::File(flagged))?;
    drop_thread(alloc, nodes, file.id)
}

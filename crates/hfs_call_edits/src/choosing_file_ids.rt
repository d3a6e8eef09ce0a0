//! What the calls on file IDs choose in the catalog. In each, the first code that applies is the reply's.

ghost use Rattle.std.specs.Prelude.{◌≡◌};
ghost use Rattle.hfs_catalog.specs.Tree.{catalog_of};
ghost use Rattle.hfs_call_edits.specs.Choosing.{as_file};
ghost use Rattle.hfs_call_edits.specs.ChoosingFileIds.{file_without_id, file_with_id, chosen_without_id};
ghost use Rattle.hfs_items.specs.Told.{IsCatalog};

use crate::choosing::{child_to_change, lock_code};
use hfs_btree::Nodes;
use hfs_catalog::{ItemRecord, by_id, thread};
use hfs_fields::{CatKey, FileRecord, Mdb};
use hfs_model::{FILE_ID_EXISTS, FILE_ID_NOT_FOUND, NOT_A_FILE};

/// The folder's file of that name, which has no thread, with its key, or the code that refuses to give it one.
pub(crate) fn file_without_id<N: Nodes>(
    nodes: &N,
    mdb: &Mdb,
    dir: u32,
    name: &[u8],
) -> Result<(CatKey, FileRecord), i16>
    requires { IsCatalog (N.nodes nodes.now) }
    ensures { result ≡ chosen_without_id mdb.now (N.nodes nodes.now) dir name.now }
{
    let item = match child_to_change(nodes, mdb, dir, name) {
        Ok(item) => item,
        Err(code) => return Err(code),
    };
    let key = item.key;
    match item.body {
        ItemRecord::Folder(_) => Err(NOT_A_FILE),
        ItemRecord::File(file) => {
            if thread(nodes, file.id).is_some() {
                return Err(FILE_ID_EXISTS);
            }
            Ok((key, file))
        }
    }
}

/// The file with that ID, which has a thread, with its key, or the code that refuses to remove it. Each folder has a thread, so
/// not all records are read for an ID without one.
pub(crate) fn file_with_id<N: Nodes>(
    nodes: &N,
    mdb: &Mdb,
    id: u32,
) -> Result<(CatKey, FileRecord), i16>
    requires { IsCatalog (N.nodes nodes.now) }
    ensures { result ≡ as_file (file_with_id mdb.now (catalog_of (N.nodes nodes.now)) id) }
{
    if let Some(code) = lock_code(mdb) {
        return Err(code);
    }
    if thread(nodes, id).is_none() {
        return Err(FILE_ID_NOT_FOUND);
    }
    let Some(item) = by_id(nodes, id) else {
        return Err(FILE_ID_NOT_FOUND);
    };
    let key = item.key;
    match item.body {
        ItemRecord::Folder(_) => Err(NOT_A_FILE),
        ItemRecord::File(file) => Ok((key, file)),
    }
}

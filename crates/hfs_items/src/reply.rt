//! Replies, and what they say about an item of the catalog.

ghost use Rattle.std.specs.Prelude.{◌≡◌, ◌++◌, Some};
ghost use Rattle.hfs_model.specs.Replies.{refusal, success};
ghost use Rattle.hfs_catalog.specs.Tree.{catalog_of};
ghost use Rattle.hfs_items.specs.Brief.{in_detail};
ghost use Rattle.hfs_items.specs.Told.{IsCatalog, folder_info, file_info, item_info};

use hfs_btree::Nodes;
use hfs_catalog::{CatalogItem, ItemRecord, thread};
use hfs_fields::{CatKey, DirRecord, FileRecord};
use hfs_model::{Info, ItemKind, Reply, Value};

/// A code other than 0, with no value.
pub fn refusal(code: i16) -> Reply
    ensures { result ≡ refusal code }
{
    Reply {
        code,
        value: Value::Nothing,
    }
}

/// Code 0, with a value.
pub fn success(value: Value) -> Reply
    ensures { result ≡ success value }
{
    Reply { code: 0, value }
}

/// The 32 Finder bytes of an item, which are in two places of its record.
fn finder_bytes(info: &[u8; 16], extended: &[u8; 16]) -> [u8; 32]
    ensures { result ≡ info.now ++ extended.now }
{
    let mut all = [0; 32];
    all[..16].copy_from_slice(info);
    all[16..].copy_from_slice(extended);
    all
}

/// What a reply says about a folder.
#[tactic(auto, unfolding(crate::specs::Told::folder_info))]
fn folder_info(key: CatKey, folder: &DirRecord) -> Info
    ensures { result ≡ folder_info key folder.now }
{
    Info {
        id: folder.id,
        parent: key.parent,
        name: key.name,
        kind: ItemKind::Folder,
        created: folder.created,
        modified: folder.modified,
        backup: folder.backup,
        finder: finder_bytes(&folder.finder_info, &folder.extended_finder_info),
        locked: false,
        has_id: false,
        valence: u32::from(folder.valence),
        data_len: 0,
        res_len: 0,
    }
}

/// What a reply says about a file, which may have a thread.
#[tactic(auto, unfolding(crate::specs::Told::file_info))]
fn file_info(has_thread: bool, key: CatKey, file: &FileRecord) -> Info
    ensures { result ≡ file_info has_thread key file.now }
{
    Info {
        id: file.id,
        parent: key.parent,
        name: key.name,
        kind: ItemKind::File,
        created: file.created,
        modified: file.modified,
        backup: file.backup,
        finder: finder_bytes(&file.finder_info, &file.extended_finder_info),
        locked: file.flags.is_locked(),
        has_id: has_thread,
        valence: 0,
        data_len: file.data.length,
        res_len: file.resource.length,
    }
}

/// How much a reply says about an item.
#[derive(Clone, Copy)]
pub enum Detail {
    /// Everything; for a file, its thread is looked up.
    Full,
    /// What its own record says: `has_id` is false, even for a file with a thread.
    Brief,
}

/// What a reply says about an item of the catalog. A folder's valence and the lengths of a file's forks are those of its record.
pub fn item_info<N: Nodes>(nodes: &N, item: &CatalogItem, detail: Detail) -> Info
    requires { IsCatalog (N.nodes nodes.now) }
    ensures { result ≡ in_detail detail (item_info (catalog_of (N.nodes nodes.now)) item.now) }
{
    match &item.body {
        ItemRecord::Folder(folder) => folder_info(item.key, folder),
        ItemRecord::File(file) => match detail {
            Detail::Full => file_info(thread(nodes, file.id).is_some(), item.key, file),
            Detail::Brief => file_info(false, item.key, file),
        },
    }
}

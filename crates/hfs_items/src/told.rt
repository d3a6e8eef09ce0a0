//! What a record says about its item.
ghost use Rattle.std.specs.Prelude.{◌≡◌, ◌++◌, IsTrue};
ghost use Rattle.hfs_fields.specs.Records.{is_item};
ghost use Rattle.hfs_catalog.specs.Lookups.{catalog_item};
ghost use Rattle.hfs_items.specs.Told.{folder_info, file_info};
ghost use Rattle.hfs_items.specs.Infos.{item_told};

use hfs_catalog::{CatalogItem, CatalogRecord, ItemRecord, item_of};
use hfs_fields::{CatKey, DirRecord, FileRecord};
use hfs_model::{Info, ItemKind};

/// The 32 Finder bytes of an item, which are in two places of its record.
fn finder_bytes(info: &[u8; 16], extended: &[u8; 16]) -> [u8; 32]
    ensures { result ≡ info.now ++ extended.now }
{
    let mut all = [0; 32];
    all[..16].copy_from_slice(info);
    all[16..].copy_from_slice(extended);
    all
}

#[tactic(auto, unfolding(crate::specs::Told::folder_info))]
fn folder_told(key: CatKey, folder: &DirRecord) -> Info
    ensures { result ≡ folder_info key folder.now }
{
    Info {
        id: folder.id,
        parent: key.parent,
        name: key.name,
        kind: ItemKind::Folder,
        created: folder.created,
        modified: folder.modified,
        backup: folder.backup,
        finder: finder_bytes(&folder.finder_info, &folder.extended_finder_info),
        locked: false,
        has_id: false,
        valence: u32::from(folder.valence),
        data_len: 0,
        res_len: 0,
    }
}

#[tactic(auto, unfolding(crate::specs::Told::file_info))]
fn file_told(has_thread: bool, key: CatKey, file: &FileRecord) -> Info
    ensures { result ≡ file_info has_thread key file.now }
{
    Info {
        id: file.id,
        parent: key.parent,
        name: key.name,
        kind: ItemKind::File,
        created: file.created,
        modified: file.modified,
        backup: file.backup,
        finder: finder_bytes(&file.finder_info, &file.extended_finder_info),
        locked: file.flags.is_locked(),
        has_id: has_thread,
        valence: 0,
        data_len: file.data.length,
        res_len: file.resource.length,
    }
}

/// What is known of an item. Whether it has a thread only applies to a file.
fn item_told(item: &CatalogItem, has_thread: bool) -> Info
    ensures { result ≡ item_told has_thread item.now }
{
    match &item.body {
        ItemRecord::Folder(folder) => folder_told(item.key, folder),
        ItemRecord::File(file) => file_told(has_thread, item.key, file),
    }
}

/// What is known of the item of a record.
pub(crate) fn record_told(stored: &CatalogRecord, has_thread: bool) -> Info
    requires { IsTrue (is_item stored.now.1) }
    ensures { result ≡ item_told has_thread (catalog_item stored.now) }
{
    let Some(item) = item_of(*stored.key(), stored.body()) else {
        unreachable!()
    };
    item_told(&item, has_thread)
}

//! What an item's own record says about it.
ghost use Rattle.std.specs.Prelude.{◌≡◌, ◌++◌, false};
ghost use Rattle.hfs_items.specs.Told.{file_info, folder_info};
ghost use Rattle.hfs_rescue_items.specs.Found.{info_of, told};

use hfs_catalog::{CatalogItem, ItemRecord, item_of};
use hfs_fields::{CatKey, DirRecord, FileRecord};
use hfs_model::{Info, ItemKind};
use hfs_remains::FoundRecord;

/// The 32 Finder bytes of an item, which are in two places of its record.
fn finder_bytes(info: &[u8; 16], extended: &[u8; 16]) -> [u8; 32]
    ensures { result ≡ info.now ++ extended.now }
{
    let mut all = [0; 32];
    all[..16].copy_from_slice(info);
    all[16..].copy_from_slice(extended);
    all
}

/// What is known of a folder.
#[tactic(auto, unfolding(hfs_items::specs::Told::folder_info))]
fn folder_info(key: CatKey, folder: &DirRecord) -> Info
    ensures { result ≡ folder_info key folder.now }
{
    Info {
        id: folder.id,
        parent: key.parent,
        name: key.name,
        kind: ItemKind::Folder,
        created: folder.created,
        modified: folder.modified,
        backup: folder.backup,
        finder: finder_bytes(&folder.finder_info, &folder.extended_finder_info),
        locked: false,
        has_id: false,
        valence: u32::from(folder.valence),
        data_len: 0,
        res_len: 0,
    }
}

/// What is known of a file, whose thread is not looked for.
#[tactic(auto, unfolding(hfs_items::specs::Told::file_info))]
fn file_info(key: CatKey, file: &FileRecord) -> Info
    ensures { result ≡ file_info false key file.now }
{
    Info {
        id: file.id,
        parent: key.parent,
        name: key.name,
        kind: ItemKind::File,
        created: file.created,
        modified: file.modified,
        backup: file.backup,
        finder: finder_bytes(&file.finder_info, &file.extended_finder_info),
        locked: file.flags.is_locked(),
        has_id: false,
        valence: 0,
        data_len: file.data.length,
        res_len: file.resource.length,
    }
}

/// What the own record of a catalog's item says about it.
fn info_of(item: &CatalogItem) -> Info
    ensures { result ≡ info_of item.now }
{
    match &item.body {
        ItemRecord::Folder(folder) => folder_info(item.key, folder),
        ItemRecord::File(file) => file_info(item.key, file),
    }
}

/// What its own record says about an item; None for any other record.
pub fn told_of(found: &FoundRecord) -> Option<Info>
    ensures { result ≡ told found.now }
{
    match item_of(*found.entry.key(), found.entry.body()) {
        Some(item) => Some(info_of(&item)),
        None => None,
    }
}

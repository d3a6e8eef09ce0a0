//! One item of the catalog, as its record has it.
ghost use Rattle.std.specs.Prelude.{◌≡◌, if◌then◌else◌, Some, None};
ghost use Rattle.hfs_fields.specs.Records.{is_dir, is_file, is_item, is_thread, item_id};
ghost use Rattle.hfs_catalog.specs.Lookups.{catalog_item, with_id_at};

use hfs_fields::{CatKey, DirRecord, FileRecord, ThreadRecord, u32_at};

/// A folder's record or a file's.
#[derive(Clone, Copy)]
pub enum ItemRecord {
    Folder(DirRecord),
    File(FileRecord),
}

/// A folder or a file of the catalog: the key with its parent and its name, and the record under it.
#[derive(Clone, Copy)]
pub struct CatalogItem {
    pub key: CatKey,
    pub body: ItemRecord,
}

/// Whether a body is a folder's record.
pub fn is_folder(body: &[u8]) -> bool
    ensures { result ≡ is_dir body.now }
{
    body.len() == DirRecord::LENGTH && body[0] == 1
}

/// Whether a body is a file's record.
pub fn is_file(body: &[u8]) -> bool
    ensures { result ≡ is_file body.now }
{
    body.len() == FileRecord::LENGTH && body[0] == 2
}

/// The item of a record of the catalog. None exactly when the body is neither a folder's nor a file's.
#[tactic(auto, unfolding(crate::specs::Lookups::catalog_item, hfs_fields::specs::Records::begins_dir, hfs_fields::specs::Records::begins_file))]
pub fn item_of(key: CatKey, body: &[u8]) -> Option<CatalogItem>
    ensures { result ≡ if is_item body.now then Some (catalog_item (key, body.now)) else None }
{
    if is_folder(body) {
        let Some(folder) = DirRecord::read(body) else {
            unreachable!()
        };
        return Some(CatalogItem {
            key,
            body: ItemRecord::Folder(folder),
        });
    }
    if is_file(body) {
        let Some(file) = FileRecord::read(body) else {
            unreachable!()
        };
        return Some(CatalogItem {
            key,
            body: ItemRecord::File(file),
        });
    }
    None
}

/// The item of a record, if it has that ID.
#[tactic(auto, unfolding(crate::specs::Lookups::catalog_item))]
pub(crate) fn item_with_id(key: CatKey, body: &[u8], id: u32) -> Option<CatalogItem>
    ensures { result ≡ with_id_at id (Some (key, body.now)) }
{
    let item = item_of(key, body)?;
    let own = match item.body {
        ItemRecord::Folder(folder) => folder.id,
        ItemRecord::File(file) => file.id,
    };
    if own == id { Some(item) } else { None }
}

/// The ID of a folder's or a file's record. None exactly when the body is neither's. No other field is read.
#[tactic(auto, unfolding(hfs_fields::specs::Records::dir_record_of, hfs_fields::specs::Records::file_record_of))]
pub fn item_id(body: &[u8]) -> Option<u32>
    ensures { result ≡ if is_item body.now then Some (item_id body.now) else None }
{
    if !is_item(body) {
        return None;
    }
    if is_folder(body) {
        Some(u32_at(body, 6))
    } else {
        Some(u32_at(body, 20))
    }
}

/// Whether a body is a thread's record.
pub fn is_thread(body: &[u8]) -> bool
    ensures { result ≡ is_thread body.now }
{
    body.len() == ThreadRecord::LENGTH && (body[0] == 3 || body[0] == 4)
}

/// Whether a body is a folder's or a file's record.
pub fn is_item(body: &[u8]) -> bool
    ensures { result ≡ is_item body.now }
{
    is_folder(body) || is_file(body)
}

//! The checks at mounting that read each record of the catalog once: of records, of names and of counts.
//!
//! A place is the number of a leaf record, from 0 on, or the number of leaf records if what fails is none of them.
ghost use Rattle.std.specs.Prelude.{◌≡◌, ◌&&◌, [], length, count_by};
ghost use Rattle.std.specs.List.{list_all};
ghost use Rattle.hfs_fields.specs.Records.{is_dir, is_file, begins_thread, thread_record_of};
ghost use Rattle.hfs_fields.specs.Names.{is_item_name};
ghost use Rattle.hfs_fields.specs.First.{first_failing};
ghost use Rattle.hfs_catalog.specs.Sound.{is_file_in, is_folder_in};
ghost use Rattle.hfs_catalog.specs.Faults.{is_record_right, record_fault, is_name_right, is_index_key_name, name_fault, count_fault};

use crate::{CatalogRecord, is_file, is_folder, is_item, is_thread};
use hfs_fields::{CatKey, Mdb, ThreadRecord, is_item_name};

/// Whether a record is a folder's or a file's with a name, or a thread's without one.
#[tactic(auto, unfolding(crate::specs::Faults::is_record_right))]
fn is_record_right(r: &CatalogRecord) -> bool
    ensures { result ≡ is_record_right r.now }
{
    let body = r.body();
    let length = r.key().name.bytes().len();
    (is_item(body) && 1 <= length) || (is_thread(body) && length == 0)
}

/// The number of the first record that is neither a folder's or a file's with a name, nor a thread's without one.
#[tactic(auto, using(hfs_fields::proofs::ScanStepLemmas::scan_stop, hfs_fields::proofs::ScanStepLemmas::scan_go, hfs_fields::proofs::ScanStepLemmas::scan_end), unfolding(crate::specs::Faults::record_fault))]
pub fn record_fault(catalog: &[CatalogRecord]) -> Option<usize>
    ensures { result ≡ record_fault catalog.now }
{
    for i in 0..catalog.len() {
        if !is_record_right(&catalog[i]) {
            return Some(i);
        }
    }
    None
}

/// Whether a thread's name is an item name, of a length that can be read.
fn is_thread_name_right(body: &[u8]) -> bool
    ensures { result ≡ (begins_thread body.now && is_item_name (thread_record_of body.now).name) }
{
    match ThreadRecord::read(body) {
        Some(thread) => is_item_name(thread.name.bytes()),
        None => false,
    }
}

/// Whether an item's key, or a thread's body, has an item name.
#[tactic(auto, unfolding(crate::specs::Faults::is_name_right))]
fn is_name_right(r: &CatalogRecord) -> bool
    ensures { result ≡ is_name_right r.now }
{
    let body = r.body();
    (!is_item(body) || is_item_name(r.key().name.bytes()))
        && (!is_thread(body) || is_thread_name_right(body))
}

#[tactic(auto, using(hfs_fields::proofs::ScanStepLemmas::scan_stop, hfs_fields::proofs::ScanStepLemmas::scan_go, hfs_fields::proofs::ScanStepLemmas::scan_end))]
fn first_wrong_name(catalog: &[CatalogRecord]) -> Option<usize>
    ensures { result ≡ first_failing (λ _ r. is_name_right r) [] catalog.now }
{
    for i in 0..catalog.len() {
        if !is_name_right(&catalog[i]) {
            return Some(i);
        }
    }
    None
}

/// Whether an index key has an empty name or an item name.
#[tactic(auto, unfolding(crate::specs::Faults::is_index_key_name))]
fn is_index_key_name(key: &CatKey) -> bool
    ensures { result ≡ is_index_key_name key.now }
{
    key.name.bytes().is_empty() || is_item_name(key.name.bytes())
}

fn are_index_key_names(index_keys: &[CatKey]) -> bool
    ensures { result ≡ list_all is_index_key_name index_keys.now }
{
    index_keys.iter().all(|key| is_index_key_name(key))
}

/// The number of the first record with a wrong name; the number of records if the name of an index key is wrong.
#[tactic(auto, unfolding(crate::specs::Faults::name_fault))]
pub fn name_fault(index_keys: &[CatKey], catalog: &[CatalogRecord]) -> Option<usize>
    ensures { result ≡ name_fault index_keys.now catalog.now }
{
    match first_wrong_name(catalog) {
        Some(i) => Some(i),
        None => {
            if are_index_key_names(index_keys) {
                None
            } else {
                Some(catalog.len())
            }
        }
    }
}

/// How many files have this parent.
pub fn count_files_in(catalog: &[CatalogRecord], dir: u32) -> usize
    ensures { result ≡ count_by (is_file_in dir) catalog.now }
{
    catalog
        .iter()
        .filter(|r| is_file(r.body()) && r.key().parent == dir)
        .count()
}

/// How many folders have this parent.
pub fn count_folders_in(catalog: &[CatalogRecord], dir: u32) -> usize
    ensures { result ≡ count_by (is_folder_in dir) catalog.now }
{
    catalog
        .iter()
        .filter(|r| is_folder(r.body()) && r.key().parent == dir)
        .count()
}

/// How many files there are.
pub fn count_files(catalog: &[CatalogRecord]) -> usize
    ensures { result ≡ count_by (λ r. is_file r.1) catalog.now }
{
    catalog.iter().filter(|r| is_file(r.body())).count()
}

/// How many folders there are, including the root.
pub fn count_folders(catalog: &[CatalogRecord]) -> usize
    ensures { result ≡ count_by (λ r. is_dir r.1) catalog.now }
{
    catalog.iter().filter(|r| is_folder(r.body())).count()
}

/// The number of the first count of the master directory block that is wrong: 1 the root's files (drNmFls), 2 the root's folders
/// (drNmRtDirs), 3 all files (drFilCnt), 4 all folders except the root (drDirCnt).
#[tactic(auto, unfolding(crate::specs::Faults::count_fault, crate::specs::Sound::counts_of))]
pub fn count_fault(mdb: &Mdb, catalog: &[CatalogRecord]) -> Option<usize>
    ensures { result ≡ count_fault mdb.now catalog.now }
{
    if mdb.root_files as usize != count_files_in(catalog, 2) {
        return Some(1);
    }
    if mdb.root_folders as usize != count_folders_in(catalog, 2) {
        return Some(2);
    }
    if mdb.files as usize != count_files(catalog) {
        return Some(3);
    }
    if mdb.folders as usize != count_folders(catalog).saturating_sub(1) {
        return Some(4);
    }
    None
}

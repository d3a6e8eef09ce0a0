//! Items in the order of their IDs.
ghost use Rattle.std.specs.Prelude.{◌≡◌, ℕ, ◌≤◌, ◌<◌, position, length, OnOk, IfOk};
ghost use Rattle.hfs_model.specs.Children.{has_id, is_child_named, is_folder_kind, is_folder, valence};
ghost use Rattle.std.specs.List.{position_or_len};
ghost use Rattle.std.specs.Bool.{OnFalse};
ghost use Rattle.hfs_store.specs.Placing.{place_info, comes_after};
ghost use Rattle.hfs_store.specs.Found.{FoundAt};
ghost use Rattle.hfs_model.specs.Replies.{is_locked_file, has_thread, info_of, infos};
ghost use Rattle.hfs_model.specs.Choices.{is_other_named, is_busy, is_full, is_held, is_taken, lies_in, is_bad_move};
ghost use Rattle.hfs_model.specs.Changes.{new_file, new_folder, new_item};

use hfs_fields::{Name, same_name};
use hfs_model::{Content, File, Info, Item, ItemKind, Kind};
use std::alloc::{AllocError, Global};
use std::cmp::Ordering;

/// Whether it is a folder.
pub fn is_folder_kind(kind: &Kind) -> bool
    ensures { result ≡ is_folder_kind kind.now }
{
    match kind {
        Kind::Folder { .. } => true,
        Kind::File(_) => false,
    }
}

/// Whether it is a locked file.
pub fn is_locked_file(kind: &Kind) -> bool
    ensures { result ≡ is_locked_file kind.now }
{
    match kind {
        Kind::Folder { .. } => false,
        Kind::File(file) => file.locked,
    }
}

/// Whether it is a file with a thread.
pub fn has_thread(kind: &Kind) -> bool
    ensures { result ≡ has_thread kind.now }
{
    match kind {
        Kind::Folder { .. } => false,
        Kind::File(file) => file.has_thread,
    }
}

/// The place of the item of that ID.
fn place_of_scan(entries: &[(u32, Item)], id: u32) -> Option<usize>
    ensures { result ≡ position (has_id id) entries.now }
{
    entries.iter().position(|e| e.0 == id)
}

/// The place of the item of that ID.
#[tactic(auto, using(crate::proofs::Scans::found))]
pub fn place_of(entries: &[(u32, Item)], id: u32) -> Option<usize>
    ensures { FoundAt (has_id id) entries.now result }
{
    place_of_scan(entries, id)
}

/// The place of the folder's item of that name.
fn child_named_scan(entries: &[(u32, Item)], dir: u32, name: &[u8]) -> Option<usize>
    ensures { result ≡ position (is_child_named dir name.now) entries.now }
{
    entries
        .iter()
        .position(|e| e.1.parent == dir && same_name(e.1.name.bytes(), name))
}

/// The place of the folder's item of that name.
#[tactic(auto, using(crate::proofs::Scans::found))]
pub fn child_named(entries: &[(u32, Item)], dir: u32, name: &[u8]) -> Option<usize>
    ensures { FoundAt (is_child_named dir name.now) entries.now result }
{
    child_named_scan(entries, dir, name)
}

/// The place of the folder's item of that name, other than the one of this ID.
fn other_named_scan(entries: &[(u32, Item)], dir: u32, name: &[u8], id: u32) -> Option<usize>
    ensures { result ≡ position (is_other_named dir name.now id) entries.now }
{
    entries.iter().position(|e| e.1.parent == dir && same_name(e.1.name.bytes(), name) && e.0 != id)
}

/// The place of the folder's item of that name, other than the one of this ID.
#[tactic(auto, using(crate::proofs::Scans::found))]
pub fn other_named(entries: &[(u32, Item)], dir: u32, name: &[u8], id: u32) -> Option<usize>
    ensures { FoundAt (is_other_named dir name.now id) entries.now result }
{
    other_named_scan(entries, dir, name, id)
}

/// Whether it is the ID of a folder.
pub fn is_folder(entries: &[(u32, Item)], id: u32) -> bool
    ensures { result ≡ is_folder entries.now id }
{
    match place_of(entries, id) {
        None => false,
        Some(at) => is_folder_kind(&entries[at].1.kind),
    }
}

/// The number of items whose parent this is.
pub fn valence(entries: &[(u32, Item)], dir: u32) -> usize
    ensures { result ≡ valence entries.now dir }
{
    entries.iter().filter(|e| e.1.parent == dir).count()
}

/// Whether it is a folder with children.
#[tactic(auto, unfolding(hfs_model::specs::Choices::is_busy))]
pub fn is_busy(entries: &[(u32, Item)], entry: &(u32, Item)) -> bool
    ensures { result ≡ is_busy entries.now entry.now }
{
    is_folder_kind(&entry.1.kind) && valence(entries, entry.0) > 0
}

/// Whether a folder has no room for another child.
#[tactic(auto, unfolding(hfs_model::specs::Choices::is_full))]
pub fn is_full(entries: &[(u32, Item)], dir: u32) -> bool
    ensures test { result ≡ is_full entries.now dir }
    ensures room { OnFalse result (valence entries.now dir < 65535) }
{
    valence(entries, dir) >= 65535
}

/// Whether the folder holds an item of that name.
#[tactic(auto, unfolding(hfs_model::specs::Choices::is_held))]
pub fn is_held(entries: &[(u32, Item)], dir: u32, name: &[u8]) -> bool
    ensures { result ≡ is_held entries.now dir name.now }
{
    child_named(entries, dir, name).is_some()
}

/// Whether an item of the folder, other than the one of this ID, has that name.
#[tactic(auto, unfolding(hfs_model::specs::Choices::is_taken))]
pub fn is_taken(entries: &[(u32, Item)], dir: u32, name: &[u8], id: u32) -> bool
    ensures { result ≡ is_taken entries.now dir name.now id }
{
    other_named(entries, dir, name, id).is_some()
}

/// Whether `id` is at most `steps` parents up from `dir`.
#[tactic(auto, unfolding(hfs_model::specs::Choices::lies_in))]
fn lies_in(entries: &[(u32, Item)], steps: usize, dir: u32, id: u32) -> bool
    ensures { result ≡ lies_in entries.now steps dir id }
{
    if dir == id {
        return true;
    }
    if steps == 0 {
        return false;
    }
    match place_of(entries, dir) {
        None => false,
        Some(at) => lies_in(entries, steps - 1, entries[at].1.parent, id),
    }
}

/// Whether moving the item to a folder would put it into itself.
#[tactic(auto, unfolding(hfs_model::specs::Choices::is_bad_move))]
pub fn is_bad_move(entries: &[(u32, Item)], entry: &(u32, Item), dir: u32) -> bool
    ensures { result ≡ is_bad_move entries.now entry.now dir }
{
    is_folder_kind(&entry.1.kind) && lies_in(entries, entries.len(), dir, entry.0)
}

/// What a reply says about an item.
#[tactic(auto, unfolding(hfs_model::specs::Replies::info_of))]
pub fn info_of(entries: &[(u32, Item)], entry: &(u32, Item)) -> Info
    requires { (id : ℕ) → valence entries.now id ≤ 65535 }
    ensures { result ≡ info_of entries.now entry.now }
{
    let (id, item) = entry;
    let mut info = Info {
        id: *id,
        parent: item.parent,
        name: item.name,
        kind: ItemKind::Folder,
        created: item.created,
        modified: item.modified,
        backup: item.backup,
        finder: item.finder,
        locked: false,
        has_id: false,
        valence: 0,
        data_len: 0,
        res_len: 0,
    };
    match &item.kind {
        Kind::Folder { .. } => info.valence = valence(entries, *id) as u32,
        Kind::File(file) => {
            info.kind = ItemKind::File;
            info.locked = file.locked;
            info.has_id = file.has_thread;
            info.data_len = file.data.as_slice().len() as u32;
            info.res_len = file.resource.as_slice().len() as u32;
        }
    }
    info
}

/// The place of the first one that comes after the name.
fn place_scan(found: &[Info], name: &Name) -> Option<usize>
    ensures { result ≡ position (comes_after name.now) found.now }
{
    found
        .iter()
        .position(|c| c.name.cmp_folded(name) == Ordering::Greater)
}

#[tactic(auto, using(crate::proofs::Sorted::place_or_end))]
fn place_for(found: &[Info], name: &Name) -> usize
    ensures at { result ≡ position_or_len (comes_after name.now) found.now }
    ensures within { result ≤ length found.now }
{
    place_scan(found, name).unwrap_or(found.len())
}

fn place_info(found: &mut Vec<Info>, info: Info) -> Result<(), AllocError>
    ensures { OnOk result (found.new.items ≡ place_info info found.old.items) }
{
    let at = place_for(found, &info.name);
    found.insert(at, info)?;
    Ok(())
}

/// What a reply says about a folder's children, in name order.
#[tactic(auto, using(crate::proofs::Sorted::placed))]
pub fn infos(alloc: Global, entries: &[(u32, Item)], dir: u32) -> Result<Vec<Info>, AllocError>
    requires { (id : ℕ) → valence entries.now id ≤ 65535 }
    ensures { IfOk result (λ v. v.items ≡ infos entries.now dir) }
{
    let mut found = Vec::new(alloc);
    for at in 0..entries.len() {
        let entry = &entries[at];
        if entry.1.parent == dir {
            place_info(&mut found, info_of(entries, entry))?;
        }
    }
    Ok(found)
}

/// What a new folder has.
pub fn new_folder() -> Kind
    ensures { result ≡ new_folder }
{
    Kind::Folder { kept: [0; 70] }
}

/// What a new file has.
pub fn new_file(alloc: Global) -> Kind
    ensures { result ≡ new_file }
{
    let mut kept = [0; 102];
    kept[2] = 128;
    Kind::File(File {
        kept,
        locked: false,
        has_thread: false,
        data: Content::new(Vec::new(alloc)),
        resource: Content::new(Vec::new(alloc)),
    })
}

/// A new item, made at the moment `now`.
pub fn new_item(kind: Kind, dir: u32, name: Name, now: u32) -> Item
    ensures { result ≡ new_item kind dir name now }
{
    Item {
        parent: dir,
        name,
        created: now,
        modified: now,
        backup: 0,
        finder: [0; 32],
        kind,
    }
}

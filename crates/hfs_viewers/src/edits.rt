//! Writing rows.
ghost use Rattle.std.specs.Prelude.{◌≡◌, ℕ, false, List, Some, OnOk, OnErr};
ghost use Rattle.std.specs.Ordering.{nat_cmp};
ghost use Rattle.std.specs.BTreeMap as tree;
ghost use Rattle.hfs_viewers.specs.declared.row.Row.{Row};
ghost use Rattle.hfs_viewers.specs.RowEdits.{Writes, with_finder, with_info, with_lock, with_thread, with_child, HasRoom, new_row, IsNew, without_child, with_name, with_parent, Moves, IsAsBefore};
ghost use Rattle.hfs_viewers.specs.Places.{place_cmp};
ghost use Rattle.hfs_fields.specs.declared.mdb.Mdb.{Mdb};
ghost use Rattle.hfs_model.specs.Changes.{new_file, new_folder};
ghost use Rattle.hfs_model.specs.FileIds.{with_thread_bit};
ghost use Rattle.hfs_viewers.specs.Tables.{kind_of, IsForkIn};

use crate::ForkPieces;
use crate::extents::Extents;
use crate::place::Place;
use crate::row::{Row, RowFile, RowFork, RowKind};
use hfs_fields::{FileFlags, Name};
use hfs_model::ItemSettings;
use std::alloc::{AllocError, Global};
use std::collections::BTreeMap;

/// Sets the first half of a row's Finder bytes.
pub fn set_finder(rows: &mut BTreeMap<u32, Row>, id: u32, info: &[u8; 16])
    ensures { Writes (with_finder info.now) id rows.old rows.new }
{
    if let Some(row) = rows.get_mut(&id) {
        row.finder[..16].copy_from_slice(info);
    }
}

/// Sets a row's dates and Finder bytes.
pub fn set_info(rows: &mut BTreeMap<u32, Row>, id: u32, settings: &ItemSettings)
    ensures { Writes (with_info settings.now) id rows.old rows.new }
{
    if let Some(row) = rows.get_mut(&id) {
        row.created = settings.created;
        row.modified = settings.modified;
        row.backup = settings.backup;
        row.finder = settings.info;
    }
}

/// Locks or unlocks a file.
pub fn set_lock(rows: &mut BTreeMap<u32, Row>, id: u32, locked: bool)
    ensures { Writes (with_lock locked) id rows.old rows.new }
{
    if let Some(row) = rows.get_mut(&id) {
        if let RowKind::File(file) = &mut row.kind {
            file.locked = locked;
        }
    }
}

/// Gives a file a thread or removes it, and sets or clears bit 1 of its flags.
pub fn set_thread(rows: &mut BTreeMap<u32, Row>, id: u32, there: bool)
    ensures { Writes (with_thread there) id rows.old rows.new }
{
    if let Some(row) = rows.get_mut(&id) {
        if let RowKind::File(file) = &mut row.kind {
            set_thread_bit(&mut file.kept, there);
            file.has_thread = there;
        }
    }
}

/// Sets or clears bit 1 of the flags among a file's kept bytes.
#[tactic(auto, unfolding(hfs_model::specs::FileIds::with_thread_bit))]
fn set_thread_bit(kept: &mut [u8; 102], set: bool)
    ensures { kept.new ≡ with_thread_bit set kept.old }
{
    kept[2] = FileFlags(kept[2]).with_thread(set).0;
}

/// Sets a folder's modified date, and counts one more child.
pub fn add_child(rows: &mut BTreeMap<u32, Row>, id: u32, now: u32)
    requires { (r : Row) → tree.get nat_cmp rows.old id ≡ Some r → HasRoom r.kind }
    ensures { Writes (with_child now) id rows.old rows.new }
{
    if let Some(row) = rows.get_mut(&id) {
        row.modified = now;
        if let RowKind::Folder { children, .. } = &mut row.kind {
            *children += 1;
        }
    }
}

/// Sets a folder's modified date, and counts one child fewer.
pub fn drop_child(rows: &mut BTreeMap<u32, Row>, id: u32, now: u32)
    ensures { Writes (without_child now) id rows.old rows.new }
{
    if let Some(row) = rows.get_mut(&id) {
        row.modified = now;
        if let RowKind::Folder { children, .. } = &mut row.kind {
            *children = children.saturating_sub(1);
        }
    }
}

/// Renames a row.
pub fn set_name(rows: &mut BTreeMap<u32, Row>, id: u32, name: Name)
    ensures { Writes (with_name name) id rows.old rows.new }
{
    if let Some(row) = rows.get_mut(&id) {
        row.name = name;
    }
}

/// Moves a row to another folder.
pub fn set_parent(rows: &mut BTreeMap<u32, Row>, id: u32, parent: u32)
    ensures { Writes (with_parent parent) id rows.old rows.new }
{
    if let Some(row) = rows.get_mut(&id) {
        row.parent = parent;
    }
}

/// Moves an ID to another place. Fails only when out of memory, and then each ID is where it was.
pub fn move_name(
    names: &mut BTreeMap<Place, u32>,
    id: u32,
    from: &Place,
    to: Place,
) -> Result<(), AllocError>
    requires sorted { tree.IsOrdered place_cmp names.old }
    requires stands { tree.get place_cmp names.old from.now ≡ Some id }
    ensures ok { OnOk result (Moves from.now to id names.old names.new) }
    ensures err { OnErr result (IsAsBefore names.old names.new) }
{
    if *from == to {
        return Ok(());
    }
    let Ok(_other) = names.insert(to, id) else {
        return Err(AllocError);
    };
    names.remove(from);
    Ok(())
}

/// The row of a new item, made at the moment `now`.
pub fn new_row(kind: RowKind, dir: u32, name: Name, now: u32) -> Row
    ensures { result ≡ new_row kind dir name now }
{
    Row {
        parent: dir,
        name,
        created: now,
        modified: now,
        backup: 0,
        finder: [0; 32],
        kind,
    }
}

fn no_fork(alloc: Global) -> RowFork
    ensures within { (mdb : Mdb) → IsForkIn mdb result }
    ensures untouched { result.pieces.touched ≡ false }
    ensures size { result.pieces.base_len ≡ 0 }
{
    let extents = Extents::new(Vec::new(alloc));
    let pieces = ForkPieces::untouched(alloc, 0);
    RowFork { extents, pieces }
}

/// What a new file has: it is unlocked, with no thread and empty forks.
pub fn new_file(alloc: Global) -> RowKind
    ensures shown { (base : List ℕ) (mdb : Mdb) → kind_of base mdb result ≡ new_file }
    ensures new { (mdb : Mdb) → IsNew mdb result }
{
    let data = no_fork(alloc);
    let resource = no_fork(alloc);
    let mut kept = [0; 102];
    kept[2] = 128;
    RowKind::File(RowFile {
        kept,
        locked: false,
        has_thread: false,
        data,
        resource,
    })
}

/// What a new folder has.
pub fn new_folder() -> RowKind
    ensures shown { (base : List ℕ) (mdb : Mdb) → kind_of base mdb result ≡ new_folder }
    ensures new { (mdb : Mdb) → IsNew mdb result }
{
    RowKind::Folder {
        kept: [0; 70],
        children: 0,
    }
}

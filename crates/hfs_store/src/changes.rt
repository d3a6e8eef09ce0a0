//! Changes of the list of items.
ghost use Rattle.std.specs.Prelude.{◌≡◌, ◌<◌, ◌≤◌, ◌^◌, length, OnOk, OnErr};
ghost use Rattle.std.specs.FinMap as map;
ghost use Rattle.hfs_model.specs.Changes.{touched, moved};
ghost use Rattle.hfs_model.specs.FileIds.{with_thread_bit, set_thread};
ghost use Rattle.hfs_model.specs.Children.{valence};
ghost use Rattle.hfs_model.specs.Forks.{laid_over, physical_length, with_physical_length, with_fork, item_with_fork};
ghost use Rattle.byteorder.specs.Endian.{big_bytes};
ghost use Rattle.hfs_store.specs.PlainVolume.{Becomes, BecomesAt, ItemBecomes, InfoBecomes, Gains, removed, with_first_info, with_item_lock};

use crate::entries::place_of;
use byteorder::{BigEndian, ByteOrder};
use hfs_fields::{FileFlags, Name};
use hfs_model::{Content, File, Fork, Item, Kind};
use std::alloc::AllocError;

/// Sets a folder's modified date.
fn touch(items: &mut Vec<(u32, Item)>, dir: u32, now: u32)
    ensures { Becomes items.old.items items.new.items (λ m. touched m dir now) }
{
    if let Some(at) = place_of(items, dir) {
        items[at].1.modified = now;
    }
}

/// Removes the item at a place.
fn take_away(items: &mut Vec<(u32, Item)>, at: usize)
    requires { at < length items.old.items }
    ensures { BecomesAt items.old.items items.new.items at (λ m e. map.remove m e.0) }
{
    items.remove(at);
}

/// Moves the item at a place to another folder.
fn set_parent(items: &mut Vec<(u32, Item)>, at: usize, parent: u32)
    requires within { at < length items.old.items }
    requires room { valence items.old.items parent < 65535 }
    ensures { ItemBecomes items.old.items items.new.items at (λ i. record i { parent = parent }) }
{
    items[at].1.parent = parent;
}

/// Removes the item at a place, and sets the modified date of the folder that held it.
pub fn remove_item(items: &mut Vec<(u32, Item)>, at: usize, dir: u32, now: u32)
    requires { at < length items.old.items }
    ensures { BecomesAt items.old.items items.new.items at (λ m e. removed m e dir now) }
{
    take_away(items, at);
    touch(items, dir, now);
}

/// Moves the item at a place to another folder, and sets the modified date of both folders.
pub fn move_item(items: &mut Vec<(u32, Item)>, at: usize, dir: u32, new_dir: u32, now: u32)
    requires within { at < length items.old.items }
    requires room { valence items.old.items new_dir < 65535 }
    ensures { BecomesAt items.old.items items.new.items at (λ m e. moved m e dir new_dir now) }
{
    set_parent(items, at, new_dir);
    touch(items, dir, now);
    touch(items, new_dir, now);
}

/// Renames the item at a place.
pub fn rename_item(items: &mut Vec<(u32, Item)>, at: usize, name: Name)
    requires { at < length items.old.items }
    ensures { ItemBecomes items.old.items items.new.items at (λ i. record i { name = name }) }
{
    items[at].1.name = name;
}

/// Sets the first half of an item's Finder bytes.
pub fn set_finder(items: &mut Vec<(u32, Item)>, at: usize, info: &[u8; 16])
    requires { at < length items.old.items }
    ensures { ItemBecomes items.old.items items.new.items at (with_first_info info.now) }
{
    items[at].1.finder[..16].copy_from_slice(info);
}

/// Sets an item's dates and Finder bytes.
pub fn set_info(
    items: &mut Vec<(u32, Item)>,
    at: usize,
    created: u32,
    modified: u32,
    backup: u32,
    info: [u8; 32],
)
    requires { at < length items.old.items }
    ensures { InfoBecomes items.old.items items.new.items at created modified backup info }
{
    let item = &mut items[at].1;
    item.created = created;
    item.modified = modified;
    item.backup = backup;
    item.finder = info;
}

/// Locks or unlocks a file.
pub fn set_lock(items: &mut Vec<(u32, Item)>, at: usize, locked: bool)
    requires { at < length items.old.items }
    ensures { ItemBecomes items.old.items items.new.items at (with_item_lock locked) }
{
    if let Kind::File(file) = &mut items[at].1.kind {
        file.locked = locked;
    }
}

/// Sets or clears bit 1 of the flags among a file's kept bytes.
#[tactic(auto, unfolding(hfs_model::specs::FileIds::with_thread_bit))]
fn set_thread_bit(kept: &mut [u8; 102], set: bool)
    ensures { kept.new ≡ with_thread_bit set kept.old }
{
    kept[2] = FileFlags(kept[2]).with_thread(set).0;
}

/// Gives a file a thread, or removes it.
pub fn set_thread(items: &mut Vec<(u32, Item)>, at: usize, there: bool)
    requires { at < length items.old.items }
    ensures { BecomesAt items.old.items items.new.items at (λ m e. set_thread there e m) }
{
    if let Kind::File(file) = &mut items[at].1.kind {
        set_thread_bit(&mut file.kept, there);
        file.has_thread = there;
    }
}

/// Writes the four lowest bytes of a number over a file's kept bytes, highest byte first.
#[tactic(auto, using(hfs_model::proofs::ForkLemmas::four_of_eight))]
fn put_number(kept: &mut [u8; 102], at: usize, number: u64)
    requires { at ≤ 98 }
    ensures { kept.new ≡ laid_over at (big_bytes 4 number) kept.old }
{
    let mut bytes = [0; 8];
    BigEndian::write_u64(&mut bytes, number);
    kept[at..at + 4].copy_from_slice(&bytes[4..]);
}

/// Sets the physical length of a fork among a file's kept bytes.
#[tactic(auto, unfolding(hfs_model::specs::Forks::with_physical_length))]
fn set_physical_length(kept: &mut [u8; 102], fork: Fork, bytes: u64)
    ensures { kept.new ≡ with_physical_length fork bytes kept.old }
{
    match fork {
        Fork::DataFork => put_number(kept, 30, bytes),
        Fork::ResFork => put_number(kept, 40, bytes),
    }
}

/// How many bytes the allocation blocks have that `length` bytes take; 0 if a block has none.
fn physical_length(block_size: u32, length: u32) -> u64
    ensures { result ≡ physical_length block_size length }
{
    if block_size == 0 {
        0
    } else {
        u64::from(length.div_ceil(block_size)) * u64::from(block_size)
    }
}

/// Gives a fork of a file these bytes, and the physical length of the blocks that they take.
fn set_bytes(file: &mut File, block_size: u32, fork: Fork, bytes: Vec<u8>)
    requires { length bytes.items < 2 ^ 32 }
    ensures { file.new ≡ with_fork block_size fork bytes.items file.old }
{
    let physical = physical_length(block_size, bytes.len() as u32);
    set_physical_length(&mut file.kept, fork, physical);
    match fork {
        Fork::DataFork => file.data = Content::new(bytes),
        Fork::ResFork => file.resource = Content::new(bytes),
    }
}

/// Gives a fork of the file at a place these bytes, and sets the file's modified date.
pub fn set_fork(
    items: &mut Vec<(u32, Item)>,
    at: usize,
    block_size: u32,
    fork: Fork,
    bytes: Vec<u8>,
    now: u32,
)
    requires within { at < length items.old.items }
    requires short { length bytes.items < 2 ^ 32 }
    ensures { ItemBecomes items.old.items items.new.items at
        (item_with_fork block_size fork bytes.items now) }
{
    let item = &mut items[at].1;
    item.modified = now;
    if let Kind::File(file) = &mut item.kind {
        set_bytes(file, block_size, fork, bytes);
    }
}

/// Adds an item under the next ID, and sets the modified date of its folder.
pub fn add_item(
    items: &mut Vec<(u32, Item)>,
    id: u32,
    item: Item,
    now: u32,
) -> Result<(), AllocError>
    requires { valence items.old.items item.parent < 65535 }
    ensures ok { OnOk result (Gains items.old.items items.new.items id item now) }
    ensures err { OnErr result (items.new.items ≡ items.old.items) }
{
    let dir = item.parent;
    items.push((id, item))?;
    touch(items, dir, now);
    Ok(())
}

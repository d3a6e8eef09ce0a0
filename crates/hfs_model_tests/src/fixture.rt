//! A plain volume, and items that are laid on it.
use hfs_fields::Name;
use hfs_model::{Content, File, Info, Item, Kind, Reply, Value};
use hfs_store::PlainVolume;
use std::alloc::{AllocError, Global};
use std::process::Abort;
use std::test::Fail;

/// A new volume named `D`, made at moment 0.
pub fn volume(alloc: Global) -> Result<PlainVolume, AllocError> {
    match Name::new(b"D") {
        Some(name) => PlainVolume::new(alloc, name, 0),
        None => Err(AllocError),
    }
}

/// What a reply says about an item, if its code is 0.
fn info_of(reply: &Reply) -> Option<Info> {
    match &reply.value {
        Value::One(info) => { if reply.code == 0 { Some(*info) } else { None } }
        _ => None,
    }
}

/// What is known of an item of the root.
pub fn root_item(plain: &PlainVolume, name: &[u8]) -> Option<Info> {
    info_of(&plain.get_cat_info(2, name))
}

/// An item of the root, all dates 0.
fn item_of_root(name: Name, kind: Kind) -> Item {
    Item {
        parent: 2,
        name,
        created: 0,
        modified: 0,
        backup: 0,
        finder: [0; 32],
        kind,
    }
}

/// A file in the root with these bytes in its data fork.
pub fn file_item(alloc: Global, name: Name, bytes: &[u8; 2000]) -> Result<Item, AllocError> {
    let file = File {
        kept: [0; 102],
        locked: false,
        has_thread: false,
        data: Content::new(Vec::from_slice(alloc, bytes)?),
        resource: Content::new(Vec::new(alloc)),
    };
    Ok(item_of_root(name, Kind::File(file)))
}

/// Lays an item of the root under that ID.
pub fn lay(rt: &impl Abort, plain: &mut PlainVolume, id: u32, item: Item) -> Result<(), Fail> {
    assert!(rt; plain.next_id() <= id && id < 4294967295 && plain.valence(item.parent) < 65535);
    Ok(plain.lay(id, item)?)
}

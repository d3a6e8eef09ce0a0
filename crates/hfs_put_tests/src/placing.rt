//! Items of a host on a volume that has the folder `d` with the file `f` in it.
use crate::items::item;
use hfs_fixtures::{FixtureFault, new_image};
use hfs_model::ItemKind;
use hfs_put::{PlacedSources, lay_items, lock_code, place_sources};
use hfs_put_plan::{EntryKind, Placing, PutItem, Why};
use hfs_put_sources::{
    HostNode, HostTime, Look, MemoryTree, NothingTold, PutOptions, SourceItem, list_sources,
};
use hfs_volume::Volume;
use hfs_volume_fixtures::mounted;
use std::alloc::Global;
use std::test::Fail;

/// A node of a host.
fn node<'a>(folder: &'a str, name: &'a str, path: &'a str, kind: EntryKind) -> HostNode<'a> {
    let modified = HostTime {
        seconds: 0,
        nanoseconds: 0,
    };
    HostNode {
        folder,
        name,
        path,
        look: Look { kind, modified },
        bytes: b"",
    }
}

/// The items of the sources.
fn sources(alloc: Global, from: &[&str]) -> Result<Vec<SourceItem>, FixtureFault> {
    let nodes = [
        node("", "d", "d", EntryKind::Folder),
        node("d", "F", "d/F", EntryKind::File(3)),
        node("d", "g", "d/g", EntryKind::Folder),
        node("d/g", "f", "d/g/f", EntryKind::File(5)),
        node("", "e", "e", EntryKind::Folder),
        node("e", "f", "e/f", EntryKind::File(7)),
        node("", "q", "q", EntryKind::Folder),
        node("q", "d", "q/d", EntryKind::File(0)),
    ];
    let mut tree = MemoryTree { nodes: &nodes };
    let how = PutOptions {
        macbinary: false,
        rename: false,
    };
    match list_sources(alloc, &mut tree, &NothingTold {}, how, from) {
        Ok(items) => Ok(items),
        Err(_) => Err(FixtureFault::Unsound),
    }
}

/// The volume.
fn volume(alloc: Global) -> Result<Volume, FixtureFault> {
    let mut volume = mounted(alloc, new_image(alloc, 40)?)?;
    let items = [
        item(None, ItemKind::Folder, b"d", (0, 0))?,
        item(Some(0), ItemKind::File, b"f", (0, 0))?,
    ];
    match lay_items(alloc, &mut volume, 2, 7, &items) {
        Ok(_) => Ok(volume),
        Err(_) => Err(FixtureFault::Unsound),
    }
}

/// What happens to the sources.
fn placed(alloc: Global, from: &[&str], replace: bool) -> Result<PlacedSources, FixtureFault> {
    let volume = volume(alloc)?;
    let items = sources(alloc, from)?;
    Ok(place_sources(alloc, &volume, 2, replace, &items)?)
}

/// The first letter of a placing.
fn letter(placing: Placing) -> u8 {
    match placing {
        Placing::New => b'n',
        Placing::Kept => b'k',
        Placing::Replaced { locked } => { if locked { b'l' } else { b'r' } }
        Placing::Taken => b't',
    }
}

/// Whether an item is as wanted: its parent, the first letter of its placing, and the bytes of its data fork.
fn is_item(item: &PutItem, wanted: &(Option<usize>, u8, u32)) -> bool {
    item.parent == wanted.0 && letter(item.placing) == wanted.1 && item.data_len == wanted.2
}

/// Whether all are put, as wanted.
fn are_items(placed: &PlacedSources, wanted: &[(Option<usize>, u8, u32)]) -> bool {
    match placed {
        PlacedSources::All(items) => {
            items.len() == wanted.len()
                && items
                    .iter()
                    .zip(wanted.iter())
                    .all(|(item, row)| is_item(item, row))
        }
        PlacedSources::Refused(_) => false,
    }
}

/// Whether only these are refused, since other items are in their places.
fn are_refused(placed: &PlacedSources, wanted: &[usize]) -> bool {
    match placed {
        PlacedSources::All(_) => false,
        PlacedSources::Refused(refused) => {
            refused.len() == wanted.len()
                && refused.iter().zip(wanted.iter()).all(|(item, place)| item.place == *place
                    && item.why == Why::Refused)
        }
    }
}

#[test]
fn items_get_their_places(rt: HostRuntime) -> Result<(), Fail> {
    let all = placed(rt.alloc(), &["d", "e"], true)?;
    let wanted = [
        (None, b'k', 0),
        (Some(0), b'r', 3),
        (Some(0), b'n', 0),
        (Some(2), b'n', 5),
        (None, b'n', 0),
        (Some(4), b'n', 7),
    ];
    assert!(rt; are_items(&all, &wanted));
    Ok(())
}

#[test]
fn what_is_taken_is_told(rt: HostRuntime) -> Result<(), Fail> {
    assert!(rt; are_refused(&placed(rt.alloc(), &["d", "e"], false)?, &[1]));
    assert!(rt; are_refused(&placed(rt.alloc(), &["d/g/f", "q/d"], true)?, &[1]));
    Ok(())
}

#[test]
fn a_new_volume_is_not_locked(rt: HostRuntime) -> Result<(), Fail> {
    let volume = volume(rt.alloc())?;
    assert!(rt; lock_code(&volume).is_none());
    Ok(())
}

//! What is put on a new volume from trees in memory.
use super::*;
use hfs_format::{MakeFault, NewItem, VolumeName};
use hfs_put_plan::EntryKind;
use hfs_put_sources::{
    HostFault, HostNode, HostTime, Look, MemoryTree, NothingTold, PutOptions, SourceItem,
};

/// A node of a tree.
fn node<'a>(
    folder: &'a str,
    name: &'a str,
    path: &'a str,
    kind: EntryKind,
    bytes: &'a [u8],
) -> HostNode<'a> {
    let modified = HostTime {
        seconds: 1,
        nanoseconds: 0,
    };
    HostNode {
        folder,
        name,
        path,
        look: Look { kind, modified },
        bytes,
    }
}

/// A folder with a file and a folder in it, and a bag.
fn nodes<'a>(info: &'a [u8]) -> [HostNode<'a>; 9] {
    [
        node("", "My=20Disk", "My=20Disk", EntryKind::Folder, b""),
        node(
            "My=20Disk",
            "f",
            "My=20Disk/f",
            EntryKind::File(5),
            b"hello",
        ),
        node("My=20Disk", "sub", "My=20Disk/sub", EntryKind::Folder, b""),
        node(
            "My=20Disk/sub",
            "xy",
            "My=20Disk/sub/xy",
            EntryKind::File(2),
            b"xy",
        ),
        node("", "bag", "bag", EntryKind::Folder, b""),
        node("bag", "bagit.txt", "bag/bagit.txt", EntryKind::File(0), b""),
        node(
            "bag",
            "bag-info.txt",
            "bag/bag-info.txt",
            EntryKind::File(info.len() as u64),
            info,
        ),
        node("bag", "data", "bag/data", EntryKind::Folder, b""),
        node(
            "bag/data",
            "one",
            "bag/data/one",
            EntryKind::File(3),
            b"abc",
        ),
    ]
}

/// Whether this name was read; an empty one is none.
fn is_read_as(read: Result<VolumeName, MakeFault>, name: &[u8]) -> bool {
    let Ok(found) = read else {
        return name.is_empty();
    };
    found.name.bytes() == name
}

/// Whether the sources give a volume this name; an empty one is none.
fn gives_name(
    rt: &HostRuntime,
    info: &[u8],
    sources: &[&str],
    name: &[u8],
) -> Result<bool, HostFault> {
    let nodes = nodes(info);
    let mut tree = MemoryTree { nodes: &nodes };
    let read = found_name(rt.alloc(), &mut tree, sources)?;
    Ok(is_read_as(read, name))
}

#[test]
fn sources_give_names(rt: HostRuntime) {
    let info = b"External-Identifier: D \\5c\n";
    assert!(rt; matches!(gives_name(&rt, info, &["My=20Disk"], b"My Disk"), Ok(true)));
    assert!(rt; matches!(gives_name(&rt, info, &["bag"], b"D \\"), Ok(true)));
    assert!(rt;
        matches!(
            gives_name(&rt, b"Bag-Software-Agent: x\n", &["bag"], b"bag"),
            Ok(true)
        )
    );
    assert!(rt;
        matches!(
            gives_name(&rt, b"External-Identifier: a\\3ab\n", &["bag"], b""),
            Ok(true)
        )
    );
    assert!(rt;
        matches!(
            gives_name(&rt, b"External-Identifier: \xff\n", &["bag"], b""),
            Ok(true)
        )
    );
    assert!(rt; matches!(gives_name(&rt, info, &["My=20Disk/f"], b""), Ok(true)));
    assert!(rt; matches!(gives_name(&rt, info, &["bag", "My=20Disk"], b""), Ok(true)));
    assert!(rt; matches!(gives_name(&rt, info, &[], b""), Ok(true)));
    let nodes = nodes(info);
    let mut tree = MemoryTree { nodes: &nodes };
    assert!(rt; found_name(rt.alloc(), &mut tree, &["none"]).is_err());
}

/// Whether an item has this path and this place of its parent.
fn is_item(item: &SourceItem, path: &str, parent: Option<usize>) -> bool {
    item.path() == path && item.parent() == parent
}

/// Whether this is a file with this many characters in its name, and this many bytes in its data fork.
fn is_file(item: NewItem, name_len: u8, data_len: u64) -> bool {
    match item {
        NewItem::Folder(_) => false,
        NewItem::File(file) => {
            file.name_len == name_len && file.data_len == data_len && file.resource_len == 0
        }
    }
}

/// How the sources are read in these tests.
const HOW: PutOptions = PutOptions {
    macbinary: false,
    rename: false,
};

/// Whether what is in the folder is listed, without the folder itself.
fn lists_inside(rt: &HostRuntime) -> bool {
    let nodes = nodes(b"");
    let mut tree = MemoryTree { nodes: &nodes };
    let Ok(items) = list_new(rt.alloc(), &mut tree, &NothingTold {}, HOW, &["My=20Disk"]) else {
        return false;
    };
    let Ok(new) = new_items(rt.alloc(), &items) else {
        return false;
    };
    let listed = match items.as_slice() {
        [file, folder, other] => {
            is_item(file, "My=20Disk/f", None)
                && is_item(folder, "My=20Disk/sub", None)
                && is_item(other, "My=20Disk/sub/xy", Some(1))
        }
        _ => false,
    };
    let known = match new.as_slice() {
        [file, NewItem::Folder(3), other] => is_file(*file, 1, 5) && is_file(*other, 2, 2),
        _ => false,
    };
    listed && known
}

/// Whether these sources give items with these paths first and last.
fn lists(rt: &HostRuntime, sources: &[&str], first: &str, last: &str) -> bool {
    let nodes = nodes(b"");
    let mut tree = MemoryTree { nodes: &nodes };
    match list_new(rt.alloc(), &mut tree, &NothingTold {}, HOW, sources) {
        Ok(items) => match items.as_slice() {
            [one] => one.path() == first && one.path() == last,
            [one, .., other] => one.path() == first && other.path() == last,
            [] => false,
        },
        Err(_) => false,
    }
}

#[test]
fn sources_are_listed(rt: HostRuntime) {
    assert!(rt; lists_inside(&rt));
    assert!(rt; lists(&rt, &["bag"], "bag/data/one", "bag/data/one"));
    assert!(rt; lists(&rt, &["My=20Disk/f"], "My=20Disk/f", "My=20Disk/f"));
    assert!(rt; lists(&rt, &["My=20Disk", "bag"], "My=20Disk", "bag/data/one"));
}

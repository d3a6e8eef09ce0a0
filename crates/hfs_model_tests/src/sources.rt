//! Items from a host's folders: the walk over a tree in memory.
use hfs_model::Fork;
use hfs_put_plan::{EntryKind, Why, why_not};
use hfs_put_sources::{
    ForkSpan, HostNode, HostTime, Look, MemoryTree, NothingTold, PutOptions, SourceItem,
    list_sources,
};

/// An AppleDouble file with three bytes of resource fork from byte 38 on.
pub(crate) const DOUBLE: [u8; 41] = [
    0, 5, 22, 7, 0, 2, 0, 0, 77, 97, 99, 32, 79, 83, 32, 88, 32, 32, 32, 32, 32, 32, 32, 32, 0, 1,
    0, 0, 0, 2, 0, 0, 0, 38, 0, 0, 0, 3, 82, 69, 83,
];

/// A node that was changed 1 second after the beginning of 1970.
fn node<'a>(
    folder: &'a str,
    name: &'a str,
    path: &'a str,
    kind: EntryKind,
    bytes: &'a [u8],
) -> HostNode<'a> {
    let modified = HostTime {
        seconds: 1,
        nanoseconds: 999_999_999,
    };
    HostNode {
        folder,
        name,
        path,
        look: Look { kind, modified },
        bytes,
    }
}

pub(crate) fn file<'a>(
    folder: &'a str,
    name: &'a str,
    path: &'a str,
    bytes: &'a [u8],
) -> HostNode<'a> {
    node(
        folder,
        name,
        path,
        EntryKind::File(bytes.len() as u64),
        bytes,
    )
}

pub(crate) fn folder<'a>(folder: &'a str, name: &'a str, path: &'a str) -> HostNode<'a> {
    node(folder, name, path, EntryKind::Folder, &[])
}

/// What is wanted of an item: its path, the place of its parent, why it can't be put, and how many bytes both forks have.
type Row = (&'static str, Option<usize>, Option<Why>, u64, u64);

/// Those of a folder and a bag, in the order of the walk.
const ROWS: [Row; 10] = [
    ("s", None, None, 0, 0),
    ("s/A", Some(0), None, 0, 0),
    ("s/a", Some(0), Some(Why::TwoOfOneName), 1, 0),
    ("s/b", Some(0), None, 5, 3),
    ("s/c", Some(0), Some(Why::NotAppleDouble), 0, 0),
    ("s/d", Some(0), None, 0, 0),
    ("s/d/x", Some(5), None, 2, 0),
    ("s/l", Some(0), Some(Why::NotAFile), 0, 0),
    ("s/z", Some(0), None, 0, 3),
    ("bag/data/y", None, None, 3, 0),
];

fn is_len(span: ForkSpan, wanted: u64) -> bool {
    span.len == wanted
}

/// Whether an item is as a row has it, with the date that its file has.
fn is_row(item: &SourceItem, wanted: &Row) -> bool {
    let plan = item.plan();
    item.path() == wanted.0
        && item.parent() == wanted.1
        && why_not(&plan.found) == wanted.2
        && is_len(plan.data_fork, wanted.3)
        && is_len(plan.resource_fork, wanted.4)
        && plan.facts.dates.modified == 2_082_844_801
}

#[test]
fn a_folder_and_a_bag_are_walked(rt: HostRuntime) {
    let nodes = [
        folder("", "s", "s"),
        file("s", "._z", "s/._z", &DOUBLE),
        file("s", ".DS_Store", "s/.DS_Store", b"looks"),
        node("s", "l", "s/l", EntryKind::Other, &[]),
        folder("s", "d", "s/d"),
        file("s/d", "x", "s/d/x", b"xy"),
        file("s", "b", "s/b", b"hello"),
        file("s", "a", "s/a", b"a"),
        file("s", "A", "s/A", b""),
        file("s", "._b", "s/._b", &DOUBLE),
        file("s", "._c", "s/._c", b"none"),
        folder("", "bag", "bag"),
        file("bag", "bagit.txt", "bag/bagit.txt", b""),
        folder("bag", "data", "bag/data"),
        file("bag/data", "y", "bag/data/y", b"abc"),
    ];
    let mut tree = MemoryTree { nodes: &nodes };
    let how = PutOptions {
        macbinary: false,
        rename: false,
    };
    match list_sources(rt.alloc(), &mut tree, &NothingTold {}, how, &["s", "bag"]) {
        Ok(items) => {
            assert!(rt; items.len() == ROWS.len(), "{} items", items.len());
            for (place, (item, wanted)) in items.iter().zip(ROWS.iter()).enumerate() {
                assert!(rt; is_row(item, wanted), "item {place}");
            }
        }
        Err(_) => panic!(rt; "the walk"),
    }
}

/// What is wanted of the files that have an item's resource fork: its path, and that file's.
type DoubleRow = (&'static str, Option<&'static str>);

/// Those of a file with one that belongs to it, of one that belongs to a file that doesn't exist, and of one alone.
const DOUBLES: [DoubleRow; 3] = [
    ("s/b", Some("s/._b")),
    ("s/._z", Some("s/._z")),
    ("s/a", None),
];

#[test]
fn doubles_have_their_paths(rt: HostRuntime) {
    let nodes = [
        file("s", "._z", "s/._z", &DOUBLE),
        file("s", "b", "s/b", b"hello"),
        file("s", "._b", "s/._b", &DOUBLE),
        file("s", "a", "s/a", b"a"),
    ];
    let mut tree = MemoryTree { nodes: &nodes };
    let how = PutOptions {
        macbinary: false,
        rename: false,
    };
    let sources = ["s/b", "s/._z", "s/a"];
    match list_sources(rt.alloc(), &mut tree, &NothingTold {}, how, &sources) {
        Ok(items) => {
            assert!(rt; items.len() == DOUBLES.len(), "{} items", items.len());
            for (place, (item, wanted)) in items.iter().zip(DOUBLES.iter()).enumerate() {
                assert!(rt; item.path() == wanted.0, "item {place}");
                assert!(rt; item.double() == wanted.1, "item {place}");
                assert!(rt;
                    item.fork_path(Fork::DataFork) == Some(wanted.0),
                    "item {place}"
                );
                assert!(rt; item.fork_path(Fork::ResFork) == wanted.1, "item {place}");
            }
        }
        Err(_) => panic!(rt; "the walk"),
    }
}

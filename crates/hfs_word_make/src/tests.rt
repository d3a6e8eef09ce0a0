//! A new volume is made of trees in memory.
use super::*;
use hfs_put_plan::EntryKind;
use hfs_put_sources::{HostNode, HostTime, Look, MemoryTree, PutOptions};
use hfs_word_put::{PutSums, Watch};

/// Nobody is told of bytes that are read.
struct Unwatched;

impl Watch for Unwatched {
    fn began(&self, _: u64, _: u64, _: u64) {}

    fn bytes_came(&self, _: u64) {}
}

/// A node of a tree.
fn node<'a>(
    folder: &'a str,
    name: &'a str,
    path: &'a str,
    kind: EntryKind,
    bytes: &'a [u8],
) -> HostNode<'a> {
    let modified = HostTime {
        seconds: 1,
        nanoseconds: 0,
    };
    HostNode {
        folder,
        name,
        path,
        look: Look { kind, modified },
        bytes,
    }
}

/// A folder with a file and a folder in it, in which a file lies.
fn nodes() -> [HostNode<'static>; 4] {
    [
        node("", "Disk", "Disk", EntryKind::Folder, b""),
        node("Disk", "f", "Disk/f", EntryKind::File(5), b"hello"),
        node("Disk", "sub", "Disk/sub", EntryKind::Folder, b""),
        node("Disk/sub", "xy", "Disk/sub/xy", EntryKind::File(2), b"xy"),
    ]
}

/// The order to make a volume of 800 KB of the folder.
const ORDER: MakeOrder<'static> = MakeOrder {
    sources: &["Disk"],
    name: None,
    size: Some("800K"),
    how: PutOptions {
        macbinary: false,
        rename: false,
    },
    now: 0,
};

/// Whether these are the lines of two files and a folder that came.
fn has_lines(rt: &HostRuntime) -> bool {
    let sums = PutSums {
        files: 2,
        folders: 1,
        bytes: 7,
        free: 1_234,
    };
    match made_lines(rt.alloc(), &sums) {
        Ok(lines) => lines.as_str() == "made\nfiles 2\nfolders 1\nbytes 7\nfree 1234\n",
        Err(_) => false,
    }
}

#[test]
fn what_was_made_is_told(rt: HostRuntime) {
    assert!(rt; has_lines(&rt));
}

/// Whether what lies in the folder is listed, without the folder itself.
fn lists_inside(rt: &HostRuntime) -> bool {
    let nodes = nodes();
    let mut tree = MemoryTree { nodes: &nodes };
    match list_all_new(rt.alloc(), &mut tree, &ORDER) {
        Ok(listed) => match listed.items.as_slice() {
            [file, folder, other] => {
                file.path() == "Disk/f"
                    && folder.path() == "Disk/sub"
                    && other.path() == "Disk/sub/xy"
            }
            _ => false,
        },
        Err(_) => false,
    }
}

#[test]
fn what_lies_in_a_folder_is_listed(rt: HostRuntime) {
    assert!(rt; lists_inside(&rt));
}

/// Whether the volume of 800 KB has the folder and both files, and so many free blocks. By hand:
///
/// - of its 1,600 blocks 1 + 1 boot blocks, 1 master directory block, 1 block of bitmap and the last 2 are none of its allocation
///   blocks: 1,600 - 6 = 1,594;
/// - the records of the catalog, each with 2 bytes for its place: the root's (12 + 70 + 2) + (8 + 46 + 2) = 140, the one of `f`
///   8 + 102 + 2 = 112, those of `sub` (10 + 70 + 2) + (8 + 46 + 2) = 138, the one of `xy` 10 + 102 + 2 = 114: 504 bytes;
/// - they take 3 leaves of 248 bytes and 1 node above these; a quarter more than 4 is 5, and the header node makes 6;
/// - of these 6, the header node and one leaf are taken at first, and 4 are free. A folder wants 2 * 1 + 3 = 5 free nodes of a tree of
///   depth 1: so the catalog gets 12 nodes, of which 10 are free;
/// - 8 blocks are the extents tree's, 12 the catalog's, and 1 is each file's: 1,594 - 8 - 12 - 1 - 1 = 1,572.
fn makes_volume(rt: &HostRuntime) -> bool {
    let nodes = nodes();
    let tree = MemoryTree { nodes: &nodes };
    let sums = PutSums {
        files: 2,
        folders: 1,
        bytes: 7,
        free: 1_572,
    };
    match make_volume(rt.alloc(), tree, "new", &ORDER, &Unwatched) {
        Ok(made) => made.sums == sums,
        Err(_) => false,
    }
}

#[test]
fn a_volume_is_made_of_a_folder(rt: HostRuntime) {
    assert!(rt; makes_volume(&rt));
}

//! Forks of files of a host, read at their places in an image.
use hfs_model::Fork;
use hfs_put::{HostFiles, LaidForks, look_again};
use hfs_put_plan::EntryKind;
use hfs_put_sources::{
    ForkRun, HostFault, HostNode, HostTime, Look, MemoryTree, NothingTold, PutOptions, SourceItem,
    list_sources,
};
use hfs_source::{MemoryBytes, PlacedBytes};

/// An AppleDouble file with three bytes of resource fork from byte 38 on.
const DOUBLE: [u8; 41] = [
    0, 5, 22, 7, 0, 2, 0, 0, 77, 97, 99, 32, 79, 83, 32, 88, 32, 32, 32, 32, 32, 32, 32, 32, 0, 1,
    0, 0, 0, 2, 0, 0, 0, 38, 0, 0, 0, 3, 82, 69, 83,
];

fn look(len: u64, seconds: i64) -> Look {
    let modified = HostTime {
        seconds,
        nanoseconds: 0,
    };
    Look {
        kind: EntryKind::File(len),
        modified,
    }
}

fn file<'a>(name: &'a str, path: &'a str, bytes: &'a [u8], seconds: i64) -> HostNode<'a> {
    HostNode {
        folder: "s",
        name,
        path,
        look: look(bytes.len() as u64, seconds),
        bytes,
    }
}

/// Two files, the first with a resource fork next to it.
fn nodes<'a>() -> [HostNode<'a>; 3] {
    [
        file("a", "s/a", b"hello", 1),
        file("._a", "s/._a", &DOUBLE, 2),
        file("b", "s/b", b"xyz", 3),
    ]
}

fn run(place: u64, len: u64, item: usize, fork: Fork, offset: u64) -> ForkRun {
    ForkRun {
        place,
        len,
        item,
        fork,
        offset,
    }
}

/// The data fork of the first file in two runs, its resource fork between them, and then that of the second.
fn runs() -> [ForkRun; 4] {
    [
        run(2, 4, 0, Fork::DataFork, 0),
        run(6, 4, 0, Fork::ResFork, 0),
        run(12, 4, 0, Fork::DataFork, 4),
        run(17, 2, 1, Fork::DataFork, 1),
    ]
}

/// Twenty bytes of an image after three of a header.
const FILE: [u8; 23] = *b"...ABCDEFGHIJKLMNOPQRST";

/// The same with the forks in them.
const LAID: [u8; 23] = *b"...ABhellRES\0KLo\0\0\0QyzT";

/// The items of both files.
fn items_of(rt: &HostRuntime, nodes: &[HostNode<'_>]) -> Vec<SourceItem> {
    let how = PutOptions {
        macbinary: false,
        rename: false,
    };
    let mut tree = MemoryTree { nodes };
    match list_sources(rt.alloc(), &mut tree, &NothingTold {}, how, &["s/a", "s/b"]) {
        Ok(items) => items,
        Err(_) => Vec::new(rt.alloc()),
    }
}

/// The forks of both files, as the first nodes have them, laid into the file from the other nodes.
fn laid<'a>(
    rt: &HostRuntime,
    first: &[HostNode<'_>],
    other: &'a [HostNode<'a>],
    runs: [ForkRun; 4],
    start: u64,
) -> Option<LaidForks<MemoryBytes<'a>, HostFiles<MemoryTree<'a>>>> {
    let items = items_of(rt, first);
    let Ok(runs) = Vec::from_array(rt.alloc(), runs) else {
        return None;
    };
    let bytes = MemoryBytes { bytes: &FILE };
    let files = HostFiles::new(rt.alloc(), MemoryTree { nodes: other });
    LaidForks::new(rt.alloc(), bytes, files, items, runs, start)
}

/// Whether a fault is that this path can't be read.
fn is_unread(fault: &HostFault, path: &str) -> bool {
    match fault {
        HostFault::CannotRead(unread) => unread.as_str() == path,
        HostFault::NotUtf8(_) => false,
        HostFault::NoMemory => false,
    }
}

#[test]
fn forks_are_read_in_their_places(rt: HostRuntime) {
    let nodes = nodes();
    let Some(mut laid) = laid(&rt, &nodes, &nodes, runs(), 3) else {
        panic!(rt; "the runs lie apart");
    };
    assert!(rt; laid.len() == 23, "{} bytes", laid.len());
    let mut all = [0; 23];
    assert!(rt; laid.read_at(0, &mut all).is_ok(), "the whole");
    assert!(rt; all == LAID, "the whole: {all:?}");
    for place in 0..23 {
        let mut two = [0; 2];
        let is_read = laid.read_at(place, &mut two).is_ok();
        assert!(rt; is_read == (place < 22), "two bytes at {place}");
        if is_read {
            let at = place as usize;
            assert!(rt;
                two == [LAID[at], LAID[at + 1]],
                "two bytes at {place}: {two:?}"
            );
        }
    }
    assert!(rt; laid.take_fault().is_none(), "a fault");
    assert!(rt; laid.look_again().is_ok(), "a change");
}

#[test]
fn runs_lie_apart_in_the_file(rt: HostRuntime) {
    let nodes = nodes();
    assert!(rt;
        laid(&rt, &nodes, &nodes, runs(), 4).is_some(),
        "the last ends with the file"
    );
    assert!(rt;
        laid(&rt, &nodes, &nodes, runs(), 5).is_none(),
        "the last ends behind the file"
    );
    let mut runs = runs();
    runs[1].place = 5;
    assert!(rt;
        laid(&rt, &nodes, &nodes, runs, 3).is_none(),
        "two runs have one byte"
    );
}

#[test]
fn a_file_that_cant_be_read_is_told(rt: HostRuntime) {
    let nodes = nodes();
    let mut other = nodes;
    other[1].bytes = &DOUBLE[..40];
    other[2].bytes = b"xy";
    let Some(mut laid) = laid(&rt, &nodes, &other, runs(), 3) else {
        panic!(rt; "the runs lie apart");
    };
    let mut bytes = [0; 6];
    assert!(rt; laid.read_at(3, &mut bytes).is_ok(), "before it");
    assert!(rt; bytes == *b"ABhell", "before it");
    let mut all = [0; 23];
    assert!(rt; laid.read_at(0, &mut all).is_err(), "the whole");
    let mut last = [0; 2];
    assert!(rt; laid.read_at(20, &mut last).is_err(), "the second file");
    match laid.take_fault() {
        Some(fault) => assert!(rt; is_unread(&fault, "s/._a"), "another fault"),
        None => panic!(rt; "no fault"),
    }
    assert!(rt; laid.take_fault().is_none(), "twice");
}

#[test]
fn a_file_that_changed_is_told(rt: HostRuntime) {
    let nodes = nodes();
    let items = items_of(&rt, &nodes);
    let mut tree = MemoryTree { nodes: &nodes };
    assert!(rt;
        look_again(rt.alloc(), &mut tree, &items).is_ok(),
        "no change"
    );
    let mut other = nodes;
    other[1].look = look(41, 3);
    let mut tree = MemoryTree { nodes: &other };
    match look_again(rt.alloc(), &mut tree, &items) {
        Err(fault) => assert!(rt; is_unread(&fault, "s/._a"), "another fault"),
        Ok(()) => panic!(rt; "its time"),
    }
    let mut other = nodes;
    other[2].look = look(4, 3);
    let mut tree = MemoryTree { nodes: &other };
    match look_again(rt.alloc(), &mut tree, &items) {
        Err(fault) => assert!(rt; is_unread(&fault, "s/b"), "another fault"),
        Ok(()) => panic!(rt; "its length"),
    }
}

//! What bags in a tree in memory say about their items, and the digests of their files.
use crate::sources::{DOUBLE, file, folder};
use hfs_put_plan::ToldFacts;
use hfs_put_sources::{
    BagFacts, HostFault, HostNode, ManifestDigests, MemoryTree, NothingTold, PutOptions,
    SourceItem, ToldItems, bag_name, first_wrong_file, list_sources,
};
use std::alloc::Global;

/// The table of a bag with three items: a locked file with all three dates, a folder, and a file in it, for which a second row
/// gives other dates; and rows that are none: a date that no calendar has, and one field.
const ITEMS: &'static [u8] =
    b"path,kind,id,parent,type,creator,flags,locked,file_id,created,modified,backup,items,data_bytes,resource_bytes,finder,bag_path\r\nD,folder,2,1,,,0000,,,,,,2,,,00,\r\nD:f,file,16,2,TEXT,ttxt,0000,yes,no,2000-01-01T00:00:00,2000-02-29T00:00:00,1904-01-01T00:00:01,,5,3,00,f\r\n\"D:a,b\",folder,17,2,,,0000,,,1904-02-29T00:00:00,1904-01-01T00:00:01,,1,,,00,\"a,b\"\r\n\"D:a,b:x\",file,18,17,,,0000,no,no,1904-01-01T00:00:01,,,,2,0,00,\"a,b/x\"\r\nnone\r\n\"D:a,b:x\",file,18,17,,,0000,no,no,,1904-02-29T00:00:00,,,2,0,00,\"a,b/x\"\r\nD:f,file,16,2,TEXT,ttxt,0000,no,no,1905-02-29T00:00:00,,,,5,3,00,f\r\n";

/// The digests of its files: of `hello`, of the AppleDouble file, and of `xy` twice, the second of which is right.
const MANIFEST: &'static [u8] =
    b"2cf24dba5fb0a30e26e83b2ac5b9e29e1b161e5c1fa7425e73043362938b9824  data/f\n2d939741182bdb609ddb2f39802ee9f7ab41c64489064080472995634264212c  data/._f\r\nnone\n2cf24dba5fb0a30e26e83b2ac5b9e29e1b161e5c1fa7425e73043362938b9824  data/a,b/x\n769a4e6d0003189c7e96c5d9b7e810a0d11c3a12832527ec94b0f86d277f51ca  data/a,b/x\n";

/// The nodes of the bag, whose file has these bytes.
fn bag<'a>(bytes: &'a [u8]) -> [HostNode<'a>; 10] {
    [
        folder("", "bag", "bag"),
        file("bag", "bagit.txt", "bag/bagit.txt", b""),
        file("bag", "items.csv", "bag/items.csv", ITEMS),
        file(
            "bag",
            "manifest-sha256.txt",
            "bag/manifest-sha256.txt",
            MANIFEST,
        ),
        file(
            "bag",
            "bag-info.txt",
            "bag/bag-info.txt",
            b"Bag-Software-Agent: x\nExternal-Identifier: D \\5c\n",
        ),
        folder("bag", "data", "bag/data"),
        file("bag/data", "f", "bag/data/f", bytes),
        file("bag/data", "._f", "bag/data/._f", &DOUBLE),
        folder("bag/data", "a,b", "bag/data/a,b"),
        file("bag/data/a,b", "x", "bag/data/a,b/x", b"xy"),
    ]
}

/// Whether these facts are given.
fn tells(told: Option<ToldFacts>, locked: bool, created: u32, modified: u32, backup: u32) -> bool {
    match told {
        Some(told) => {
            told.locked == locked
                && told.dates.created == created
                && told.dates.modified == modified
                && told.dates.backup == backup
        }
        None => false,
    }
}

#[test]
fn a_table_tells_lock_and_dates(rt: HostRuntime) {
    let nodes = bag(b"hello");
    let mut tree = MemoryTree { nodes: &nodes };
    match BagFacts::read(rt.alloc(), &mut tree, &["bag", "bag/data", "none"]) {
        Ok(facts) => {
            let file = tells(
                facts.told("bag/data/f"),
                true,
                3_029_529_600,
                3_034_627_200,
                1,
            );
            let folder = tells(facts.told("bag/data/a,b"), false, 5_097_600, 1, 0);
            let later = tells(facts.told("bag/data/a,b/x"), false, 0, 5_097_600, 0);
            let none = facts.told("bag/data/._f").is_none() && facts.told("f").is_none();
            assert!(rt; file && folder && later && none);
        }
        Err(_) => panic!(rt; "the table"),
    }
}

#[test]
fn a_table_of_no_bag_tells_nothing(rt: HostRuntime) {
    let nodes = bag(b"hello");
    let mut tree = MemoryTree { nodes: &nodes[2..] };
    match BagFacts::read(rt.alloc(), &mut tree, &["bag"]) {
        Ok(facts) => assert!(rt; facts.told("bag/data/f").is_none()),
        Err(_) => panic!(rt; "no table"),
    }
}

/// How the sources are read in these tests.
const HOW: PutOptions = PutOptions {
    macbinary: false,
    rename: false,
};

/// The first file of this bag that is wrong; None if the bag is read as it is.
fn wrong_file(alloc: Global, nodes: &[HostNode<'_>]) -> Result<Option<String>, HostFault> {
    let mut tree = MemoryTree { nodes };
    let manifests = ManifestDigests::read(alloc, &mut tree, &["bag"])?;
    let items = list_sources(alloc, &mut tree, &NothingTold {}, HOW, &["bag"])?;
    match first_wrong_file(alloc, &mut tree, &manifests, &items)? {
        Some(path) => Ok(Some(String::from_str(alloc, path)?)),
        None => Ok(None),
    }
}

/// Whether an item has these facts: lock and dates.
fn has_facts(item: &SourceItem, path: &str, locked: bool, dates: (u32, u32, u32)) -> bool {
    let facts = item.plan().facts;
    item.path() == path
        && facts.locked == locked
        && facts.dates.created == dates.0
        && facts.dates.modified == dates.1
        && facts.dates.backup == dates.2
}

/// The items of this bag with what it says about them.
fn told_items(alloc: Global, nodes: &[HostNode<'_>]) -> Result<Vec<SourceItem>, HostFault> {
    let mut tree = MemoryTree { nodes };
    let facts = BagFacts::read(alloc, &mut tree, &["bag"])?;
    list_sources(alloc, &mut tree, &facts, HOW, &["bag"])
}

#[test]
fn items_of_a_bag_have_its_facts(rt: HostRuntime) {
    match told_items(rt.alloc(), &bag(b"hello")) {
        Ok(items) => match items.as_slice() {
            [folder, file, other] => {
                let first = has_facts(folder, "bag/data/a,b", false, (5_097_600, 1, 0));
                let second = has_facts(file, "bag/data/a,b/x", false, (0, 5_097_600, 0));
                let third = (3_029_529_600, 3_034_627_200, 1);
                assert!(rt; first && second && has_facts(other, "bag/data/f", true, third));
            }
            _ => panic!(rt; "{} items", items.len()),
        },
        Err(_) => panic!(rt; "the walk"),
    }
}

/// Whether the first wrong file of a bag has this path.
fn is_first_wrong(alloc: Global, nodes: &[HostNode<'_>], wanted: &str) -> bool {
    match wrong_file(alloc, nodes) {
        Ok(Some(path)) => path.as_str() == wanted,
        Ok(None) => wanted.is_empty(),
        Err(_) => false,
    }
}

#[test]
fn the_first_wrong_file_is_told(rt: HostRuntime) {
    let alloc = rt.alloc();
    let mut nodes = bag(b"hello");
    assert!(rt; is_first_wrong(alloc, &nodes, ""), "all right");
    nodes[9].bytes = b"xyz";
    assert!(rt;
        is_first_wrong(alloc, &nodes, "bag/data/a,b/x"),
        "a byte more"
    );
    nodes[7].bytes = &DOUBLE[..40];
    nodes[9].bytes = b"xy";
    assert!(rt;
        is_first_wrong(alloc, &nodes, "bag/data/._f"),
        "a byte less"
    );
    nodes[6].bytes = b"hellO";
    assert!(rt; is_first_wrong(alloc, &nodes, "bag/data/f"), "another byte");
    nodes[0].path = "other";
    assert!(rt; !is_first_wrong(alloc, &nodes, ""), "no source");
}

/// Whether the name of the disk that a bag was taken from is this one; None if there is none.
fn is_named(alloc: Global, nodes: &[HostNode<'_>], wanted: Option<&[u8]>) -> bool {
    let mut tree = MemoryTree { nodes };
    match bag_name(alloc, &mut tree, "bag") {
        Ok(Some(name)) => Some(name.as_slice()) == wanted,
        Ok(None) => wanted == None,
        Err(_) => false,
    }
}

#[test]
fn a_bag_tells_the_name_of_its_disk(rt: HostRuntime) {
    let alloc = rt.alloc();
    let mut nodes = bag(b"hello");
    assert!(rt; is_named(alloc, &nodes, Some(b"D \\5c")), "the name");
    nodes[4].bytes = b"Bag-Software-Agent: x\n";
    assert!(rt; is_named(alloc, &nodes, None), "none");
}

//! An image in memory in a database in memory: what the database has about it, and how images compare to that.

use crate::stored::{facts_of, rows_of};
use hfs_database::{Listing, listed};
use hfs_fixtures::{FixtureFault, new_image, one_file_image};
use hfs_source::MemoryBytes;
use hfs_word_collect::{Collection, Comparison, ImageCounts, collect_image, compare_image};
use sqlite::{Connection, MemStore, Row};
use std::alloc::Global;
use std::process::Abort;
use std::test::Fail;

/// A collection in memory.
type InMemory = Collection<MemStore>;

/// A new collection.
fn new_collection(alloc: Global) -> Option<InMemory> {
    let conn = Connection::open_in_memory(alloc).ok()?;
    Collection::over(alloc, conn, true).ok()
}

/// How many volumes and files are reported when an image is put under this path.
fn put(alloc: Global, collection: &mut InMemory, path: &str, image: &[u8]) -> Option<(u64, u64)> {
    let facts = facts_of(path);
    let mut rows = rows_of(alloc, &facts, image);
    match collect_image(collection, &mut rows) {
        Ok(Some(counts)) => Some((counts.volumes, counts.files)),
        Ok(None) | Err(_) => None,
    }
}

/// How an image compares to what the collection has for this path.
fn compared(
    alloc: Global,
    collection: &mut InMemory,
    path: &str,
    image: &[u8],
) -> Option<Comparison> {
    let mut source = MemoryBytes { bytes: image };
    compare_image(alloc, collection, path, &mut source).ok()
}

/// Whether a row has this text in a column, or nothing.
fn has_text(row: &Row, at: usize, wanted: Option<&str>) -> bool {
    let found: Result<Option<String>, sqlite::Error> = row.get(at);
    match (found, wanted) {
        (Ok(Some(text)), Some(wanted)) => text.as_str() == wanted,
        (Ok(None), None) => true,
        _ => false,
    }
}

/// Whether a row has these texts.
fn has_texts(row: &Row, wanted: &[Option<&str>]) -> bool {
    for at in 0..wanted.len() {
        if !has_text(row, at, wanted[at]) {
            return false;
        }
    }
    true
}

/// Whether a listing has exactly these rows.
fn lists(collection: &mut InMemory, listing: Listing, wanted: &[&[Option<&str>]]) -> bool {
    let Ok(rows) = listed(collection, listing) else {
        return false;
    };
    if rows.len() != wanted.len() {
        return false;
    }
    for i in 0..wanted.len() {
        if !has_texts(&rows[i], wanted[i]) {
            return false;
        }
    }
    true
}

/// The row of the volume with one file, and that of the one without items.
const ONE_FILE: &[Option<&str>] = &[
    Some("a.img.html"),
    Some("a.img"),
    Some("D"),
    Some("files 1"),
    None,
    Some("free 23 KB"),
    None,
    None,
    Some("sound"),
];

const NO_ITEMS: &[Option<&str>] = &[
    Some("b.img.html"),
    Some("b.img"),
    Some("D"),
    Some("files 0"),
    None,
    Some("free 25 KB"),
    None,
    None,
    Some("sound"),
];

/// The same under the path of the other.
const ONE_FILE_AGAIN: &[Option<&str>] = &[
    Some("b.img.html"),
    Some("b.img"),
    Some("D"),
    Some("files 1"),
    None,
    Some("free 23 KB"),
    None,
    None,
    Some("sound"),
];

/// The fork that is on both volumes.
const FORK: &[Option<&str>] = &[
    Some("D:f"),
    Some("volumes 2"),
    Some("2000 bytes"),
    Some("63d8d35920be456776a35578ade76725c687821ad55d4bb950225fed2d33e6cb"),
];

/// Puts an image, and one without items.
fn put_both(
    rt: &impl Abort,
    alloc: Global,
    collection: &mut InMemory,
    image: &[u8],
    empty: &[u8],
) -> Result<(), Fail> {
    assert!(rt; compared(alloc, collection, "a.img", image) == Some(Comparison::New));
    assert!(rt; put(alloc, collection, "a.img", image) == Some((1, 1)));
    assert!(rt; put(alloc, collection, "b.img", empty) == Some((1, 0)));
    assert!(rt; lists(collection, Listing::Volumes, &[ONE_FILE, NO_ITEMS]));
    Ok(())
}

/// Compares them, and puts the first in place of the second.
fn put_again(
    rt: &impl Abort,
    alloc: Global,
    collection: &mut InMemory,
    image: &[u8],
    empty: &[u8],
) -> Result<(), Fail> {
    assert!(rt; compared(alloc, collection, "a.img", image) == Some(Comparison::Same));
    assert!(rt; compared(alloc, collection, "b.img", image) == Some(Comparison::Changed));
    assert!(rt; compared(alloc, collection, "b.img", empty) == Some(Comparison::Same));
    assert!(rt; put(alloc, collection, "b.img", image) == Some((1, 1)));
    assert!(rt; lists(collection, Listing::Volumes, &[ONE_FILE, ONE_FILE_AGAIN]));
    assert!(rt; lists(collection, Listing::Copies, &[FORK]));
    Ok(())
}

#[test]
fn images_in_memory_in_a_database(rt: HostRuntime) -> Result<(), Fail> {
    let alloc = rt.alloc();
    let Some(mut collection) = new_collection(alloc) else {
        return Err(Fail::new("no database"));
    };
    let image = one_file_image(alloc)?;
    let empty = new_image(alloc, 6)?;
    put_both(&rt, alloc, &mut collection, &image, &empty)?;
    put_again(&rt, alloc, &mut collection, &image, &empty)
}

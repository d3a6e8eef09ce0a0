//! What the tag files of a bag say, and what folders of a host become on a disk.
use csv::{ByteRecord, Error, Reader};
use hfs_encodings::{GivenName, given_name, plain_item_name};
use hfs_fields::Name;
use hfs_model::ItemKind;
use hfs_put_plan::{
    Entry, EntryKind, FolderItem, date_before_1970, date_since_1970, folder_items, later_twins,
};
use hfs_put_sources::{
    ItemRow, bag_path, external_identifier, item_row, manifest_line, read_moment,
};
use std::alloc::Global;
use std::test::Fail;

/// Whether plain text gives this name, which is an item name or is in place of one.
fn gives(text: &str, is_item: bool, wanted: &[u8]) -> bool {
    match plain_item_name(text) {
        GivenName::Item(name) => is_item && name.bytes() == wanted,
        GivenName::Other(name) => !is_item && name.bytes() == wanted,
    }
}

/// Plain texts, whether they are those of items, and the names that they give.
const PLAIN_TEXTS: [(&'static str, bool, &'static [u8]); 7] = [
    ("a/b", true, b"a/b"),
    ("50% =\\5c", true, b"50% =\\"),
    ("=2F\\5C\\4", true, b"=2F\\5C\\4"),
    ("a\\0dé", false, b"a__"),
    ("", false, b"_"),
    (
        "1234567890123456789012345678901",
        true,
        b"1234567890123456789012345678901",
    ),
    (
        "12345678901234567890123456789012",
        false,
        b"1234567890123456789012345678901",
    ),
];

#[test]
fn plain_text_read_back(rt: HostRuntime) {
    for (row, (text, is_item, wanted)) in PLAIN_TEXTS.iter().enumerate() {
        assert!(rt; gives(text, *is_item, wanted), "row {row}");
    }
}

/// Moments, and their dates if they are moments.
const MOMENTS: [(&'static [u8], Option<u32>); 14] = [
    (b"", Some(0)),
    (b"1904-01-01T00:00:01", Some(1)),
    (b"1904-02-29T00:00:00", Some(5_097_600)),
    (b"1904-03-01T00:00:00", Some(5_184_000)),
    (b"2000-01-01T00:00:00", Some(3_029_529_600)),
    (b"2000-02-29T00:00:00", Some(3_034_627_200)),
    (b"2040-02-06T06:28:15", Some(4_294_967_295)),
    (b"2040-02-06T06:28:16", None),
    (b"1905-02-29T00:00:00", None),
    (b"1999-12-31T24:00:00", None),
    (b"1999-13-01T00:00:00", None),
    (b"1999-12-31 00:00:00", None),
    (b"19x4-01-01T00:00:00", None),
    (b"1904-01-01T00:00:01Z", None),
];

#[test]
fn moments_read_back(rt: HostRuntime) {
    for (row, (text, wanted)) in MOMENTS.iter().enumerate() {
        assert!(rt; read_moment(text) == *wanted, "row {row}");
    }
}

/// Three lines of a table of items: its head, a locked file with all three dates, and a file whose name wants marks.
const TABLE: &'static [u8] =
    b"path,kind,id,parent,type,creator,flags,locked,file_id,created,modified,backup,items,data_bytes,resource_bytes,finder,bag_path\r\nD:f,file,16,2,TEXT,ttxt,4101,yes,no,2000-01-01T00:00:00,2040-02-06T06:28:15,1904-01-01T00:00:01,,2000,3,54455854747478744101010203040506101112131415161718191a1b1c1d1e1f,f\r\n\"D:A,\"\"b\\5c\",file,18,2,,,0000,no,yes,,,,,0,0,00,\"A,=22b=5C\"\r\n";

/// The row this many lines below the head, and its fields.
fn row_of(alloc: Global, lines: u64) -> Result<ByteRecord, Error> {
    let mut reader = Reader::from_reader(alloc, TABLE);
    let mut row = ByteRecord::new(alloc);
    for _line in 0..lines {
        reader.read_byte_record(&mut row)?;
    }
    Ok(row)
}

/// Whether a row gives these facts.
fn tells(row: Option<ItemRow>, locked: bool, created: u32, modified: u32, backup: u32) -> bool {
    match row {
        Some(row) => {
            row.kind == ItemKind::File
                && row.locked == locked
                && row.dates.created == created
                && row.dates.modified == modified
                && row.dates.backup == backup
        }
        None => false,
    }
}

/// Whether the row this many lines below the head has this path and gives these facts.
fn has_row(alloc: Global, lines: u64, path: &[u8], locked: bool, dates: (u32, u32, u32)) -> bool {
    match row_of(alloc, lines) {
        Ok(row) => {
            bag_path(&row) == Some(path) && tells(item_row(&row), locked, dates.0, dates.1, dates.2)
        }
        Err(_) => false,
    }
}

#[test]
fn rows_read_back(rt: HostRuntime) {
    let dates = (3_029_529_600, 4_294_967_295, 1);
    assert!(rt;
        has_row(rt.alloc(), 1, b"f", true, dates),
        "all that is told"
    );
    assert!(rt;
        has_row(rt.alloc(), 2, b"A,=22b=5C", false, (0, 0, 0)),
        "with marks"
    );
}

/// The description of a bag.
const INFO: &'static [u8] =
    b"Bag-Software-Agent: hfs_tool 1.0.0\nExternal-Identifier:  D \\5c\nExternal-Identifier: E\nPayload-Oxum: 0.0\n";

/// A line of a manifest.
const LINE: &'static [u8] =
    b"63d8d35920be456776a35578ade76725c687821ad55d4bb950225fed2d33e6cb  data/f";

/// Whether a digest has this first and this last byte.
fn has_ends(digest: &[u8; 32], first: u8, last: u8) -> bool {
    digest[0] == first && digest[31] == last
}

/// Whether a line gives a digest with this first and this last byte, for this path.
fn is_line(line: &[u8], first: u8, last: u8, wanted: &[u8]) -> bool {
    let Some(found) = manifest_line(line) else {
        return false;
    };
    has_ends(&found.0, first, last) && found.1 == wanted
}

#[test]
fn lines_read_back(rt: HostRuntime) {
    assert!(rt;
        external_identifier(INFO) == Some(b" D \\5c".as_slice()),
        "the first"
    );
    assert!(rt;
        external_identifier(b"External-Identifier:D\n") == None,
        "none"
    );
    assert!(rt; is_line(LINE, 0x63, 0xcb, b"data/f"), "digest and path");
    assert!(rt; !is_line(b"63d8  data/f", 0x63, 0xd8, b"data/f"), "short");
}

/// An entry that is an empty file.
fn file(name: &[u8]) -> Entry<'_> {
    Entry {
        name,
        kind: EntryKind::File(0),
        modified: 0,
    }
}

/// Whether an item is made of these entries.
fn is_of(item: &FolderItem, own: Option<usize>, double: Option<usize>) -> bool {
    item.own == own && item.double == double
}

#[test]
fn entries_make_items(rt: HostRuntime) -> Result<(), Fail> {
    let entries = [
        file(b".DS_Store"),
        file(b"._.DS_Store"),
        file(b"._A"),
        file(b"B"),
        file(b"._B"),
        file(b"C"),
    ];
    let items = folder_items(rt.alloc(), &entries)?;
    let whole = match items.as_slice() {
        [a, b, c] => {
            is_of(a, None, Some(2)) && is_of(b, Some(3), Some(4)) && is_of(c, Some(5), None)
        }
        _ => false,
    };
    assert!(rt; whole);
    Ok(())
}

/// An item name.
fn name(text: &[u8]) -> Name {
    match given_name(text) {
        GivenName::Item(name) | GivenName::Other(name) => name,
    }
}

#[test]
fn twins_are_told(rt: HostRuntime) -> Result<(), Fail> {
    let names = [
        name(b"read me"),
        name(b"Read Me"),
        name(b"read_me"),
        name(b"READ ME"),
    ];
    let twins = later_twins(rt.alloc(), &names)?;
    assert!(rt; twins.as_slice() == [false, true, false, true].as_slice());
    Ok(())
}

#[test]
fn the_nearest_date(rt: HostRuntime) {
    let since = date_since_1970(0) == 2_082_844_800
        && date_since_1970(2_212_122_495) == 4_294_967_295
        && date_since_1970(2_212_122_496) == 4_294_967_295;
    let before = date_before_1970(1, false) == 2_082_844_799
        && date_before_1970(0, true) == 2_082_844_799
        && date_before_1970(2_082_844_799, true) == 0
        && date_before_1970(u64::MAX, true) == 0;
    assert!(rt; since && before);
}

//! Names and files that come from a host.
use hfs_encodings::{
    AppleDoubleFile, FileDates, GivenName, MacBinaryFile, host_item_name, read_apple_double,
    read_macbinary,
};
use hfs_source::MemoryBytes;

/// Whether a host name gives this name, which is an item name or is in place of one.
fn gives(text: &str, is_item: bool, wanted: &[u8]) -> bool {
    match host_item_name(text) {
        GivenName::Item(name) => is_item && name.bytes() == wanted,
        GivenName::Other(name) => !is_item && name.bytes() == wanted,
    }
}

/// Host names, whether they are those of items, and the names that they give.
const HOST_NAMES: [(&'static str, bool, &'static [u8]); 10] = [
    ("a=2Fb", true, b"a/b"),
    ("=63on", true, b"con"),
    ("50=25 =3D=5C", true, b"50% =\\"),
    ("=", true, b"="),
    ("a=2fb=4", true, b"a=2fb=4"),
    ("=3A=0D", false, b"__"),
    ("é\u{301}=8E.", false, b"___."),
    ("", false, b"_"),
    (
        "1234567890123456789012345678901",
        true,
        b"1234567890123456789012345678901",
    ),
    (
        "123456789012345678901234567890=212",
        false,
        b"123456789012345678901234567890!",
    ),
];

#[test]
fn host_names_read_back(rt: HostRuntime) {
    for (row, (text, is_item, wanted)) in HOST_NAMES.iter().enumerate() {
        assert!(rt; gives(text, *is_item, wanted), "row {row}");
    }
}

/// The header of a file `f` with forks of 2,000 and 3 bytes, locked, worked out by hand.
const FRONT: [u8; 128] = [
    0, 1, b'f', 0, 0, 0, 0, 0, 0, 0, 0, 0, 0, 0, 0, 0, 0, 0, 0, 0, 0, 0, 0, 0, 0, 0, 0, 0, 0, 0, 0,
    0, 0, 0, 0, 0, 0, 0, 0, 0, 0, 0, 0, 0, 0, 0, 0, 0, 0, 0, 0, 0, 0, 0, 0, 0, 0, 0, 0, 0, 0, 0, 0,
    0, 0, 0x54, 0x45, 0x58, 0x54, 0x74, 0x74, 0x78, 0x74, 0x41, 0, 1, 2, 3, 4, 5, 6, 1, 0, 0, 0,
    0x07, 0xd0, 0, 0, 0, 3, 0xb4, 0x92, 0xf4, 0, 0xff, 0xff, 0xff, 0xff, 0, 0, 1, 0, 0, 0, 0, 0, 0,
    0, 0, 0, 0, 0, 0, 0, 0, 0, 0, 0, 0, 0, 0, 129, 129, 0x58, 0x97, 0, 0,
];

/// Whether the places of both forks are these.
fn lies_at(file: &MacBinaryFile, data_fork: (u64, u32), resource_fork: (u64, u32)) -> bool {
    (file.data_fork.start, file.data_fork.len) == data_fork
        && (file.resource_fork.start, file.resource_fork.len) == resource_fork
}

/// Whether the name is that of an item, and `f`.
fn is_named_f(name: GivenName) -> bool {
    match name {
        GivenName::Item(name) => name.bytes() == b"f".as_slice(),
        GivenName::Other(_) => false,
    }
}

/// Whether everything that is read is what is in that header.
fn is_f(file: MacBinaryFile) -> bool {
    is_named_f(file.name)
        && file.finder_info == *b"TEXTttxt\x41\x01\x01\x02\x03\x04\x05\x06"
        && file.locked
        && file.created == 0xb492_f400
        && file.modified == 0xffff_ffff
        && lies_at(&file, (128, 2_000), (2_176, 3))
}

/// Whether a file of this length with this header is MacBinary, with what is in that header.
fn tells_f(front: &[u8; 128], len: usize) -> bool {
    let mut file = [0; 2_560];
    file[..128].copy_from_slice(front);
    let len = len.min(2_560);
    let mut source = MemoryBytes {
        bytes: &file[..len],
    };
    match read_macbinary(&mut source) {
        Ok(Some(found)) => is_f(found),
        _ => false,
    }
}

#[test]
fn macbinary_is_taken_apart(rt: HostRuntime) {
    assert!(rt; tells_f(&FRONT, 2_304), "what the header tells");
    assert!(rt;
        !tells_f(&FRONT, 2_303) && !tells_f(&FRONT, 2_305),
        "another length"
    );
    let mut wrong = FRONT;
    wrong[2] = b'g';
    assert!(rt; !tells_f(&wrong, 2_304), "another check");
}

/// An AppleDouble file of three parts: dates, three bytes of resource fork, and more than 32 bytes for the Finder.
const DOUBLE: [u8; 121] = [
    0, 5, 22, 7, 0, 2, 0, 0, 77, 97, 99, 32, 79, 83, 32, 88, 32, 32, 32, 32, 32, 32, 32, 32, 0, 3,
    0, 0, 0, 8, 0, 0, 0, 62, 0, 0, 0, 16, 0, 0, 0, 2, 0, 0, 0, 78, 0, 0, 0, 3, 0, 0, 0, 9, 0, 0, 0,
    81, 0, 0, 0, 40, 0, 0, 0, 0, 128, 0, 0, 0, 127, 255, 255, 255, 255, 255, 255, 255, 82, 69, 83,
    84, 69, 88, 84, 116, 116, 120, 116, 1, 2, 3, 4, 5, 6, 7, 8, 9, 10, 11, 12, 13, 14, 15, 16, 17,
    18, 19, 20, 21, 22, 23, 24, 25, 26, 27, 28, 29, 30, 31, 32,
];

/// Whether its dates are these: the first moment of 2000, one that isn't set, and the last that there is.
fn are_dates(dates: Option<FileDates>) -> bool {
    match dates {
        Some(dates) => {
            dates.created == 0xb492_f400 && dates.modified == 0 && dates.backup == 0xffff_ffff
        }
        None => false,
    }
}

/// Whether everything that is read is what is in that file.
fn is_double(file: AppleDoubleFile) -> bool {
    file.finder
        == *b"TEXTttxt\x01\x02\x03\x04\x05\x06\x07\x08\x09\x0a\x0b\x0c\x0d\x0e\x0f\x10\x11\x12\x13\x14\x15\x16\x17\x18"
        && (file.resource_fork.start, file.resource_fork.len) == (78, 3)
        && are_dates(file.dates)
}

/// Whether the first bytes of that file are AppleDouble, with what is in it.
fn tells_double(len: usize) -> bool {
    let file = DOUBLE;
    let len = len.min(121);
    let mut source = MemoryBytes {
        bytes: &file[..len],
    };
    match read_apple_double(&mut source) {
        Ok(Some(found)) => is_double(found),
        _ => false,
    }
}

#[test]
fn apple_double_is_read(rt: HostRuntime) {
    assert!(rt; tells_double(121), "what the parts tell");
    assert!(rt;
        !tells_double(120) && !tells_double(61) && !tells_double(25),
        "cut"
    );
}

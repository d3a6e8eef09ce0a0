use super::*;
use crate::{FormatPlan, PlannedImage, format};
use hfs_source::{BlockSource, PlacedBytes};
use std::alloc::{AllocError, Global};
use std::test::Fail;

/// How many blocks a typed size has; 0 if it is refused.
fn typed(text: &str) -> u32 {
    match read_size(text) {
        Ok(size) => size.blocks,
        Err(_) => 0,
    }
}

#[test]
fn sizes_are_read(rt: HostRuntime) {
    for (text, blocks) in [
        ("65536", 128),
        ("64K", 128),
        ("800K", 1_600),
        ("1000K", 2_000),
        ("1M", 2_048),
        ("102400", 200),
        ("2G", 4_194_304),
        ("2048M", 4_194_304),
        ("2147483648", 4_194_304),
    ] {
        assert!(rt; typed(text) == blocks, "{text}");
    }
    for text in [
        "",
        "K",
        "M",
        "65535",
        "65537",
        "65024",
        "63K",
        "100000",
        "2147484160",
        "2049M",
        "3G",
        "18446744073709551615G",
        "18446744073709551616",
        "1k",
        "1.5M",
        "-1M",
        "1 M",
        "1MK",
        "0x40K",
        "800K ",
    ] {
        assert!(rt;
            matches!(read_size(text), Err(MakeFault::BadSize)),
            "{text}"
        );
    }
}

/// Whether this is read as the name with these bytes.
fn is_named(source: NameSource<'_>, name: &[u8]) -> bool {
    match read_name(source) {
        Ok(volume) => volume.name.bytes() == name,
        Err(_) => false,
    }
}

#[test]
fn names_are_read(rt: HostRuntime) {
    let long = "123456789012345678901234567";
    let longer = "1234567890123456789012345678";
    assert!(rt; is_named(NameSource::Typed("My Disk"), b"My Disk"));
    assert!(rt; is_named(NameSource::Typed(long), long.as_bytes()));
    assert!(rt; is_named(NameSource::PlainText("a\\5cb"), b"a\\b"));
    assert!(rt; is_named(NameSource::PlainText("a=5Cb"), b"a=5Cb"));
    assert!(rt; is_named(NameSource::FolderName("a=2Fb"), b"a/b"));
    assert!(rt; is_named(NameSource::FolderName(long), long.as_bytes()));
    for source in [
        NameSource::Typed(""),
        NameSource::Typed(longer),
        NameSource::Typed("a:b"),
        NameSource::Typed("Caf\u{e9}"),
        NameSource::PlainText(longer),
        NameSource::PlainText("a\\3ab"),
        NameSource::PlainText(""),
        NameSource::FolderName(longer),
        NameSource::FolderName("a=3Ab"),
        NameSource::FolderName("Caf\u{e9}"),
        NameSource::Nameless,
    ] {
        assert!(rt; matches!(read_name(source), Err(MakeFault::BadName)));
    }
}

/// `count` files with names of 8 characters and `data_len` bytes in their data forks.
fn files(alloc: Global, count: u32, data_len: u64) -> Result<Vec<NewItem>, AllocError> {
    let mut items = Vec::new(alloc);
    for _ in 0..count {
        items.push(NewItem::File(NewFile {
            name_len: 8,
            data_len,
            resource_len: 0,
        }))?;
    }
    Ok(items)
}

/// Of 136 bytes of the root of a one-letter name, and of 120 of each file.
#[test]
fn catalogs_have_nodes(rt: HostRuntime) -> Result<(), Fail> {
    assert!(rt; catalog_nodes(1, &[], 1) == 3);
    assert!(rt; catalog_nodes(1, &[], 4) == 12);
    // 158 bytes of a folder and its thread make it 294, two leaves and their root
    assert!(rt; catalog_nodes(1, &[NewItem::Folder(22)], 1) == 5);
    // 485 leaves, and 97, 20, 4 and 1 above them
    let items = files(rt.alloc(), 1_000, 0)?;
    assert!(rt; catalog_nodes(1, &items, 1) == 760);
    assert!(rt; catalog_nodes(1, &items, 2) == 1_520);
    // 4,840 leaves, and 968, 194, 39, 8, 2 and 1 above them; 2 map nodes
    let items = files(rt.alloc(), 10_000, 0)?;
    assert!(rt; catalog_nodes(1, &items, 1) == 7_568);
    Ok(())
}

#[test]
fn sizes_are_chosen(rt: HostRuntime) -> Result<(), Fail> {
    // two boot blocks, the master directory block, a block of the bitmap, 11 nodes and the last two blocks are 17
    assert!(rt; chosen_blocks(3, &[]) == Some(217));
    // 3,000 files of a block each: 3,128 blocks, and a tenth more
    let items = files(rt.alloc(), 3_000, 512)?;
    assert!(rt; chosen_blocks(114, &items) == Some(3_441));
    // 60,128 blocks hold these files, but a tenth more has allocation blocks of two blocks each
    let items = files(rt.alloc(), 60_000, 512)?;
    assert!(rt; chosen_blocks(100, &items) == Some(120_128));
    let items = files(rt.alloc(), 1, 2_147_483_647)?;
    assert!(rt; chosen_blocks(3, &items) == None);
    // no volume has more than 65,535 allocation blocks
    let items = files(rt.alloc(), 65_530, 2)?;
    assert!(rt; chosen_blocks(9_000, &items) == None);
    Ok(())
}

/// The image of a volume with this name that is wanted with these items.
fn planned(
    alloc: Global,
    name: &str,
    size: &str,
    items: &[NewItem],
) -> Result<PlannedImage, MakeFault> {
    let name = read_name(NameSource::Typed(name))?;
    let size = if size.is_empty() {
        None
    } else {
        Some(read_size(size)?)
    };
    let volume = NewVolume {
        name,
        size,
        items,
        catalog_times: 1,
        moment: 77,
    };
    plan_volume(alloc, &volume)
}

/// How many blocks a volume has; 0 if it is refused for lack of room.
fn planned_blocks(alloc: Global, size: &str, items: &[NewItem]) -> Result<u32, MakeFault> {
    match planned(alloc, "D", size, items) {
        Ok(image) => Ok(image.count()),
        Err(MakeFault::NoRoom) => Ok(0),
        Err(fault) => Err(fault),
    }
}

#[test]
fn volumes_are_planned(rt: HostRuntime) -> Result<(), Fail> {
    let none = files(rt.alloc(), 0, 0)?;
    assert!(rt; planned_blocks(rt.alloc(), "", &none) == Ok(217));
    assert!(rt; planned_blocks(rt.alloc(), "1M", &none) == Ok(2_048));
    let many = files(rt.alloc(), 1_000, 0)?;
    assert!(rt; planned_blocks(rt.alloc(), "64K", &many) == Ok(0));
    let large = files(rt.alloc(), 1, 2_147_483_647)?;
    assert!(rt; planned_blocks(rt.alloc(), "", &large) == Ok(0));
    assert!(rt; planned_blocks(rt.alloc(), "64K", &large) == Ok(128));
    Ok(())
}

/// Whether the image has these bytes from a place on, at most 16.
fn has(image: &mut NewImage, place: u64, bytes: &[u8]) -> bool {
    let mut read = [0; 16];
    match image.read_at(place, &mut read) {
        Ok(()) => read.starts_with(bytes),
        Err(_) => false,
    }
}

#[test]
fn new_images_are_read_by_places(rt: HostRuntime) -> Result<(), Fail> {
    let none = files(rt.alloc(), 0, 0)?;
    let planned = planned(rt.alloc(), "D", "", &none)?;
    let mut image = NewImage { planned };
    assert!(rt; PlacedBytes::len(&image) == 111_104);
    // the master directory block: its moment, and after these its name; 8 nodes of the extents file, and 3 of the catalog
    assert!(rt; has(&mut image, 1_024, &[0x42, 0x44, 0, 0, 0, 77, 0, 0, 0, 77]));
    assert!(rt; has(&mut image, 1_060, &[1, b'D', 0]));
    assert!(rt; has(&mut image, 1_154, &[0, 0, 0x10, 0, 0, 0, 0, 8]));
    assert!(rt; has(&mut image, 1_170, &[0, 0, 0x06, 0, 0, 8, 0, 3]));
    // the end of a block, and the next one: bits of 11 allocation blocks
    assert!(rt; has(&mut image, 1_534, &[0, 0, 0xff, 0xe0, 0]));
    assert!(rt; !has(&mut image, 111_089, &[]));
    assert!(rt; has(&mut image, 111_088, &[0; 16]));
    Ok(())
}

#[test]
fn new_images_are_those_of_their_plans(rt: HostRuntime) -> Result<(), Fail> {
    let none = files(rt.alloc(), 0, 0)?;
    let planned = planned(rt.alloc(), "D", "", &none)?;
    let plan = FormatPlan {
        name: Vec::from_slice(rt.alloc(), b"D")?,
        blocks: 217,
        extents_nodes: 8,
        catalog_nodes: 3,
        now: 77,
    };
    let whole = format(rt.alloc(), plan)?;
    let mut image = NewImage { planned };
    let mut blocks = vec![in rt.alloc(); 0u8; 1_024]?;
    assert!(rt; image.read_blocks(11, &mut blocks).is_ok());
    assert!(rt; whole.len() > 5_632);
    assert!(rt; whole[5_632..].starts_with(&blocks));
    for (place, len) in [
        (0u64, 111_104usize),
        (1_000, 2_000),
        (4_000, 3_000),
        (512, 1_024),
    ] {
        let mut read = vec![in rt.alloc(); 0u8; len]?;
        assert!(rt; image.read_at(place, &mut read).is_ok());
        let from = place as usize;
        assert!(rt; from <= whole.len());
        assert!(rt; whole[from..].starts_with(&read), "{place}");
    }
    for (place, len) in [(111_104, 1), (111_000, 105), (u64::MAX, 1)] {
        let mut read = vec![in rt.alloc(); 0u8; len]?;
        assert!(rt; image.read_at(place, &mut read).is_err(), "{place}");
    }
    Ok(())
}

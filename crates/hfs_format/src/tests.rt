//! Plans with their images and faults. The expected bytes are written by hand from the volume's format.
ghost use Rattle.std.specs.Prelude.{◌<◌};

use crate::layout::Layout;
use crate::*;
use hfs_source::BlockSource;
use std::alloc::{AllocError, Global};
use std::test::Fail;

pub(crate) fn plan_of(
    alloc: Global,
    name: &[u8],
    blocks: u32,
    extents_nodes: u32,
    catalog_nodes: u32,
) -> Result<FormatPlan, AllocError> {
    Ok(FormatPlan {
        name: Vec::from_slice(alloc, name)?,
        blocks,
        extents_nodes,
        catalog_nodes,
        now: 0,
    })
}

/// Writes bytes into a block of an image, if it has them.
fn lay(image: &mut Vec<u8>, block: usize, at: usize, bytes: &[u8])
    requires block { block < 65536 }
    requires place { at < 512 }
{
    let start = 512 * block + at;
    if start > image.len() || bytes.len() > image.len() - start {
        return;
    }
    let end = start + bytes.len();
    image[start..end].copy_from_slice(bytes);
}

/// Writes the master directory block of a volume named `D` with 64 blocks.
fn lay_mdb(image: &mut Vec<u8>, block: usize, nodes: u8)
    requires { block < 65536 }
{
    let free = 56u8.saturating_sub(nodes);
    let size = nodes.wrapping_mul(2);
    lay(image, block, 0, &[0x42, 0x44]);
    lay(image, block, 10, &[0x01, 0x00]);
    lay(image, block, 14, &[0, 3]);
    lay(image, block, 18, &[0, 58]);
    lay(image, block, 20, &[0, 0, 2, 0]);
    lay(image, block, 24, &[0, 0, 8, 0]);
    lay(image, block, 28, &[0, 4]);
    lay(image, block, 30, &[0, 0, 0, 16]);
    lay(image, block, 34, &[0, free]);
    lay(image, block, 36, &[1, b'D']);
    lay(image, block, 74, &[0, 0, 4, 0]);
    lay(image, block, 78, &[0, 0, size, 0]);
    lay(image, block, 130, &[0, 0, 4, 0, 0, 0, 0, 2]);
    lay(image, block, 146, &[0, 0, size, 0, 0, 2, 0, nodes]);
}

/// Writes the nodes of both trees.
fn lay_trees(image: &mut Vec<u8>, nodes: u8) {
    lay(image, 4, 8, &[1, 0, 0, 3]);
    lay(image, 4, 32, &[2, 0, 0, 7, 0, 0, 0, 2, 0, 0, 0, 1]);
    lay(image, 4, 248, &[0x80]);
    lay(image, 4, 504, &[1, 248, 0, 248, 0, 120, 0, 14]);
    lay(image, 6, 8, &[1, 0, 0, 3]);
    lay(
        image,
        6,
        14,
        &[0, 1, 0, 0, 0, 1, 0, 0, 0, 2, 0, 0, 0, 1, 0, 0, 0, 1],
    );
    lay(
        image,
        6,
        32,
        &[
            2,
            0,
            0,
            37,
            0,
            0,
            0,
            nodes,
            0,
            0,
            0,
            nodes.saturating_sub(2),
        ],
    );
    lay(image, 6, 248, &[0xc0]);
    lay(image, 6, 504, &[1, 248, 0, 248, 0, 120, 0, 14]);
    lay(image, 7, 8, &[0xff, 1, 0, 2]);
    lay(image, 7, 14, &[7, 0, 0, 0, 0, 1, 1, b'D']);
    lay(image, 7, 22, &[1, 0, 0, 0, 0, 0, 0, 0, 0, 2]);
    lay(image, 7, 92, &[6, 0, 0, 0, 0, 2, 0]);
    lay(image, 7, 100, &[3, 0]);
    lay(image, 7, 110, &[0, 0, 0, 1, 1, b'D']);
    lay(image, 7, 506, &[0, 146, 0, 92, 0, 14]);
}

/// The image of a volume named `D`, of `len` bytes, with 2 extents nodes and `nodes` catalog nodes.
fn expected_image(
    alloc: Global,
    len: usize,
    nodes: u8,
    bitmap: &[u8],
) -> Result<Vec<u8>, AllocError> {
    let mut image = vec![in alloc; 0u8; len]?;
    lay_mdb(&mut image, 2, nodes);
    lay_mdb(&mut image, 62, nodes);
    lay(&mut image, 3, 0, bitmap);
    lay_trees(&mut image, nodes);
    Ok(image)
}

#[test]
fn small_volumes_have_their_bytes(rt: HostRuntime) -> Result<(), Fail> {
    let cases: [(u8, &[u8]); 4] = [
        (4, &[0xfc]),
        (6, &[0xff]),
        (7, &[0xff, 0x80]),
        (40, &[0xff, 0xff, 0xff, 0xff, 0xff, 0xc0]),
    ];
    for (nodes, bitmap) in cases {
        let expected = expected_image(rt.alloc(), 32_768, nodes, bitmap)?;
        let plan = plan_of(rt.alloc(), b"D", 64, 2, u32::from(nodes))?;
        let image = format(rt.alloc(), plan)?;
        assert!(rt; image.as_slice() == expected.as_slice(), "{nodes} nodes");
    }
    Ok(())
}

/// Whether a block of the image has these bytes at a place.
pub(crate) fn has(image: &[u8], block: usize, at: usize, bytes: &[u8]) -> bool
    requires block { block < 65536 }
    requires place { at < 512 }
{
    let start = 512 * block + at;
    if start > image.len() || bytes.len() > image.len() - start {
        return false;
    }
    let end = start + bytes.len();
    &image[start..end] == bytes
}

#[test]
fn names_and_moments_are_written(rt: HostRuntime) -> Result<(), Fail> {
    let mut plan = plan_of(rt.alloc(), b"Disk", 64, 1, 2)?;
    plan.now = 0x0102_0304;
    let image = format(rt.alloc(), plan)?;
    let pieces: [(usize, usize, &[u8]); 6] = [
        (2, 2, &[1, 2, 3, 4, 1, 2, 3, 4, 1, 0]),
        (62, 36, &[4, b'D', b'i', b's', b'k', 0]),
        (
            6,
            14,
            &[10, 0, 0, 0, 0, 1, 4, b'D', b'i', b's', b'k', 0, 1, 0],
        ),
        (6, 34, &[0, 2, 1, 2, 3, 4, 1, 2, 3, 4, 1, 2, 3, 4, 0]),
        (6, 96, &[6, 0, 0, 0, 0, 2, 0, 0, 3, 0]),
        (6, 114, &[0, 0, 0, 1, 4, b'D', b'i', b's', b'k', 0]),
    ];
    for (block, at, bytes) in pieces {
        assert!(rt; block < 65_536 && at < 512);
        assert!(rt; has(&image, block, at, bytes), "block {block} at {at}");
    }
    Ok(())
}

#[test]
fn larger_volumes_have_larger_allocation_blocks(rt: HostRuntime) -> Result<(), Fail> {
    let image = format(rt.alloc(), plan_of(rt.alloc(), b"D", 65_535, 1, 3)?)?;
    assert!(rt; image.len() == 33_553_920);
    assert!(rt; has(&image, 2, 18, &[0xff, 0xea, 0, 0, 2, 0, 0, 0, 8, 0, 0, 19]));
    assert!(rt; has(&image, 65_533, 34, &[0xff, 0xe6]));
    assert!(rt; has(&image, 3, 0, &[0xf0, 0]));
    assert!(rt; has(&image, 20, 32, &[2, 0, 0, 37, 0, 0, 0, 3, 0, 0, 0, 1]));
    let image = format(rt.alloc(), plan_of(rt.alloc(), b"D", 65_536, 1, 3)?)?;
    assert!(rt; image.len() == 33_554_432);
    assert!(rt; has(&image, 2, 18, &[0x7f, 0xf9, 0, 0, 4, 0, 0, 0, 16, 0, 0, 11]));
    assert!(rt; has(&image, 65_534, 34, &[0x7f, 0xf6]));
    assert!(rt; has(&image, 2, 130, &[0, 0, 4, 0, 0, 0, 0, 1]));
    assert!(rt; has(&image, 2, 146, &[0, 0, 8, 0, 0, 1, 0, 2]));
    assert!(rt; has(&image, 3, 0, &[0xe0, 0]));
    assert!(rt; has(&image, 11, 32, &[2, 0, 0, 7, 0, 0, 0, 2, 0, 0, 0, 1]));
    assert!(rt; has(&image, 13, 32, &[2, 0, 0, 37, 0, 0, 0, 4, 0, 0, 0, 2]));
    assert!(rt; has(&image, 14, 8, &[0xff, 1, 0, 2]));
    Ok(())
}

#[test]
fn the_largest_volume_is_laid_out(rt: HostRuntime) -> Result<(), Fail> {
    let plan = plan_of(rt.alloc(), b"D", 4_194_304, 1, 2)?;
    let volume = Layout::of(&plan)?;
    assert!(rt; (volume.blocks, volume.factor) == (4_194_304, 65));
    assert!(rt; (volume.start, volume.allocation_blocks) == (19, 64_527));
    assert!(rt; (volume.extents.blocks, volume.extents.nodes) == (1, 65));
    assert!(rt; (volume.catalog.blocks, volume.catalog.nodes) == (1, 65));
    let plan = plan_of(rt.alloc(), b"D", 4_194_304, 1, 4_194_190)?;
    let volume = Layout::of(&plan)?;
    assert!(rt; (volume.catalog.blocks, volume.catalog.nodes) == (64_526, 4_194_190));
    Ok(())
}

#[test]
fn blocks_are_made_where_they_are_read(rt: HostRuntime) -> Result<(), Fail> {
    let plan = plan_of(rt.alloc(), b"D", 20_000, 2_049, 5_985)?;
    let mut image = PlannedImage::of(&plan)?;
    assert!(rt; image.count() == 20_000);
    let whole = format(rt.alloc(), plan)?;
    for (first, len) in [
        (0u32, 8_192usize),
        (2, 512),
        (8, 1_536),
        (2_055, 3_584),
        (19_984, 8_192),
        (20_000, 0),
    ] {
        let mut read = vec![in rt.alloc(); 0u8; len]?;
        assert!(rt; image.read_blocks(first, &mut read).is_ok());
        let from = first as usize * 512;
        assert!(rt; from <= whole.len());
        assert!(rt; whole[from..].starts_with(&read), "block {first}");
    }
    for (first, len) in [
        (20_000, 512),
        (19_999, 1_024),
        (20_001, 0),
        (4_294_967_295, 512),
        (0, 511),
    ] {
        let mut read = vec![in rt.alloc(); 0u8; len]?;
        assert!(rt;
            image.read_blocks(first, &mut read).is_err(),
            "block {first}"
        );
    }
    Ok(())
}

#[test]
fn images_are_written(rt: HostRuntime) -> Result<(), Fail> {
    let plan = plan_of(rt.alloc(), b"D", 2_401, 2_049, 9)?;
    let image = PlannedImage::of(&plan)?;
    let whole = format(rt.alloc(), plan)?;
    let mut written = Vec::new(rt.alloc());
    assert!(rt; image.write(&mut written).is_ok());
    assert!(rt; written == whole);
    let mut short = [0; 1_000];
    let mut room = &mut short[..];
    assert!(rt; image.write(&mut room).is_err());
    assert!(rt; whole.starts_with(&short));
    Ok(())
}

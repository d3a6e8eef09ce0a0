//! Plans with large trees, whose map nodes are written by hand from the format.

use crate::tests::{has, plan_of};
use crate::*;
use std::test::Fail;

/// Whether an image has these bytes in these blocks, each from a place on.
fn has_all(image: &[u8], pieces: &[(usize, usize, &[u8])]) -> bool {
    for (block, at, bytes) in pieces {
        if *block >= 65_536 || *at >= 512 || !has(image, *block, *at, *bytes) {
            return false;
        }
    }
    true
}

/// An extents file of 2,049 nodes in the blocks from 8 on has one map node, and a catalog of 5,985 in those from 2,057 on has
/// two.
#[test]
fn large_trees_have_map_nodes(rt: HostRuntime) -> Result<(), Fail> {
    let image = format(rt.alloc(), plan_of(rt.alloc(), b"D", 20_000, 2_049, 5_985)?)?;
    let zeros = [0; 512];
    let last = [1, 0xfa, 0, 14];
    let pieces: [(usize, usize, &[u8]); 21] = [
        // the bitmap has 8,034 bits
        (3, 511, &[0xff]),
        (4, 491, &[0xff, 0xc0, 0]),
        // the extents tree: its links and kind, its numbers, the first bytes of its map
        (
            8,
            0,
            &[0, 0, 0, 1, 0, 0, 0, 0, 1, 0, 0, 3, 0, 0, 0, 0, 0, 0],
        ),
        (8, 32, &[2, 0, 0, 7, 0, 0, 8, 1, 0, 0, 7, 0xff]),
        (8, 248, &[0xc0, 0]),
        (9, 0, &[0, 0, 0, 0, 0, 0, 0, 0, 2, 0, 0, 1, 0, 0]),
        (9, 14, &zeros[..494]),
        (9, 508, &last),
        (10, 0, &zeros),
        // the catalog: header node, two map nodes, and its leaf
        (2_057, 0, &[0, 0, 0, 1, 0, 0, 0, 0, 1, 0, 0, 3, 0, 0]),
        (
            2_057,
            14,
            &[0, 1, 0, 0, 0, 3, 0, 0, 0, 2, 0, 0, 0, 3, 0, 0, 0, 3],
        ),
        (
            2_057,
            32,
            &[2, 0, 0, 37, 0, 0, 0x17, 0x61, 0, 0, 0x17, 0x5d],
        ),
        (2_057, 248, &[0xf0, 0]),
        (2_058, 0, &[0, 0, 0, 2, 0, 0, 0, 0, 2, 0, 0, 1, 0, 0]),
        (2_058, 14, &zeros[..494]),
        (2_058, 508, &last),
        (2_059, 0, &[0, 0, 0, 0, 0, 0, 0, 1, 2, 0, 0, 1, 0, 0]),
        (2_059, 508, &last),
        (2_060, 0, &[0, 0, 0, 0, 0, 0, 0, 0, 0xff, 1, 0, 2]),
        (2_060, 506, &[0, 146, 0, 92, 0, 14]),
        (2_061, 0, &zeros),
    ];
    assert!(rt; has_all(&image, &pieces));
    Ok(())
}

/// The largest trees that need no map node, or only one.
#[test]
fn map_nodes_begin_where_they_are_wanted(rt: HostRuntime) -> Result<(), Fail> {
    let image = format(rt.alloc(), plan_of(rt.alloc(), b"D", 20_000, 2_048, 5_984)?)?;
    let pieces: [(usize, usize, &[u8]); 7] = [
        (8, 0, &[0, 0, 0, 0, 0, 0, 0, 0, 1]),
        (8, 248, &[0x80, 0]),
        (9, 0, &[0; 512]),
        (2_056, 0, &[0, 0, 0, 1, 0, 0, 0, 0, 1]),
        (2_056, 248, &[0xe0, 0]),
        (2_057, 0, &[0, 0, 0, 0, 0, 0, 0, 0, 2]),
        (2_058, 8, &[0xff, 1, 0, 2]),
    ];
    assert!(rt; has_all(&image, &pieces));
    Ok(())
}

/// Trees as large as those that `hformat` of hfsutils 3.2.6 makes on 2 gigabytes: 8 map nodes, and the leaf is node 9.
#[test]
fn large_trees_are_those_of_hformat(rt: HostRuntime) -> Result<(), Fail> {
    let image = format(
        rt.alloc(),
        plan_of(rt.alloc(), b"D", 70_000, 32_704, 32_704)?,
    )?;
    let pieces: [(usize, usize, &[u8]); 11] = [
        // the extents file begins after the bitmap, whose 35,000 bits take 9 blocks
        (12, 0, &[0, 0, 0, 1, 0, 0, 0, 0, 1, 0, 0, 3, 0, 0]),
        (12, 32, &[2, 0, 0, 7, 0, 0, 0x7f, 0xc0, 0, 0, 0x7f, 0xb7]),
        (12, 248, &[0xff, 0x80, 0]),
        (13, 0, &[0, 0, 0, 2, 0, 0, 0, 0, 2, 0, 0, 1, 0, 0]),
        (13, 508, &[1, 0xfa, 0, 14]),
        (18, 0, &[0, 0, 0, 7, 0, 0, 0, 5, 2, 0, 0, 1, 0, 0]),
        (20, 0, &[0, 0, 0, 0, 0, 0, 0, 7, 2, 0, 0, 1, 0, 0]),
        (
            32_716,
            14,
            &[0, 1, 0, 0, 0, 9, 0, 0, 0, 2, 0, 0, 0, 9, 0, 0, 0, 9],
        ),
        (
            32_716,
            32,
            &[2, 0, 0, 37, 0, 0, 0x7f, 0xc0, 0, 0, 0x7f, 0xb6],
        ),
        (32_716, 248, &[0xff, 0xc0, 0]),
        (32_725, 8, &[0xff, 1, 0, 2]),
    ];
    assert!(rt; has_all(&image, &pieces));
    Ok(())
}

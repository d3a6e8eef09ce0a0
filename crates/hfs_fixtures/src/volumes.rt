//! The small volumes: a new one, and what others have in place of its bytes, by hand.
use crate::blocks::lay;
use crate::fault::FixtureFault;
use hfs_format::{FormatPlan, format};
use std::alloc::Global;

/// Bytes of a block, from a place in it on.
type Edit = (usize, usize, &'static [u8]);

/// The folder `d` with ID 16 in the root, and in it the empty file `f` with ID 17.
const FOLDER: [Edit; 14] = [
    // the next ID; how many folders the root has, how many files and folders the volume
    (2, 33, &[18]),
    (2, 83, &[1]),
    (2, 87, &[1]),
    (2, 91, &[1]),
    // five records, and the root's valence
    (6, 23, &[5]),
    (7, 11, &[5]),
    (7, 27, &[1]),
    // the folder with its valence and ID, its thread, and the file with its ID
    (7, 146, &[7, 0, 0, 0, 0, 2, 1, b'd', 1]),
    (7, 159, &[1, 0, 0, 0, 16]),
    (7, 224, &[6, 0, 0, 0, 0, 16, 0, 0, 3]),
    (7, 245, &[2, 1, b'd']),
    (7, 278, &[7, 0, 0, 0, 0, 16, 1, b'f', 2, 0, 0x80]),
    (7, 309, &[17]),
    // where they begin and end
    (7, 500, &[1, 0x84, 1, 0x16, 0, 0xe0]),
];

/// The file `f` with ID 16 in the root: 2,000 bytes in allocation blocks 10, 12 and 14 by its record and in 16 by the extents
/// tree.
const ONE_FILE: [Edit; 21] = [
    // how many files the root has, the next ID with the free blocks, how many files the volume has
    (2, 13, &[1]),
    (2, 33, &[17, 0, 46]),
    (2, 87, &[1]),
    (3, 1, &[0x2a, 0x80]),
    // the extents tree: depth, root, records, first leaf, last leaf, free nodes, map
    (4, 15, &[1]),
    (4, 19, &[1]),
    (4, 23, &[1]),
    (4, 27, &[1]),
    (4, 31, &[1]),
    (4, 43, &[0]),
    (4, 248, &[0xc0]),
    (5, 8, &[0xff, 1, 0, 1, 0, 0, 7]),
    (5, 19, &[16, 0, 3, 0, 16, 0, 1]),
    (5, 509, &[34, 0, 14]),
    // the catalog's third record, and the root's valence
    (6, 23, &[3]),
    (7, 11, &[3]),
    (7, 27, &[1]),
    (7, 146, &[7, 0, 0, 0, 0, 2, 1, b'f', 2, 0, 0x80]),
    (7, 177, &[16, 0, 0, 0, 0, 7, 208, 0, 0, 8]),
    (7, 229, &[10, 0, 1, 0, 12, 0, 1, 0, 14, 0, 1]),
    (7, 504, &[1]),
];

/// A new volume with 64 blocks and this many catalog nodes.
pub fn new_image(alloc: Global, catalog_nodes: u32) -> Result<Vec<u8>, FixtureFault> {
    planned(alloc, 64, catalog_nodes)
}

/// A new volume `D` with this many blocks and catalog nodes, made at the moment 0.
fn planned(alloc: Global, blocks: u32, catalog_nodes: u32) -> Result<Vec<u8>, FixtureFault> {
    let plan = FormatPlan {
        name: Vec::from_slice(alloc, b"D")?,
        blocks,
        extents_nodes: 2,
        catalog_nodes,
        now: 0,
    };
    Ok(format(alloc, plan)?)
}

/// Lays bytes in place of an image's own.
fn lay_all(image: &mut [u8], edits: &[Edit]) -> Result<(), FixtureFault> {
    for (block, at, bytes) in edits {
        lay(image, *block, *at, bytes)?;
    }
    Ok(())
}

/// A volume of 16 blocks with the folder `d`, and in it the file `f`.
pub fn tiny_image(alloc: Global) -> Result<Vec<u8>, FixtureFault> {
    let mut image = planned(alloc, 16, 6)?;
    lay_all(&mut image, &FOLDER)?;
    Ok(image)
}

/// Byte `k` of the fork of `f`.
pub fn fork_byte(k: usize) -> u8 {
    (k % 251) as u8
}

/// A volume of 64 blocks with only the file `f`, whose fork has 2,000 bytes in four extents.
pub fn one_file_image(alloc: Global) -> Result<Vec<u8>, FixtureFault> {
    let mut image = planned(alloc, 64, 6)?;
    lay_all(&mut image, &ONE_FILE)?;
    for k in 0..2_048 {
        lay(&mut image, 14 + k / 512 * 2, k % 512, &[fork_byte(k)])?;
    }
    Ok(image)
}

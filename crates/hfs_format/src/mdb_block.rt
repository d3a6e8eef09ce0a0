//! The master directory block of a new volume (Inside Macintosh: Files, chapter 2, "Master Directory Blocks").
ghost use Rattle.std.specs.Prelude.{◌≡◌, ◌-◌, ◌≤◌, ◌++◌, length, replicate, take};
ghost use Rattle.hfs_fields.specs.Mdb.{mdb_of};
ghost use Rattle.hfs_format.specs.Plan.{IsLayout};
ghost use Rattle.hfs_format.specs.NewMdb as spec;

use crate::layout::Layout;
use hfs_fields::{Extent, Mdb, Name, VolumeAttributes};

/// The characters of a name, and zeros after them.
fn characters(name: &[u8]) -> [u8; 27]
    requires { length name.now ≤ 27 }
    ensures { result ≡ name.now ++ replicate (27 - length name.now) 0 }
{
    let mut characters = [0; 27];
    characters[..name.len()].copy_from_slice(name);
    characters
}

/// drVN: a length byte, the name and zeros.
fn volume_name_bytes(name: &Name) -> [u8; 28]
    requires { length name.now ≤ 27 }
    ensures { result ≡ spec.volume_name_bytes name.now }
{
    let name = name.bytes();
    let mut bytes = [0; 28];
    bytes[0] = name.len() as u8;
    bytes[1..28].copy_from_slice(&characters(name));
    bytes
}

/// An extent record of one run of allocation blocks.
fn one_run(first: u16, count: u16) -> [Extent; 3]
    ensures { result ≡ spec.one_run first count }
{
    let none = Extent { first: 0, count: 0 };
    [Extent { first, count }, none, none]
}

/// The fields of a new volume.
#[tactic(auto, unfolding(crate::specs::NewMdb::new_mdb))]
fn new_mdb(volume: &Layout) -> Mdb
    requires { IsLayout volume.now }
    ensures { result ≡ spec.new_mdb volume.now }
{
    let size = 512 * volume.factor;
    let extents = volume.extents;
    let catalog = volume.catalog;
    Mdb {
        signature: 0x4244,
        created: volume.moment,
        modified: volume.moment,
        attributes: VolumeAttributes::UNMOUNTED,
        root_files: 0,
        bitmap_start: 3,
        allocation_pointer: 0,
        allocation_blocks: volume.allocation_blocks,
        allocation_block_size: size,
        clump_size: 4 * size,
        allocation_start: volume.start,
        next_id: 16,
        free_blocks: volume.allocation_blocks - extents.blocks - catalog.blocks,
        volume_name: volume_name_bytes(&volume.name),
        backup: 0,
        backup_sequence: 0,
        write_count: 0,
        extents_clump_size: 512 * extents.nodes,
        catalog_clump_size: 512 * catalog.nodes,
        root_folders: 0,
        files: 0,
        folders: 0,
        finder_info: [0; 32],
        cache_size: 0,
        bitmap_cache_size: 0,
        control_cache_size: 0,
        extents_file_size: 512 * extents.nodes,
        extents_file: one_run(0, extents.blocks),
        catalog_file_size: 512 * catalog.nodes,
        catalog_file: one_run(extents.blocks, catalog.blocks),
    }
}

/// The master directory block of a new volume, and its alternate.
#[tactic(auto, unfolding(crate::specs::NewMdb::new_mdb_block))]
pub fn mdb_block(volume: &Layout) -> [u8; 512]
    requires { IsLayout volume.now }
    ensures bytes { result ≡ spec.new_mdb_block volume.now }
    ensures back { mdb_of (take 162 result) ≡ spec.new_mdb volume.now }
{
    let mut block = [0; 512];
    new_mdb(volume).write(&mut block);
    block
}

//! What is found of a sound volume that was opened: nothing more is read, and nothing is checked again.
ghost use Rattle.std.specs.Prelude.{◌≡◌, ◌++◌, ◌<◌, ◌≤◌, ◌^◌, length, None, IfOk, IfSome, OnOk};
ghost use Rattle.hfs_image.specs.Opened.{IsOpenedOf};
ghost use Rattle.hfs_remains.specs.OverflowRecords.{overflow_records};
ghost use Rattle.hfs_remains.specs.Remains.{catalog_file_blocks, extents_file_blocks, remaining_overflow};
ghost use Rattle.hfs_remains.specs.TreeFiles.{AreThere};
ghost use Rattle.hfs_space.specs.Extents as space;
ghost use Rattle.hfs_remains_forks.specs.Volumes.{AreFindsOf, AreFindsOfOpened, young_item, young_items};

use crate::finding::places_of;
use crate::finds::Finds;
use hfs_blocks::Blocks;
use hfs_catalog::{CatalogRecord, is_item};
use hfs_fields::{Extent, Mdb};
use hfs_image::{NeededVolume, catalog_records};
use hfs_remains::{
    FileNodes, FoundRecord, OverflowRecord, catalog_extents, file_blocks, overflow_records,
};
use std::alloc::{AllocError, Global};

/// The files of both trees, and the records of the extents tree.
#[derive(Drop)]
struct Files {
    extents_file: Vec<Option<u16>>,
    overflow: Vec<OverflowRecord>,
    catalog_file: Vec<Option<u16>>,
}

/// The records of the extents tree whose file has these blocks.
fn overflow_of<B: Blocks>(
    alloc: Global,
    blocks: &B,
    mdb: &Mdb,
    file: &[Option<u16>],
) -> Result<Vec<OverflowRecord>, AllocError>
    requires size { 512 ≤ mdb.now.allocation_block_size }
    requires there { AreThere (B.total blocks.now) mdb.now file.now }
    requires few { length file.now < 2 ^ 40 }
    ensures { IfOk result (λ records. records.items ≡ overflow_records (B.blocks blocks.now) mdb.now
        file.now) }
{
    let nodes = FileNodes { blocks, mdb, file };
    overflow_records(alloc, &nodes)
}

/// The files of both trees of a volume with this directory.
fn files_of<B: Blocks>(alloc: Global, blocks: &B, mdb: &Mdb) -> Result<Files, AllocError>
    requires { 512 ≤ mdb.now.allocation_block_size }
    ensures extents_file { IfOk result (λ files. files.extents_file.items ≡ extents_file_blocks
        (B.total blocks.now) mdb.now) }
    ensures overflow { IfOk result (λ files. files.overflow.items ≡ remaining_overflow
        (B.total blocks.now) (B.blocks blocks.now) mdb.now) }
    ensures catalog_file { IfOk result (λ files. files.catalog_file.items ≡ catalog_file_blocks
        (B.total blocks.now) (B.blocks blocks.now) mdb.now) }
    ensures extents_there { IfOk result (λ files. AreThere (B.total blocks.now) mdb.now
        files.extents_file.items) }
    ensures catalog_there { IfOk result (λ files. AreThere (B.total blocks.now) mdb.now
        files.catalog_file.items) }
{
    let total = blocks.count();
    let extents_file = file_blocks(alloc, total, mdb, &mdb.extents_file)?;
    let overflow = overflow_of(alloc, blocks, mdb, &extents_file)?;
    let extents = catalog_extents(alloc, &overflow, mdb)?;
    let catalog_file = file_blocks(alloc, total, mdb, &extents)?;
    Ok(Files {
        extents_file,
        overflow,
        catalog_file,
    })
}

/// Adds a record of a catalog, if it is an item's.
fn push_item(entry: CatalogRecord, items: &mut Vec<FoundRecord>) -> Result<(), AllocError>
    ensures { OnOk result (items.new.items ≡ items.old.items ++ young_item entry) }
{
    if is_item(entry.body()) {
        items.push(FoundRecord { old: false, entry })?;
    }
    Ok(())
}

/// The items among the records of a catalog, in order.
fn items_among(alloc: Global, entries: Vec<CatalogRecord>) -> Result<Vec<FoundRecord>, AllocError>
    ensures { IfOk result (λ items. items.items ≡ young_items entries.items) }
{
    let mut items = Vec::new(alloc);
    for entry in entries {
        push_item(entry, &mut items)?;
    }
    Ok(items)
}

/// What is found of a volume by the directory in its usual place.
fn finds_by_trees(alloc: Global, volume: &NeededVolume) -> Result<Finds, AllocError>
    requires { IsOpenedOf None volume.now.count volume.now }
    ensures { IfOk result (AreFindsOf volume.now) }
{
    let mdb = volume.sound.mdb;
    let blocks = volume.read.volume(volume.count);
    let files = files_of(alloc, &blocks, &mdb)?;
    let entries = catalog_records(alloc, &volume.read, volume.count, &volume.sound.trees)?;
    let items = items_among(alloc, entries)?;
    let places = places_of(alloc, &items, &[])?;
    let Files {
        extents_file,
        overflow,
        catalog_file,
    } = files;
    Ok(Finds {
        directory: 2,
        is_unsure: false,
        mdb,
        total: volume.count,
        overflow,
        extents_file,
        catalog_file,
        is_catalog_right: true,
        items,
        places,
    })
}

/// How many blocks an extent has.
fn block_count(extent: Extent) -> u32
    ensures count { result ≡ extent.count }
    ensures few { result < 2 ^ 16 }
{
    u32::from(extent.count)
}

/// How many blocks three extents have together.
fn block_total(extents: &[Extent; 3]) -> u32
    ensures total { result ≡ space.block_total extents.now }
    ensures few { result < 2 ^ 18 }
{
    let [first, second, third] = *extents;
    block_count(first) + block_count(second) + block_count(third)
}

/// What is found of a sound volume. None if its directory may be found elsewhere, because the catalog file's own extents have no
/// block. Fails only when out of memory.
#[tactic(auto, using(crate::proofs::VolumeLemmas::opened_found))]
pub(crate) fn finds_of_volume(
    alloc: Global,
    volume: &NeededVolume,
) -> Result<Option<Finds>, AllocError>
    requires { IsOpenedOf None volume.now.count volume.now }
    ensures { IfOk result (λ made. IfSome made (AreFindsOfOpened volume.now)) }
{
    if block_total(&volume.sound.mdb.catalog_file) == 0 {
        return Ok(None);
    }
    let finds = finds_by_trees(alloc, volume)?;
    Ok(Some(finds))
}

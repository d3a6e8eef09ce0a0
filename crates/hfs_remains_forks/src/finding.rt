//! Finding what there is of an image.
ghost use Rattle.std.specs.Prelude.{◌≡◌, ◌≤◌, ◌<◌, ◌^◌, length, map, Some, IfOk};
ghost use Rattle.hfs_remains_places.specs.Things.{things_of};
ghost use Rattle.hfs_remains_forks.specs.Records.{thing_of};
ghost use Rattle.hfs_remains.specs.CatalogRecords.{catalog_nodes, is_catalog_right};
ghost use Rattle.hfs_remains.specs.OverflowRecords.{catalog_extents};
ghost use Rattle.hfs_remains.specs.TreeFiles.{AreThere};
ghost use Rattle.hfs_remains_forks.specs.Finds.{AreFindsBy, IsFoundIn, is_unsure_by};

use crate::finds::Finds;
use crate::{namings, things_of};
use hfs_blocks::{Blocks, ImageBytes};
use hfs_fields::Mdb;
use hfs_remains::{
    FileNodes, FoundRecord, OverflowRecord, Remains, catalog_extents, directory_of, find_remains,
    is_catalog_right, items_of, read_mdb_at, tree_begins,
};
use hfs_remains_places::{Places, Thing};
use std::alloc::{AllocError, Global};

/// The places of items, and of the folders that only these threads name.
pub(crate) fn places_of(
    alloc: Global,
    items: &[FoundRecord],
    named: &[Thing],
) -> Result<Places, AllocError>
    ensures { IfOk result (λ places. places ≡ things_of (map thing_of items.now) named.now) }
{
    let things = things_of(alloc, items)?;
    let places = Places::of(alloc, &things, named)?;
    Ok(places)
}

/// Whether neither tree begins where the directory says.
fn is_unsure<B: Blocks>(blocks: &B, mdb: &Mdb) -> bool
    requires { 512 ≤ mdb.now.allocation_block_size }
    ensures { result ≡ is_unsure_by (B.total blocks.now) (B.blocks blocks.now) mdb.now }
{
    !tree_begins(blocks, mdb, &mdb.extents_file) && !tree_begins(blocks, mdb, &mdb.catalog_file)
}

/// Whether the catalog whose file has these blocks is right, given the records of the extents tree.
fn is_right<B: Blocks>(
    alloc: Global,
    blocks: &B,
    mdb: &Mdb,
    overflow: &[OverflowRecord],
    file: &[Option<u16>],
) -> Result<bool, AllocError>
    requires size { 512 ≤ mdb.now.allocation_block_size }
    requires there { AreThere (B.total blocks.now) mdb.now file.now }
    requires few { length file.now < 2 ^ 40 }
    ensures { IfOk result (λ right. right ≡ is_catalog_right mdb.now
        (catalog_extents overflow.now mdb.now)
        (catalog_nodes (B.blocks blocks.now) mdb.now file.now)) }
{
    let extents = catalog_extents(alloc, overflow, mdb)?;
    let nodes = FileNodes { blocks, mdb, file };
    let right = is_catalog_right(alloc, &nodes, &extents)?;
    Ok(right)
}

/// What is found of an image by the directory in this block.
pub(crate) fn finds_by<B: Blocks>(
    alloc: Global,
    blocks: &B,
    directory: u32,
    mdb: Mdb,
) -> Result<Finds, AllocError>
    requires size { 512 ≤ mdb.allocation_block_size }
    requires within { directory < B.total blocks.now }
    ensures mdb { IfOk result (λ finds. finds.mdb ≡ mdb) }
    ensures finds { IfOk result (AreFindsBy (Some directory) (B.total blocks.now)
        (B.blocks blocks.now)) }
{
    let total = blocks.count();
    let Remains {
        extents_file,
        overflow,
        catalog_file,
        found,
    } = find_remains(alloc, blocks, &mdb)?;
    let is_catalog_right = is_right(alloc, blocks, &mdb, &overflow, &catalog_file)?;
    let named = namings(alloc, &found)?;
    let items = items_of(alloc, found)?;
    let places = places_of(alloc, &items, &named)?;
    Ok(Finds {
        directory,
        is_unsure: is_unsure(blocks, &mdb),
        mdb,
        total,
        overflow,
        extents_file,
        catalog_file,
        is_catalog_right,
        items,
        places,
    })
}

/// What is found of an image by the block that is taken for its directory. None if no block will do, or if the image has fewer
/// than 1,536 bytes or more than 2,147,483,648. Fails only when out of memory.
pub fn find_in(alloc: Global, image: &[u8]) -> Result<Option<Finds>, AllocError>
    ensures { IfOk result (IsFoundIn image.now) }
{
    let Some(directory) = directory_of(image) else {
        return Ok(None);
    };
    let blocks = ImageBytes { bytes: image };
    let mdb = read_mdb_at(&blocks, directory);
    let finds = finds_by(alloc, &blocks, directory, mdb)?;
    Ok(Some(finds))
}

//! The page of a sound volume, from its blocks.
ghost use Rattle.std.specs.Prelude.{◌≡◌, ◌+◌, ◌≤◌, IfOk, OnErr, OnOk};
ghost use Rattle.std.specs.Io.KnownBytes.{Appends};
ghost use Rattle.hfs_check.specs.Parts.{catalog_in, mdb_in, overflow_in};
ghost use Rattle.hfs_check.specs.Sound.{AreBlocksSound};
ghost use Rattle.hfs_check.specs.Trees.{HasTrees};
ghost use Rattle.hfs_fields.specs.Keys.{cat_cmp};
ghost use Rattle.hfs_btree.specs.Pairs.{Rises};
ghost use Rattle.hfs_items.specs.Levels.{catalog_rows};
ghost use Rattle.hfs_space.specs.Bitmap.{bitmap_len, is_used};
ghost use Rattle.hfs_page.specs.Disk.{cells_in, holdings_in, page_in};
ghost use Rattle.hfs_page.specs.Document.{back_text, front_text};
ghost use Rattle.hfs_page.specs.Uses.{block_uses};
ghost use Rattle.hfs_texts.specs.Writing.{AppendsFront};

use crate::cells::{Cell, picture_cells};
use crate::document::{back, front};
use crate::holdings::volume_holdings;
use crate::page_texts::PageTexts;
use crate::parts::{BlockUse, Holding};
use crate::rows::{PageFault, put_piece, write_rows};
use crate::uses::block_uses;
use hfs_blocks::Blocks;
use hfs_btree::RunNodes;
use hfs_catalog::{CatalogRecord, read_records};
use hfs_check::{SoundVolume, VolumeTrees};
use hfs_fields::Mdb;
use hfs_items::Inventory;
use hfs_space::Bitmap;
use std::alloc::{AllocError, Global};
use std::io::Write;

/// All records of the catalog.
fn catalog_records<B: Blocks>(
    alloc: Global,
    blocks: &B,
    trees: &VolumeTrees,
) -> Result<Vec<CatalogRecord>, AllocError>
    requires sound { AreBlocksSound (B.total blocks.now) (B.blocks blocks.now) }
    requires trees { HasTrees (B.total blocks.now) (B.blocks blocks.now) trees.now }
    ensures { IfOk result (λ records. records.items ≡ catalog_in (B.blocks blocks.now)) }
{
    let nodes = RunNodes {
        blocks,
        runs: &trees.catalog,
    };
    read_records(alloc, &nodes)
}

/// All extents with what their blocks are used for.
fn held_extents<B: Blocks>(
    alloc: Global,
    blocks: &B,
    volume: &SoundVolume,
    records: &[CatalogRecord],
) -> Result<Vec<Holding>, AllocError>
    requires sound { AreBlocksSound (B.total blocks.now) (B.blocks blocks.now) }
    requires mdb { volume.now.mdb ≡ mdb_in (B.blocks blocks.now) }
    requires trees { HasTrees (B.total blocks.now) (B.blocks blocks.now) volume.now.trees }
    requires records { records.now ≡ catalog_in (B.blocks blocks.now) }
    ensures { IfOk result (λ held. held.items ≡ holdings_in (B.blocks blocks.now)) }
{
    let nodes = RunNodes {
        blocks,
        runs: &volume.trees.extents,
    };
    volume_holdings(
        alloc,
        &volume.mdb,
        &nodes,
        &volume.trees.catalog_file,
        records,
    )
}

/// What each block is used for, by all extents.
fn uses_by<B: Blocks>(
    alloc: Global,
    blocks: &B,
    mdb: &Mdb,
    holdings: &[Holding],
) -> Result<Vec<BlockUse>, AllocError>
    requires { mdb.now.bitmap_start + bitmap_len mdb.now.allocation_blocks ≤ B.total blocks.now }
    ensures { IfOk result (λ uses. uses.items ≡ block_uses holdings.now
        (is_used (B.blocks blocks.now) mdb.now.bitmap_start) mdb.now.allocation_blocks) }
{
    let bitmap = Bitmap {
        blocks,
        start: mdb.bitmap_start,
        count: mdb.allocation_blocks,
    };
    block_uses(alloc, &bitmap, holdings)
}

/// The cells of the picture.
#[tactic(auto, unfolding(crate::specs::Disk::cells_in))]
fn cells_in<B: Blocks>(
    alloc: Global,
    blocks: &B,
    volume: &SoundVolume,
    holdings: &[Holding],
) -> Result<Vec<Cell>, AllocError>
    requires sound { AreBlocksSound (B.total blocks.now) (B.blocks blocks.now) }
    requires mdb { volume.now.mdb ≡ mdb_in (B.blocks blocks.now) }
    requires holdings { holdings.now ≡ holdings_in (B.blocks blocks.now) }
    ensures { IfOk result (λ cells. cells.items ≡ cells_in (B.blocks blocks.now)) }
{
    let uses = uses_by(alloc, blocks, &volume.mdb, holdings)?;
    picture_cells(alloc, &uses)
}

/// Everything after the items.
fn back_in<B: Blocks>(
    alloc: Global,
    blocks: &B,
    volume: &SoundVolume,
    texts: &PageTexts<'_>,
    records: &[CatalogRecord],
) -> Result<Vec<u8>, AllocError>
    requires sound { AreBlocksSound (B.total blocks.now) (B.blocks blocks.now) }
    requires mdb { volume.now.mdb ≡ mdb_in (B.blocks blocks.now) }
    requires trees { HasTrees (B.total blocks.now) (B.blocks blocks.now) volume.now.trees }
    requires records { records.now ≡ catalog_in (B.blocks blocks.now) }
    ensures { IfOk result (λ text. text.items ≡ back_text texts.now (catalog_in (B.blocks blocks.now))
        (holdings_in (B.blocks blocks.now)) (cells_in (B.blocks blocks.now))) }
{
    let holdings = held_extents(alloc, blocks, volume, records)?;
    let cells = cells_in(alloc, blocks, volume, &holdings)?;
    back(alloc, texts, records, &holdings, &cells)
}

/// The items of a catalog with these records.
fn inventory(alloc: Global, records: Vec<CatalogRecord>) -> Result<Inventory, PageFault>
    requires { Rises cat_cmp records.items }
    ensures { IfOk result (λ items. items.left ≡ catalog_rows records.items) }
{
    match Inventory::new(alloc, records) {
        Ok(items) => Ok(items),
        Err(_) => Err(PageFault::Memory),
    }
}

/// Writes the page of a sound volume: what comes before the items, each item's row, and what comes after them. Besides the
/// records of the catalog, and what comes after the items with the picture and the extents, 65,536 bytes and a row are in memory.
/// Faults: memory was refused, or the writer failed; then only the beginning of the page may have been written.
pub fn write_page<B: Blocks, W: Write>(
    alloc: Global,
    blocks: &B,
    volume: &SoundVolume,
    texts: &PageTexts<'_>,
    writer: &mut W,
) -> Result<(), PageFault>
    requires sound { AreBlocksSound (B.total blocks.now) (B.blocks blocks.now) }
    requires mdb { volume.now.mdb ≡ mdb_in (B.blocks blocks.now) }
    requires trees { HasTrees (B.total blocks.now) (B.blocks blocks.now) volume.now.trees }
    ensures written { OnOk result (Appends (W.contents writer.old) (W.contents writer.new)
        (page_in texts.now (B.total blocks.now) (B.blocks blocks.now))) }
    ensures part { OnErr result (AppendsFront (W.contents writer.old) (W.contents writer.new)
        (page_in texts.now (B.total blocks.now) (B.blocks blocks.now))) }
{
    let Ok(records) = catalog_records(alloc, blocks, &volume.trees) else {
        return Err(PageFault::Memory);
    };
    let Ok(front) = front(alloc, texts, blocks.count(), &volume.mdb) else {
        return Err(PageFault::Memory);
    };
    let Ok(back) = back_in(alloc, blocks, volume, texts, &records) else {
        return Err(PageFault::Memory);
    };
    let mut items = inventory(alloc, records)?;
    put_piece(writer, &front)?;
    write_rows(alloc, &mut items, texts.image.base, writer)?;
    put_piece(writer, &back)?;
    Ok(())
}

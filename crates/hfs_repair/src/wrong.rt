//! The counts that are wrong in a volume in which nothing else is.

ghost use Rattle.std.specs.Prelude.{◌≡◌, ◌≤◌, IfOk, OnOk};
ghost use Rattle.hfs_check.specs.Sound.{IsMdbSound};
ghost use Rattle.hfs_repair.specs.Opened.{catalog_in_of, IsExtentsTree, IsCatalogTree};
ghost use Rattle.hfs_repair.specs.Placed.{AddsWrong};
ghost use Rattle.hfs_repair.specs.Repair.{wrong_in};
ghost use Rattle.hfs_repair.specs.Wrong as spec;
ghost use Rattle.hfs_repair.specs.Wrong.{placed_of, wrong_behind_trees};

use crate::catalog_tree::{are_records_right, catalog_records, catalog_tree};
use crate::extents_tree::extents_tree;
use crate::fixed::FixPlace;
use crate::header_numbers::push_header_numbers;
use crate::mdb_numbers::push_mdb_numbers;
use crate::tree_file::TreeFile;
use crate::valences::push_valences;
use crate::wrong_number::WrongNumber;
use hfs_blocks::{Blocks, ImageBytes};
use hfs_btree::RunNodes;
use hfs_catalog::{CatalogRecord, child_counts};
use hfs_check::{mdb_fault, read_mdb};
use hfs_fields::{CatKey, ExtKey, Mdb};
use std::alloc::{AllocError, Global};

/// Adds all counts of a volume that are wrong, given the catalog's records.
fn push_numbers<B: Blocks>(
    alloc: Global,
    wrong: &mut Vec<WrongNumber>,
    blocks: &B,
    mdb: &Mdb,
    extents: &TreeFile,
    catalog: &TreeFile,
    records: &[CatalogRecord],
) -> Result<(), AllocError>
    requires sound { IsMdbSound (B.total blocks.now) mdb.now }
    requires extents { IsExtentsTree
        (B.total blocks.now) (B.blocks blocks.now) mdb.now extents.now }
    requires catalog { IsCatalogTree
        (B.total blocks.now) (B.blocks blocks.now) mdb.now catalog.now }
    requires records { records.now ≡ catalog_in_of (B.blocks blocks.now) mdb.now }
    ensures { OnOk result (AddsWrong wrong.old.items wrong.new.items
        (placed_of (B.blocks blocks.now) mdb.now)) }
{
    let children = child_counts(alloc, records)?;
    push_mdb_numbers(wrong, blocks, mdb, records)?;
    push_header_numbers::<ExtKey, B>(
        wrong,
        FixPlace::ExtentsRecords,
        FixPlace::ExtentsFree,
        blocks,
        extents,
    )?;
    push_header_numbers::<CatKey, B>(
        wrong,
        FixPlace::CatalogRecords,
        FixPlace::CatalogFree,
        blocks,
        catalog,
    )?;
    push_valences(wrong, &children, blocks, catalog)
}

/// The wrong counts of a volume whose trees are right apart from theirs; none if the catalog's records aren't right.
fn numbers_behind_trees<B: Blocks>(
    alloc: Global,
    blocks: &B,
    mdb: &Mdb,
    extents: &TreeFile,
    catalog: &TreeFile,
) -> Result<Vec<WrongNumber>, AllocError>
    requires sound { IsMdbSound (B.total blocks.now) mdb.now }
    requires extents { IsExtentsTree
        (B.total blocks.now) (B.blocks blocks.now) mdb.now extents.now }
    requires catalog { IsCatalogTree
        (B.total blocks.now) (B.blocks blocks.now) mdb.now catalog.now }
    ensures { IfOk result (λ wrong. wrong.items
        ≡ wrong_behind_trees (B.blocks blocks.now) mdb.now) }
{
    let nodes = RunNodes {
        blocks,
        runs: &catalog.runs,
    };
    let records = catalog_records(alloc, &nodes, &catalog.counts)?;
    let mut wrong = Vec::new(alloc);
    if are_records_right(alloc, mdb.next_id, &nodes, &records)? {
        push_numbers(alloc, &mut wrong, blocks, mdb, extents, catalog, &records)?;
    }
    Ok(wrong)
}

/// The wrong counts of the blocks of a volume; none if anything checked before them is wrong.
#[tactic(auto, using(hfs_check::proofs::LawsProved::mdb_is_sound))]
pub(crate) fn wrong_in_blocks<B: Blocks>(
    alloc: Global,
    blocks: &B,
) -> Result<Vec<WrongNumber>, AllocError>
    requires { 3 ≤ B.total blocks.now }
    ensures { IfOk result (λ wrong. wrong.items
        ≡ spec.wrong_in_blocks (B.total blocks.now) (B.blocks blocks.now)) }
{
    let mdb = read_mdb(blocks);
    if mdb_fault(&mdb, blocks.count()).is_some() {
        return Ok(Vec::new(alloc));
    }
    let Some(extents) = extents_tree(alloc, blocks, &mdb)? else {
        return Ok(Vec::new(alloc));
    };
    let Some(catalog) = catalog_tree(alloc, blocks, &mdb, &extents)? else {
        return Ok(Vec::new(alloc));
    };
    numbers_behind_trees(alloc, blocks, &mdb, &extents, &catalog)
}

/// The counts that are wrong in an image, in the order in which they are written; none if anything checked before them is wrong.
/// A count that is too large for its field is left out. Fails only when out of memory.
pub(crate) fn wrong_numbers(alloc: Global, image: &[u8]) -> Result<Vec<WrongNumber>, AllocError>
    ensures { IfOk result (λ wrong. wrong.items ≡ wrong_in image.now) }
{
    if image.len() > 2_147_483_648 || image.len() < 1_536 {
        return Ok(Vec::new(alloc));
    }
    let blocks = ImageBytes { bytes: image };
    wrong_in_blocks(alloc, &blocks)
}

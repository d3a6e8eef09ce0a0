//! Leaves of a catalog in blocks that are none of its nodes.
ghost use Rattle.std.specs.Prelude.{◌≡◌, ℕ, ◌-◌, ◌/◌, ◌<◌, ◌≤◌, ◌&&◌, ◌||◌, nat_le, length, IfSome, IfOk, OnOk};
ghost use Rattle.std.specs.List.{list_all};
ghost use Rattle.hfs_btree.specs.Node.{node_of};
ghost use Rattle.hfs_space.specs.Forks.{blocks_each};
ghost use Rattle.hfs_remains.specs.TreeFiles.{mark_of};
ghost use Rattle.hfs_remains.specs.LeafRecords.{leaf_records, Adds};
ghost use Rattle.hfs_remains.specs.CatalogRecords as spec;

use crate::catalog::is_catalog_record;
use crate::leaf_records::{LeafRecord, is_leaf, push_leaf};
use crate::nodes::FileNodes;
use hfs_blocks::Blocks;
use hfs_btree::view;
use hfs_fields::Mdb;
use std::alloc::{AllocError, Global};

/// Sets the mark of a block, if the place of the file has one.
fn mark_place(marks: &mut [bool], place: Option<u16>)
    requires { IfSome place (λ b. b < length marks.old) }
    ensures { (b : ℕ) → mark_of marks.new b ≡ (mark_of marks.old b || spec.is_block b place) }
{
    if let Some(b) = place {
        marks[usize::from(b)] = true;
    }
}

/// A mark for each allocation block of the directory, set if the block is one of the file's.
fn file_marks<B: Blocks>(alloc: Global, nodes: &FileNodes<'_, B>) -> Result<Vec<bool>, AllocError>
    ensures { IfOk result (λ marks. (b : ℕ) → mark_of marks.items b ≡ spec.has_block
        nodes.now.file.now b) }
{
    let mut marks = vec![in alloc; false; usize::from(nodes.mdb.allocation_blocks)]?;
    for place in nodes.file {
        mark_place(&mut marks, *place);
    }
    Ok(marks)
}

/// Whether logical block `k` is one of the file whose allocation blocks are marked.
fn is_marked(mdb: &Mdb, marks: &[bool], k: u32) -> bool
    requires { 512 ≤ mdb.now.allocation_block_size }
    ensures { result ≡ (nat_le mdb.now.allocation_start k && mark_of marks.now
        ((k - mdb.now.allocation_start) / blocks_each mdb.now)) }
{
    let start = u32::from(mdb.allocation_start);
    if k < start {
        return false;
    }
    let b = ((k - start) / (mdb.allocation_block_size / 512)) as usize;
    b < marks.len() && marks[b]
}

/// Whether 512 bytes are no leaf, or one with only catalog records.
fn has_only_records(bytes: &[u8; 512]) -> bool
    ensures { result ≡ list_all spec.is_catalog_record (leaf_records (node_of bytes.now)) }
{
    let Ok(node) = view(bytes) else {
        return true;
    };
    if !is_leaf(&node) {
        return true;
    }
    for i in 0..node.len() {
        if !is_catalog_record(node.record(i)) {
            return false;
        }
    }
    true
}

/// Adds the records of logical block `k`, if it is none of the file's and a leaf with only catalog records.
fn push_stray<B: Blocks>(
    alloc: Global,
    nodes: &FileNodes<'_, B>,
    marks: &[bool],
    k: u32,
    records: &mut Vec<LeafRecord>,
) -> Result<(), AllocError>
    requires within { k < B.total nodes.now.blocks.now }
    requires marks { (b : ℕ) → mark_of marks.now b ≡ spec.has_block nodes.now.file.now b }
    ensures { OnOk result (Adds (spec.stray_records_at (B.blocks nodes.now.blocks.now)
        nodes.now.mdb.now nodes.now.file.now k) records.old records.new) }
{
    if is_marked(nodes.mdb, marks, k) {
        return Ok(());
    }
    let mut bytes = [0; 512];
    nodes.blocks.block(k, &mut bytes);
    if !has_only_records(&bytes) {
        return Ok(());
    }
    push_leaf(alloc, &bytes, true, records)
}

/// The records of leaves with only catalog records, in the blocks from block 3 on that are no node of the catalog. Reads each
/// block once. Fails only when out of memory.
#[tactic(auto, unfolding(crate::specs::CatalogRecords::all_stray_records))]
pub(crate) fn all_stray_records<B: Blocks>(
    alloc: Global,
    nodes: &FileNodes<'_, B>,
) -> Result<Vec<LeafRecord>, AllocError>
    ensures { IfOk result (λ records. records.items ≡ spec.all_stray_records
        (B.total nodes.now.blocks.now) (B.blocks nodes.now.blocks.now) nodes.now.mdb.now
        nodes.now.file.now) }
{
    let marks = file_marks(alloc, nodes)?;
    let mut records = Vec::new(alloc);
    for k in 3..nodes.blocks.count() {
        push_stray(alloc, nodes, &marks, k, &mut records)?;
    }
    Ok(records)
}

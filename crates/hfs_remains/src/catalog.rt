//! The records of a catalog, wherever they are found.
ghost use Rattle.std.specs.Prelude.{◌≡◌, ◌++◌, IfOk, OnOk};
ghost use Rattle.hfs_remains.specs.CatalogRecords as spec;

use crate::leaf_records::{LeafRecord, all_leaf_records};
use crate::nodes::{FileNodes, FirstNodes, node_count};
use crate::strays::all_stray_records;
use hfs_blocks::Blocks;
use hfs_btree_checks::{TreeFault, check_shape};
use hfs_catalog::{CatalogRecord, is_item, is_thread, read_records, record_fault};
use hfs_fields::{CatKey, Extent};
use hfs_model::OwnedBytes;
use hfs_space::is_tree_file;
use std::alloc::{AllocError, Global};

/// A record of the catalog, and whether it is old: from a node that is not in use, or from a block that is no node of the
/// catalog.
#[derive(Drop)]
pub struct FoundRecord {
    /// Whether its leaf is old.
    pub old: bool,
    /// The key and the body.
    pub entry: CatalogRecord,
}

/// Whether a body is that of a folder, a file or a thread, with its exact length.
fn is_catalog_body(body: &[u8]) -> bool
    ensures { result ≡ spec.is_catalog_body body.now }
{
    is_item(body) || is_thread(body)
}

/// Whether a leaf's record has the form of a catalog record.
pub(crate) fn is_catalog_record(bytes: &[u8]) -> bool
    ensures { result ≡ spec.is_catalog_record bytes.now }
{
    match CatKey::read_leaf(bytes) {
        Some((_key, start)) => is_catalog_body(&bytes[start..]),
        None => false,
    }
}

/// Adds a leaf's record, if it has the form of a catalog record.
fn push_found(
    alloc: Global,
    leaf: &LeafRecord,
    records: &mut Vec<FoundRecord>,
) -> Result<(), AllocError>
    ensures { OnOk result (records.new.items ≡ records.old.items ++ spec.found_in leaf.now) }
{
    let bytes = leaf.bytes.as_slice();
    let Some((key, start)) = CatKey::read_leaf(bytes) else {
        return Ok(());
    };
    let body = &bytes[start..];
    if !is_catalog_body(body) {
        return Ok(());
    }
    let entry = CatalogRecord::new(key, OwnedBytes::from_slice(alloc, body)?);
    let old = leaf.old;
    records.push(FoundRecord { old, entry })?;
    Ok(())
}

/// Adds those records of leaves that have the form of a catalog record, in order.
fn push_of_leaves(
    alloc: Global,
    leaves: &[LeafRecord],
    records: &mut Vec<FoundRecord>,
) -> Result<(), AllocError>
    ensures { OnOk result (records.new.items ≡ records.old.items ++ spec.found_in_leaves
        leaves.now) }
{
    for leaf in leaves {
        push_found(alloc, leaf, records)?;
    }
    Ok(())
}

/// Adds a record of a tree, if its body has the form of one.
fn push_entry(entry: CatalogRecord, records: &mut Vec<FoundRecord>) -> Result<(), AllocError>
    ensures { OnOk result (records.new.items ≡ records.old.items ++ spec.found_in_tree entry) }
{
    if is_catalog_body(entry.body()) {
        records.push(FoundRecord { old: false, entry })?;
    }
    Ok(())
}

/// Those records of a tree, in order, whose bodies have the form of one.
fn records_of_tree(
    alloc: Global,
    entries: Vec<CatalogRecord>,
) -> Result<Vec<FoundRecord>, AllocError>
    ensures { IfOk result (λ records. records.items ≡ spec.found_of entries.items) }
{
    let mut records = Vec::new(alloc);
    for entry in entries {
        push_entry(entry, &mut records)?;
    }
    Ok(records)
}

/// Whether the catalog tree, whose file has these extents and these nodes, passes its check. Fails only when out of memory.
#[tactic(auto, unfolding(crate::specs::CatalogRecords::is_catalog_tree_right))]
pub fn is_catalog_tree_right<B: Blocks>(
    alloc: Global,
    nodes: &FileNodes<'_, B>,
    extents: &[Extent],
) -> Result<bool, AllocError>
    ensures { IfOk result (λ right. right ≡ spec.is_catalog_tree_right nodes.now.mdb.now extents.now
        (spec.catalog_nodes (B.blocks nodes.now.blocks.now) nodes.now.mdb.now nodes.now.file.now)) }
{
    let mdb = nodes.mdb;
    let size = mdb.catalog_file_size;
    if !is_tree_file(mdb, extents, size) {
        return Ok(false);
    }
    let first = FirstNodes {
        nodes,
        count: node_count(size),
    };
    match check_shape::<CatKey, FirstNodes<'_, B>>(alloc, &first, size) {
        Ok(()) => Ok(true),
        Err(TreeFault::Memory) => Err(AllocError),
        Err(TreeFault::At(_)) => Ok(false),
    }
}

/// How many nodes of a file exist.
fn nodes_there<B: Blocks>(nodes: &FileNodes<'_, B>) -> u64
    ensures { result ≡ spec.nodes_there nodes.now.mdb.now nodes.now.file.now }
{
    let there = nodes.file.iter().filter(|place| place.is_some()).count() as u64;
    there * u64::from(nodes.mdb.allocation_block_size / 512)
}

/// Whether the nodes of the catalog that exist have fewer bytes than its file should have, or no records.
#[tactic(auto, unfolding(crate::specs::CatalogRecords::is_lacking))]
fn is_lacking<B: Blocks>(nodes: &FileNodes<'_, B>, own: &[FoundRecord]) -> bool
    ensures { result ≡ spec.is_lacking nodes.now.mdb.now nodes.now.file.now own.now }
{
    let wanted = node_count(nodes.mdb.catalog_file_size);
    nodes_there(nodes) < u64::from(wanted) || own.is_empty()
}

/// The records of the file's own leaves, whatever else is wrong with it.
fn own_records<B: Blocks>(
    alloc: Global,
    nodes: &FileNodes<'_, B>,
) -> Result<Vec<FoundRecord>, AllocError>
    ensures { IfOk result (λ records. records.items ≡ spec.own_records
        (B.blocks nodes.now.blocks.now) nodes.now.mdb.now nodes.now.file.now) }
{
    let mut records = Vec::new(alloc);
    let leaves = all_leaf_records(alloc, nodes)?;
    push_of_leaves(alloc, &leaves, &mut records)?;
    Ok(records)
}

/// The records of a catalog that does not pass its check.
#[tactic(auto, unfolding(crate::specs::CatalogRecords::scattered_records))]
fn scattered_records<B: Blocks>(
    alloc: Global,
    nodes: &FileNodes<'_, B>,
) -> Result<Vec<FoundRecord>, AllocError>
    ensures { IfOk result (λ records. records.items ≡ spec.scattered_records
        (B.total nodes.now.blocks.now) (B.blocks nodes.now.blocks.now) nodes.now.mdb.now
        nodes.now.file.now) }
{
    let mut records = own_records(alloc, nodes)?;
    if is_lacking(nodes, &records) {
        let strays = all_stray_records(alloc, nodes)?;
        push_of_leaves(alloc, &strays, &mut records)?;
    }
    Ok(records)
}

/// Whether a catalog, whose file has these extents and these nodes, has its shape, and each of its records is a folder's or a
/// file's with a name, or a thread's without one. Fails only when out of memory.
#[tactic(auto, unfolding(crate::specs::CatalogRecords::is_catalog_right))]
pub fn is_catalog_right<B: Blocks>(
    alloc: Global,
    nodes: &FileNodes<'_, B>,
    extents: &[Extent],
) -> Result<bool, AllocError>
    ensures { IfOk result (λ right. right ≡ spec.is_catalog_right nodes.now.mdb.now extents.now
        (spec.catalog_nodes (B.blocks nodes.now.blocks.now) nodes.now.mdb.now nodes.now.file.now)) }
{
    if is_catalog_tree_right(alloc, nodes, extents)? {
        let count = node_count(nodes.mdb.catalog_file_size);
        let entries = read_records(alloc, &FirstNodes { nodes, count })?;
        Ok(record_fault(&entries).is_none())
    } else {
        Ok(false)
    }
}

/// The records of a catalog whose file has these extents and these nodes. If it passes its check, those of its last level, in
/// order. Otherwise those of all its leaves, first of the leaves that are in use, then of the others, each in the order of their
/// numbers; and if nodes are missing or none of these is a catalog record, also those of other blocks of the image that are
/// leaves with only catalog records. Records without the form of a catalog record are skipped. Fails only when out of memory.
#[tactic(auto, unfolding(crate::specs::CatalogRecords::catalog_records))]
pub fn catalog_records<B: Blocks>(
    alloc: Global,
    nodes: &FileNodes<'_, B>,
    extents: &[Extent],
) -> Result<Vec<FoundRecord>, AllocError>
    ensures { IfOk result (λ records. records.items ≡ spec.catalog_records
        (B.total nodes.now.blocks.now) (B.blocks nodes.now.blocks.now) nodes.now.mdb.now
        extents.now nodes.now.file.now) }
{
    if is_catalog_tree_right(alloc, nodes, extents)? {
        let count = node_count(nodes.mdb.catalog_file_size);
        let entries = read_records(alloc, &FirstNodes { nodes, count })?;
        records_of_tree(alloc, entries)
    } else {
        scattered_records(alloc, nodes)
    }
}

/// Whether `catalog_records` looks at blocks other than those of the file, given its extents and nodes: if the catalog does not
/// pass its check, and nodes are missing or those that exist have no records. Fails only when out of memory.
#[tactic(auto, unfolding(crate::specs::CatalogRecords::looks_elsewhere))]
pub fn looks_elsewhere<B: Blocks>(
    alloc: Global,
    nodes: &FileNodes<'_, B>,
    extents: &[Extent],
) -> Result<bool, AllocError>
    ensures { IfOk result (λ elsewhere. elsewhere ≡ spec.looks_elsewhere
        (B.blocks nodes.now.blocks.now) nodes.now.mdb.now extents.now nodes.now.file.now) }
{
    if is_catalog_tree_right(alloc, nodes, extents)? {
        return Ok(false);
    }
    let own = own_records(alloc, nodes)?;
    Ok(is_lacking(nodes, &own))
}

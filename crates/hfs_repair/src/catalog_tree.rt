//! The catalog tree of a volume, apart from its two counts.

ghost use Rattle.std.specs.Prelude.{◌≡◌, true, None, Option, IfOk};
ghost use Rattle.hfs_btree.specs.Sound.{HasStructure};
ghost use Rattle.hfs_btree_checks.specs.Order.{order_fault};
ghost use Rattle.hfs_space.specs.TreeKeys.{ext_keys};
ghost use Rattle.hfs_catalog.specs.Tree.{cat_keys, catalog_of};
ghost use Rattle.hfs_check.specs.Answers.{listed_fault};
ghost use Rattle.hfs_check.specs.Sound.{IsMdbSound};
ghost use Rattle.hfs_repair.specs.Opened.{is_extents_right, IsRight, AreCountsOf, IsExtentsTree, catalog_extents_in, FindsCatalogFile, IsCatalogAnswer};

use crate::extents_tree::{extents_tree, is_right};
use crate::headed_nodes::HeadedNodes;
use crate::right_counts::RightCounts;
use crate::tree_file::{TreeFile, tree_file};
use hfs_blocks::Blocks;
use hfs_btree::{Nodes, RunNodes};
use hfs_catalog::{CatalogRecord, read_records};
use hfs_check::check_catalog_records;
use hfs_fields::{CatKey, Extent, Mdb};
use hfs_space::{ForkKind, fork_extents};
use std::alloc::{AllocError, Global};

/// The extents of the catalog file, including those in the extents tree.
fn catalog_extents<N: Nodes>(
    alloc: Global,
    mdb: &Mdb,
    nodes: &N,
    counts: &RightCounts,
) -> Result<Vec<Extent>, AllocError>
    requires right { AreCountsOf ext_keys (N.nodes nodes.now) counts.now }
    requires order { order_fault ext_keys (N.nodes nodes.now) ≡ None }
    ensures { IfOk result (λ extents. extents.items
        ≡ catalog_extents_in (N.nodes nodes.now) mdb.now) }
{
    let headed = HeadedNodes {
        nodes,
        head: counts.head,
    };
    fork_extents(alloc, &headed, 4, ForkKind::Data, &mdb.catalog_file)
}

/// The extents of the catalog file, including those in the extents tree, if that tree is right apart from its two counts. None
/// exactly when it isn't. Fails only when out of memory.
pub fn mendable_catalog_file<B: Blocks>(
    alloc: Global,
    blocks: &B,
    mdb: &Mdb,
) -> Result<Option<Vec<Extent>>, AllocError>
    requires { IsMdbSound (B.total blocks.now) mdb.now }
    ensures { IfOk result (FindsCatalogFile (B.blocks blocks.now) mdb.now) }
{
    let Some(extents) = extents_tree(alloc, blocks, mdb)? else {
        return Ok(None);
    };
    let nodes = RunNodes {
        blocks,
        runs: &extents.runs,
    };
    let file = catalog_extents(alloc, mdb, &nodes, &extents.counts)?;
    Ok(Some(file))
}

/// The catalog tree, if its file lies in the volume and it has its shape apart from its two counts. None exactly when it hasn't.
/// Fails only when out of memory.
pub(crate) fn catalog_tree<B: Blocks>(
    alloc: Global,
    blocks: &B,
    mdb: &Mdb,
    extents: &TreeFile,
) -> Result<Option<TreeFile>, AllocError>
    requires sound { IsMdbSound (B.total blocks.now) mdb.now }
    requires right { is_extents_right (B.blocks blocks.now) mdb.now ≡ true }
    requires extents { IsExtentsTree
        (B.total blocks.now) (B.blocks blocks.now) mdb.now extents.now }
    ensures { IfOk result (IsCatalogAnswer (B.total blocks.now) (B.blocks blocks.now) mdb.now) }
{
    let nodes = RunNodes {
        blocks,
        runs: &extents.runs,
    };
    let file = catalog_extents(alloc, mdb, &nodes, &extents.counts)?;
    tree_file::<CatKey, B>(alloc, blocks, mdb, &file, mdb.catalog_file_size)
}

/// The records of a catalog that has its shape apart from its two counts. Fails only when out of memory.
pub(crate) fn catalog_records<N: Nodes>(
    alloc: Global,
    nodes: &N,
    counts: &RightCounts,
) -> Result<Vec<CatalogRecord>, AllocError>
    requires { AreCountsOf cat_keys (N.nodes nodes.now) counts.now }
    ensures { IfOk result (λ records. records.items ≡ catalog_of (N.nodes nodes.now)) }
{
    let headed = HeadedNodes {
        nodes,
        head: counts.head,
    };
    read_records(alloc, &headed)
}

/// Whether the records of a catalog that has its shape apart from its two counts are right: records, IDs, names, and order,
/// parents and threads, on a volume whose next ID is `next`. Fails only when out of memory.
pub(crate) fn are_records_right<N: Nodes>(
    alloc: Global,
    next: u32,
    nodes: &N,
    records: &[CatalogRecord],
) -> Result<bool, AllocError>
    requires { HasStructure cat_keys (N.nodes nodes.now) }
    ensures { IfOk result (IsRight (listed_fault next (N.nodes nodes.now) records.now)) }
{
    is_right(check_catalog_records(alloc, next, nodes, records))
}

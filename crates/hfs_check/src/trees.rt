//! Where the two trees of a volume lie, and whether their files and shapes are right.
ghost use Rattle.std.specs.Prelude.{◌≡◌, true, None, IfOk, OnOk, IfErr};
ghost use Rattle.hfs_space.specs.Faults.{is_tree_file};
ghost use Rattle.hfs_space.specs.TreeKeys.{IsExtentsTree};
ghost use Rattle.hfs_check.specs.Parts.{mdb_in, extents_nodes, catalog_extents};
ghost use Rattle.hfs_check.specs.Sound.{IsMdbSound};
ghost use Rattle.hfs_check.specs.Answers.{Answers, IsFaultOf, extents_check_fault, catalog_check_fault, both_trees_fault};
ghost use Rattle.hfs_check.specs.Trees.{AreCatalogExtents, GivesCatalog, GivesRuns, HasTrees, HoldExtents, LieInExtentsOf, LieInCatalogOf, LieInExtents};

use crate::mount_fault::MountFault;
use crate::tree_checks::{check_catalog_shape, check_extents_tree};
use hfs_blocks::{Blocks, Run};
use hfs_btree::RunNodes;
use hfs_fields::{Extent, Mdb};
use hfs_space::{ForkKind, fork_extents, is_tree_file, tree_runs};
use std::alloc::{AllocError, Global};

/// The runs of the tree file with these extents and this size in bytes. None if the file is wrong.
fn file_runs<B: Blocks>(
    alloc: Global,
    blocks: &B,
    mdb: &Mdb,
    extents: &[Extent],
    size: u32,
) -> Result<Option<Vec<Run>>, AllocError>
    requires { IsMdbSound (B.total blocks.now) mdb.now }
    ensures { GivesRuns (B.total blocks.now) (B.blocks blocks.now) mdb.now extents.now size result }
{
    if is_tree_file(mdb, extents, size) {
        let runs = tree_runs(alloc, blocks, mdb, extents, size)?;
        Ok(Some(runs))
    } else {
        Ok(None)
    }
}

/// Checks the extents tree in these runs.
fn check_extents<B: Blocks>(
    alloc: Global,
    blocks: &B,
    mdb: &Mdb,
    runs: &[Run],
) -> Result<(), MountFault>
    requires sound { IsMdbSound (B.total blocks.now) mdb.now }
    requires file { is_tree_file mdb.now mdb.now.extents_file mdb.now.extents_file_size ≡ true }
    requires runs { LieInExtentsOf (B.total blocks.now) (B.blocks blocks.now) mdb.now runs.now }
    requires is { mdb.now ≡ mdb_in (B.blocks blocks.now) }
    ensures { Answers (extents_check_fault mdb.now (B.blocks blocks.now)) result }
{
    let nodes = RunNodes { blocks, runs };
    check_extents_tree(alloc, &nodes, mdb.extents_file_size)
}

/// Checks the catalog tree in these runs.
fn check_catalog<B: Blocks>(
    alloc: Global,
    blocks: &B,
    mdb: &Mdb,
    extents: &[Extent],
    runs: &[Run],
) -> Result<(), MountFault>
    requires sound { IsMdbSound (B.total blocks.now) mdb.now }
    requires file { is_tree_file mdb.now extents.now mdb.now.catalog_file_size ≡ true }
    requires runs { LieInCatalogOf (B.total blocks.now)
        (B.blocks blocks.now) mdb.now extents.now runs.now }
    requires is { mdb.now ≡ mdb_in (B.blocks blocks.now) }
    requires extents { extents.now ≡ catalog_extents (B.blocks blocks.now) }
    ensures { Answers (catalog_check_fault mdb.now (B.blocks blocks.now)) result }
{
    let nodes = RunNodes { blocks, runs };
    check_catalog_shape(alloc, &nodes, mdb.catalog_file_size)
}

/// The runs of the extents tree, if its file and the tree are right.
#[tactic(auto, using(crate::proofs::Opened::wrong_extents, crate::proofs::Opened::extents_lie))]
fn open_extents<B: Blocks>(alloc: Global, blocks: &B, mdb: &Mdb) -> Result<Vec<Run>, MountFault>
    requires sound { IsMdbSound (B.total blocks.now) mdb.now }
    requires is { mdb.now ≡ mdb_in (B.blocks blocks.now) }
    ensures right { OnOk result (extents_check_fault mdb.now (B.blocks blocks.now) ≡ None) }
    ensures runs { IfOk result (HoldExtents (B.total blocks.now) (B.blocks blocks.now)) }
    ensures wrong { IfErr result (IsFaultOf (extents_check_fault mdb.now (B.blocks blocks.now))) }
{
    match file_runs(alloc, blocks, mdb, &mdb.extents_file, mdb.extents_file_size)? {
        None => Err(MountFault::Check {
            number: 3,
            place: 0,
        }),
        Some(runs) => {
            check_extents(alloc, blocks, mdb, &runs)?;
            Ok(runs)
        }
    }
}

/// The extents of the catalog file, and the runs of its tree.
#[derive(Drop)]
struct CatalogTree {
    extents: Vec<Extent>,
    runs: Vec<Run>,
}

/// The catalog file's extents, including those in the extents tree.
fn catalog_file_extents<B: Blocks>(
    alloc: Global,
    blocks: &B,
    mdb: &Mdb,
    extents_tree: &[Run],
) -> Result<Vec<Extent>, AllocError>
    requires is { mdb.now ≡ mdb_in (B.blocks blocks.now) }
    requires runs { LieInExtents (B.total blocks.now) (B.blocks blocks.now) extents_tree.now }
    requires tree { IsExtentsTree (extents_nodes (B.blocks blocks.now)) }
    ensures { IfOk result (λ extents. extents.items ≡ catalog_extents (B.blocks blocks.now)) }
{
    let nodes = RunNodes {
        blocks,
        runs: extents_tree,
    };
    fork_extents(alloc, &nodes, 4, ForkKind::Data, &mdb.catalog_file)
}

/// The catalog file, if it is right and its tree has its shape.
#[tactic(auto, using(crate::proofs::Opened::wrong_catalog, crate::proofs::Opened::catalog_lies))]
fn open_catalog<B: Blocks>(
    alloc: Global,
    blocks: &B,
    mdb: &Mdb,
    extents_tree: &[Run],
) -> Result<CatalogTree, MountFault>
    requires sound { IsMdbSound (B.total blocks.now) mdb.now }
    requires is { mdb.now ≡ mdb_in (B.blocks blocks.now) }
    requires runs { LieInExtents (B.total blocks.now) (B.blocks blocks.now) extents_tree.now }
    requires tree { IsExtentsTree (extents_nodes (B.blocks blocks.now)) }
    ensures right { OnOk result (catalog_check_fault mdb.now (B.blocks blocks.now) ≡ None) }
    ensures extents { IfOk result (λ file. AreCatalogExtents (B.blocks blocks.now) file.extents) }
    ensures runs { GivesCatalog (B.total blocks.now) (B.blocks blocks.now) (λ f. f.runs) result }
    ensures wrong { IfErr result (IsFaultOf (catalog_check_fault mdb.now (B.blocks blocks.now))) }
{
    let extents = catalog_file_extents(alloc, blocks, mdb, extents_tree)?;
    match file_runs(alloc, blocks, mdb, &extents, mdb.catalog_file_size)? {
        None => Err(MountFault::Check {
            number: 4,
            place: 0,
        }),
        Some(runs) => {
            check_catalog(alloc, blocks, mdb, &extents, &runs)?;
            Ok(CatalogTree { extents, runs })
        }
    }
}

/// Where the two trees of a volume lie, in logical blocks counted from 0.
#[derive(Drop)]
pub struct VolumeTrees {
    /// The runs of the extents tree, in the order of its nodes.
    pub extents: Vec<Run>,
    /// All extents of the catalog file: the three of the master directory block and those in the extents tree.
    pub catalog_file: Vec<Extent>,
    /// The runs of the catalog tree, in the order of its nodes.
    pub catalog: Vec<Run>,
}

/// The trees of a volume, if the extents tree is sound and the catalog tree has its shape.
#[tactic(auto, using(crate::proofs::LawsProved::extents_tree_is_sound, crate::proofs::Opened::trees_extents, crate::proofs::Opened::trees_catalog, crate::proofs::Opened::trees_none))]
pub(crate) fn open_trees<B: Blocks>(
    alloc: Global,
    blocks: &B,
    mdb: &Mdb,
) -> Result<VolumeTrees, MountFault>
    requires sound { IsMdbSound (B.total blocks.now) mdb.now }
    requires is { mdb.now ≡ mdb_in (B.blocks blocks.now) }
    ensures right { OnOk result (both_trees_fault (B.blocks blocks.now) ≡ None) }
    ensures trees { IfOk result (HasTrees (B.total blocks.now) (B.blocks blocks.now)) }
    ensures wrong { IfErr result (IsFaultOf (both_trees_fault (B.blocks blocks.now))) }
{
    let extents = open_extents(alloc, blocks, mdb)?;
    let file = open_catalog(alloc, blocks, mdb, &extents)?;
    let CatalogTree {
        extents: catalog_file,
        runs: catalog,
    } = file;
    Ok(VolumeTrees {
        extents,
        catalog_file,
        catalog,
    })
}

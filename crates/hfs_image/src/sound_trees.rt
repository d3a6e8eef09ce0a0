//! Where both trees of a sound volume lie, by the blocks that were read.
ghost use Rattle.std.specs.Prelude.{◌≡◌, IfOk};
ghost use Rattle.hfs_check.specs.Parts.{catalog_extents, mdb_in};
ghost use Rattle.hfs_check.specs.Sound.{AreBlocksSound};
ghost use Rattle.hfs_check.specs.Trees.{HasTrees, LieInCatalog, LieInExtents};
ghost use Rattle.hfs_source.specs.Sparse.{sparse};

use hfs_blocks::Run;
use hfs_btree::RunNodes;
use hfs_check::VolumeTrees;
use hfs_fields::{Extent, Mdb};
use hfs_source::SparseBlocks;
use hfs_space::{ForkKind, fork_extents, tree_runs};
use std::alloc::{AllocError, Global};

/// The runs of the extents tree.
fn extents_tree(
    alloc: Global,
    read: &SparseBlocks,
    count: u32,
    mdb: &Mdb,
) -> Result<Vec<Run>, AllocError>
    requires sound { AreBlocksSound count (sparse read.now) }
    requires directory { mdb.now ≡ mdb_in (sparse read.now) }
    ensures { IfOk result (λ runs. LieInExtents count (sparse read.now) runs.items) }
{
    let size = mdb.extents_file_size;
    tree_runs(alloc, &read.volume(count), mdb, &mdb.extents_file, size)
}

/// All extents of the catalog file, given the runs of the extents tree.
fn catalog_file(
    alloc: Global,
    read: &SparseBlocks,
    count: u32,
    mdb: &Mdb,
    extents_tree: &[Run],
) -> Result<Vec<Extent>, AllocError>
    requires sound { AreBlocksSound count (sparse read.now) }
    requires directory { mdb.now ≡ mdb_in (sparse read.now) }
    requires runs { LieInExtents count (sparse read.now) extents_tree.now }
    ensures { IfOk result (λ extents. extents.items ≡ catalog_extents (sparse read.now)) }
{
    let nodes = RunNodes {
        blocks: &read.volume(count),
        runs: extents_tree,
    };
    fork_extents(alloc, &nodes, 4, ForkKind::Data, &mdb.catalog_file)
}

/// The runs of the catalog tree, given the extents of its file.
fn catalog_tree(
    alloc: Global,
    read: &SparseBlocks,
    count: u32,
    mdb: &Mdb,
    extents: &[Extent],
) -> Result<Vec<Run>, AllocError>
    requires sound { AreBlocksSound count (sparse read.now) }
    requires directory { mdb.now ≡ mdb_in (sparse read.now) }
    requires extents { extents.now ≡ catalog_extents (sparse read.now) }
    ensures { IfOk result (λ runs. LieInCatalog count (sparse read.now) runs.items) }
{
    let size = mdb.catalog_file_size;
    tree_runs(alloc, &read.volume(count), mdb, extents, size)
}

/// Where both trees of a sound volume lie. The checks find them as well; this makes no checks.
pub(crate) fn sound_trees(
    alloc: Global,
    read: &SparseBlocks,
    count: u32,
    mdb: &Mdb,
) -> Result<VolumeTrees, AllocError>
    requires sound { AreBlocksSound count (sparse read.now) }
    requires directory { mdb.now ≡ mdb_in (sparse read.now) }
    ensures { IfOk result (HasTrees count (sparse read.now)) }
{
    let extents = extents_tree(alloc, read, count, mdb)?;
    let file = catalog_file(alloc, read, count, mdb, &extents)?;
    let catalog = catalog_tree(alloc, read, count, mdb, &file)?;
    Ok(VolumeTrees {
        extents,
        catalog_file: file,
        catalog,
    })
}

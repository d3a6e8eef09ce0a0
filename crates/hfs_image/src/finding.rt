//! Where the needed parts of a volume lie, each found from those before it.
ghost use Rattle.std.specs.Prelude.{◌≡◌, true, false, IfOk};
ghost use Rattle.hfs_check.specs.Parts.{mdb_in};
ghost use Rattle.hfs_check.specs.Sound.{IsMdbSound};
ghost use Rattle.hfs_image.specs.Needed as spec;
ghost use Rattle.hfs_image.specs.Finding.{FindsTreeFile, FindsExtentsFile, FindsCatalogFile, FindsCatalog, LieAtExtents};

use hfs_blocks::{Blocks, Run};
use hfs_btree::RunNodes;
use hfs_check::{MountFault, check_extents_tree};
use hfs_fields::{Extent, Mdb};
use hfs_space::{ForkKind, fork_extents, is_tree_file, tree_runs};
use std::alloc::{AllocError, Global};

/// The runs of the tree file with these extents and this size in bytes. None if the file is wrong.
fn file_runs<B: Blocks>(
    alloc: Global,
    blocks: &B,
    mdb: &Mdb,
    extents: &[Extent],
    size: u32,
) -> Result<Option<Vec<Run>>, AllocError>
    requires { IsMdbSound (B.total blocks.now) mdb.now }
    ensures { IfOk result (FindsTreeFile (B.total blocks.now) mdb.now extents.now size) }
{
    if is_tree_file(mdb, extents, size) {
        let runs = tree_runs(alloc, blocks, mdb, extents, size)?;
        Ok(Some(runs))
    } else {
        Ok(None)
    }
}

/// The runs of the extents tree. None if its file is wrong.
pub(crate) fn extents_runs<B: Blocks>(
    alloc: Global,
    blocks: &B,
    mdb: &Mdb,
) -> Result<Option<Vec<Run>>, AllocError>
    requires sound { IsMdbSound (B.total blocks.now) mdb.now }
    requires is { mdb.now ≡ mdb_in (B.blocks blocks.now) }
    ensures { IfOk result (FindsExtentsFile (B.total blocks.now) (B.blocks blocks.now)) }
{
    file_runs(alloc, blocks, mdb, &mdb.extents_file, mdb.extents_file_size)
}

/// Whether the extents tree in these runs is right.
fn is_extents_tree_right<B: Blocks>(
    alloc: Global,
    blocks: &B,
    mdb: &Mdb,
    extents_tree: &[Run],
) -> Result<bool, AllocError>
    requires sound { IsMdbSound (B.total blocks.now) mdb.now }
    requires is { mdb.now ≡ mdb_in (B.blocks blocks.now) }
    requires file { spec.has_extents_file (B.blocks blocks.now) ≡ true }
    requires runs { LieAtExtents (B.total blocks.now) (B.blocks blocks.now) extents_tree.now }
    ensures { IfOk result (λ right. right ≡ spec.is_extents_tree_right (B.blocks blocks.now)) }
{
    let nodes = RunNodes {
        blocks,
        runs: extents_tree,
    };
    match check_extents_tree(alloc, &nodes, mdb.extents_file_size) {
        Ok(()) => Ok(true),
        Err(MountFault::Memory) => Err(AllocError),
        Err(_) => Ok(false),
    }
}

/// The runs of the catalog tree, given those of an extents tree that is right. None if the catalog file is wrong.
fn right_catalog_runs<B: Blocks>(
    alloc: Global,
    blocks: &B,
    mdb: &Mdb,
    extents_tree: &[Run],
) -> Result<Option<Vec<Run>>, AllocError>
    requires sound { IsMdbSound (B.total blocks.now) mdb.now }
    requires is { mdb.now ≡ mdb_in (B.blocks blocks.now) }
    requires runs { LieAtExtents (B.total blocks.now) (B.blocks blocks.now) extents_tree.now }
    requires right { spec.is_extents_tree_right (B.blocks blocks.now) ≡ true }
    ensures { IfOk result (FindsCatalogFile (B.total blocks.now) (B.blocks blocks.now)) }
{
    let nodes = RunNodes {
        blocks,
        runs: extents_tree,
    };
    let extents = fork_extents(alloc, &nodes, 4, ForkKind::Data, &mdb.catalog_file)?;
    file_runs(alloc, blocks, mdb, &extents, mdb.catalog_file_size)
}

/// The runs of the catalog tree, given those of the extents tree. None if the extents tree or the catalog file is wrong.
pub(crate) fn catalog_runs<B: Blocks>(
    alloc: Global,
    blocks: &B,
    mdb: &Mdb,
    extents_tree: &[Run],
) -> Result<Option<Vec<Run>>, AllocError>
    requires sound { IsMdbSound (B.total blocks.now) mdb.now }
    requires is { mdb.now ≡ mdb_in (B.blocks blocks.now) }
    requires file { spec.has_extents_file (B.blocks blocks.now) ≡ true }
    requires runs { LieAtExtents (B.total blocks.now) (B.blocks blocks.now) extents_tree.now }
    ensures { IfOk result (FindsCatalog (B.total blocks.now) (B.blocks blocks.now)) }
{
    if !is_extents_tree_right(alloc, blocks, mdb, extents_tree)? {
        return Ok(None);
    }
    right_catalog_runs(alloc, blocks, mdb, extents_tree)
}

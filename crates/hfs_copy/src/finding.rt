//! Where the trees lie of a volume in which only counts are wrong.
ghost use Rattle.std.specs.Prelude.{IfOk};
ghost use Rattle.hfs_check.specs.Sound.{IsMdbSound};
ghost use Rattle.hfs_image.specs.Finding.{FindsTreeFile};
ghost use Rattle.hfs_copy.specs.Found.{FindsCatalogRuns};

use hfs_blocks::{Blocks, Run};
use hfs_fields::{Extent, Mdb};
use hfs_repair::mendable_catalog_file;
use hfs_space::{is_tree_file, tree_runs};
use std::alloc::{AllocError, Global};

/// The runs of the tree file with these extents and this size in bytes. None if the file is wrong.
#[tactic(auto, using(hfs_repair::proofs::Openings::extents_within))]
pub(crate) fn file_runs<B: Blocks>(
    alloc: Global,
    blocks: &B,
    mdb: &Mdb,
    extents: &[Extent],
    size: u32,
) -> Result<Option<Vec<Run>>, AllocError>
    requires { IsMdbSound (B.total blocks.now) mdb.now }
    ensures { IfOk result (FindsTreeFile (B.total blocks.now) mdb.now extents.now size) }
{
    if is_tree_file(mdb, extents, size) {
        let runs = tree_runs(alloc, blocks, mdb, extents, size)?;
        Ok(Some(runs))
    } else {
        Ok(None)
    }
}

/// The runs of the catalog tree, after an extents tree that is right apart from its two counts. None if that tree or the catalog
/// file is wrong.
pub(crate) fn catalog_runs<B: Blocks>(
    alloc: Global,
    blocks: &B,
    mdb: &Mdb,
) -> Result<Option<Vec<Run>>, AllocError>
    requires { IsMdbSound (B.total blocks.now) mdb.now }
    ensures { IfOk result (FindsCatalogRuns (B.total blocks.now) (B.blocks blocks.now) mdb.now) }
{
    let Some(file) = mendable_catalog_file(alloc, blocks, mdb)? else {
        return Ok(None);
    };
    file_runs(alloc, blocks, mdb, &file, mdb.catalog_file_size)
}

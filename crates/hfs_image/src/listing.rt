//! Lists of folders, by the needed blocks of an image.
ghost use Rattle.std.specs.Prelude.{◌≡◌, IfOk};
ghost use Rattle.hfs_check.specs.Parts.{catalog_in};
ghost use Rattle.hfs_check.specs.Sound.{AreBlocksSound};
ghost use Rattle.hfs_check.specs.Trees.{HasTrees};
ghost use Rattle.hfs_items.specs.Brief.{listed_in};
ghost use Rattle.hfs_space.specs.Results.{Gives};
ghost use Rattle.hfs_source.specs.Sparse.{sparse};

use crate::opening::NeededVolume;
use hfs_btree::RunNodes;
use hfs_catalog::{CatalogRecord, read_records};
use hfs_check::VolumeTrees;
use hfs_items::{Detail, list};
use hfs_model::Reply;
use hfs_source::SparseBlocks;
use std::alloc::{AllocError, Global};

/// What the children's own records say about all children of a folder, in name order.
pub(crate) fn list_in_brief(
    alloc: Global,
    volume: &NeededVolume,
    dir: u32,
) -> Result<Reply, AllocError>
    requires sound { AreBlocksSound volume.now.count (sparse volume.now.read) }
    requires trees { HasTrees volume.now.count (sparse volume.now.read) volume.now.sound.trees }
    ensures { Gives (listed_in Detail.Brief (catalog_in (sparse volume.now.read)) dir) result }
{
    let nodes = RunNodes {
        blocks: &volume.read.volume(volume.count),
        runs: &volume.sound.trees.catalog,
    };
    list(alloc, &nodes, dir, Detail::Brief)
}

/// All records of the catalog, by the blocks that were read of a volume of `count` blocks.
pub fn catalog_records(
    alloc: Global,
    read: &SparseBlocks,
    count: u32,
    trees: &VolumeTrees,
) -> Result<Vec<CatalogRecord>, AllocError>
    requires sound { AreBlocksSound count (sparse read.now) }
    requires trees { HasTrees count (sparse read.now) trees.now }
    ensures { IfOk result (λ records. records.items ≡ catalog_in (sparse read.now)) }
{
    let nodes = RunNodes {
        blocks: &read.volume(count),
        runs: &trees.catalog,
    };
    read_records(alloc, &nodes)
}

//! What is found of a volume by the directory that was taken.
ghost use Rattle.std.specs.Prelude.{◌≡◌, ◌<◌, ◌≤◌, ◌^◌, length, IfOk};
ghost use Rattle.hfs_remains.specs.OverflowRecords as overflow;
ghost use Rattle.hfs_remains.specs.CatalogRecords as catalog;
ghost use Rattle.hfs_remains.specs.TreeFiles as files;
ghost use Rattle.hfs_remains.specs.Remains as spec;

use crate::catalog::{FoundRecord, catalog_records};
use crate::fork_extents::catalog_extents;
use crate::nodes::FileNodes;
use crate::overflow::{OverflowRecord, overflow_records};
use crate::tree_file::file_blocks;
use hfs_blocks::Blocks;
use hfs_fields::{Extent, Mdb};
use std::alloc::{AllocError, Global};

/// What is found of a volume.
#[derive(Drop)]
pub struct Remains {
    /// The allocation blocks of the extents file, in order, with None in place of each that is missing.
    pub extents_file: Vec<Option<u16>>,
    /// The records of the extents tree.
    pub overflow: Vec<OverflowRecord>,
    /// The allocation blocks of the catalog file, in order, with None in place of each that is missing.
    pub catalog_file: Vec<Option<u16>>,
    /// The records of the catalog.
    pub found: Vec<FoundRecord>,
}

/// The records of the extents tree whose file has these blocks.
fn overflow_of<B: Blocks>(
    alloc: Global,
    blocks: &B,
    mdb: &Mdb,
    file: &[Option<u16>],
) -> Result<Vec<OverflowRecord>, AllocError>
    requires size { 512 ≤ mdb.now.allocation_block_size }
    requires there { files.AreThere (B.total blocks.now) mdb.now file.now }
    requires few { length file.now < 2 ^ 40 }
    ensures { IfOk result (λ records. records.items ≡ overflow.overflow_records (B.blocks
        blocks.now) mdb.now file.now) }
{
    let nodes = FileNodes { blocks, mdb, file };
    overflow_records(alloc, &nodes)
}

/// The records of the catalog whose file has these extents and these blocks.
fn found_of<B: Blocks>(
    alloc: Global,
    blocks: &B,
    mdb: &Mdb,
    extents: &[Extent],
    file: &[Option<u16>],
) -> Result<Vec<FoundRecord>, AllocError>
    requires size { 512 ≤ mdb.now.allocation_block_size }
    requires there { files.AreThere (B.total blocks.now) mdb.now file.now }
    requires few { length file.now < 2 ^ 40 }
    ensures { IfOk result (λ records. records.items ≡ catalog.catalog_records (B.total blocks.now)
        (B.blocks blocks.now) mdb.now extents.now file.now) }
{
    let nodes = FileNodes { blocks, mdb, file };
    catalog_records(alloc, &nodes, extents)
}

/// What is found of a volume by this directory: the blocks of the extents file that exist, the records of its tree, by these the
/// blocks of the catalog file, and the records of the catalog. Fails only when out of memory.
pub fn find_remains<B: Blocks>(alloc: Global, blocks: &B, mdb: &Mdb) -> Result<Remains, AllocError>
    requires { 512 ≤ mdb.now.allocation_block_size }
    ensures remains { IfOk result (spec.AreRemains (B.total blocks.now) (B.blocks blocks.now)
        mdb.now) }
    ensures extents_there { IfOk result (λ remains. files.AreThere (B.total blocks.now) mdb.now
        remains.extents_file.items) }
    ensures catalog_there { IfOk result (λ remains. files.AreThere (B.total blocks.now) mdb.now
        remains.catalog_file.items) }
    ensures few { IfOk result (λ remains. length remains.catalog_file.items < 2 ^ 40) }
{
    let total = blocks.count();
    let extents_file = file_blocks(alloc, total, mdb, &mdb.extents_file)?;
    let overflow = overflow_of(alloc, blocks, mdb, &extents_file)?;
    let extents = catalog_extents(alloc, &overflow, mdb)?;
    let catalog_file = file_blocks(alloc, total, mdb, &extents)?;
    let found = found_of(alloc, blocks, mdb, &extents, &catalog_file)?;
    Ok(Remains {
        extents_file,
        overflow,
        catalog_file,
        found,
    })
}

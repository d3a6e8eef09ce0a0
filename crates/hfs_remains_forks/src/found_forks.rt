//! The forks of what is found of an image.
ghost use Rattle.std.specs.Prelude.{◌≡◌, IfOk};
ghost use Rattle.hfs_remains_forks.specs.Images.{IsSalvageOf};

use crate::finds::Finds;
use crate::{Salvage, Trees};
use std::alloc::{AllocError, Global};

/// The forks of the items that are found; at most `limit` bytes are taken of all of them. Fails only when out of memory.
pub fn salvage_of(alloc: Global, finds: &Finds, limit: u64) -> Result<Salvage<'_>, AllocError>
    ensures { IfOk result (IsSalvageOf finds.now limit) }
{
    let trees = Trees {
        total: finds.total,
        mdb: &finds.mdb,
        overflow: &finds.overflow,
        extents_file: &finds.extents_file,
        catalog_file: &finds.catalog_file,
    };
    let salvage = Salvage::of(alloc, trees, &finds.items, limit)?;
    Ok(salvage)
}

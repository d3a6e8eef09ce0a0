//! Reading the blocks that decide an image's counts and its first fault, with changed blocks laid over it.
ghost use Rattle.std.specs.Prelude.{◌≡◌, ◌≤◌, IsSome, OnOk};
ghost use Rattle.hfs_blocks.specs.Layers.{changes};
ghost use Rattle.hfs_check.specs.Agree.{bitmap_blocks};
ghost use Rattle.hfs_check.specs.Parts.{mdb_in, extents_blocks};
ghost use Rattle.hfs_check.specs.Sound.{IsMdbSound};
ghost use Rattle.hfs_image.specs.Gathered.{HasRead};
ghost use Rattle.hfs_source.specs.Seen.{SeesMore};
ghost use Rattle.hfs_source.specs.Sparse.{HasEach};
ghost use Rattle.hfs_copy.specs.Mended.{laid_over_read, DecidesFor};

use crate::finding::{catalog_runs, file_runs};
use hfs_blocks::Patch;
use hfs_check::{mdb_fault, read_mdb};
use hfs_fields::Mdb;
use hfs_source::{BlockSource, SparseBlocks, SparseFault, fetch, fetch_range, fetch_runs};
use std::alloc::Global;

/// Reads the nodes of the catalog, after those of the extents tree, which says where the catalog continues.
#[tactic(auto, using(hfs_source::proofs::Seen::sees_itself))]
fn gather_catalog<S: BlockSource>(
    alloc: Global,
    source: &mut S,
    read: &mut SparseBlocks,
    patch: &Patch,
    count: u32,
    mdb: &Mdb,
) -> Result<(), SparseFault>
    requires sound { IsMdbSound count mdb.now }
    requires is { mdb.now ≡ mdb_in (laid_over_read patch.now read.old) }
    requires has_mdb { IsSome (changes read.old 2) }
    requires has_bitmap { HasEach read.old (bitmap_blocks mdb.now) }
    requires has_extents { HasEach read.old (extents_blocks (laid_over_read patch.now read.old)) }
    ensures decides { OnOk result (DecidesFor count patch.now read.new) }
    ensures reads { HasRead (S.image source.old) count read.old read.new }
    ensures image { S.image source.new ≡ S.image source.old }
    ensures sees { SeesMore (S.Holds source.old) (S.Holds source.new) read.old read.new }
{
    let Ok(found) = catalog_runs(alloc, &patch.over(&read.volume(count)), mdb) else {
        return Err(SparseFault::Memory);
    };
    let Some(runs) = found else {
        return Ok(());
    };
    fetch_runs(source, read, &runs)?;
    Ok(())
}

/// Reads the nodes of both trees, after the master directory block and the bitmap.
#[tactic(auto, using(hfs_source::proofs::Seen::sees_itself))]
fn gather_trees<S: BlockSource>(
    alloc: Global,
    source: &mut S,
    read: &mut SparseBlocks,
    patch: &Patch,
    count: u32,
    mdb: &Mdb,
) -> Result<(), SparseFault>
    requires sound { IsMdbSound count mdb.now }
    requires is { mdb.now ≡ mdb_in (laid_over_read patch.now read.old) }
    requires has_mdb { IsSome (changes read.old 2) }
    requires has_bitmap { HasEach read.old (bitmap_blocks mdb.now) }
    ensures decides { OnOk result (DecidesFor count patch.now read.new) }
    ensures reads { HasRead (S.image source.old) count read.old read.new }
    ensures image { S.image source.new ≡ S.image source.old }
    ensures sees { SeesMore (S.Holds source.old) (S.Holds source.new) read.old read.new }
{
    let size = mdb.extents_file_size;
    let volume = read.volume(count);
    let Ok(found) = file_runs(alloc, &patch.over(&volume), mdb, &mdb.extents_file, size) else {
        return Err(SparseFault::Memory);
    };
    let Some(runs) = found else {
        return Ok(());
    };
    fetch_runs(source, read, &runs)?;
    gather_catalog(alloc, source, read, patch, count, mdb)?;
    Ok(())
}

/// Reads the bitmap and the nodes of both trees, after a master directory block that is right was read.
fn gather_rest<S: BlockSource>(
    alloc: Global,
    source: &mut S,
    read: &mut SparseBlocks,
    patch: &Patch,
    count: u32,
    mdb: &Mdb,
) -> Result<(), SparseFault>
    requires sound { IsMdbSound count mdb.now }
    requires is { mdb.now ≡ mdb_in (laid_over_read patch.now read.old) }
    requires has_mdb { IsSome (changes read.old 2) }
    ensures decides { OnOk result (DecidesFor count patch.now read.new) }
    ensures reads { HasRead (S.image source.old) count read.old read.new }
    ensures image { S.image source.new ≡ S.image source.old }
    ensures sees { SeesMore (S.Holds source.old) (S.Holds source.new) read.old read.new }
{
    let first = u32::from(mdb.bitmap_start);
    let blocks = u32::from(mdb.allocation_blocks).div_ceil(4_096);
    fetch_range(source, read, first, blocks)?;
    gather_trees(alloc, source, read, patch, count, mdb)?;
    Ok(())
}

/// Reads the blocks that decide which counts are wrong in an image of `count` blocks with these changed ones, and its first
/// fault, each unless it was read before: the master directory block, the bitmap, and all nodes of both trees, even free ones.
/// Nothing is read after a part that is wrong. Errors: a read failed, memory was refused.
#[tactic(auto, using(hfs_check::proofs::LawsProved::mdb_is_sound))]
pub(crate) fn gather_mending<S: BlockSource>(
    alloc: Global,
    source: &mut S,
    read: &mut SparseBlocks,
    patch: &Patch,
    count: u32,
) -> Result<(), SparseFault>
    requires some { 3 ≤ count }
    ensures decides { OnOk result (DecidesFor count patch.now read.new) }
    ensures reads { HasRead (S.image source.old) count read.old read.new }
    ensures image { S.image source.new ≡ S.image source.old }
    ensures sees { SeesMore (S.Holds source.old) (S.Holds source.new) read.old read.new }
{
    fetch(source, read, 2)?;
    let mdb = read_mdb(&patch.over(&read.volume(count)));
    if mdb_fault(&mdb, count).is_some() {
        return Ok(());
    }
    gather_rest(alloc, source, read, patch, count, &mdb)?;
    Ok(())
}

//! Reading the blocks of an image that its checks need.
ghost use Rattle.std.specs.Prelude.{◌≡◌, ◌≤◌, true, None, IsSome, OnOk, IfOk};
ghost use Rattle.hfs_blocks.specs.Layers.{changes, AreWithin};
ghost use Rattle.hfs_check.specs.Faults as faults;
ghost use Rattle.hfs_check.specs.Parts.{mdb_in, extents_blocks};
ghost use Rattle.hfs_check.specs.Sound.{IsMdbSound};
ghost use Rattle.hfs_source.specs.Images.{OfEach};
ghost use Rattle.hfs_source.specs.Seen.{IsSeen, SeesMore};
ghost use Rattle.hfs_source.specs.Sparse.{sparse, HasEach};
ghost use Rattle.hfs_image.specs.Gathered.{LieAt, HasRead, HasNeeded, IsOfKnown};
ghost use Rattle.hfs_image.specs.Needed.{has_extents_file, needed_of_extents, needed_of_catalog, needed_of_trees};

use crate::finding::{catalog_runs, extents_runs};
use crate::tree_nodes::gather_tree;
use hfs_blocks::Run;
use hfs_check::{mdb_fault, read_mdb};
use hfs_fields::{CatKey, ExtKey, Mdb};
use hfs_source::{BlockSource, SparseBlocks, SparseFault, fetch, fetch_range};
use std::alloc::Global;

/// Reads what is needed of the catalog, after what is needed of the extents tree in these runs was read.
#[tactic(auto, using(hfs_source::proofs::Seen::sees_itself))]
fn gather_catalog<S: BlockSource>(
    alloc: Global,
    source: &mut S,
    read: &mut SparseBlocks,
    count: u32,
    mdb: &Mdb,
    extents_tree: &[Run],
) -> Result<(), SparseFault>
    requires sound { IsMdbSound count mdb.now }
    requires is { mdb.now ≡ mdb_in (sparse read.old) }
    requires file { has_extents_file (sparse read.old) ≡ true }
    requires runs { LieAt count (extents_blocks (sparse read.old)) extents_tree.now }
    requires has_mdb { IsSome (changes read.old 2) }
    requires has_extents { HasEach read.old (needed_of_extents (sparse read.old)) }
    ensures has { OnOk result (HasEach read.new (needed_of_catalog (sparse read.new))) }
    ensures reads { HasRead (S.image source.old) count read.old read.new }
    ensures image { S.image source.new ≡ S.image source.old }
    ensures sees { SeesMore (S.Holds source.old) (S.Holds source.new) read.old read.new }
{
    let Ok(found) = catalog_runs(alloc, &read.volume(count), mdb, extents_tree) else {
        return Err(SparseFault::Memory);
    };
    let Some(runs) = found else {
        return Ok(());
    };
    gather_tree::<CatKey, S>(alloc, source, read, &runs, mdb.catalog_file_size)?;
    Ok(())
}

/// Reads what is needed of both trees, after the master directory block was read.
#[tactic(auto, using(hfs_source::proofs::Seen::sees_itself))]
fn gather_trees<S: BlockSource>(
    alloc: Global,
    source: &mut S,
    read: &mut SparseBlocks,
    count: u32,
    mdb: &Mdb,
) -> Result<(), SparseFault>
    requires sound { IsMdbSound count mdb.now }
    requires is { mdb.now ≡ mdb_in (sparse read.old) }
    requires has_mdb { IsSome (changes read.old 2) }
    ensures has { OnOk result (HasEach read.new (needed_of_trees (sparse read.new))) }
    ensures reads { HasRead (S.image source.old) count read.old read.new }
    ensures image { S.image source.new ≡ S.image source.old }
    ensures sees { SeesMore (S.Holds source.old) (S.Holds source.new) read.old read.new }
{
    let Ok(found) = extents_runs(alloc, &read.volume(count), mdb) else {
        return Err(SparseFault::Memory);
    };
    let Some(runs) = found else {
        return Ok(());
    };
    gather_tree::<ExtKey, S>(alloc, source, read, &runs, mdb.extents_file_size)?;
    gather_catalog(alloc, source, read, count, mdb, &runs)?;
    Ok(())
}

/// Reads what else is needed, after a master directory block that is right was read.
fn gather_rest<S: BlockSource>(
    alloc: Global,
    source: &mut S,
    read: &mut SparseBlocks,
    count: u32,
    mdb: &Mdb,
) -> Result<(), SparseFault>
    requires some { 3 ≤ count }
    requires sound { IsMdbSound count mdb.now }
    requires is { mdb.now ≡ mdb_in (sparse read.old) }
    requires has_mdb { IsSome (changes read.old 2) }
    ensures has { OnOk result (HasNeeded count read.new) }
    ensures reads { HasRead (S.image source.old) count read.old read.new }
    ensures image { S.image source.new ≡ S.image source.old }
    ensures sees { SeesMore (S.Holds source.old) (S.Holds source.new) read.old read.new }
{
    fetch(source, read, count - 2)?;
    let first = u32::from(mdb.bitmap_start);
    let blocks = u32::from(mdb.allocation_blocks).div_ceil(4_096);
    fetch_range(source, read, first, blocks)?;
    gather_trees(alloc, source, read, count, mdb)?;
    Ok(())
}

/// The blocks that the checks and the report on an image of `count` blocks need, found from what was read before: the master
/// directory block, its copy, the bitmap, and of both trees the header node, the map nodes and the nodes that the map marks.
/// Nothing is read after a part that is wrong, and no block is read twice.
///
/// Errors: a read failed, memory was refused.
#[tactic(auto, using(hfs_check::proofs::LawsProved::mdb_is_sound))]
pub fn gather_needed<S: BlockSource>(
    alloc: Global,
    source: &mut S,
    count: u32,
) -> Result<SparseBlocks, SparseFault>
    requires { 3 ≤ count }
    ensures needed { IfOk result (λ read. HasNeeded count read) }
    ensures told { IfOk result (λ read. IsOfKnown (S.image source.old) read) }
    ensures within { IfOk result (λ read. AreWithin (changes read) count) }
    ensures image { S.image source.new ≡ S.image source.old }
    ensures seen { IfOk result (λ read. IsSeen (S.Holds source.new) read) }
    ensures narrows { OfEach (S.Holds source.new) (S.Holds source.old) }
{
    let mut read = SparseBlocks::new(alloc);
    fetch(source, &mut read, 2)?;
    let mdb = read_mdb(&read.volume(count));
    if mdb_fault(&mdb, count).is_some() {
        return Ok(read);
    }
    gather_rest(alloc, source, &mut read, count, &mdb)?;
    Ok(read)
}

//! All checks of a volume, in order.
ghost use Rattle.std.specs.Prelude.{◌≡◌, ◌≤◌, ◌<◌, None, OnOk, IfOk, IfErr, length};
ghost use Rattle.hfs_btree.specs.Sound.{HasStructure, HasCounts};
ghost use Rattle.hfs_catalog.specs.Tree.{cat_keys};
ghost use Rattle.hfs_blocks.specs.Blocks.{block_at};
ghost use Rattle.hfs_space.specs.TreeKeys.{IsExtentsTree};
ghost use Rattle.hfs_check.specs.Answers.{Answers, IsFaultOf, both_trees_fault, behind_trees_fault, GivesOwnedIn, AnswersContents, AreAllOwned, IsFaultIn};
ghost use Rattle.hfs_check.specs.Faults.{blocks_fault, fault_of};
ghost use Rattle.hfs_check.specs.Parts.{mdb_in};
ghost use Rattle.hfs_check.specs.Sound.{IsMdbSound, AreBlocksSound, IsSound, HasBitmap};
ghost use Rattle.hfs_check.specs.Trees.{GivesTrees, HasCheckedTrees, HasTrees, HasTreesOf};

use crate::mdb_check::{mdb_fault, read_mdb};
use crate::mount_fault::MountFault;
use crate::number_checks::check_numbers;
use crate::record_checks::check_catalog_records;
use crate::trees::{VolumeTrees, open_trees};
use hfs_blocks::{Blocks, ImageBytes};
use hfs_btree::{Nodes, RunNodes};
use hfs_catalog::read_records;
use hfs_fields::{Extent, Mdb};
use std::alloc::Global;

/// The checks on what the two trees hold: of the catalog's records, of the counts, and of the space. Ok gives all extents that
/// have an owner.
fn check_contents<B: Blocks, E: Nodes, C: Nodes>(
    alloc: Global,
    blocks: &B,
    mdb: &Mdb,
    extents: &E,
    catalog: &C,
) -> Result<Vec<Extent>, MountFault>
    requires bitmap { HasBitmap mdb.now (B.total blocks.now) }
    requires extents { IsExtentsTree (E.nodes extents.now) }
    requires structure { HasStructure cat_keys (C.nodes catalog.now) }
    requires counts { HasCounts cat_keys (C.nodes catalog.now) }
    ensures fault { AnswersContents (B.blocks blocks.now) mdb.now (E.nodes extents.now)
        (C.nodes catalog.now) result }
    ensures owned { GivesOwnedIn mdb.now (E.nodes extents.now) (C.nodes catalog.now) result }
{
    let records = read_records(alloc, catalog)?;
    check_catalog_records(alloc, mdb.next_id, catalog, &records)?;
    check_numbers(alloc, blocks, mdb, extents, &records)
}

/// The checks after those of the two trees, which lie in these runs. Ok gives all extents that have an owner.
fn check_behind_trees<B: Blocks>(
    alloc: Global,
    blocks: &B,
    mdb: &Mdb,
    trees: &VolumeTrees,
) -> Result<Vec<Extent>, MountFault>
    requires sound { IsMdbSound (B.total blocks.now) mdb.now }
    requires is { mdb.now ≡ mdb_in (B.blocks blocks.now) }
    requires trees { HasTrees (B.total blocks.now) (B.blocks blocks.now) trees.now }
    requires right { both_trees_fault (B.blocks blocks.now) ≡ None }
    ensures fault { Answers (behind_trees_fault (B.blocks blocks.now)) result }
    ensures owned { IfOk result (λ owned. AreAllOwned (B.blocks blocks.now) owned.items) }
{
    let extents = RunNodes {
        blocks,
        runs: &trees.extents,
    };
    let catalog = RunNodes {
        blocks,
        runs: &trees.catalog,
    };
    check_contents(alloc, blocks, mdb, &extents, &catalog)
}

/// What mounting finds out about a sound volume.
#[derive(Drop)]
pub struct SoundVolume {
    /// The master directory block.
    pub mdb: Mdb,
    /// Where the two trees lie.
    pub trees: VolumeTrees,
}

/// What the checks of a sound volume read, so that it needn't be read again for anything else.
#[derive(Drop)]
pub(crate) struct CheckedVolume {
    /// What mounting keeps of it.
    pub(crate) volume: SoundVolume,
    /// All extents that have an owner.
    pub(crate) owned: Vec<Extent>,
}

/// Makes all checks of a volume except that of its length, in order, and returns what they read.
#[tactic(auto, using(crate::proofs::LawsProved::mdb_is_sound, crate::proofs::Opened::all_right))]
pub(crate) fn checked_blocks<B: Blocks>(
    alloc: Global,
    blocks: &B,
) -> Result<CheckedVolume, MountFault>
    requires { 3 ≤ B.total blocks.now }
    ensures right { OnOk result (blocks_fault (B.total blocks.now) (B.blocks blocks.now) ≡ None) }
    ensures sound { OnOk result (AreBlocksSound (B.total blocks.now) (B.blocks blocks.now)) }
    ensures mdb { IfOk result (λ checked. checked.volume.mdb ≡ mdb_in (B.blocks blocks.now)) }
    ensures trees { IfOk result (HasCheckedTrees (B.total blocks.now) (B.blocks blocks.now)) }
    ensures owned { IfOk result (λ checked. AreAllOwned (B.blocks blocks.now) checked.owned.items) }
    ensures wrong { IfErr result (IsFaultIn (B.total blocks.now) (B.blocks blocks.now)) }
{
    let mdb = read_mdb(blocks);
    if let Some(fault) = mdb_fault(&mdb, blocks.count()) {
        return Err(fault);
    }
    let trees = open_trees(alloc, blocks, &mdb)?;
    let owned = check_behind_trees(alloc, blocks, &mdb, &trees)?;
    Ok(CheckedVolume {
        volume: SoundVolume { mdb, trees },
        owned,
    })
}

/// Makes all checks of an image, in order, and returns what they read.
#[tactic(auto, using(crate::proofs::Opened::image_large, crate::proofs::Opened::image_short, crate::proofs::Opened::image_wrong, crate::proofs::Opened::image_right))]
pub(crate) fn checked_image(alloc: Global, image: &[u8]) -> Result<CheckedVolume, MountFault>
    ensures right { OnOk result (fault_of image.now ≡ None) }
    ensures sound { OnOk result (IsSound image.now) }
    ensures mdb { IfOk result (λ checked. checked.volume.mdb ≡ mdb_in (block_at image.now)) }
    ensures trees { IfOk result (λ checked. HasTreesOf image.now checked.volume.trees) }
    ensures owned { IfOk result (λ checked. AreAllOwned (block_at image.now) checked.owned.items) }
    ensures wrong { IfErr result (IsFaultOf (fault_of image.now)) }
{
    if image.len() > 2_147_483_648 {
        return Err(MountFault::TooLarge);
    }
    if image.len() < 1_536 {
        return Err(MountFault::Short);
    }
    let blocks = ImageBytes { bytes: image };
    checked_blocks(alloc, &blocks)
}

/// Makes all checks of a volume except that of its length, in order.
///
/// The extents tree and the catalog tree are read a fixed number of times. Errors: the first check that fails, as `MountFault`
/// says, and `MountFault::Memory` if memory was refused.
///
/// Source: Inside Macintosh: Files, chapter 2, 'Data Organization on Volumes'; docs/CHECKS.md has the checks.
pub fn check_blocks<B: Blocks>(alloc: Global, blocks: &B) -> Result<SoundVolume, MountFault>
    requires { 3 ≤ B.total blocks.now }
    ensures right { OnOk result (blocks_fault (B.total blocks.now) (B.blocks blocks.now) ≡ None) }
    ensures sound { OnOk result (AreBlocksSound (B.total blocks.now) (B.blocks blocks.now)) }
    ensures mdb { IfOk result (λ volume. volume.mdb ≡ mdb_in (B.blocks blocks.now)) }
    ensures trees { GivesTrees (B.total blocks.now) (B.blocks blocks.now) (λ v. v.trees) result }
    ensures wrong { IfErr result (IsFaultIn (B.total blocks.now) (B.blocks blocks.now)) }
{
    let CheckedVolume { volume, .. } = checked_blocks(alloc, blocks)?;
    Ok(volume)
}

/// Makes all checks of an image, in order. What follows its last whole block isn't checked.
///
/// Errors: the first check that fails, as `MountFault` says, and `MountFault::Memory` if memory was refused.
///
/// Source: Inside Macintosh: Files, chapter 2, 'Data Organization on Volumes'; docs/CHECKS.md has the checks.
pub fn check_image(alloc: Global, image: &[u8]) -> Result<SoundVolume, MountFault>
    ensures right { OnOk result (fault_of image.now ≡ None) }
    ensures sound { OnOk result (IsSound image.now) }
    ensures mdb { IfOk result (λ volume. volume.mdb ≡ mdb_in (block_at image.now)) }
    ensures trees { IfOk result (λ volume. HasTreesOf image.now volume.trees) }
    ensures wrong { IfErr result (IsFaultOf (fault_of image.now)) }
{
    let CheckedVolume { volume, .. } = checked_image(alloc, image)?;
    Ok(volume)
}

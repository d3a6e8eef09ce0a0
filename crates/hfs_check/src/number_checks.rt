//! The checks of the counts and of the space, each with the result that mounting gives.
ghost use Rattle.std.specs.Prelude.{◌≡◌};
ghost use Rattle.hfs_space.specs.Faults as space_spec;
ghost use Rattle.hfs_space.specs.Runs.{files_in};
ghost use Rattle.hfs_space.specs.TreeKeys.{IsExtentsTree, overflow_of};
ghost use Rattle.hfs_check.specs.Answers.{GivesAllOwned, AnswersForks, AnswersSpace, AnswersNumbers};
ghost use Rattle.hfs_check.specs.Sound.{HasBitmap};

use crate::catalog_files::catalog_files;
use crate::mount_fault::MountFault;
use crate::record_checks::{answer_at, check_counts, check_valences};
use hfs_blocks::Blocks;
use hfs_btree::Nodes;
use hfs_catalog::CatalogRecord;
use hfs_fields::{Extent, Mdb};
use hfs_space::{CatalogFile, fork_fault, owned_extents, space_fault};
use std::alloc::Global;

/// The check of extents; `files` are the files of the records.
fn check_forks<N: Nodes>(
    alloc: Global,
    mdb: &Mdb,
    tree: &N,
    files: &[CatalogFile],
    records: &[CatalogRecord],
) -> Result<(), MountFault>
    requires tree { IsExtentsTree (N.nodes tree.now) }
    requires files { files.now ≡ files_in 0 records.now }
    ensures { AnswersForks mdb.now (N.nodes tree.now) records.now result }
{
    let place = fork_fault(alloc, mdb, tree, files, records.len())?;
    answer_at(11, place)
}

/// The check of space; `owned` are all extents that have an owner.
fn check_space<B: Blocks>(
    alloc: Global,
    blocks: &B,
    mdb: &Mdb,
    owned: &[Extent],
) -> Result<(), MountFault>
    requires { HasBitmap mdb.now (B.total blocks.now) }
    ensures { AnswersSpace (B.blocks blocks.now) mdb.now owned.now result }
{
    match space_fault(alloc, blocks, mdb, owned)? {
        None => Ok(()),
        Some(block) => Err(MountFault::Check {
            number: 12,
            place: u64::from(block),
        }),
    }
}

/// The checks of valences, counts, extents and space, in this order. Ok gives all extents that have an owner.
#[tactic(auto, unfolding(hfs_space::specs::Owners::owned_blocks))]
pub(crate) fn check_numbers<B: Blocks, N: Nodes>(
    alloc: Global,
    blocks: &B,
    mdb: &Mdb,
    tree: &N,
    records: &[CatalogRecord],
) -> Result<Vec<Extent>, MountFault>
    requires bitmap { HasBitmap mdb.now (B.total blocks.now) }
    requires tree { IsExtentsTree (N.nodes tree.now) }
    ensures fault { AnswersNumbers (B.blocks blocks.now) mdb.now
        (N.nodes tree.now) records.now result }
    ensures owned { GivesAllOwned mdb.now (overflow_of (N.nodes tree.now)) records.now result }
{
    check_valences(alloc, records)?;
    check_counts(mdb, records)?;
    let files = catalog_files(alloc, records)?;
    check_forks(alloc, mdb, tree, &files, records)?;
    let owned = owned_extents(alloc, mdb, tree, &files)?;
    check_space(alloc, blocks, mdb, &owned)?;
    Ok(owned)
}

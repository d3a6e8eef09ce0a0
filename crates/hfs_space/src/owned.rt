//! All extents that have an owner.
ghost use Rattle.std.specs.Prelude.{◌≡◌, ◌++◌, OnOk};
ghost use Rattle.std.specs.List.{flat_map};
ghost use Rattle.hfs_fields.specs.declared.key.CatKey.{CatKey};
ghost use Rattle.hfs_fields.specs.Keys.{ext_cmp};
ghost use Rattle.hfs_btree.specs.Pairs.{Pairs, Rises};
ghost use Rattle.hfs_space.specs.Extents.{fork_byte};
ghost use Rattle.hfs_space.specs.Owners as spec;
ghost use Rattle.hfs_space.specs.Runs as runs;
ghost use Rattle.hfs_space.specs.TreeKeys.{IsExtentsTree, overflow_of};

use crate::files::CatalogFile;
use crate::fork_kind::ForkKind;
use crate::overflow::{BAD_BLOCKS, CATALOG_FILE, OverflowRecord, overflow_records, push_record};
use crate::runs::push_fork;
use hfs_btree::Nodes;
use hfs_fields::{Extent, FileRecord, Mdb};
use std::alloc::{AllocError, Global};

/// Adds the extents of a file's forks.
#[tactic(auto, unfolding(crate::specs::Owners::forks_of_file))]
fn push_file(
    overflow: &[OverflowRecord],
    file: &FileRecord,
    owned: &mut Vec<Extent>,
) -> Result<(), AllocError>
    requires { Rises ext_cmp overflow.now }
    ensures { OnOk result (runs.AddsExtentsOfFile overflow.now file.now owned.old owned.new) }
{
    push_fork(overflow, file.id, ForkKind::Data, &file.data.extents, owned)?;
    push_fork(
        overflow,
        file.id,
        ForkKind::Resource,
        &file.resource.extents,
        owned,
    )
}

/// Adds the extents of the files' forks.
fn push_files(
    overflow: &[OverflowRecord],
    files: &[CatalogFile],
    owned: &mut Vec<Extent>,
) -> Result<(), AllocError>
    requires { Rises ext_cmp overflow.now }
    ensures { OnOk result (runs.AddsExtentsOfFiles overflow.now files.now owned.old owned.new) }
{
    for file in files {
        push_file(overflow, &file.file, owned)?;
    }
    Ok(())
}

/// Adds the extents of the bad blocks.
fn push_bad(overflow: &[OverflowRecord], owned: &mut Vec<Extent>) -> Result<(), AllocError>
    ensures { OnOk result (owned.new.items ≡ owned.old.items ++ spec.bad_extents overflow.now) }
{
    for r in overflow {
        if r.key().file == BAD_BLOCKS {
            push_record(r, owned)?;
        }
    }
    Ok(())
}

/// All extents that have an owner; `tree` is a volume's extents tree, and `files` are the files of its catalog. They are those of
/// the catalog file and of the files' forks, including their overflow records', those of the extents file, and those of the bad
/// blocks (file 5). Reads each leaf of the tree once. Fails only when out of memory.
///
/// Source: Inside Macintosh: Files, chapter 2, 'Extents overflow file'.
#[tactic(auto, unfolding(crate::specs::Owners::owned_extents))]
pub fn owned_extents<N: Nodes>(
    alloc: Global,
    mdb: &Mdb,
    tree: &N,
    files: &[CatalogFile],
) -> Result<Vec<Extent>, AllocError>
    requires { IsExtentsTree (N.nodes tree.now) }
    ensures { runs.GivesOwned mdb.now (N.nodes tree.now) files.now result }
{
    let overflow = overflow_records(alloc, tree)?;
    let mut owned = Vec::new(alloc);
    push_fork(
        &overflow,
        CATALOG_FILE,
        ForkKind::Data,
        &mdb.catalog_file,
        &mut owned,
    )?;
    push_files(&overflow, files, &mut owned)?;
    owned.extend_from_slice(&mdb.extents_file)?;
    push_bad(&overflow, &mut owned)?;
    Ok(owned)
}

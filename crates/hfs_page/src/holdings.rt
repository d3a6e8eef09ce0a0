//! Who owns which extents.
ghost use Rattle.std.specs.Prelude.{◌≡◌, ◌∷◌, ◌++◌, ◌+◌, ◌≤◌, IfOk, OnOk, drop, length};
ghost use Rattle.std.specs.List.{flat_map};
ghost use Rattle.hfs_space.specs.Owners.{bad_extents, catalog_fork, extents_in};
ghost use Rattle.hfs_space.specs.Runs.{files_in};
ghost use Rattle.hfs_space.specs.TreeKeys.{IsExtentsTree, overflow_of};
ghost use Rattle.hfs_page.specs.Holdings.{all_held, AddsHoldings, file_holdings, fork_holdings, held_from, volume_holdings, part_behind, record_holdings};

use crate::parts::{BlockUse, FileFork, Holding, Part};
use hfs_btree::Nodes;
use hfs_catalog::CatalogRecord;
use hfs_fields::{Extent, Mdb};
use hfs_space::{CatalogFile, ForkKind, fork_extents, owned_extents};
use std::alloc::{AllocError, Global};

/// Adds extents that no file owns.
pub fn push_held(
    holdings: &mut Vec<Holding>,
    part: Part,
    extents: &[Extent],
) -> Result<(), AllocError>
    ensures { OnOk result (AddsHoldings holdings.old holdings.new (all_held part extents.now)) }
{
    for extent in extents {
        holdings.push(Holding {
            extent: *extent,
            used: BlockUse { part, fork: None },
        })?;
    }
    Ok(())
}

/// Adds the extents of a fork: up to the first that has a block, and after it.
pub fn push_fork_held(
    holdings: &mut Vec<Holding>,
    fork: FileFork,
    extents: &[Extent],
) -> Result<(), AllocError>
    ensures { OnOk result (AddsHoldings holdings.old holdings.new
        (held_from Part.FirstExtents fork extents.now)) }
{
    let mut part = Part::FirstExtents;
    for extent in extents {
        holdings.push(Holding {
            extent: *extent,
            used: BlockUse {
                part,
                fork: Some(fork),
            },
        })?;
        part = part_behind(part, extent.count);
    }
    Ok(())
}

/// The part of the extents after one with this many blocks.
fn part_behind(part: Part, count: u16) -> Part
    ensures { result ≡ part_behind part count }
{
    if count == 0 { part } else { Part::LaterExtents }
}

/// Adds the extents of a fork of a file, including those in the extents tree.
fn push_fork<N: Nodes>(
    alloc: Global,
    tree: &N,
    holdings: &mut Vec<Holding>,
    fork: FileFork,
    first: &[Extent; 3],
) -> Result<(), AllocError>
    requires { IsExtentsTree (N.nodes tree.now) }
    ensures { OnOk result (AddsHoldings holdings.old holdings.new
        (fork_holdings (overflow_of (N.nodes tree.now)) fork first.now)) }
{
    let extents = fork_extents(alloc, tree, fork.file, fork.kind, first)?;
    push_fork_held(holdings, fork, &extents)
}

/// Adds the extents of both forks of a file.
fn push_file<N: Nodes>(
    alloc: Global,
    tree: &N,
    holdings: &mut Vec<Holding>,
    file: &CatalogFile,
) -> Result<(), AllocError>
    requires { IsExtentsTree (N.nodes tree.now) }
    ensures { OnOk result (AddsHoldings holdings.old holdings.new
        (file_holdings (overflow_of (N.nodes tree.now)) file.now)) }
{
    let data = FileFork {
        number: file.number,
        file: file.file.id,
        kind: ForkKind::Data,
    };
    let resource = FileFork {
        number: file.number,
        file: file.file.id,
        kind: ForkKind::Resource,
    };
    let CatalogFile { file, .. } = file;
    push_fork(alloc, tree, holdings, data, &file.data.extents)?;
    push_fork(alloc, tree, holdings, resource, &file.resource.extents)
}

/// Adds the extents of a record's forks, if it is a file's.
fn push_record<N: Nodes>(
    alloc: Global,
    tree: &N,
    holdings: &mut Vec<Holding>,
    number: usize,
    body: &[u8],
) -> Result<(), AllocError>
    requires { IsExtentsTree (N.nodes tree.now) }
    ensures { OnOk result (AddsHoldings holdings.old holdings.new
        (record_holdings (overflow_of (N.nodes tree.now)) number body.now)) }
{
    match CatalogFile::read(number, body) {
        Some(file) => push_file(alloc, tree, holdings, &file),
        None => Ok(()),
    }
}

/// Adds the extents of all files.
fn push_files<N: Nodes>(
    alloc: Global,
    tree: &N,
    holdings: &mut Vec<Holding>,
    records: &[CatalogRecord],
) -> Result<(), AllocError>
    requires { IsExtentsTree (N.nodes tree.now) }
    ensures { OnOk result (AddsHoldings holdings.old holdings.new
        (flat_map (file_holdings (overflow_of (N.nodes tree.now))) (files_in 0 records.now))) }
{
    for i in 0..records.len() {
        push_record(alloc, tree, holdings, i, records[i].body())?;
    }
    Ok(())
}

/// The extents after as many as these two rows have.
fn behind<'a>(all: &'a [Extent], first: &[Extent], second: &[Extent]) -> &'a [Extent]
    requires { length first.now + length second.now ≤ length all.now }
    ensures { result.now ≡ drop (length first.now + length second.now) all.now }
{
    &all[first.len() + second.len()..]
}

/// Adds the extents of the bad blocks. They are the last of all that a volume without files owns, after those of the catalog file
/// and the three of the extents file.

fn push_bad<N: Nodes>(
    alloc: Global,
    mdb: &Mdb,
    tree: &N,
    catalog: &[Extent],
    holdings: &mut Vec<Holding>,
) -> Result<(), AllocError>
    requires tree { IsExtentsTree (N.nodes tree.now) }
    requires catalog { catalog.now ≡ extents_in (overflow_of (N.nodes tree.now)) (catalog_fork mdb.now) }
    ensures { OnOk result (AddsHoldings holdings.old holdings.new
        (all_held Part.BadBlocks (bad_extents (overflow_of (N.nodes tree.now))))) }
{
    let owned = owned_extents(alloc, mdb, tree, &[])?;
    let bad = behind(&owned, catalog, &mdb.extents_file);
    push_held(holdings, Part::BadBlocks, bad)
}

/// All extents of a volume with what their blocks are used for; `tree` is its extents tree, `catalog` has the extents of its
/// catalog file, and `records` are all records of the catalog. Fails only when out of memory.
#[tactic(auto, unfolding(crate::specs::Holdings::volume_holdings))]
pub fn volume_holdings<N: Nodes>(
    alloc: Global,
    mdb: &Mdb,
    tree: &N,
    catalog: &[Extent],
    records: &[CatalogRecord],
) -> Result<Vec<Holding>, AllocError>
    requires tree { IsExtentsTree (N.nodes tree.now) }
    requires catalog { catalog.now ≡ extents_in (overflow_of (N.nodes tree.now)) (catalog_fork mdb.now) }
    ensures { IfOk result (λ held. held.items ≡
        volume_holdings mdb.now (overflow_of (N.nodes tree.now)) records.now) }
{
    let mut holdings = Vec::new(alloc);
    push_bad(alloc, mdb, tree, catalog, &mut holdings)?;
    push_held(&mut holdings, Part::ExtentsTree, &mdb.extents_file)?;
    push_held(&mut holdings, Part::Catalog, catalog)?;
    push_files(alloc, tree, &mut holdings, records)?;
    Ok(holdings)
}

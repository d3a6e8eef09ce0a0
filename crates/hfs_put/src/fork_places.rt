//! Where the forks of the files of a list lie in the image of a mounted volume.
ghost use Rattle.std.specs.Prelude.{◌≡◌, ◌<◌, ◌^◌, ◌++◌, IfOk, OnOk};
ghost use Rattle.std.specs.BTreeMap as tree;
ghost use Rattle.std.specs.List.{flat_map};
ghost use Rattle.std.specs.Ordering.{nat_cmp};
ghost use Rattle.hfs_blocks.specs.Blocks.{block_at};
ghost use Rattle.hfs_check.specs.Parts.{catalog_in};
ghost use Rattle.hfs_check.specs.Sound.{IsSound};
ghost use Rattle.hfs_fields.specs.Members.{In};
ghost use Rattle.hfs_space.specs.Extents.{block_total};
ghost use Rattle.hfs_volume.specs.Sharing.{file_extents};
ghost use Rattle.hfs_put.specs.ForkRuns.{AreForkRuns, ArePlacesInOrder, AreRunsApart, file_runs, fork_runs_of, record_runs};

use crate::extent_runs::push_extents;
use crate::file_places::file_places;
use hfs_catalog::{CatalogRecord, ItemRecord, item_of};
use hfs_fields::FileRecord;
use hfs_model::Fork;
use hfs_put_plan::PutItem;
use hfs_put_sources::ForkRun;
use hfs_volume::Volume;
use std::alloc::{AllocError, Global};
use std::collections::BTreeMap;

/// Appends where a fork of the file at a place of the list lies.
fn push_fork(
    alloc: Global,
    runs: &mut Vec<ForkRun>,
    volume: &Volume,
    item: usize,
    fork: Fork,
    file: &FileRecord,
) -> Result<(), AllocError>
    requires { block_total (file_extents (block_at volume.now.current) fork file.now) < 2 ^ 32 }
    ensures { OnOk result (runs.new.items
        ≡ runs.old.items ++ fork_runs_of (block_at volume.now.current) item fork file.now) }
{
    let extents = volume.file_extents(alloc, file, fork)?;
    push_extents(runs, &volume.directory(), item, fork, &extents)
}

/// Appends where the forks of a record's file lie, if it is a file of the list.
fn push_record(
    alloc: Global,
    runs: &mut Vec<ForkRun>,
    volume: &Volume,
    places: &BTreeMap<u32, usize>,
    entry: &CatalogRecord,
) -> Result<(), AllocError>
    requires sound { IsSound volume.now.current }
    requires there { In entry.now (catalog_in (block_at volume.now.current)) }
    ensures { OnOk result (runs.new.items ≡ runs.old.items
        ++ record_runs (block_at volume.now.current) (tree.get nat_cmp places.now) entry.now) }
{
    let Some(item) = item_of(*entry.key(), entry.body()) else {
        return Ok(());
    };
    let ItemRecord::File(file) = item.body else {
        return Ok(());
    };
    let Some(place) = places.get(&file.id).copied() else {
        return Ok(());
    };
    push_fork(alloc, runs, volume, place, Fork::DataFork, &file)?;
    push_fork(alloc, runs, volume, place, Fork::ResFork, &file)
}

/// Where the forks lie of those files of the list that are among the records of a volume, in the order of the records.
fn runs_among(
    alloc: Global,
    volume: &Volume,
    places: &BTreeMap<u32, usize>,
    records: &[CatalogRecord],
) -> Result<Vec<ForkRun>, AllocError>
    requires sound { IsSound volume.now.current }
    requires records { records.now ≡ catalog_in (block_at volume.now.current) }
    ensures { IfOk result (λ runs. runs.items
        ≡ flat_map (record_runs (block_at volume.now.current) (tree.get nat_cmp places.now)) records.now) }
{
    let mut runs = Vec::new(alloc);
    for entry in records {
        push_record(alloc, &mut runs, volume, places, entry)?;
    }
    Ok(runs)
}

/// Puts runs in the order of their places.
fn sort_runs(runs: &mut Vec<ForkRun>)
    ensures { ArePlacesInOrder runs.old.items runs.new.items }
{
    runs.sort_unstable_by_key(|run| run.place);
}

/// Where both forks of each file of a list lie in the image of a volume, given the IDs that laying the list returned: a run for
/// each extent that has blocks, in the order of their places. A run has all bytes of its blocks, even those past the fork's end.
/// The catalog is read once. Fails only when out of memory.
pub fn fork_runs(
    alloc: Global,
    volume: &Volume,
    items: &[PutItem],
    ids: &[u32],
) -> Result<Vec<ForkRun>, AllocError>
    ensures { IfOk result (λ runs.
        AreForkRuns (block_at volume.now.current) items.now ids.now runs.items) }
{
    volume.agrees_with_base();
    let places = file_places(alloc, items, ids)?;
    let records = volume.records(alloc)?;
    let mut runs = runs_among(alloc, volume, &places, &records)?;
    sort_runs(&mut runs);
    Ok(runs)
}

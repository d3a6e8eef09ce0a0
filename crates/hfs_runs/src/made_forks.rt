//! Where the forks lie that a script may have written, after a run.
ghost use Rattle.std.specs.Prelude.{◌≡◌, true, false, [], IfOk, IfNone, IfSome, OnOk};
ghost use Rattle.hfs_blocks.specs.Blocks.{block_at, block_count};
ghost use Rattle.hfs_fields.specs.Members.{In};
ghost use Rattle.hfs_space.specs.Extents.{AreExtentsWithin};
ghost use Rattle.hfs_space.specs.Forks.{HasArea};
ghost use Rattle.hfs_check.specs.Parts.{mdb_in, catalog_in};
ghost use Rattle.hfs_check.specs.Sound.{IsSound};
ghost use Rattle.hfs_image.specs.Forks.{AreForksIn};
ghost use Rattle.hfs_volume.specs.Sharing.{file_extents};
ghost use Rattle.hfs_copy.specs.Keeping.{GainsExtents, GainsRuns};
ghost use Rattle.hfs_runs.specs.NamedForks.{AreForksOf, GainsForksOf, IsScriptFile, file_blocks};

use crate::extents::push_extents;
use crate::made_files::ScriptFiles;
use hfs_blocks::Run;
use hfs_catalog::{CatalogRecord, ItemRecord, item_of};
use hfs_fields::FileRecord;
use hfs_model::Fork;
use hfs_volume::Volume;
use std::alloc::{AllocError, Global};

/// Whether the file with that ID is one of these, or was made since.
fn is_script_file(files: &ScriptFiles, id: u32) -> bool
    ensures same { result ≡ true → IsScriptFile files.now id }
    ensures others { result ≡ false → IsScriptFile files.now id → ⊥ }
{
    id >= files.next || files.ids.contains_key(&id)
}

/// Appends where a fork of a file lies.
fn push_fork(
    alloc: Global,
    runs: &mut Vec<Run>,
    volume: &Volume,
    file: &FileRecord,
    fork: Fork,
) -> Result<(), AllocError>
    requires area { HasArea (mdb_in (block_at volume.now.current)) 4294967295 }
    requires extents { AreExtentsWithin (mdb_in (block_at volume.now.current)).allocation_blocks
        (file_extents (block_at volume.now.current) fork file.now) }
    ensures { OnOk result (GainsExtents (mdb_in (block_at volume.now.current))
        (file_extents (block_at volume.now.current) fork file.now)
        runs.old.items runs.new.items) }
{
    let extents = volume.file_extents(alloc, file, fork)?;
    push_extents(runs, &volume.directory(), &extents)
}

/// Appends where both forks of a file lie.
fn push_forks(
    alloc: Global,
    runs: &mut Vec<Run>,
    volume: &Volume,
    file: &FileRecord,
) -> Result<(), AllocError>
    requires sound { IsSound volume.now.current }
    requires forks { AreForksIn (block_at volume.now.current) file.now }
    ensures { OnOk result (GainsRuns (file_blocks (block_at volume.now.current) file.now)
        (block_count volume.now.current) runs.old.items runs.new.items) }
{
    push_fork(alloc, runs, volume, file, Fork::DataFork)?;
    push_fork(alloc, runs, volume, file, Fork::ResFork)
}

/// Appends where both forks of a record's file lie, if it is one of these.
fn push_record(
    alloc: Global,
    runs: &mut Vec<Run>,
    volume: &Volume,
    files: &ScriptFiles,
    entry: &CatalogRecord,
) -> Result<(), AllocError>
    requires sound { IsSound volume.now.current }
    requires there { In entry.now (catalog_in (block_at volume.now.current)) }
    ensures { OnOk result (GainsForksOf (block_at volume.now.current) (IsScriptFile files.now)
        (block_count volume.now.current) entry.now runs.old.items runs.new.items) }
{
    let Some(item) = item_of(*entry.key(), entry.body()) else {
        return Ok(());
    };
    let ItemRecord::File(file) = item.body else {
        return Ok(());
    };
    if !is_script_file(files, file.id) {
        return Ok(());
    }
    push_forks(alloc, runs, volume, &file)
}

/// Where the forks lie of those of these files that are among the records of a volume.
fn forks_among(
    alloc: Global,
    volume: &Volume,
    files: &ScriptFiles,
    records: &[CatalogRecord],
) -> Result<Vec<Run>, AllocError>
    requires sound { IsSound volume.now.current }
    requires records { records.now ≡ catalog_in (block_at volume.now.current) }
    ensures { IfOk result (λ runs. AreForksOf (block_at volume.now.current)
        (IsScriptFile files.now) (block_count volume.now.current) records.now runs.items) }
{
    let mut runs = Vec::new(alloc);
    for entry in records {
        push_record(alloc, &mut runs, volume, files, entry)?;
    }
    Ok(runs)
}

/// Where the forks of these files lie in a volume as it is now.
fn forks_of(alloc: Global, volume: &Volume, files: &ScriptFiles) -> Result<Vec<Run>, AllocError>
    ensures { IfOk result (λ runs. AreForksOf (block_at volume.now.current)
        (IsScriptFile files.now) (block_count volume.now.current)
        (catalog_in (block_at volume.now.current)) runs.items) }
{
    volume.agrees_with_base();
    let records = volume.records(alloc)?;
    forks_among(alloc, volume, files, &records)
}

/// Where the forks of these files lie in a volume as it is now, if there are such files. Fails only when out of memory.
pub(crate) fn made_forks(
    alloc: Global,
    volume: &Volume,
    files: &Option<ScriptFiles>,
) -> Result<Vec<Run>, AllocError>
    ensures forks { IfOk result (λ runs. IfSome files.now (λ f. AreForksOf
        (block_at volume.now.current) (IsScriptFile f) (block_count volume.now.current)
        (catalog_in (block_at volume.now.current)) runs.items)) }
    ensures none { IfOk result (λ runs. IfNone files.now (runs.items ≡ [])) }
{
    match files {
        Some(files) => forks_of(alloc, volume, files),
        None => Ok(Vec::new(alloc)),
    }
}

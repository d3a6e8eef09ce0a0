//! The forks of the files that a script names, read before it runs.
ghost use Rattle.std.specs.Prelude.{◌≡◌, ℕ, ◌/◌, ◌++◌, ◌∷◌, [], true, None, IfOk, OnOk};
ghost use Rattle.hfs_check.specs.Parts.{mdb_in, catalog_in};
ghost use Rattle.hfs_check.specs.Sound.{AreBlocksSound};
ghost use Rattle.hfs_check.specs.Trees.{HasTrees};
ghost use Rattle.hfs_image.specs.Forks.{AreForksIn, IsForkIn};
ghost use Rattle.hfs_items.specs.Told as told;
ghost use Rattle.hfs_source.specs.Seen.{SeesMore};
ghost use Rattle.hfs_source.specs.Sparse.{sparse, HasEach, HasGrown, StaysOf};
ghost use Rattle.hfs_copy.specs.Opened.{IsWorkingOf};
ghost use Rattle.hfs_runs.specs.NamedForks.{AreAmong, GainForks, HaveMet, HaveNamedForks, HasNamedForks, IsFileOf, OfNamed, blocks_of_runs, file_blocks, fork_blocks};
ghost use Rattle.hfs_copy.specs.Keeping.{GainsRuns, LieIn};
ghost use Rattle.hfs_runs.specs.Naming.{read_forks};
ghost use Rattle.hfs_blocks.specs.Layers.{KeepsWithin};

use crate::extents::push_extents;
use crate::naming::{named_by, read_forks};
use hfs_blocks::Run;
use hfs_btree::RunNodes;
use hfs_copy::WorkingVolume;
use hfs_fields::{FileRecord, ForkRecord};
use hfs_items::file_named;
use hfs_model::{Call, Reply};
use hfs_scripts::{Script, ScriptLine};
use hfs_source::{BlockSource, SparseBlocks, SparseFault, fetch_range};
use hfs_space::{ForkKind, fork_extents};
use indexmap::IndexMap;
use std::alloc::{AllocError, Global};

/// Appends where a fork of a file lies, found in the blocks that were read.
fn push_fork(
    alloc: Global,
    runs: &mut Vec<Run>,
    working: &WorkingVolume,
    file: u32,
    kind: ForkKind,
    fork: &ForkRecord,
) -> Result<(), AllocError>
    requires sound { AreBlocksSound working.now.count (sparse working.now.read) }
    requires directory { working.now.sound.mdb ≡ mdb_in (sparse working.now.read) }
    requires trees { HasTrees working.now.count (sparse working.now.read) working.now.sound.trees }
    requires fork { IsForkIn (sparse working.now.read) file kind fork.now }
    ensures { OnOk result (GainsRuns (fork_blocks (sparse working.now.read) file kind fork.now)
        working.now.count runs.old.items runs.new.items) }
{
    let count = working.count;
    let blocks = working.read.volume(count);
    let nodes = RunNodes {
        blocks: &blocks,
        runs: &working.sound.trees.extents,
    };
    let extents = fork_extents(alloc, &nodes, file, kind, &fork.extents)?;
    push_extents(runs, &working.sound.mdb, &extents)
}

/// Appends where both forks of a file lie.
#[tactic(auto, using(hfs_image::proofs::Named::data_sound, hfs_image::proofs::Named::resource_sound))]
fn push_file(
    alloc: Global,
    runs: &mut Vec<Run>,
    working: &WorkingVolume,
    file: &FileRecord,
) -> Result<(), AllocError>
    requires sound { AreBlocksSound working.now.count (sparse working.now.read) }
    requires directory { working.now.sound.mdb ≡ mdb_in (sparse working.now.read) }
    requires trees { HasTrees working.now.count (sparse working.now.read) working.now.sound.trees }
    requires forks { AreForksIn (sparse working.now.read) file.now }
    ensures within { OnOk result (LieIn working.now.count runs.old.items
        → LieIn working.now.count runs.new.items) }
    ensures gained { OnOk result (GainForks runs.old.items runs.new.items) }
    ensures forks { OnOk result
        (AreAmong (file_blocks (sparse working.now.read) file.now)
        (blocks_of_runs runs.new.items)) }
{
    let id = file.id;
    push_fork(alloc, runs, working, id, ForkKind::Data, &file.data)?;
    push_fork(alloc, runs, working, id, ForkKind::Resource, &file.resource)
}

/// The record of the folder's file of that name, or the reply that refuses it.
fn find_file(working: &WorkingVolume, dir: u32, name: &[u8]) -> Result<FileRecord, Reply>
    requires sound { AreBlocksSound working.now.count (sparse working.now.read) }
    requires trees { HasTrees working.now.count (sparse working.now.read) working.now.sound.trees }
    ensures found { result ≡ told.file_named (catalog_in (sparse working.now.read)) dir name.now }
    ensures file { IfOk result (IsFileOf (catalog_in (sparse working.now.read))) }
    ensures forks { IfOk result (λ file. AreForksIn (sparse working.now.read) file) }
{
    let count = working.count;
    let nodes = RunNodes {
        blocks: &working.read.volume(count),
        runs: &working.sound.trees.catalog,
    };
    file_named(&nodes, dir, name)
}

/// Appends where both forks of a file lie, unless its ID was met before.
fn push_once(
    alloc: Global,
    runs: &mut Vec<Run>,
    ids: &mut IndexMap<u32, ()>,
    working: &WorkingVolume,
    file: &FileRecord,
) -> Result<(), AllocError>
    requires sound { AreBlocksSound working.now.count (sparse working.now.read) }
    requires directory { working.now.sound.mdb ≡ mdb_in (sparse working.now.read) }
    requires trees { HasTrees working.now.count (sparse working.now.read) working.now.sound.trees }
    requires file { IsFileOf (catalog_in (sparse working.now.read)) file.now }
    requires forks { AreForksIn (sparse working.now.read) file.now }
    requires met { HaveMet (sparse working.now.read) ids.old.entries runs.old.items }
    ensures within { OnOk result (LieIn working.now.count runs.old.items
        → LieIn working.now.count runs.new.items) }
    ensures gained { OnOk result (GainForks runs.old.items runs.new.items) }
    ensures forks { OnOk result
        (AreAmong (file_blocks (sparse working.now.read) file.now)
        (blocks_of_runs runs.new.items)) }
    ensures met { OnOk result (HaveMet (sparse working.now.read) ids.new.entries runs.new.items) }
{
    if ids.contains_key(&file.id) {
        return Ok(());
    }
    push_file(alloc, runs, working, file)?;
    ids.insert(file.id, ())?;
    Ok(())
}

/// Appends where both forks lie of the file that a call names, if it names one.
fn push_named(
    alloc: Global,
    runs: &mut Vec<Run>,
    ids: &mut IndexMap<u32, ()>,
    working: &WorkingVolume,
    call: &Call,
) -> Result<(), AllocError>
    requires sound { AreBlocksSound working.now.count (sparse working.now.read) }
    requires directory { working.now.sound.mdb ≡ mdb_in (sparse working.now.read) }
    requires trees { HasTrees working.now.count (sparse working.now.read) working.now.sound.trees }
    requires met { HaveMet (sparse working.now.read) ids.old.entries runs.old.items }
    ensures within { OnOk result (LieIn working.now.count runs.old.items
        → LieIn working.now.count runs.new.items) }
    ensures gained { OnOk result (GainForks runs.old.items runs.new.items) }
    ensures forks { OnOk result (OfNamed (catalog_in (sparse working.now.read)) (λ file.
        AreAmong (file_blocks (sparse working.now.read) file)
        (blocks_of_runs runs.new.items)) call.now) }
    ensures met { OnOk result (HaveMet (sparse working.now.read) ids.new.entries runs.new.items) }
{
    let Some((dir, name)) = named_by(call) else {
        return Ok(());
    };
    match find_file(working, dir, name) {
        Ok(file) => push_once(alloc, runs, ids, working, &file),
        Err(_reply) => Ok(()),
    }
}

/// Where the forks lie of the files that these lines name, once for each file.
fn named_forks(
    alloc: Global,
    working: &WorkingVolume,
    lines: &[ScriptLine],
) -> Result<Vec<Run>, AllocError>
    requires sound { AreBlocksSound working.now.count (sparse working.now.read) }
    requires directory { working.now.sound.mdb ≡ mdb_in (sparse working.now.read) }
    requires trees { HasTrees working.now.count (sparse working.now.read) working.now.sound.trees }
    ensures within { IfOk result (λ runs. LieIn working.now.count runs.items) }
    ensures forks { IfOk result (λ runs.
        HaveNamedForks (sparse working.now.read) lines.now (blocks_of_runs runs.items)) }
{
    let mut runs = Vec::new(alloc);
    let mut ids = IndexMap::new(alloc);
    for line in lines {
        push_named(alloc, &mut runs, &mut ids, working, &line.call)?;
    }
    Ok(runs)
}

/// Reads the blocks of these runs, each unless it was read before.
#[tactic(auto, using(hfs_source::proofs::Seen::sees_itself))]
fn fetch_forks<S: BlockSource>(
    source: &mut S,
    read: &mut SparseBlocks,
    count: u32,
    runs: &[Run],
) -> Result<(), SparseFault>
    requires { LieIn count runs.now }
    ensures has { OnOk result (HasEach read.new (blocks_of_runs runs.now)) }
    ensures grown { HasGrown read.old read.new }
    ensures stays { StaysOf (S.image source.old) read.old read.new }
    ensures within { KeepsWithin read.old read.new count }
    ensures image { S.image source.new ≡ S.image source.old }
    ensures sees { SeesMore (S.Holds source.old) (S.Holds source.new) read.old read.new }
{
    for run in runs {
        fetch_range(source, read, run.first, run.count)?;
    }
    Ok(())
}

/// Reads both forks of each file that a line of a script names by its folder and name, in whatever call, if any line of the
/// script reads or writes a fork; a fork's blocks past its end are read as well. So a read of a fork finds its bytes, and a block
/// that is written in part has its other bytes, even if the file was renamed or moved by then. At an error some of these blocks
/// may have been read. Errors: a read failed, memory was refused.
#[tactic(auto, using(hfs_source::proofs::Seen::sees_itself))]
pub fn fetch_named_forks<S: BlockSource>(
    alloc: Global,
    source: &mut S,
    working: &mut WorkingVolume,
    script: &Script,
) -> Result<(), SparseFault>
    requires { IsWorkingOf None working.old.count working.old }
    ensures working { (known : _) (total : ℕ) → known ≡ S.image source.old
        → IsWorkingOf known total working.old → IsWorkingOf known total working.new }
    ensures mountable { IsWorkingOf None working.old.count working.new }
    ensures forks { OnOk result (read_forks script.now ≡ true
        → HasNamedForks (sparse working.new.read) script.now working.new.read) }
    ensures image { S.image source.new ≡ S.image source.old }
    ensures sees { SeesMore (S.Holds source.old) (S.Holds source.new) working.old.read
        working.new.read }
{
    let lines = script.lines();
    if !read_forks(lines) {
        return Ok(());
    }
    let Ok(runs) = named_forks(alloc, working, lines) else {
        return Err(SparseFault::Memory);
    };
    fetch_forks(source, &mut working.read, working.count, &runs)
}

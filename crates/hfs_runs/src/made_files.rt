//! The files that the lines of a script name, or that its calls make.
ghost use Rattle.std.specs.Prelude.{◌≡◌, false, None, IfOk, MatchOption, OnOk};
ghost use Rattle.hfs_check.specs.Parts.{mdb_in, catalog_in};
ghost use Rattle.hfs_check.specs.Sound.{AreBlocksSound};
ghost use Rattle.hfs_check.specs.Trees.{HasTrees};
ghost use Rattle.hfs_source.specs.Sparse.{sparse};
ghost use Rattle.hfs_copy.specs.Opened.{IsWorkingOf};
ghost use Rattle.hfs_runs.specs.NamedForks.{AreIdsOf, AreScriptFiles, GainsIdOf, id_named, id_told};
ghost use Rattle.hfs_runs.specs.Naming.{read_forks};

use crate::naming::{named_by, read_forks};
use hfs_btree::RunNodes;
use hfs_check::SoundVolume;
use hfs_copy::WorkingVolume;
use hfs_items::get_cat_info;
use hfs_model::{Call, Reply, Value};
use hfs_scripts::ScriptLine;
use hfs_source::SparseBlocks;
use indexmap::IndexMap;
use std::alloc::{AllocError, Global};

/// The files whose forks a run of a script may read or write.
#[derive(Drop)]
pub(crate) struct ScriptFiles {
    /// The IDs of the items that its lines name.
    pub(crate) ids: IndexMap<u32, ()>,
    /// The ID from which on items are made.
    pub(crate) next: u32,
}

/// The ID of the item that a reply describes.
fn id_told(reply: &Reply) -> Option<u32>
    ensures { result ≡ id_told reply.now.value }
{
    match &reply.value {
        Value::One(info) => Some(info.id),
        Value::Nothing | Value::Id(_) | Value::Many(_) | Value::Bytes(_) => None,
        Value::Full { .. } | Value::Room { .. } | Value::ExtentNodes { .. } => None,
        Value::Place { .. } => None,
    }
}

/// The ID of the folder's item of that name.
fn find_id(
    read: &SparseBlocks,
    count: u32,
    sound: &SoundVolume,
    dir: u32,
    name: &[u8],
) -> Option<u32>
    requires sound { AreBlocksSound count (sparse read.now) }
    requires trees { HasTrees count (sparse read.now) sound.now.trees }
    ensures { result ≡ id_named (catalog_in (sparse read.now)) dir name.now }
{
    let nodes = RunNodes {
        blocks: &read.volume(count),
        runs: &sound.trees.catalog,
    };
    id_told(&get_cat_info(&nodes, dir, name))
}

/// Enters the ID of the item that a call names, if it names one.
fn push_id(
    ids: &mut IndexMap<u32, ()>,
    read: &SparseBlocks,
    count: u32,
    sound: &SoundVolume,
    call: &Call,
) -> Result<(), AllocError>
    requires sound { AreBlocksSound count (sparse read.now) }
    requires trees { HasTrees count (sparse read.now) sound.now.trees }
    ensures { OnOk result (GainsIdOf (catalog_in (sparse read.now)) call.now
        ids.old.entries ids.new.entries) }
{
    let Some((dir, name)) = named_by(call) else {
        return Ok(());
    };
    let Some(id) = find_id(read, count, sound, dir, name) else {
        return Ok(());
    };
    ids.insert(id, ())?;
    Ok(())
}

/// The IDs of the items that these lines name.
fn named_ids(
    alloc: Global,
    read: &SparseBlocks,
    count: u32,
    sound: &SoundVolume,
    lines: &[ScriptLine],
) -> Result<IndexMap<u32, ()>, AllocError>
    requires sound { AreBlocksSound count (sparse read.now) }
    requires trees { HasTrees count (sparse read.now) sound.now.trees }
    ensures { IfOk result (λ ids.
        AreIdsOf (catalog_in (sparse read.now)) ids.entries lines.now) }
{
    let mut ids = IndexMap::new(alloc);
    for line in lines {
        push_id(&mut ids, read, count, sound, &line.call)?;
    }
    Ok(ids)
}

/// The files that these lines name in a volume, and those that will be made in it; None if no line reads or writes a fork. Fails
/// only when out of memory.
pub(crate) fn script_files(
    alloc: Global,
    working: &WorkingVolume,
    lines: &[ScriptLine],
) -> Result<Option<ScriptFiles>, AllocError>
    requires { IsWorkingOf None working.now.count working.now }
    ensures { IfOk result (λ files. MatchOption files (read_forks lines.now ≡ false)
        (AreScriptFiles (sparse working.now.read) lines.now)) }
{
    if !read_forks(lines) {
        return Ok(None);
    }
    let (read, count, sound) = (&working.read, working.count, &working.sound);
    let ids = named_ids(alloc, read, count, sound, lines)?;
    Ok(Some(ScriptFiles {
        ids,
        next: sound.mdb.next_id,
    }))
}

//! The folder into which the items are put.
ghost use Rattle.std.specs.Prelude.{◌≡◌, IfOk, option_map};
ghost use Rattle.std.specs.List.{fold};
ghost use Rattle.hfs_commands.specs.ByPath.{path_reply};
ghost use Rattle.hfs_commands.specs.Entries.{entries_in};
ghost use Rattle.hfs_model.specs.Reading.{get_cat_info};
ghost use Rattle.hfs_image.specs.Paths as path;
ghost use Rattle.hfs_word_put.specs.Targets.{folder_by, folder_of, target_folder};

use hfs_fields::{Name, is_item_name, same_name};
use hfs_items::refusal;
use hfs_model::{ItemKind, NOT_A_FOLDER, NOT_FOUND, Reply, Value};
use hfs_texts::path_names;
use hfs_volume::Volume;
use std::alloc::{AllocError, Global};

/// The ID of the root.
const ROOT: u32 = 2;

/// The reply about the folder's item of that name. A name that no item may have leads nowhere.
fn told_child(volume: &Volume, dir: u32, name: &[u8]) -> Reply
    ensures { result ≡ path.told_child (get_cat_info (entries_in volume.now.current)) dir name.now }
{
    if is_item_name(name) {
        volume.get_cat_info(dir, name)
    } else {
        refusal(NOT_FOUND)
    }
}

/// The reply for one more name on a path. A reply without an item stays as it is.
#[tactic(auto, unfolding(hfs_image::specs::Paths::told_next))]
fn told_next(volume: &Volume, told: Reply, name: &[u8]) -> Reply
    ensures { result ≡ path.told_next (get_cat_info (entries_in volume.now.current)) told name.now }
{
    match &told.value {
        Value::One(info) => told_child(volume, info.id, name),
        Value::Nothing
        | Value::Id(_)
        | Value::Many(_)
        | Value::Bytes(_)
        | Value::Full { .. }
        | Value::Room { .. }
        | Value::ExtentNodes { .. }
        | Value::Place { .. } => told,
    }
}

/// The reply after all these names.
fn told_behind(volume: &Volume, root: Reply, below: &[Name]) -> Reply
    ensures { result
        ≡ fold (path.told_next (get_cat_info (entries_in volume.now.current))) root below.now }
{
    let mut told = root;
    for name in below {
        told = told_next(volume, told, name.bytes());
    }
    told
}

/// Whether a path may begin with this name.
fn is_root_name(name: &[u8], root: &Value) -> bool
    ensures { result ≡ path.is_root_name name.now root.now }
{
    match root {
        Value::One(root) => name.is_empty() || same_name(root.name.bytes(), name),
        Value::Nothing
        | Value::Id(_)
        | Value::Many(_)
        | Value::Bytes(_)
        | Value::Full { .. }
        | Value::Room { .. }
        | Value::ExtentNodes { .. }
        | Value::Place { .. } => false,
    }
}

/// The reply about the item that these names lead to.
#[tactic(auto, unfolding(hfs_image::specs::Paths::told_at))]
fn path_told(volume: &Volume, names: &[Name]) -> Reply
    ensures { result ≡ path.path_told (entries_in volume.now.current) names.now }
{
    let [first, below @ ..] = names else {
        return refusal(NOT_FOUND);
    };
    let root = volume.get_dir_info(ROOT);
    if is_root_name(first.bytes(), &root.value) {
        told_behind(volume, root, below)
    } else {
        refusal(NOT_FOUND)
    }
}

/// The reply about the item that the text of a path leads to.
#[tactic(auto, using(crate::proofs::PathTargets::by_names, crate::proofs::PathTargets::by_none))]
fn path_reply(alloc: Global, volume: &Volume, path: &str) -> Result<Reply, AllocError>
    ensures { IfOk result (λ reply. reply ≡ path_reply (entries_in volume.now.current) path.now) }
{
    match path_names(alloc, path.as_bytes())? {
        Some(names) => Ok(path_told(volume, names.as_slice())),
        None => Ok(refusal(NOT_FOUND)),
    }
}

/// The folder that is an item of this kind and ID; -120 for a file.
fn folder_by(kind: ItemKind, id: u32) -> Result<u32, Reply>
    ensures { result ≡ folder_by kind id }
{
    match kind {
        ItemKind::Folder => Ok(id),
        ItemKind::File => Err(refusal(NOT_A_FOLDER)),
    }
}

/// The folder that a reply describes, or the reply that refuses it.
fn folder_of(reply: Reply) -> Result<u32, Reply>
    ensures { result ≡ folder_of reply }
{
    match &reply.value {
        Value::One(info) => folder_by(info.kind, info.id),
        Value::Nothing
        | Value::Id(_)
        | Value::Many(_)
        | Value::Bytes(_)
        | Value::Full { .. }
        | Value::Room { .. }
        | Value::ExtentNodes { .. }
        | Value::Place { .. } => Err(reply),
    }
}

/// The folder of a volume into which the items are put: the one that a path leads to, read as by `ls --path`, or the root if
/// there is no path. Or the reply that refuses it: -43 if the path leads nowhere or is none, -120 if it leads to a file or
/// through one. Fails only when out of memory.
pub fn target_folder(
    alloc: Global,
    volume: &Volume,
    to: Option<&str>,
) -> Result<Result<u32, Reply>, AllocError>
    ensures { IfOk result (λ found. found
        ≡ target_folder (entries_in volume.now.current) (option_map (λ text. text.now) to.entry)) }
{
    match to {
        Some(path) => {
            let reply = path_reply(alloc, volume, path)?;
            Ok(folder_of(reply))
        }
        None => Ok(Ok(ROOT)),
    }
}

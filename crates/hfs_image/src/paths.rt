//! The item that a path leads to, by the needed blocks of an image.
ghost use Rattle.std.specs.Prelude.{◌≡◌};
ghost use Rattle.std.specs.List.{fold};
ghost use Rattle.hfs_btree.specs.Tree.{Store};
ghost use Rattle.hfs_catalog.specs.Tree.{catalog_of};
ghost use Rattle.hfs_check.specs.Parts.{catalog_in};
ghost use Rattle.hfs_check.specs.Sound.{AreBlocksSound};
ghost use Rattle.hfs_check.specs.Trees.{HasTrees};
ghost use Rattle.hfs_image.specs.Paths as spec;
ghost use Rattle.hfs_items.specs.Told.{IsCatalog, cat_info, dir_info};
ghost use Rattle.hfs_source.specs.Sparse.{sparse};

use crate::opening::NeededVolume;
use hfs_btree::{Nodes, RunNodes};
use hfs_fields::{Name, is_item_name, same_name};
use hfs_items::{get_cat_info, get_dir_info, refusal};
use hfs_model::{NOT_FOUND, Reply, Value};

/// The ID of the root.
const ROOT: u32 = 2;

/// The reply about the folder's item of that name. A name that no item may have leads nowhere.
fn told_child<N: Nodes>(nodes: &N, dir: u32, name: &[u8]) -> Reply
    requires { IsCatalog (N.nodes nodes.now) }
    ensures { result ≡ spec.told_child (cat_info (catalog_of (N.nodes nodes.now))) dir name.now }
{
    if is_item_name(name) {
        get_cat_info(nodes, dir, name)
    } else {
        refusal(NOT_FOUND)
    }
}

/// The reply for one more name on a path. A reply without an item stays as it is.
#[tactic(auto, unfolding(crate::specs::Paths::told_next))]
fn told_next<N: Nodes>(nodes: &N, told: Reply, name: &[u8]) -> Reply
    requires { IsCatalog (N.nodes nodes.now) }
    ensures { result ≡ spec.told_next (cat_info (catalog_of (N.nodes nodes.now))) told name.now }
{
    if let Value::One(info) = &told.value {
        return told_child(nodes, info.id, name);
    }
    told
}

/// The reply after all these names.
fn told_behind<N: Nodes>(nodes: &N, root: Reply, below: &[Name]) -> Reply
    requires { IsCatalog (N.nodes nodes.now) }
    ensures { result
        ≡ fold (spec.told_next (cat_info (catalog_of (N.nodes nodes.now)))) root below.now }
{
    let mut told = root;
    for name in below {
        told = told_next(nodes, told, name.bytes());
    }
    told
}

/// Whether a path may begin with this name.
fn is_root_name(name: &[u8], root: &Value) -> bool
    ensures { result ≡ spec.is_root_name name.now root.now }
{
    match root {
        Value::One(root) => name.is_empty() || same_name(root.name.bytes(), name),
        _ => false,
    }
}

/// The reply about the item that these names lead to.
#[tactic(auto, unfolding(crate::specs::Paths::told_at))]
fn path_told<N: Nodes>(nodes: &N, names: &[Name]) -> Reply
    requires { IsCatalog (N.nodes nodes.now) }
    ensures { result ≡ spec.told_at (cat_info (catalog_of (N.nodes nodes.now)))
        (dir_info (catalog_of (N.nodes nodes.now)) 2) names.now }
{
    let [first, below @ ..] = names else {
        return refusal(NOT_FOUND);
    };
    let root = get_dir_info(nodes, ROOT);
    if is_root_name(first.bytes(), &root.value) {
        told_behind(nodes, root, below)
    } else {
        refusal(NOT_FOUND)
    }
}

/// The reply about the item of a volume that these names lead to.
pub(crate) fn told_in(volume: &NeededVolume, names: &[Name]) -> Reply
    requires sound { AreBlocksSound volume.now.count (sparse volume.now.read) }
    requires trees { HasTrees volume.now.count (sparse volume.now.read) volume.now.sound.trees }
    ensures { result ≡ spec.told_at (cat_info (catalog_in (sparse volume.now.read)))
        (dir_info (catalog_in (sparse volume.now.read)) 2) names.now }
{
    let nodes = RunNodes {
        blocks: &volume.read.volume(volume.count),
        runs: &volume.sound.trees.catalog,
    };
    path_told(&nodes, names)
}

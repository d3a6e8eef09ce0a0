//! Where each thing is in the tree of a page.
ghost use Rattle.std.specs.Prelude.{◌≡◌, IfOk};
ghost use Rattle.hfs_page.specs.Bases as bases;
ghost use Rattle.hfs_remains_places.specs.Folders.{KnowsFolders, thing_at};
ghost use Rattle.hfs_remains_places.specs.Paths as paths;
ghost use Rattle.hfs_remains_page.specs.Trees as spec;

use crate::numbers::{FolderNumbers, folder_of};
use hfs_remains_places::Thing;
use hfs_rescue_items::Found;
use std::alloc::{AllocError, Global};

/// How many nodes a tree has besides the things: the volume, what is lost, and what is old.
pub(crate) const ADDED: usize = 3;

/// Whether a thing's record is old.
pub(crate) fn is_old(things: &[Thing], i: usize) -> bool
    ensures { result ≡ (thing_at things.now i).old }
{
    if i < things.len() {
        things[i].old
    } else {
        false
    }
}

/// The number of the folder that a thing is in.
fn parent_of(things: &[Thing], i: usize) -> u32
    ensures { result ≡ (thing_at things.now i).parent }
{
    if i < things.len() {
        things[i].parent
    } else {
        0
    }
}

/// The place of the root.
pub(crate) fn root_of(things: &[Thing]) -> Option<usize>
    ensures { result ≡ paths.root_of things.now }
{
    things
        .iter()
        .position(|thing| thing.folder == Some(2) && thing.parent == 1)
}

/// The node of the volume, which takes the place of a root that is lost.
fn volume_node(things: &[Thing]) -> usize
    ensures { result ≡ spec.volume_node things.now }
{
    things.len()
}

/// The node of the root.
pub(crate) fn top_node(things: &[Thing], root: Option<usize>) -> usize
    requires { root ≡ paths.root_of things.now }
    ensures { result ≡ spec.top_node things.now }
{
    match root {
        Some(place) => place,
        None => volume_node(things),
    }
}

/// A path without what old things are below.
fn own_path(is_old: bool, path: &[u8]) -> &[u8]
    ensures { result.now ≡ spec.own_path is_old path.now }
{
    if is_old {
        &path[path.len().min(5)..]
    } else {
        path
    }
}

/// Whether a path begins with these bytes.
fn begins_with(path: &[u8], start: &[u8]) -> bool
    ensures { result ≡ bases.begins_with path.now start.now }
{
    &path[..start.len().min(path.len())] == start
}

/// Whether, by the paths of both, a thing is in the folder at another place.
#[tactic(auto, unfolding(crate::specs::Trees::lies_in))]
fn lies_in(
    alloc: Global,
    found: &Found<'_>,
    things: &[Thing],
    i: usize,
    q: usize,
) -> Result<bool, AllocError>
    requires { things.now ≡ found.now.places.now }
    ensures { IfOk result (λ lies. lies ≡ spec.lies_in things.now i q) }
{
    let path = found.path(alloc, i)?;
    let mut above = found.path(alloc, q)?;
    above.push_str("/")?;
    let own = own_path(is_old(things, i), path.as_bytes());
    let front = own_path(is_old(things, q), above.as_bytes());
    Ok(begins_with(own, front))
}

/// What a thing that is in no folder is below.
fn apart(things: &[Thing], i: usize) -> usize
    ensures { result ≡ spec.apart things.now i }
{
    if is_old(things, i) {
        things.len() + 2
    } else {
        things.len() + 1
    }
}

/// What a thing is below that is in the folder at another place, if it is by its path.
fn up_in(things: &[Thing], i: usize, q: usize, lies: bool) -> usize
    requires { lies ≡ spec.lies_in things.now i q }
    ensures { result ≡ spec.up_in things.now i q }
{
    if !lies {
        return apart(things, i);
    }
    if is_old(things, i) && !is_old(things, q) {
        things.len() + 2
    } else {
        q
    }
}

/// What a thing is below if only the payload has its parent's number.
fn up_top(things: &[Thing], root: Option<usize>, i: usize) -> usize
    requires { root ≡ paths.root_of things.now }
    ensures { result ≡ spec.up_top things.now i }
{
    if parent_of(things, i) == 2 && !is_old(things, i) {
        top_node(things, root)
    } else {
        apart(things, i)
    }
}

/// What a thing that is not the root is below.
fn up_by(
    alloc: Global,
    found: &Found<'_>,
    things: &[Thing],
    root: Option<usize>,
    i: usize,
    folder: Option<usize>,
) -> Result<usize, AllocError>
    requires things { things.now ≡ found.now.places.now }
    requires root { root ≡ paths.root_of things.now }
    ensures { IfOk result (λ node. node ≡ spec.up_by things.now i folder) }
{
    match folder {
        None => Ok(up_top(things, root, i)),
        Some(q) => {
            let lies = lies_in(alloc, found, things, i, q)?;
            Ok(up_in(things, i, q, lies))
        }
    }
}

/// What a thing is below.
#[tactic(auto, unfolding(crate::specs::Trees::up))]
pub(crate) fn up(
    alloc: Global,
    found: &Found<'_>,
    things: &[Thing],
    folders: &FolderNumbers,
    root: Option<usize>,
    i: usize,
) -> Result<usize, AllocError>
    requires things { things.now ≡ found.now.places.now }
    requires folders { KnowsFolders folders.now things.now }
    requires root { root ≡ paths.root_of things.now }
    ensures { IfOk result (λ node. node ≡ spec.up things.now i) }
{
    if root == Some(i) {
        return Ok(things.len() + ADDED);
    }
    let folder = folder_of(things, folders, parent_of(things, i));
    up_by(alloc, found, things, root, i, folder)
}

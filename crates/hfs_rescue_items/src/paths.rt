//! The item that a path leads to.
ghost use Rattle.std.specs.Prelude.{◌≡◌, length, IfOk};
ghost use Rattle.hfs_rescue_items.specs.Paths as spec;

use crate::Found;
use crate::numbered_folders::folder_number;
use crate::rows::names_of;
use hfs_texts::push_mac_path;
use std::alloc::{AllocError, Global};

/// What a path leads to.
#[derive(Clone, Copy, Debug, PartialEq, Eq)]
pub enum PathEnd {
    /// No item has it.
    Nothing,
    /// The item with this number, counted from 0, which is a file.
    File(usize),
    /// The item with this number, which is a folder.
    Folder(usize),
}

/// Whether the rows of an item print this path.
#[tactic(auto, unfolding(crate::specs::Paths::has_path))]
fn has_path(alloc: Global, found: &Found<'_>, path: &str, i: usize) -> Result<bool, AllocError>
    ensures { IfOk result (λ has. has ≡ spec.has_path found.now path.now i) }
{
    let names = names_of(alloc, found, i)?;
    let mut text = String::new(alloc);
    push_mac_path(&mut text, &names)?;
    Ok(text.as_str() == path)
}

/// The first item whose rows print this path, among all.
fn first_with(alloc: Global, found: &Found<'_>, path: &str) -> Result<Option<usize>, AllocError>
    ensures { IfOk result (λ first. first
        ≡ spec.first_from (spec.has_path found.now path.now) 0 (length found.now.items.now)) }
{
    for i in 0..found.items.len() {
        if has_path(alloc, found, path, i)? {
            return Ok(Some(i));
        }
    }
    Ok(None)
}

/// The first item that has this path.
#[tactic(auto, unfolding(crate::specs::Paths::item_at))]
fn item_at(alloc: Global, found: &Found<'_>, path: &str) -> Result<Option<usize>, AllocError>
    ensures { IfOk result (λ item. item ≡ spec.item_at found.now path.now) }
{
    if path.is_empty() {
        return Ok(None);
    }
    first_with(alloc, found, path)
}

/// What item `k` is.
fn end_at(found: &Found<'_>, k: usize) -> PathEnd
    ensures { result ≡ spec.end_at found.now k }
{
    if folder_number(found.places.things(), k).is_some() {
        PathEnd::Folder(k)
    } else {
        PathEnd::File(k)
    }
}

/// What a path leads to, read as the rows print it: the first item that has it. Fails only when out of memory.
#[tactic(auto, unfolding(crate::specs::Paths::path_end))]
pub fn path_end(alloc: Global, found: &Found<'_>, path: &str) -> Result<PathEnd, AllocError>
    ensures { IfOk result (λ end. end ≡ spec.path_end found.now path.now) }
{
    let item = item_at(alloc, found, path)?;
    match item {
        Some(k) => Ok(end_at(found, k)),
        None => Ok(PathEnd::Nothing),
    }
}

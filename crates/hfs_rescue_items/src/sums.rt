//! How much remains.
ghost use Rattle.std.specs.Prelude.{◌≡◌, ◌+◌, ◌-◌, ◌<◌, ◌≤◌, ◌^◌, ◌&&◌, ◌==◌, false, if◌then◌else◌, min, IfOk};
ghost use Rattle.std.specs.Option.{option_map_or};
ghost use Rattle.hfs_remains_places.specs.Paths.{is_root};
ghost use Rattle.hfs_remains_forks.specs.Records.{thing_of};
ghost use Rattle.hfs_remains_forks.specs.Verdicts.{shares_at, verdicts_at};
ghost use Rattle.hfs_remains_places.specs.Verdicts.{is_whole};
ghost use Rattle.hfs_rescue_items.specs.Sums as spec;

use crate::found::Found;
use hfs_catalog::{is_folder, item_id};
use hfs_remains::FoundRecord;
use hfs_remains_forks::FoundFork;
use hfs_space::ForkKind;
use std::alloc::{AllocError, Global};

/// How many bytes an AppleDouble file has before the resource fork.
const DOUBLE: u64 = 82;

/// How much remains.
#[derive(Clone, Copy, Debug, PartialEq, Eq)]
pub struct FoundSums {
    pub files: u64,
    /// The folders without the root.
    pub folders: u64,
    /// The bytes of the payload, or 2^64 - 1 if there are more.
    pub bytes: u64,
    /// The files whose forks are both whole.
    pub whole: u64,
}

/// Whether an item is a folder with the root's number in the root's place.
fn is_root(item: &FoundRecord) -> bool
    ensures { result ≡ is_root (thing_of item.now) }
{
    let body = item.entry.body();
    is_folder(body) && item_id(body) == Some(2) && item.entry.key().parent == 1
}

/// The place of the root among items, the first such; None if it is lost.
fn root_of(items: &[FoundRecord]) -> Option<usize>
    ensures { result ≡ spec.root_of items.now }
{
    items.iter().position(|item| is_root(item))
}

/// Whether the root has this place.
fn is_place(root: Option<usize>, i: usize) -> bool
    ensures { result ≡ option_map_or (λ place. place == i) root false }
{
    match root {
        Some(place) => place == i,
        None => false,
    }
}

/// What the root counts.
fn no_sums() -> FoundSums
    ensures { result ≡ record { files = 0; folders = 0; bytes = 0; whole = 0 } }
{
    FoundSums {
        files: 0,
        folders: 0,
        bytes: 0,
        whole: 0,
    }
}

/// What a folder counts.
fn folder_sums() -> FoundSums
    ensures { result ≡ record { files = 0; folders = 1; bytes = 82; whole = 0 } }
{
    FoundSums {
        files: 0,
        folders: 1,
        bytes: DOUBLE,
        whole: 0,
    }
}

/// 1 if both forks of a file are whole, else 0.
fn whole_number(data: &FoundFork, resource: &FoundFork) -> u64
    ensures { result ≡ if is_whole data.now.verdict && is_whole resource.now.verdict then 1 else 0 }
{
    if data.verdict.is_whole() && resource.verdict.is_whole() {
        1
    } else {
        0
    }
}

/// What a file counts.
fn file_sums(data: &FoundFork, resource: &FoundFork) -> FoundSums
    ensures files { result.files ≡ 1 }
    ensures folders { result.folders ≡ 0 }
    ensures bytes { result.bytes ≡ 82 + (data.now.length + resource.now.length) }
    ensures whole { result.whole ≡ if is_whole data.now.verdict && is_whole resource.now.verdict
        then 1 else 0 }
{
    FoundSums {
        files: 1,
        folders: 0,
        bytes: DOUBLE + (u64::from(data.length) + u64::from(resource.length)),
        whole: whole_number(data, resource),
    }
}

/// What item `i`, which is not the root, counts.
#[tactic(auto, using(crate::proofs::SumLemmas::folder_counts, crate::proofs::SumLemmas::file_counts))]
fn item_sums(alloc: Global, found: &Found<'_>, i: usize) -> Result<FoundSums, AllocError>
    ensures { IfOk result (spec.Counts found.now i) }
{
    let Some(data) = found.fork(alloc, i, ForkKind::Data)? else {
        return Ok(folder_sums());
    };
    let Some(resource) = found.fork(alloc, i, ForkKind::Resource)? else {
        return Ok(folder_sums());
    };
    Ok(file_sums(&data, &resource))
}

/// What item `i` counts; nothing if it is the root.
#[tactic(auto, using(crate::proofs::SumLemmas::root_counts, crate::proofs::SumLemmas::other_counts))]
fn sums_at(
    alloc: Global,
    found: &Found<'_>,
    root: Option<usize>,
    i: usize,
) -> Result<FoundSums, AllocError>
    requires { root ≡ spec.root_of found.now.items.now }
    ensures { IfOk result (spec.CountsAt found.now i) }
{
    if is_place(root, i) {
        return Ok(no_sums());
    }
    let sums = item_sums(alloc, found, i)?;
    Ok(sums)
}

/// Two sums added.
fn added(sums: FoundSums, more: FoundSums) -> FoundSums
    requires files { sums.files + more.files < 2 ^ 64 }
    requires folders { sums.folders + more.folders < 2 ^ 64 }
    requires whole { sums.whole + more.whole < 2 ^ 64 }
    ensures files { result.files ≡ sums.files + more.files }
    ensures folders { result.folders ≡ sums.folders + more.folders }
    ensures bytes { result.bytes ≡ min (sums.bytes + more.bytes) (2 ^ 64 - 1) }
    ensures whole { result.whole ≡ sums.whole + more.whole }
{
    FoundSums {
        files: sums.files + more.files,
        folders: sums.folders + more.folders,
        bytes: sums.bytes.saturating_add(more.bytes),
        whole: sums.whole + more.whole,
    }
}

/// How much remains of all items. Fails only when out of memory.
#[tactic(auto, using(crate::proofs::SumLemmas::none_first, crate::proofs::SumLemmas::one_more, crate::proofs::SumLemmas::sums_are))]
pub fn sums_of(alloc: Global, found: &Found<'_>) -> Result<FoundSums, AllocError>
    ensures { IfOk result (spec.AreSums found.now) }
{
    let root = root_of(found.items);
    let mut sums = no_sums();
    for i in 0..found.items.len() {
        let item = sums_at(alloc, found, root, i)?;
        sums = added(sums, item);
    }
    Ok(sums)
}

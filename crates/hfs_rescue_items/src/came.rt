//! What a plan gives.
ghost use Rattle.std.specs.Prelude.{◌≡◌, ◌-◌, ℕ, List, [], drop, length, take, IfErr, IfOk, IfSome, string_bytes};
ghost use Rattle.hfs_bag.specs.Items.{IsHead};
ghost use Rattle.hfs_rescue_items.specs.Bytes.{GivesBytes};
ghost use Rattle.hfs_rescue_items.specs.Faults.{FailsToCome, IsForkInReach, IsUntold};
ghost use Rattle.hfs_rescue_items.specs.Sources.{above_of, finder_told, is_alone, modified_told, name_of, part_bytes, part_told, planned_item};

use crate::found::Found;
use crate::plan::Planned;
use hfs_bag::{BagHead, BagKind, SourceFault, since_1970};
use hfs_model::Info;
use hfs_remains_forks::FoundFork;
use hfs_space::ForkKind;
use std::alloc::{AllocError, Global};

/// What came last.
#[derive(Drop)]
pub(crate) struct Came {
    pub(crate) planned: Planned,
    /// The path of the folder that holds it, followed by a slash.
    pub(crate) above: String,
    /// Its entry.
    pub(crate) name: String,
}

impl Came {
    /// Nothing.
    pub(crate) fn nothing(alloc: Global) -> Came {
        Came {
            planned: Planned {
                place: 0,
                from: 0,
                to: 0,
                kind: BagKind::FolderAlone,
            },
            above: String::new(alloc),
            name: String::new(alloc),
        }
    }
}

/// A part of a path as text. Error: it is not text, which no part of a planned path is.
fn text_of(alloc: Global, path: &[u8], from: usize, to: usize) -> Result<String, SourceFault>
    ensures text { IfOk result (λ text. string_bytes text ≡ take (to - from) (drop from path.now)) }
    ensures fault { IfErr result (IsUntold path.now from to) }
{
    if from > to || to > path.len() {
        return Err(SourceFault::ReadFailed);
    }
    let Ok(bytes) = Vec::from_slice(alloc, &path[from..to]) else {
        return Err(SourceFault::Memory);
    };
    match String::from_utf8(bytes) {
        Ok(text) => Ok(text),
        Err(_) => Err(SourceFault::ReadFailed),
    }
}

/// Whether what is made is only a path.
fn is_alone(kind: BagKind) -> bool
    ensures { result ≡ is_alone kind }
{
    match kind {
        BagKind::FolderAlone => true,
        BagKind::Folder | BagKind::File | BagKind::DoubleAlone => false,
    }
}

/// A fork of the item of a part of a plan; None if that has no bytes.
pub(crate) fn part_fork(
    alloc: Global,
    found: &Found<'_>,
    planned: Planned,
    kind: ForkKind,
) -> Result<Option<FoundFork>, AllocError>
    ensures bytes { (image : List ℕ) → IfOk result (GivesBytes image found.now
        (part_bytes image found.now kind planned)) }
    ensures reach { IfOk result (λ fork. IfSome fork (IsForkInReach found.now)) }
{
    if is_alone(planned.kind) {
        return Ok(None);
    }
    let fork = found.fork(alloc, planned.place, kind)?;
    Ok(fork)
}

/// How many bytes of a fork of a planned part's item there are, whatever the image.
fn length_of(
    alloc: Global,
    found: &Found<'_>,
    planned: Planned,
    kind: ForkKind,
) -> Result<u32, AllocError>
    ensures { IfOk result (λ count. count ≡ length (part_bytes [] found.now kind planned)) }
{
    let part = part_fork(alloc, found, planned, kind)?;
    match part {
        Some(fork) => Ok(fork.length),
        None => Ok(0),
    }
}

/// What the item of a part of a plan says about itself; None for a folder alone.
fn part_told(found: &Found<'_>, planned: Planned) -> Option<Info>
    ensures { result ≡ part_told found.now planned }
{
    if is_alone(planned.kind) {
        None
    } else {
        found.told(planned.place)
    }
}

/// The Finder bytes of an item with these facts; zeros if there are none.
fn finder_of(told: &Option<Info>) -> [u8; 32]
    ensures { result ≡ finder_told told.now }
{
    match told {
        Some(info) => info.finder,
        None => [0; 32],
    }
}

/// When it was modified, in seconds since the beginning of 1970; None if that was before, or isn't known.
fn modified_of(told: &Option<Info>) -> Option<u32>
    ensures { result ≡ modified_told told.now }
{
    match told {
        Some(info) => since_1970(info.modified),
        None => None,
    }
}

/// The head of what a part of a plan gives.
fn head_of(alloc: Global, found: &Found<'_>, planned: Planned) -> Result<BagHead, AllocError>
    ensures { IfOk result (λ head. IsHead head (planned_item [] found.now planned)) }
{
    let data_length = length_of(alloc, found, planned, ForkKind::Data)?;
    let resource_length = length_of(alloc, found, planned, ForkKind::Resource)?;
    let told = part_told(found, planned);
    Ok(BagHead {
        kind: planned.kind,
        finder: finder_of(&told),
        data_length,
        resource_length,
        modified: modified_of(&told),
    })
}

/// Where it lies, and its name there.
fn placed(alloc: Global, found: &Found<'_>, planned: Planned) -> Result<Came, SourceFault>
    ensures above { IfOk result (λ came. string_bytes came.above ≡ above_of found.now planned) }
    ensures name { IfOk result (λ came. string_bytes came.name ≡ name_of found.now planned) }
    ensures planned { IfOk result (λ came. came.planned ≡ planned) }
    ensures fault { IfErr result (FailsToCome found.now planned) }
{
    let Ok(path) = found.path(alloc, planned.place) else {
        return Err(SourceFault::Memory);
    };
    let bytes = path.as_bytes();
    let above = text_of(alloc, bytes, 0, planned.from)?;
    let name = text_of(alloc, bytes, planned.from, planned.to)?;
    Ok(Came {
        planned,
        above,
        name,
    })
}

/// What a part of a plan gives, and its head.
pub(crate) fn came_of(
    alloc: Global,
    found: &Found<'_>,
    planned: Planned,
) -> Result<(Came, BagHead), SourceFault>
    ensures above { IfOk result (λ told. string_bytes told.0.above ≡ above_of found.now planned) }
    ensures name { IfOk result (λ told. string_bytes told.0.name ≡ name_of found.now planned) }
    ensures planned { IfOk result (λ told. told.0.planned ≡ planned) }
    ensures head { IfOk result (λ told. IsHead told.1 (planned_item [] found.now planned)) }
    ensures fault { IfErr result (FailsToCome found.now planned) }
{
    let came = placed(alloc, found, planned)?;
    match head_of(alloc, found, planned) {
        Ok(head) => Ok((came, head)),
        Err(_) => Err(SourceFault::Memory),
    }
}

//! What is made of each thing that was found.
ghost use Rattle.std.specs.Prelude.{◌≡◌, if◌then◌else◌, None, Some, IfOk};
ghost use Rattle.hfs_remains_forks.specs.Verdicts.{shares_at};
ghost use Rattle.hfs_rescue_items.specs.Plan as spec;

use crate::found::Found;
use hfs_bag::BagKind;
use hfs_catalog::is_folder;
use hfs_remains::FoundRecord;
use hfs_remains_places::Verdict;
use hfs_space::ForkKind;
use std::alloc::{AllocError, Global};

/// What is made of a folder, which has been made before or not.
fn folder_kind(is_made: bool) -> BagKind
    ensures { result ≡ if is_made then BagKind.DoubleAlone else BagKind.Folder }
{
    if is_made {
        BagKind::DoubleAlone
    } else {
        BagKind::Folder
    }
}

/// What is made of a file, given the verdict on its data fork.
fn kind_by(verdict: &Verdict) -> BagKind
    ensures { result ≡ spec.kind_by verdict.now }
{
    match verdict {
        Verdict::Left => BagKind::DoubleAlone,
        Verdict::Taken(_) => BagKind::File,
    }
}

/// What is made of a file.
#[tactic(auto, using(crate::proofs::PlanLemmas::file_kinds, crate::proofs::PlanLemmas::no_file_kind))]
fn file_kind(alloc: Global, found: &Found<'_>, i: usize) -> Result<BagKind, AllocError>
    ensures { IfOk result (λ kind. kind ≡ spec.file_kind (shares_at found.now.salvage.now i)) }
{
    match found.fork(alloc, i, ForkKind::Data)? {
        Some(fork) => Ok(kind_by(&fork.verdict)),
        None => Ok(BagKind::DoubleAlone),
    }
}

/// What is made of an item, which is a folder that has been made before or not, or a file.
fn item_kind(
    alloc: Global,
    found: &Found<'_>,
    i: usize,
    item: &FoundRecord,
    is_made: bool,
) -> Result<BagKind, AllocError>
    ensures { IfOk result (λ kind. Some kind
        ≡ spec.thing_kind found.now i is_made (Some item.now)) }
{
    if is_folder(item.entry.body()) {
        return Ok(folder_kind(is_made));
    }
    let kind = file_kind(alloc, found, i)?;
    Ok(kind)
}

/// What is made of a named folder, which has been made before or not.
fn named_kind(is_made: bool) -> Option<BagKind>
    ensures { result ≡ if is_made then None else Some BagKind.FolderAlone }
{
    if is_made {
        None
    } else {
        Some(BagKind::FolderAlone)
    }
}

/// What is made of a thing at its own path, where a folder has been made before or not; None for a named folder that has.
#[tactic(auto, using(crate::proofs::PlanLemmas::named_own, crate::proofs::PlanLemmas::item_own))]
pub(crate) fn own_kind(
    alloc: Global,
    found: &Found<'_>,
    i: usize,
    is_made: bool,
) -> Result<Option<BagKind>, AllocError>
    ensures { IfOk result (λ kind. kind ≡ spec.own_kind found.now i is_made) }
{
    if i >= found.items.len() {
        return Ok(named_kind(is_made));
    }
    let item = &found.items[i];
    let kind = item_kind(alloc, found, i, item, is_made)?;
    Ok(Some(kind))
}

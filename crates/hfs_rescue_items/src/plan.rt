//! Which folders and files are made of what was found, in order.
ghost use Rattle.std.specs.Prelude.{◌≡◌, ◌<◌, ◌^◌, if◌then◌else◌, ◌==◌, IfOk, OnOk};
ghost use Rattle.std.specs.List.{fold};
ghost use Rattle.hfs_rescue_items.specs.Found.{path_at};
ghost use Rattle.hfs_rescue_items.specs.Plan as spec;

use crate::folders::Folders;
use crate::found::Found;
use crate::kinds::own_kind;
use hfs_bag::BagKind;
use std::alloc::{AllocError, Global};

/// What is made of a part of a thing's path.
#[derive(Clone, Copy)]
pub(crate) struct Planned {
    /// The number of the item; those of named folders are after those of the items.
    pub(crate) place: usize,
    /// The bytes of its path between which the name is of what is made.
    pub(crate) from: usize,
    pub(crate) to: usize,
    pub(crate) kind: BagKind,
}

/// What has been planned so far, and the folders that it makes.
#[derive(Drop)]
struct Plan {
    parts: Vec<Planned>,
    folders: Folders,
}

/// The part before the first byte of a thing's path: a folder whose name is still to come.
fn first_part(place: usize) -> Planned
    ensures { result ≡ spec.first_part place }
{
    Planned {
        place,
        from: 0,
        to: 0,
        kind: BagKind::FolderAlone,
    }
}

/// Where the name begins that continues after a byte: there, if the byte is a slash.
fn from_behind(byte: u8, from: usize, to: usize) -> usize
    ensures { result ≡ if byte == 47 then to else from }
{
    if byte == b'/' { to } else { from }
}

/// A part and one more byte of the path: after a slash another name begins.
#[tactic(auto, unfolding(crate::specs::Plan::part_behind))]
fn part_behind(part: Planned, byte: u8) -> Planned
    requires { part.to < 2 ^ 63 }
    ensures { result ≡ spec.part_behind part byte }
{
    let to = part.to + 1;
    Planned {
        place: part.place,
        from: from_behind(byte, part.from, to),
        to,
        kind: part.kind,
    }
}

/// The part with the last name of a path.
#[tactic(auto, using(crate::proofs::PlanLemmas::last_more))]
fn last_part(place: usize, path: &[u8]) -> Planned
    ensures { result ≡ spec.last_part place path.now }
{
    let mut part = first_part(place);
    let mut rest = path;
    while let [byte, behind @ ..] = rest {
        part = part_behind(part, *byte);
        rest = behind;
    }
    part
}

/// The path of what is planned.
fn path_of(alloc: Global, found: &Found<'_>, part: Planned) -> Result<Vec<u8>, AllocError>
    ensures { IfOk result (λ path. path.items ≡ spec.path_of found.now part) }
{
    let mut path = found.path(alloc, part.place)?.into_bytes();
    path.truncate(part.to);
    Ok(path)
}

/// Plans a folder, if it hasn't been planned yet.
#[tactic(auto, using(crate::proofs::PlanLemmas::folder_there, crate::proofs::PlanLemmas::folder_put, crate::proofs::PlanLemmas::knows_more))]
fn plan_folder(
    alloc: Global,
    found: &Found<'_>,
    plan: &mut Plan,
    part: Planned,
) -> Result<(), AllocError>
    requires { spec.KnowsFolders found.now plan.old.parts.items plan.old.folders }
    ensures parts { OnOk result (plan.new.parts.items
        ≡ spec.with_folder found.now plan.old.parts.items part) }
    ensures knows { OnOk result (spec.KnowsFolders found.now plan.new.parts.items
        plan.new.folders) }
{
    let path = path_of(alloc, found, part)?;
    if plan.folders.has(&path) {
        return Ok(());
    }
    plan.folders.note(path, part.kind)?;
    plan.parts.push(part)?;
    Ok(())
}

/// Plans the folder that ends before a byte of a path, if the byte is a slash and the folder hasn't been planned yet.
#[tactic(auto, unfolding(crate::specs::Plan::folder_before))]
fn plan_before(
    alloc: Global,
    found: &Found<'_>,
    plan: &mut Plan,
    part: Planned,
    byte: u8,
) -> Result<(), AllocError>
    requires { spec.KnowsFolders found.now plan.old.parts.items plan.old.folders }
    ensures parts { OnOk result (plan.new.parts.items
        ≡ fold (spec.with_folder found.now) plan.old.parts.items (spec.folder_before part byte)) }
    ensures knows { OnOk result (spec.KnowsFolders found.now plan.new.parts.items
        plan.new.folders) }
{
    if byte != b'/' {
        return Ok(());
    }
    plan_folder(alloc, found, plan, part)?;
    Ok(())
}

/// Plans the folders that a path is in and that haven't been planned yet, from the top down.
#[tactic(auto, using(crate::proofs::PlanLemmas::folders_more))]
fn plan_folders(
    alloc: Global,
    found: &Found<'_>,
    plan: &mut Plan,
    place: usize,
    path: &[u8],
) -> Result<(), AllocError>
    requires { spec.KnowsFolders found.now plan.old.parts.items plan.old.folders }
    ensures parts { OnOk result (plan.new.parts.items ≡ fold (spec.with_folder found.now)
        plan.old.parts.items (spec.folders_above (spec.first_part place) path.now)) }
    ensures knows { OnOk result (spec.KnowsFolders found.now plan.new.parts.items
        plan.new.folders) }
{
    let mut part = first_part(place);
    let mut rest = path;
    while let [byte, behind @ ..] = rest {
        plan_before(alloc, found, plan, part, *byte)?;
        part = part_behind(part, *byte);
        rest = behind;
    }
    Ok(())
}

/// Whether the folder that a part is in directly has been made. The payload has.
fn is_above_made(
    alloc: Global,
    found: &Found<'_>,
    plan: &Plan,
    part: Planned,
) -> Result<bool, AllocError>
    requires { spec.KnowsFolders found.now plan.now.parts.items plan.now.folders }
    ensures { IfOk result (λ made. made ≡ spec.is_above_made found.now plan.now.parts.items part) }
{
    if part.from == 0 {
        return Ok(true);
    }
    let above = Planned {
        to: part.from - 1,
        ..part
    };
    let path = path_of(alloc, found, above)?;
    Ok(plan.folders.has(&path))
}

/// Plans the folders that the path of a thing is in, given its last part, if they haven't been planned yet. If the last one has,
/// so have all.
#[tactic(auto, using(crate::proofs::AboveLemmas::all_made))]
fn plan_above(
    alloc: Global,
    found: &Found<'_>,
    plan: &mut Plan,
    part: Planned,
    i: usize,
    path: &[u8],
) -> Result<(), AllocError>
    requires path { path.now ≡ path_at found.now.places.now i }
    requires part { part ≡ spec.last_part i path.now }
    requires knows { spec.KnowsFolders found.now plan.old.parts.items plan.old.folders }
    requires all { spec.AreAllMade found.now plan.old.parts.items }
    ensures parts { OnOk result (plan.new.parts.items ≡ fold (spec.with_folder found.now)
        plan.old.parts.items (spec.folders_above (spec.first_part i) path.now)) }
    ensures knows { OnOk result (spec.KnowsFolders found.now plan.new.parts.items
        plan.new.folders) }
{
    if is_above_made(alloc, found, plan, part)? {
        return Ok(());
    }
    plan_folders(alloc, found, plan, i, path)?;
    Ok(())
}

/// Plans what is made of a thing at its own path, of which this is the last part.
#[tactic(auto, using(crate::proofs::PlanLemmas::own_nothing, crate::proofs::PlanLemmas::own_put, crate::proofs::PlanLemmas::knows_more))]
fn plan_own(
    alloc: Global,
    found: &Found<'_>,
    plan: &mut Plan,
    part: Planned,
) -> Result<(), AllocError>
    requires { spec.KnowsFolders found.now plan.old.parts.items plan.old.folders }
    ensures parts { OnOk result (plan.new.parts.items
        ≡ spec.with_own found.now plan.old.parts.items part) }
    ensures knows { OnOk result (spec.KnowsFolders found.now plan.new.parts.items
        plan.new.folders) }
{
    let path = path_of(alloc, found, part)?;
    let is_made = plan.folders.has(&path);
    let Some(kind) = own_kind(alloc, found, part.place, is_made)? else {
        return Ok(());
    };
    plan.folders.note(path, kind)?;
    plan.parts.push(Planned { kind, ..part })?;
    Ok(())
}

/// Plans what is made of a thing; nothing for the root, whose path is empty.
#[tactic(auto, using(crate::proofs::PlanLemmas::root_planned, crate::proofs::PlanLemmas::thing_planned))]
fn plan_thing(alloc: Global, found: &Found<'_>, plan: &mut Plan, i: usize) -> Result<(), AllocError>
    requires knows { spec.KnowsFolders found.now plan.old.parts.items plan.old.folders }
    requires all { spec.AreAllMade found.now plan.old.parts.items }
    ensures parts { OnOk result (plan.new.parts.items
        ≡ spec.with_thing found.now plan.old.parts.items i) }
    ensures knows { OnOk result (spec.KnowsFolders found.now plan.new.parts.items
        plan.new.folders) }
{
    let path = found.path(alloc, i)?;
    let bytes = path.as_bytes();
    if bytes.is_empty() {
        return Ok(());
    }
    let part = last_part(i, bytes);
    plan_above(alloc, found, plan, part, i, bytes)?;
    plan_own(alloc, found, plan, part)?;
    Ok(())
}

/// What is made of everything that was found: of each item in order what it is, each folder where it is first needed, and then
/// the named folders. Fails only when out of memory.
#[tactic(auto, using(crate::proofs::PlanLemmas::plan_begun, crate::proofs::PlanLemmas::thing_more, crate::proofs::PlanLemmas::plan_ends, crate::proofs::PlanLemmas::knows_none, crate::proofs::PlanLemmas::all_none))]
pub(crate) fn plan_of(alloc: Global, found: &Found<'_>) -> Result<Vec<Planned>, AllocError>
    ensures { IfOk result (λ plan. plan.items ≡ spec.whole_plan found.now) }
{
    let mut plan = Plan {
        parts: Vec::new(alloc),
        folders: Folders::new(alloc),
    };
    for i in 0..found.places.things().len() {
        plan_thing(alloc, found, &mut plan, i)?;
    }
    let Plan {
        parts,
        folders: _folders,
    } = plan;
    Ok(parts)
}

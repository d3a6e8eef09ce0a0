//! What happens to one item that is to be put, given what is already there on the disk.
ghost use Rattle.std.specs.Prelude.{◌≡◌, None, true};
ghost use Rattle.hfs_put_plan.specs.Why.{why_not};
ghost use Rattle.hfs_check.specs.VolumeOf.{volume_of};
ghost use Rattle.hfs_put.specs.Decisions.{decision, decision_by, findings_with, fork_spans_fit, info_in, info_named, inside_kept, inside_of, is_taken, item_kind, judged, placed_by, placing_over, put_item, standing_of};

use hfs_fields::Name;
use hfs_model::{Info, ItemKind, Value};
use hfs_put_plan::{
    EntryKind, Findings, Placing, PutItem, Standing, Why, how_placed, is_too_large, why_not,
};
use hfs_put_sources::{ItemPlan, Look, SourceItem};
use hfs_volume::Volume;

/// The folder into which an item is to be put.
#[derive(Clone, Copy)]
pub enum Destination {
    /// A folder that is on the disk, by its ID.
    OnDisk(u32),
    /// A folder that is also being put: nothing is in it yet.
    Made,
    /// None: the item is below something that can't be put.
    Refused,
}

/// What happens to an item that is to be put.
#[derive(Clone, Copy)]
pub enum Decision {
    /// It is put; what is in it goes into the folder `inside`.
    Put { item: PutItem, inside: Destination },
    /// It can't be put.
    Refused(Why),
    /// It is below something that can't be put, and nothing is reported about it.
    Untold,
}

/// What a value says about one item.
fn info_in(value: &Value) -> Option<Info>
    ensures { result ≡ info_in value.now }
{
    match value {
        Value::One(info) => Some(*info),
        Value::Nothing
        | Value::Id(_)
        | Value::Many(_)
        | Value::Bytes(_)
        | Value::Full { .. }
        | Value::Room { .. }
        | Value::ExtentNodes { .. }
        | Value::Place { .. } => None,
    }
}

/// What a reply says about a folder's item of that name, if there is a name, and such an item.
fn info_named(volume: &Volume, dir: u32, name: Option<Name>) -> Option<Info>
    ensures { result ≡ info_named (volume_of volume.now.current) dir name }
{
    let name = name?;
    let reply = volume.get_cat_info(dir, name.bytes());
    info_in(&reply.value)
}

/// What is already there, as far as it matters for what is put in its place.
fn standing_of(there: &Option<Info>) -> Option<Standing>
    ensures { result ≡ standing_of there.now }
{
    match there {
        Some(info) => Some(Standing {
            kind: info.kind,
            locked: info.locked,
        }),
        None => None,
    }
}

/// A folder, or else a file, even without an entry of its own.
fn item_kind(own: Option<Look>) -> ItemKind
    ensures { result ≡ item_kind own }
{
    match own {
        Some(look) => match look.kind {
            EntryKind::Folder => ItemKind::Folder,
            EntryKind::File(_) | EntryKind::Other => ItemKind::File,
        },
        None => ItemKind::File,
    }
}

/// Whether an item can't be put in its place.
fn is_taken(placing: Placing) -> bool
    ensures { result ≡ is_taken placing }
{
    match placing {
        Placing::New => false,
        Placing::Kept => false,
        Placing::Replaced { .. } => false,
        Placing::Taken => true,
    }
}

/// Whether neither fork is larger than a fork may be.
fn fork_spans_fit(plan: &ItemPlan) -> bool
    ensures { result ≡ fork_spans_fit plan.now }
{
    !is_too_large(plan.data_fork.len) && !is_too_large(plan.resource_fork.len)
}

/// What was found of an item, with what is known of its place.
fn findings_with(plan: &ItemPlan, placing: Placing) -> Findings
    ensures { result ≡ findings_with placing plan.now }
{
    Findings {
        is_item: plan.found.is_item,
        fits: plan.found.fits && fork_spans_fit(plan),
        is_double: plan.found.is_double,
        is_named: plan.name.is_some(),
        is_first: plan.found.is_first,
        is_accepted: !is_taken(placing),
    }
}

/// Why an item that is placed in this way can't be put.
fn why_refused(plan: &ItemPlan, placing: Placing) -> Option<Why>
    ensures { result ≡ why_not (findings_with placing plan.now) }
{
    why_not(&findings_with(plan, placing))
}

/// The item as it is put.
fn put_item(source: &SourceItem, name: Name, placing: Placing) -> PutItem
    requires { fork_spans_fit source.now.plan ≡ true }
    ensures { result ≡ put_item source.now.parent source.now.plan name placing }
{
    let plan = source.plan();
    PutItem {
        parent: source.parent(),
        kind: item_kind(plan.own),
        name,
        placing,
        facts: plan.facts,
        data_len: plan.data_fork.len as u32,
        resource_len: plan.resource_fork.len as u32,
    }
}

/// The folder for what is in the folder that is already there.
fn inside_kept(there: &Option<Info>) -> Destination
    ensures { result ≡ inside_kept there.now }
{
    match there {
        Some(info) => Destination::OnDisk(info.id),
        None => Destination::Made,
    }
}

/// The folder for what is in an item that is placed in this way.
fn inside_of(placing: Placing, there: &Option<Info>) -> Destination
    ensures { result ≡ inside_of placing there.now }
{
    match placing {
        Placing::Kept => inside_kept(there),
        Placing::New | Placing::Replaced { .. } | Placing::Taken => Destination::Made,
    }
}

/// What happens to an item, given what speaks against it.
fn decision_by(
    source: &SourceItem,
    why: Option<Why>,
    placing: Placing,
    inside: Destination,
) -> Decision
    requires { why ≡ None → fork_spans_fit source.now.plan ≡ true }
    ensures { result ≡ decision_by why source.now.plan.name placing inside source.now }
{
    let plan = source.plan();
    match why {
        Some(why) => Decision::Refused(why),
        None => match plan.name {
            Some(name) => Decision::Put {
                item: put_item(source, name, placing),
                inside,
            },
            None => Decision::Refused(Why::NoName),
        },
    }
}

/// What happens to an item that is placed in this way.
#[tactic(auto, using(crate::proofs::FittingForks::why_fits))]
fn placed_by(source: &SourceItem, placing: Placing, inside: Destination) -> Decision
    ensures { result ≡ placed_by placing inside source.now }
{
    let plan = source.plan();
    let why = why_refused(&plan, placing);
    decision_by(source, why, placing, inside)
}

/// How an item is placed if this is already there.
fn placing_over(source: &SourceItem, replace: bool, there: &Option<Info>) -> Placing
    ensures { result ≡ placing_over replace there.now source.now }
{
    let plan = source.plan();
    how_placed(standing_of(there), item_kind(plan.own), replace)
}

/// What happens to an item if this is already there.
fn judged(source: &SourceItem, replace: bool, there: &Option<Info>) -> Decision
    ensures { result ≡ judged replace there.now source.now }
{
    let placing = placing_over(source, replace, there);
    let inside = inside_of(placing, there);
    placed_by(source, placing, inside)
}

/// What happens to an item that is to be put into that folder.
pub(crate) fn decide(
    volume: &Volume,
    replace: bool,
    into: Destination,
    source: &SourceItem,
) -> Decision
    ensures { result ≡ decision (volume_of volume.now.current) replace into source.now }
{
    match into {
        Destination::OnDisk(dir) => {
            let there = info_named(volume, dir, source.plan().name);
            judged(source, replace, &there)
        }
        Destination::Made => judged(source, replace, &None),
        Destination::Refused => Decision::Untold,
    }
}

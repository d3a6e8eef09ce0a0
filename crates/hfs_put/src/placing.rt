//! How the items of a list are placed on a mounted volume.
ghost use Rattle.std.specs.Prelude.{◌≡◌, ◌++◌, [], IfOk, OnOk};
ghost use Rattle.std.specs.List.{cons_option};
ghost use Rattle.hfs_check.specs.VolumeOf.{volume_of};
ghost use Rattle.hfs_put.specs.Decisions.{inside};
ghost use Rattle.hfs_put.specs.PlacedSources.{ArePlaced, decisions, destination, directory_lock_code, item_put, lock_code, refused_at};

use crate::decisions::{Decision, Destination, decide};
use bitflags::Flags;
use hfs_fields::Mdb;
use hfs_model::{HARDWARE_LOCKED, SOFTWARE_LOCKED};
use hfs_put_plan::{PutItem, Why};
use hfs_put_sources::SourceItem;
use hfs_volume::Volume;
use std::alloc::{AllocError, Global};

/// An item that can't be put.
#[derive(Clone, Copy)]
pub struct RefusedItem {
    /// Its place in the list.
    pub place: usize,
    pub why: Why,
}

/// What happens to a list that is to be put.
#[derive(Drop)]
pub enum PlacedSources {
    /// All can be put: each item has the same place in this list as in that of the sources.
    All(Vec<PutItem>),
    /// These can't be put, in the order of the list. What is below one of them isn't reported.
    Refused(Vec<RefusedItem>),
}

/// The code for the locks in a volume's master directory block.
fn directory_lock_code(mdb: &Mdb) -> Option<i16>
    ensures { result ≡ directory_lock_code mdb.now }
{
    let attributes = mdb.attributes.bits();
    if attributes / 128 % 2 == 1 {
        return Some(HARDWARE_LOCKED);
    }
    if attributes / 32768 % 2 == 1 {
        return Some(SOFTWARE_LOCKED);
    }
    None
}

/// The code with which a locked volume refuses each call that changes it: -44 if it is locked by hardware, otherwise -46. None
/// for a volume that isn't locked.
pub fn lock_code(volume: &Volume) -> Option<i16>
    ensures { result ≡ lock_code (volume_of volume.now.current) }
{
    directory_lock_code(&volume.directory())
}

/// The folder into which an item is put: the target, or what its parent becomes.
fn destination(target: u32, insides: &[Destination], parent: Option<usize>) -> Destination
    ensures { result ≡ destination target insides.now parent }
{
    match parent {
        Some(place) => match insides.get(place) {
            Some(inside) => *inside,
            None => Destination::Made,
        },
        None => Destination::OnDisk(target),
    }
}

/// The folder for what is in an item.
fn inside(decision: &Decision) -> Destination
    ensures { result ≡ inside decision.now }
{
    match decision {
        Decision::Put { inside, .. } => *inside,
        Decision::Refused(_) => Destination::Refused,
        Decision::Untold => Destination::Refused,
    }
}

/// Notes what happens to the item at a place of the list.
fn note(
    items: &mut Vec<PutItem>,
    refused: &mut Vec<RefusedItem>,
    place: usize,
    decision: &Decision,
) -> Result<(), AllocError>
    ensures items { OnOk result (items.new.items
        ≡ items.old.items ++ cons_option (item_put decision.now) []) }
    ensures refused { OnOk result (refused.new.items
        ≡ refused.old.items ++ cons_option (refused_at place decision.now) []) }
{
    match decision {
        Decision::Put { item, .. } => {
            items.push(*item)?;
            Ok(())
        }
        Decision::Refused(why) => {
            refused.push(RefusedItem { place, why: *why })?;
            Ok(())
        }
        Decision::Untold => Ok(()),
    }
}

/// Finds how each item of a list is placed that is to be put into the folder `target`, in the order of the walk: the item itself,
/// if it can be put, with its kind, name, facts, lengths, and how it is placed; otherwise why it can't. A file that is in the
/// place of another file is replaced if `replace` says so. Each item is looked up once. Fails only when out of memory.
#[tactic(auto, using(crate::proofs::PlacedLists::so_far_next, crate::proofs::PlacedLists::so_far_put, crate::proofs::PlacedLists::so_far_told, crate::proofs::PlacedLists::placed_all))]
pub fn place_sources(
    alloc: Global,
    volume: &Volume,
    target: u32,
    replace: bool,
    sources: &[SourceItem],
) -> Result<PlacedSources, AllocError>
    ensures { IfOk result
        (ArePlaced (decisions (volume_of volume.now.current) target replace sources.now)) }
{
    let mut insides = Vec::new(alloc);
    let mut items = Vec::new(alloc);
    let mut refused = Vec::new(alloc);
    for source in sources {
        let place = insides.len();
        let into = destination(target, &insides, source.parent());
        let decision = decide(volume, replace, into, source);
        note(&mut items, &mut refused, place, &decision)?;
        insides.push(inside(&decision))?;
    }
    if refused.is_empty() {
        Ok(PlacedSources::All(items))
    } else {
        Ok(PlacedSources::Refused(refused))
    }
}

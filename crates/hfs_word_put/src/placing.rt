//! Where the items are placed on a volume.
ghost use Rattle.std.specs.Prelude.{◌≡◌, ℕ, Err, Some, MatchResult, Ok, OnOk, None, IfErr, IfOk, map, option_map};
ghost use Rattle.hfs_check.specs.VolumeOf.{volume_of};
ghost use Rattle.hfs_commands.specs.Entries.{entries_in};
ghost use Rattle.hfs_put.specs.PlacedSources.{decisions, item_put, lock_code};
ghost use Rattle.hfs_word_put.specs.Placed.{IsPlaced, TellsAny, locked_line, places_told, refusal, target_line};
ghost use Rattle.hfs_word_put.specs.Targets.{target_folder};

use crate::fault::PutFault;
use crate::lines::{line_at, refused_lines};
use crate::order::PutOrder;
use crate::reason::PutReason;
use crate::target::target_folder;
use hfs_commands::code_text;
use hfs_put::{PlacedSources, lock_code, place_sources};
use hfs_put_plan::PutItem;
use hfs_put_sources::SourceItem;
use hfs_volume::Volume;
use std::alloc::Global;

/// A list that can be put.
#[derive(Drop)]
pub struct PlacedList {
    /// The ID of the folder into which it is put.
    pub target: u32,
    /// Its items as they are put, in order.
    pub places: Vec<PutItem>,
}

/// Finds the folder into which the items are put.
fn find_target(alloc: Global, volume: &Volume, to: Option<&str>) -> Result<u32, PutFault<'static>>
    ensures { let found = target_folder (entries_in volume.now.current) (option_map (λ text. text.now) to.entry) in
        MatchResult result (λ target. found ≡ Ok target) (TellsAny (target_line found)) }
{
    match target_folder(alloc, volume, to)? {
        Ok(folder) => Ok(folder),
        Err(reply) => Err(PutFault::of_lines(code_text(alloc, &reply))),
    }
}

/// Checks that the volume isn't locked, if anything is put.
fn need_unlocked(
    alloc: Global,
    volume: &Volume,
    items: &[SourceItem],
) -> Result<(), PutFault<'static>>
    ensures { let line = locked_line (lock_code (volume_of volume.now.current)) items.now in
        MatchResult result (λ _. line ≡ None) (TellsAny line) }
{
    match lock_code(volume) {
        Some(code) if !items.is_empty() => {
            let reason = PutReason::Code(code);
            Err(PutFault::of_lines(line_at(alloc, items, 0, reason)))
        }
        _ => Ok(()),
    }
}

/// Finds the places of the items in a folder.
fn find_places(
    alloc: Global,
    volume: &Volume,
    target: u32,
    replace: bool,
    items: &[SourceItem],
) -> Result<Vec<PutItem>, PutFault<'static>>
    ensures none { OnOk result
        (places_told (volume_of volume.now.current) replace items.now target ≡ None) }
    ensures places { IfOk result (λ places.
        map item_put (decisions (volume_of volume.now.current) target replace items.now)
        ≡ map Some places.items) }
    ensures told { IfErr result
        (TellsAny (places_told (volume_of volume.now.current) replace items.now target)) }
{
    match place_sources(alloc, volume, target, replace, items)? {
        PlacedSources::All(places) => Ok(places),
        PlacedSources::Refused(refused) => {
            Err(PutFault::of_lines(refused_lines(alloc, items, &refused)))
        }
    }
}

/// Finds the folder of a volume into which a list is put, and how each item is placed. Faults, in this order: there is no such
/// folder; the volume is locked; all items that can't be put. Also out of memory.
pub fn place_all(
    alloc: Global,
    volume: &Volume,
    order: &PutOrder<'_>,
    items: &[SourceItem],
) -> Result<PlacedList, PutFault<'static>>
    ensures { MatchResult result (IsPlaced (volume_of volume.now.current) order.entry.now items.now)
        (TellsAny (refusal (volume_of volume.now.current) order.entry.now items.now)) }
{
    let target = find_target(alloc, volume, order.to)?;
    need_unlocked(alloc, volume, items)?;
    let places = find_places(alloc, volume, target, order.replace, items)?;
    Ok(PlacedList { target, places })
}

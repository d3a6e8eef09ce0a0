//! Folders of a list that are open, so that items may be put into them.
ghost use Rattle.std.specs.Prelude.{◌≡◌, ℕ, Ok, OnOk, IfErr};
ghost use Rattle.hfs_check.specs.VolumeOf.{volume_of};
ghost use Rattle.hfs_put_plan.specs.Put.{folder_id, is_at, left};
ghost use Rattle.hfs_put.specs.Faults.{IsLayFault, IsNoAbsence};
ghost use Rattle.hfs_put.specs.Folders.{LeavesOne, one_left, opens};

use crate::calls::end_item;
use crate::faults::{LayFault, fault_at};
use hfs_put_plan::PutItem;
use hfs_volume::Volume;
use std::alloc::Global;

/// A folder of a list that is open.
#[derive(Clone, Copy)]
pub struct OpenFolder {
    /// Its place in the list.
    pub place: usize,
    pub id: u32,
    /// The folder that it is in.
    pub dir: u32,
    pub item: PutItem,
}

/// Whether the parent is the item at a place.
fn is_at(parent: Option<usize>, place: usize) -> bool
    ensures { result ≡ is_at parent place }
{
    match parent {
        Some(parent) => parent == place,
        None => false,
    }
}

/// The ID of the innermost open folder, or the target.
pub(crate) fn folder_id(target: u32, folders: &[OpenFolder]) -> u32
    ensures { (now : ℕ) → result ≡ folder_id target (opens now folders.now) }
{
    match folders.last() {
        Some(folder) => folder.id,
        None => target,
    }
}

/// Leaves a folder: makes the calls that come after everything in it.
#[tactic(auto, using(crate::proofs::Absences::none_is_absent))]
fn leave_one(
    alloc: Global,
    volume: &mut Volume,
    folder: &OpenFolder,
    now: u32,
) -> Result<(), LayFault>
    ensures ok { OnOk result (LeavesOne now folder.now (volume_of volume.old.current)
        (volume_of volume.new.current)) }
    ensures err { IfErr result (IsLayFault (one_left now folder.now (volume_of volume.old.current))
        volume.new.current) }
    ensures absent { IfErr result IsNoAbsence }
    ensures base { volume.new.base ≡ volume.old.base }
{
    match end_item(alloc, volume, folder.dir, &folder.item, now) {
        Ok(()) => Ok(()),
        Err(fault) => Err(fault_at(folder.place, fault)),
    }
}

/// Leaves the open folders, innermost first, up to the one that the next item is in.
#[tactic(auto, using(crate::proofs::FolderRows::left_there, crate::proofs::FolderRows::left_none))]
pub(crate) fn leave(
    alloc: Global,
    volume: &mut Volume,
    folders: &mut Vec<OpenFolder>,
    parent: Option<usize>,
    now: u32,
) -> Result<(), LayFault>
    ensures ok { OnOk result
        (left parent (volume_of volume.old.current) (opens now folders.old.items)
        ≡ Ok (volume_of volume.new.current, opens now folders.new.items)) }
    ensures err { IfErr result (IsLayFault
        (left parent (volume_of volume.old.current) (opens now folders.old.items)) volume.new.current) }
    ensures absent { IfErr result IsNoAbsence }
    ensures base { volume.new.base ≡ volume.old.base }
{
    while let Some(folder) = folders.pop() {
        if is_at(parent, folder.place) {
            folders.push(folder)?;
            return Ok(());
        }
        leave_one(alloc, volume, &folder, now)?;
    }
    Ok(())
}

//! Laying a list of items on a mounted volume.
ghost use Rattle.std.specs.Prelude.{◌≡◌, ℕ, Ok, OnOk, IfOk, IfErr, IfNone, IfSome};
ghost use Rattle.hfs_check.specs.VolumeOf.{volume_of};
ghost use Rattle.hfs_put_plan.specs.Accepted.{all_accepted};
ghost use Rattle.hfs_put_plan.specs.Put.{filling, folder_id, id_named, opened};
ghost use Rattle.hfs_put.specs.Faults.{IsAbsentAt, IsCallFault, IsLayFault};
ghost use Rattle.hfs_put.specs.declared.faults.LayFault.TheVariants as lay_fault;
ghost use Rattle.hfs_put.specs.Folders.{open_of, opens};
ghost use Rattle.hfs_put.specs.Laying.{AreLaid, IsAbsence, IsFaultOfLaying, IsOneLaid, IsPlaced, LacksName, LacksOne, Stands, bare, id_in, id_told, one_laid, placed_in, standing};

use crate::calls::{end_item, make_item};
use crate::faults::{CallFault, LayFault, fault_at};
use crate::folders::{OpenFolder, folder_id, leave};
use hfs_model::{ItemKind, Value};
use hfs_put_plan::PutItem;
use hfs_volume::Volume;
use std::alloc::Global;

/// The ID in a value about one item.
fn id_in(value: &Value) -> Option<u32>
    ensures { result ≡ id_in value.now }
{
    match value {
        Value::One(info) => Some(info.id),
        Value::Nothing
        | Value::Id(_)
        | Value::Many(_)
        | Value::Bytes(_)
        | Value::Full { .. }
        | Value::Room { .. }
        | Value::ExtentNodes { .. }
        | Value::Place { .. } => None,
    }
}

/// The ID of a folder's item of that name.
#[tactic(auto, using(crate::proofs::NamedIds::named))]
fn id_named(volume: &Volume, dir: u32, name: &[u8]) -> Option<u32>
    ensures named { IfSome result (λ id. id ≡ id_named (volume_of volume.now.current) dir name.now) }
    ensures told { result ≡ id_told (volume_of volume.now.current) dir name.now }
{
    let reply = volume.get_cat_info(dir, name);
    id_in(&reply.value)
}

/// Makes the calls that come after a file's bytes; for a folder there are none yet.
fn end_file(
    alloc: Global,
    volume: &mut Volume,
    dir: u32,
    item: &PutItem,
    now: u32,
) -> Result<(), CallFault>
    ensures ok { OnOk result (all_accepted (volume_of volume.old.current)
        (filling item.now.kind dir (bare item.now) now) ≡ Ok (volume_of volume.new.current)) }
    ensures err { IfErr result (IsCallFault (all_accepted (volume_of volume.old.current)
        (filling item.now.kind dir (bare item.now) now)) volume.new.current) }
    ensures base { volume.new.base ≡ volume.old.base }
{
    match item.kind {
        ItemKind::Folder => Ok(()),
        ItemKind::File => end_item(alloc, volume, dir, item, now),
    }
}

/// Makes an item, a file without its bytes, and returns its ID; None for a folder to be kept that doesn't exist.
#[tactic(auto, using(crate::proofs::Absences::lacks_name, crate::proofs::PlacedItems::stands, crate::proofs::PlacedItems::make_fault, crate::proofs::PlacedItems::end_fault))]
fn stand(
    alloc: Global,
    volume: &mut Volume,
    dir: u32,
    item: &PutItem,
    now: u32,
) -> Result<Option<u32>, CallFault>
    ensures ok { IfOk result (λ id. IfSome id (Stands now dir item.now
        (volume_of volume.old.current) (volume_of volume.new.current))) }
    ensures absent { IfOk result (λ id. IfNone id (LacksName now dir item.now
        (volume_of volume.old.current) (volume_of volume.new.current))) }
    ensures err { IfErr result (IsCallFault (standing now dir item.now (volume_of volume.old.current))
        volume.new.current) }
    ensures base { volume.new.base ≡ volume.old.base }
{
    make_item(alloc, volume, dir, item, now)?;
    let Some(id) = id_named(volume, dir, item.name.bytes()) else {
        return Ok(None);
    };
    end_file(alloc, volume, dir, item, now)?;
    Ok(Some(id))
}

/// Opens a folder, so that items may be put into it. For a file nothing is opened.
fn open(folders: &mut Vec<OpenFolder>, folder: OpenFolder) -> Result<(), LayFault>
    ensures ok { OnOk result ((now : ℕ) → opens now folders.new.items
        ≡ opened folder.item.kind (open_of now folder) (opens now folders.old.items)) }
    ensures err { IfErr result (λ fault. fault ≡ lay_fault.NoMemory) }
{
    match folder.item.kind {
        ItemKind::Folder => {
            folders.push(folder)?;
            Ok(())
        }
        ItemKind::File => Ok(()),
    }
}

/// Puts the item at a place of the list into the innermost open folder, or into the target, and returns its ID.
#[tactic(auto, using(crate::proofs::Absences::lacks_there, crate::proofs::Absences::call_tells_none, crate::proofs::Absences::memory_is_absent, crate::proofs::PlacedItems::is_placed, crate::proofs::PlacedItems::placed_fault))]
fn place_item(
    alloc: Global,
    volume: &mut Volume,
    folders: &mut Vec<OpenFolder>,
    target: u32,
    now: u32,
    place: usize,
    item: &PutItem,
) -> Result<u32, LayFault>
    ensures ok { IfOk result (IsPlaced target now place item.now
        (volume_of volume.old.current) (opens now folders.old.items)
        (volume_of volume.new.current) (opens now folders.new.items)) }
    ensures absent { IfErr result (IsAbsentAt place
        (LacksName now (folder_id target (opens now folders.old.items)) item.now
        (volume_of volume.old.current) (volume_of volume.new.current))) }
    ensures err { IfErr result (IsLayFault (placed_in target now place item.now
        (volume_of volume.old.current) (opens now folders.old.items)) volume.new.current) }
    ensures base { volume.new.base ≡ volume.old.base }
{
    let dir = folder_id(target, folders);
    match stand(alloc, volume, dir, item, now) {
        Ok(Some(id)) => {
            open(
                folders,
                OpenFolder {
                    place,
                    id,
                    dir,
                    item: *item,
                },
            )?;
            Ok(id)
        }
        Ok(None) => Err(LayFault::Absent { place }),
        Err(fault) => Err(fault_at(place, fault)),
    }
}

/// Leaves the folders that the item at a place of the list isn't in, then puts it, and returns its ID.
#[tactic(auto, using(crate::proofs::Absences::lacks_one, crate::proofs::Absences::other_is_absent, crate::proofs::PlacedItems::left_fault_first, crate::proofs::PlacedItems::one_is))]
fn lay_one(
    alloc: Global,
    volume: &mut Volume,
    folders: &mut Vec<OpenFolder>,
    target: u32,
    now: u32,
    place: usize,
    item: &PutItem,
) -> Result<u32, LayFault>
    ensures ok { IfOk result (IsOneLaid target now place item.now
        (volume_of volume.old.current) (opens now folders.old.items)
        (volume_of volume.new.current) (opens now folders.new.items)) }
    ensures absent { IfErr result (IsAbsentAt place (LacksOne target now item.now
        (volume_of volume.old.current) (opens now folders.old.items)
        (volume_of volume.new.current))) }
    ensures err { IfErr result (IsLayFault (one_laid target now place item.now
        (volume_of volume.old.current) (opens now folders.old.items)) volume.new.current) }
    ensures base { volume.new.base ≡ volume.old.base }
{
    leave(alloc, volume, folders, item.parent, now)?;
    place_item(alloc, volume, folders, target, now, place, item)
}

/// Puts a list of items into a folder of a volume with all calls except those that write forks, at a moment, and returns the IDs
/// of the items, in the order of the list. Faults: the first call that is refused, with the place of its item; the calls before
/// it have been made. `Absent` if an item is to be kept that doesn't exist; out of memory.
#[tactic(auto, using(crate::proofs::LaidLists::laid_all, crate::proofs::LaidLists::fault_all))]
pub fn lay_items(
    alloc: Global,
    volume: &mut Volume,
    target: u32,
    now: u32,
    items: &[PutItem],
) -> Result<Vec<u32>, LayFault>
    ensures ok { IfOk result (λ ids. AreLaid target now items.now (volume_of volume.old.current)
        (volume_of volume.new.current) ids.items) }
    ensures absent { IfErr result (IsAbsence target now items.now
        (volume_of volume.old.current) (volume_of volume.new.current)) }
    ensures err { IfErr result (IsFaultOfLaying target now items.now
        (volume_of volume.old.current) volume.new.current) }
    ensures base { volume.new.base ≡ volume.old.base }
{
    let mut folders = Vec::new(alloc);
    let mut ids = Vec::new(alloc);
    for item in items {
        let place = ids.len();
        let id = lay_one(alloc, volume, &mut folders, target, now, place, item)?;
        ids.push(id)?;
    }
    leave(alloc, volume, &mut folders, None, now)?;
    Ok(ids)
}

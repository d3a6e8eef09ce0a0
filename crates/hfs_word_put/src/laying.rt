//! What the calls that put a list make of a volume, except for the bytes of forks.
ghost use Rattle.std.specs.Prelude.{◌≡◌, IfErr, IfOk};
ghost use Rattle.hfs_blocks.specs.Blocks.{block_at, block_count};
ghost use Rattle.hfs_check.specs.VolumeOf.{volume_of};
ghost use Rattle.hfs_blocks.specs.Layers.{changes, AreWithin};
ghost use Rattle.hfs_check.specs.Parts.{mdb_in};
ghost use Rattle.hfs_put.specs.PutImages.{HasDirectory, IsPutOver};
ghost use Rattle.hfs_word_put.specs.Laid.{IsUnlaid, TellsLay, reply_reason, wants_of};

use crate::fault::PutFault;
use crate::lines::line_at;
use crate::placing::PlacedList;
use crate::reason::PutReason;
use crate::wants::wanted_of;
use hfs_commands::Fault;
use hfs_model::{NOT_FOUND, Reply, Value};
use hfs_put::{LayFault, PutBlocks, put_items};
use hfs_put_plan::PutItem;
use hfs_put_sources::SourceItem;
use hfs_volume::Volume;
use std::alloc::Global;

/// How many allocation blocks are free, and how many a list wants.
#[derive(Clone, Copy)]
pub struct BlockWants {
    pub free: u32,
    pub wanted: u64,
}

/// What is free on a volume, and what a list wants.
pub fn wants_of(volume: &Volume, places: &[PutItem]) -> BlockWants
    ensures { result ≡ wants_of (block_at volume.now.current) places.now }
{
    let directory = volume.directory();
    BlockWants {
        free: u32::from(directory.free_blocks),
        wanted: wanted_of(directory.allocation_block_size, places),
    }
}

/// Why an item can't be put, from the reply to one of its calls.
fn reason_of_reply(reply: &Reply, wants: BlockWants) -> PutReason
    ensures { result ≡ reply_reason reply.now wants }
{
    match reply.value {
        Value::Room { .. } => PutReason::Room {
            free: wants.free,
            wanted: wants.wanted,
        },
        Value::Full { free, depth } | Value::ExtentNodes { free, depth } => {
            PutReason::Full { free, depth }
        }
        Value::Nothing
        | Value::Id(_)
        | Value::One(_)
        | Value::Many(_)
        | Value::Bytes(_)
        | Value::Place { .. } => PutReason::Code(reply.code),
    }
}

/// The fault for a list that was not laid.
pub fn of_lay(
    alloc: Global,
    fault: LayFault,
    items: &[SourceItem],
    wants: BlockWants,
) -> PutFault<'static>
    ensures { TellsLay items.now wants fault result }
{
    match fault {
        LayFault::NoMemory => PutFault::Image(Fault::NoMemory),
        LayFault::Absent { place } => {
            let reason = PutReason::Code(NOT_FOUND);
            PutFault::of_lines(line_at(alloc, items, place, reason))
        }
        LayFault::Refused { place, reply } => {
            let reason = reason_of_reply(&reply, wants);
            PutFault::of_lines(line_at(alloc, items, place, reason))
        }
    }
}

/// Makes all calls that put a list on a volume, except those that write forks, and returns the blocks to be written. Fault: the
/// first call that is refused; if there are too few blocks, with those that were free at first and all that the list wants.
pub fn lay_all(
    alloc: Global,
    volume: &mut Volume,
    list: &PlacedList,
    items: &[SourceItem],
    now: u32,
) -> Result<PutBlocks, PutFault<'static>>
    requires { volume.old.current ≡ volume.old.base }
    ensures put { IfOk result (λ put. IsPutOver volume.old.base volume.new.current list.now.target now
        list.now.places.items put.patch put.runs.items put.ids.items) }
    ensures directory { IfOk result (λ put. HasDirectory volume.old.base list.now.places.items
        put.patch put.runs.items (mdb_in (block_at volume.new.current))) }
    ensures within { IfOk result (λ put. AreWithin (changes put.patch) (block_count volume.old.base)) }
    ensures fault { IfErr result (IsUnlaid list.now now items.now
        (wants_of (block_at volume.old.current) list.now.places.items)
        (volume_of volume.old.base) volume.new.current) }
{
    let wants = wants_of(volume, &list.places);
    match put_items(alloc, volume, list.target, now, &list.places) {
        Ok(put) => Ok(put),
        Err(fault) => Err(of_lay(alloc, fault, items, wants)),
    }
}

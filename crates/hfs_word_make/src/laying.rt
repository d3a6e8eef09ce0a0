//! A list is put on a new volume that is mounted, as far as the nodes of its catalog suffice.
ghost use Rattle.std.specs.Prelude.{◌≡◌, IfErr, IfOk, IfSome, MatchOption};
ghost use Rattle.hfs_blocks.specs.Blocks.{block_at, block_count};
ghost use Rattle.hfs_blocks.specs.Layers.{changes, AreWithin};
ghost use Rattle.hfs_check.specs.Parts.{mdb_in};
ghost use Rattle.hfs_check.specs.VolumeOf.{volume_of};
ghost use Rattle.hfs_word_make.specs.Filled.{IsFullOn, IsLaidOn, is_full, is_full_value};
ghost use Rattle.hfs_word_put.specs.Laid.{IsUnlaid, wants_of};
ghost use Rattle.hfs_word_put.specs.Sums.{put_sums};

use hfs_model::{Reply, Value};
use hfs_put::{LayFault, put_items};
use hfs_put_plan::PutItem;
use hfs_put_sources::SourceItem;
use hfs_volume::Volume;
use hfs_word_put::{PlacedList, PutFault, PutList, PutSums, of_lay, put_sums, wants_of};
use std::alloc::Global;

/// Whether a reply tells that the nodes of the catalog don't suffice.
fn is_full_reply(reply: &Reply) -> bool
    ensures { result ≡ is_full_value reply.now.value }
{
    match reply.value {
        Value::Full { .. } => true,
        Value::Nothing
        | Value::Id(_)
        | Value::One(_)
        | Value::Many(_)
        | Value::Bytes(_)
        | Value::Room { .. }
        | Value::ExtentNodes { .. }
        | Value::Place { .. } => false,
    }
}

/// Whether a list was not laid since the nodes of the catalog don't suffice.
fn is_full(fault: &LayFault) -> bool
    ensures { result ≡ is_full fault.now }
{
    match fault {
        LayFault::Refused { place: _, reply } => is_full_reply(reply),
        LayFault::Absent { .. } => false,
        LayFault::NoMemory => false,
    }
}

/// How much was put of a list on a volume.
fn sums_of(volume: &Volume, places: &[PutItem]) -> PutSums
    ensures { result ≡ put_sums places.now (mdb_in (block_at volume.now.current)).free_blocks }
{
    put_sums(places, u32::from(volume.directory().free_blocks))
}

/// Puts a placed list on a volume that was mounted just now; none where the nodes of its catalog don't suffice. Fault: the first call
/// that is refused for another reason. Or want of memory.
pub(crate) fn lay_list(
    alloc: Global,
    volume: &mut Volume,
    list: &PlacedList,
    items: &[SourceItem],
    now: u32,
) -> Result<Option<PutList>, PutFault<'static>>
    requires { volume.old.current ≡ volume.old.base }
    ensures laid { IfOk result (λ laid.
        MatchOption laid (IsFullOn list.now now (volume_of volume.old.base))
        (IsLaidOn list.now now volume.old.base volume.new.current)) }
    ensures within { IfOk result (λ laid. IfSome laid (λ put.
        AreWithin (changes put.blocks.patch) (block_count volume.old.base))) }
    ensures fault { IfErr result (IsUnlaid list.now now items.now
        (wants_of (block_at volume.old.base) list.now.places.items)
        (volume_of volume.old.base) volume.new.current) }
{
    let wants = wants_of(volume, &list.places);
    match put_items(alloc, volume, list.target, now, &list.places) {
        Ok(blocks) => {
            let sums = sums_of(volume, &list.places);
            Ok(Some(PutList { blocks, sums }))
        }
        Err(fault) => {
            if is_full(&fault) {
                Ok(None)
            } else {
                Err(of_lay(alloc, fault, items, wants))
            }
        }
    }
}

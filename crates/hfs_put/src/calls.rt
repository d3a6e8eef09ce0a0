//! Calls on a mounted volume, each of which must be accepted.
ghost use Rattle.std.specs.Prelude.{◌≡◌, [], Ok, OnOk, IfErr};
ghost use Rattle.std.specs.List.{cons_option};
ghost use Rattle.hfs_check.specs.VolumeOf.{volume_of};
ghost use Rattle.hfs_put_plan.specs.Accepted.{accepted, all_accepted};
ghost use Rattle.hfs_put_plan.specs.Calls.{somes, making, ending};
ghost use Rattle.hfs_put.specs.Faults.{IsCallFault};

use crate::faults::CallFault;
use hfs_model::Call;
use hfs_put_plan::{ENDING_CALLS, MAKING_CALLS, PutItem, ending_call, making_call};
use hfs_volume::Volume;
use std::alloc::Global;

/// Makes a call.
fn make(alloc: Global, volume: &mut Volume, call: &Call) -> Result<(), CallFault>
    ensures ok { OnOk result
        (accepted (volume_of volume.old.current) call.now ≡ Ok (volume_of volume.new.current)) }
    ensures err { IfErr result
        (IsCallFault (accepted (volume_of volume.old.current) call.now) volume.new.current) }
    ensures base { volume.new.base ≡ volume.old.base }
{
    let reply = volume.call(alloc, call)?;
    if reply.code != 0 {
        return Err(CallFault::Refused(reply));
    }
    Ok(())
}

/// Makes a call, if there is one.
fn make_any(alloc: Global, volume: &mut Volume, call: Option<Call>) -> Result<(), CallFault>
    ensures ok { OnOk result (all_accepted (volume_of volume.old.current) (cons_option call [])
        ≡ Ok (volume_of volume.new.current)) }
    ensures err { IfErr result (IsCallFault
        (all_accepted (volume_of volume.old.current) (cons_option call [])) volume.new.current) }
    ensures base { volume.new.base ≡ volume.old.base }
{
    match call {
        Some(call) => make(alloc, volume, &call),
        None => Ok(()),
    }
}

/// Makes the calls that make an item in a folder.
pub(crate) fn make_item(
    alloc: Global,
    volume: &mut Volume,
    dir: u32,
    item: &PutItem,
    now: u32,
) -> Result<(), CallFault>
    ensures ok { OnOk result (all_accepted (volume_of volume.old.current)
        (somes (making dir item.now now)) ≡ Ok (volume_of volume.new.current)) }
    ensures err { IfErr result (IsCallFault (all_accepted (volume_of volume.old.current)
        (somes (making dir item.now now))) volume.new.current) }
    ensures base { volume.new.base ≡ volume.old.base }
{
    for place in 0..MAKING_CALLS {
        let call = making_call(alloc, dir, item, now, place)?;
        make_any(alloc, volume, call)?;
    }
    Ok(())
}

/// Makes the calls that come after the bytes of a file, or after everything in a folder.
pub(crate) fn end_item(
    alloc: Global,
    volume: &mut Volume,
    dir: u32,
    item: &PutItem,
    now: u32,
) -> Result<(), CallFault>
    ensures ok { OnOk result (all_accepted (volume_of volume.old.current)
        (somes (ending dir item.now now)) ≡ Ok (volume_of volume.new.current)) }
    ensures err { IfErr result (IsCallFault (all_accepted (volume_of volume.old.current)
        (somes (ending dir item.now now))) volume.new.current) }
    ensures base { volume.new.base ≡ volume.old.base }
{
    for place in 0..ENDING_CALLS {
        let call = ending_call(alloc, dir, item, now, place)?;
        make_any(alloc, volume, call)?;
    }
    Ok(())
}

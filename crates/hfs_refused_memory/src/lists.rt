//! A list of calls, while memory is refused once. What they make of the bytes is laid by hand: in block 7 the record of the file
//! `f` has its body from byte 286 on.

use crate::bytes::{has_edited, small_volume};
use anyhow::Result;
use hfs_model::Call;
use hfs_volume::Volume;
use hfs_volume_fixtures::refused::{Edit, call_of};
use std::alloc::Global;

/// The bytes 1 to 16.
const ONE_TO_SIXTEEN: [u8; 16] = [1, 2, 3, 4, 5, 6, 7, 8, 9, 10, 11, 12, 13, 14, 15, 16];

/// SetFInfo of `f` with these bytes, as a script has it.
const SETTING: &[u8] = b"setfinfo\t16\tf\t0102030405060708090a0b0c0d0e0f10";

/// SetFInfo and SetFLock of one file.
fn two_calls(alloc: Global) -> Result<Vec<Call>> {
    let mut calls = Vec::new(alloc);
    calls.push(call_of(alloc, SETTING)?)?;
    calls.push(call_of(alloc, b"lock\t16\tf")?)?;
    Ok(calls)
}

/// Whether each call of a list has the code 0. None if memory is refused.
fn are_made(alloc: Global, volume: &mut Volume) -> Result<Option<bool>> {
    let calls = two_calls(alloc)?;
    match volume.run(alloc, &calls) {
        Ok(replies) => Ok(Some(replies.iter().all(|reply| reply.code == 0))),
        Err(_refused) => Ok(None),
    }
}

/// The moment of both calls.
const MOMENT: Edit<'static> = Edit {
    block: 2,
    at: 6,
    bytes: &[0, 0, 0, 7],
};

/// What SetFInfo lays.
const INFO: Edit<'static> = Edit {
    block: 7,
    at: 290,
    bytes: &ONE_TO_SIXTEEN,
};

/// What SetFLock lays.
const LOCK: Edit<'static> = Edit {
    block: 7,
    at: 288,
    bytes: &[0x81],
};

/// What is laid after SetFInfo.
const BETWEEN: [Edit<'static>; 2] = [MOMENT, INFO];

/// What is laid after both calls.
const AFTER: [Edit<'static>; 3] = [MOMENT, INFO, LOCK];

/// Whether a list of both calls runs on a volume as promised.
fn runs_on(alloc: Global, volume: &mut Volume) -> Result<bool> {
    let are_made = are_made(alloc, volume)?;
    if has_edited(alloc, volume, &AFTER)? {
        return Ok(are_made.unwrap_or(true));
    }
    let is_front = has_edited(alloc, volume, &[])? || has_edited(alloc, volume, &BETWEEN)?;
    Ok(are_made.is_none() && is_front)
}

/// Whether a list of SetFInfo and SetFLock of one file runs as promised. If memory is refused, the calls before the one that met
/// it have been made: the bytes are those before both, between both or, if the row of replies had no room, after both.
pub fn runs(alloc: Global) -> Result<bool> {
    let mut volume = small_volume(alloc)?;
    runs_on(alloc, &mut volume)
}

//! Reading the calls on forks from their fields.

ghost use Rattle.std.specs.Prelude.{◌≡◌, IfOk};
ghost use Rattle.hfs_scripts.specs.Calls.{part_of, read_of, set_eof_of, written_of, write_of};
ghost use Rattle.hfs_scripts.specs.Fields.{texts_of};

use crate::fields::{read_bytes, read_fork};
use crate::numbers::{read_number, read_two_numbers};
use hfs_model::{Call, Fork, SharedBytes};
use std::alloc::{AllocError, Global};

#[tactic(auto, unfolding(crate::specs::Calls::read_of))]
pub(crate) fn read_read(alloc: Global, fields: &[&[u8]]) -> Result<Option<Call>, AllocError>
    ensures { IfOk result (λ call. call ≡ read_of (texts_of fields.now)) }
{
    let [dir, name, fork, offset, count] = fields else {
        return Ok(None);
    };
    let Some((dir, fork)) = read_number(dir).zip(read_fork(fork)) else {
        return Ok(None);
    };
    read_part(alloc, dir, name, fork, offset, count)
}

// The part of a fork that OFFSET and COUNT name.
fn read_part(
    alloc: Global,
    dir: u32,
    name: &[u8],
    fork: Fork,
    offset: &[u8],
    count: &[u8],
) -> Result<Option<Call>, AllocError>
    ensures { IfOk result (λ call. call ≡ part_of dir name.now fork offset.now count.now) }
{
    let Some((offset, count)) = read_two_numbers(offset, count) else {
        return Ok(None);
    };
    let name = SharedBytes::from_slice(alloc, name)?;
    Ok(Some(Call::ReadFork {
        dir,
        name,
        fork,
        offset,
        count,
    }))
}

#[tactic(auto, unfolding(crate::specs::Calls::set_eof_of))]
pub(crate) fn read_set_eof(
    alloc: Global,
    fields: &[&[u8]],
    now: u32,
) -> Result<Option<Call>, AllocError>
    ensures { IfOk result (λ call. call ≡ set_eof_of now (texts_of fields.now)) }
{
    let [dir, name, fork, length] = fields else {
        return Ok(None);
    };
    let Some((dir, fork)) = read_number(dir).zip(read_fork(fork)) else {
        return Ok(None);
    };
    let Some(length) = read_number(length) else {
        return Ok(None);
    };
    let name = SharedBytes::from_slice(alloc, name)?;
    Ok(Some(Call::SetEof {
        dir,
        name,
        fork,
        length,
        now,
    }))
}

#[tactic(auto, unfolding(crate::specs::Calls::write_of))]
pub(crate) fn read_write(
    alloc: Global,
    fields: &[&[u8]],
    now: u32,
) -> Result<Option<Call>, AllocError>
    ensures { IfOk result (λ call. call ≡ write_of now (texts_of fields.now)) }
{
    let [dir, name, fork, offset, bytes] = fields else {
        return Ok(None);
    };
    let Some((dir, fork)) = read_number(dir).zip(read_fork(fork)) else {
        return Ok(None);
    };
    read_written(alloc, dir, name, fork, offset, bytes, now)
}

// The bytes of a fork that OFFSET and HEX name.
fn read_written(
    alloc: Global,
    dir: u32,
    name: &[u8],
    fork: Fork,
    offset: &[u8],
    bytes: &[u8],
    now: u32,
) -> Result<Option<Call>, AllocError>
    ensures { IfOk result (λ call.
        call ≡ written_of now dir name.now fork offset.now bytes.now) }
{
    let Some(offset) = read_number(offset) else {
        return Ok(None);
    };
    let Some(bytes) = read_bytes(alloc, bytes)? else {
        return Ok(None);
    };
    let name = SharedBytes::from_slice(alloc, name)?;
    Ok(Some(Call::WriteFork {
        dir,
        name,
        fork,
        offset,
        bytes,
        now,
    }))
}

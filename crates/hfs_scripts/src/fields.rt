//! The fields of a script's line.
ghost use Rattle.std.specs.Prelude.{◌≡◌, IfOk, take};
ghost use Rattle.hfs_scripts.specs.Fields.{fields_of, bytes_of, few_bytes_of, fork_of, texts_of};

use arrayvec::ArrayVec;
use hex::{FromHex, FromHexError};
use hfs_model::{Fork, SharedBytes};
use std::alloc::{AllocError, Global};

/// The most hexadecimal digits that a line has for bytes of a fork.
const MOST_DIGITS: usize = 131_072;

/// The fields of a line; only the first nine if there are more, since no line that can be read has that many. Takes no memory.
#[tactic(auto, unfolding(crate::specs::Fields::fields_of))]
pub(crate) fn split_fields(alloc: Global, line: &[u8]) -> Result<ArrayVec<&[u8], 9>, AllocError>
    ensures { IfOk result (λ fields. texts_of fields.items ≡ take 9 (fields_of line.now)) }
{
    line.split(|byte| *byte == b'\t').take(9).collect(alloc)
}

/// Sixteen bytes, as 32 hexadecimal digits of either case.
#[tactic(auto, unfolding(crate::specs::Fields::bytes_of))]
pub(crate) fn read_16_bytes(field: &[u8]) -> Option<[u8; 16]>
    ensures { result ≡ bytes_of 16 field.now }
{
    <[u8; 16] as FromHex>::from_hex(field).ok()
}

/// 32 bytes, as 64 hexadecimal digits of either case.
#[tactic(auto, unfolding(crate::specs::Fields::bytes_of))]
pub(crate) fn read_32_bytes(field: &[u8]) -> Option<[u8; 32]>
    ensures { result ≡ bytes_of 32 field.now }
{
    <[u8; 32] as FromHex>::from_hex(field).ok()
}

/// At most 65,536 bytes, each as two hexadecimal digits of either case. `Err` only when out of memory.
#[tactic(auto, unfolding(crate::specs::Fields::few_bytes_of))]
pub(crate) fn read_bytes(alloc: Global, field: &[u8]) -> Result<Option<SharedBytes>, AllocError>
    ensures { IfOk result (λ bytes. bytes ≡ few_bytes_of field.now) }
{
    if field.len() > MOST_DIGITS {
        return Ok(None);
    }
    match hex::decode(alloc, field) {
        Ok(bytes) => Ok(Some(SharedBytes::from_vec(bytes)?)),
        Err(FromHexError::OutOfMemory) => Err(AllocError),
        Err(
            FromHexError::InvalidHexCharacter { .. }
            | FromHexError::OddLength
            | FromHexError::InvalidStringLength,
        ) => Ok(None),
    }
}

/// A fork, by its word.
#[tactic(auto, unfolding(crate::specs::Fields::fork_of))]
pub(crate) fn read_fork(field: &[u8]) -> Option<Fork>
    ensures { result ≡ fork_of field.now }
{
    if field == b"data".as_slice() {
        Some(Fork::DataFork)
    } else if field == b"res".as_slice() {
        Some(Fork::ResFork)
    } else {
        None
    }
}

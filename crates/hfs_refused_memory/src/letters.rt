//! Files in the root with the names `a`, `b` and so on.
use hfs_model::{Call, Info, Reply, SharedBytes, Value};
use std::alloc::{AllocError, Global};

/// Create of a file in the root, at the moment 7.
pub fn create(alloc: Global, name: &[u8]) -> Result<Call, AllocError> {
    Ok(Call::Create {
        dir: 2,
        name: SharedBytes::from_slice(alloc, name)?,
        now: 7,
    })
}

/// Whether these are the files `a`, `b` and so on.
fn are_letters(infos: &[Info]) -> bool {
    infos
        .iter()
        .zip(b'a'..=b'z')
        .all(|(info, letter)| info.name.bytes() == [letter].as_slice())
}

/// How many files a list has, if they are `a`, `b` and so on.
pub fn letters_in(reply: &Reply) -> Option<usize> {
    match &reply.value {
        Value::Many(infos) if are_letters(infos.as_slice()) => Some(infos.as_slice().len()),
        Value::Many(_)
        | Value::Nothing
        | Value::Id(_)
        | Value::One(_)
        | Value::Bytes(_)
        | Value::Full { .. }
        | Value::Room { .. }
        | Value::ExtentNodes { .. }
        | Value::Place { .. } => None,
    }
}

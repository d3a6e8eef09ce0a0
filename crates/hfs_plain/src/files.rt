//! Files by their paths.

use crate::fault::Fault;
use hfs_texts::{load, load_within};
use std::fs::File;
use std::rt::Files;

/// The most bytes of a script.
const SCRIPT_LIMIT: u64 = 16_777_216;

/// All bytes of an image's file.
pub fn load_image<'a, R: Files + AllocGlobal>(rt: &R, path: &'a str) -> Result<Vec<u8>, Fault<'a>> {
    let Ok(mut file) = File::open(rt, path) else {
        return Err(Fault::CannotRead(path));
    };
    match load(rt.alloc(), &mut file) {
        Ok(bytes) => Ok(bytes),
        Err(fault) => Err(Fault::of_image(fault, path)),
    }
}

/// All bytes of a script's file.
pub fn load_script<'a, R: Files + AllocGlobal>(
    rt: &R,
    path: &'a str,
) -> Result<Vec<u8>, Fault<'a>> {
    let Ok(mut file) = File::open(rt, path) else {
        return Err(Fault::CannotRead(path));
    };
    match load_within(rt.alloc(), &mut file, SCRIPT_LIMIT) {
        Ok(bytes) => Ok(bytes),
        Err(fault) => Err(Fault::of_script_file(fault, path)),
    }
}

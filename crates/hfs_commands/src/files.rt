//! Files by their paths.
ghost use Rattle.std.specs.Prelude.{◌≤◌, IfErr, IfOk, length};
ghost use Rattle.hfs_commands.specs.Faults.{IsUnreadScript};

use crate::fault::Fault;
use hfs_texts::{LoadFault, load_within};
use std::fs::{File, OpenFile};
use std::rt::Files;

/// How many bytes a regular file has, if any. The system's own files, which have bytes but report a length of 0, don't count.
pub(crate) fn regular_len<F: OpenFile>(file: &F) -> Option<u64> {
    let Ok(metadata) = file.metadata() else {
        return None;
    };
    if !metadata.is_file() || metadata.len() == 0 {
        return None;
    }
    Some(metadata.len())
}

/// The most bytes of a script.
const SCRIPT_LIMIT: u64 = 16_777_216;

/// All bytes of a script's file, at most 16,777,216. Faults: `CannotRead` if it can't be opened or a read fails, `ScriptTooLarge`
/// if it has more, `NoMemory`.
pub fn load_script<'a, R: Files + AllocGlobal>(rt: &R, path: &'a str) -> Result<Vec<u8>, Fault<'a>>
    ensures limit { IfOk result (λ bytes. length bytes.items ≤ 16777216) }
    ensures faults { IfErr result (λ why. IsUnreadScript path.entry why) }
{
    let Ok(mut file) = File::open(rt, path) else {
        return Err(Fault::CannotRead(path));
    };
    match load_within(rt.alloc(), &mut file, SCRIPT_LIMIT) {
        Ok(bytes) => Ok(bytes),
        Err(LoadFault::ReadFailed) => Err(Fault::CannotRead(path)),
        Err(LoadFault::TooLarge) => Err(Fault::ScriptTooLarge),
        Err(LoadFault::Memory) => Err(Fault::NoMemory),
    }
}

//! Writing files and folders, and reporting those next to them.

use hfs_commands::{
    Contents, Fault, Leftover, ReadContents, Saved, save_file, save_new, save_read,
};
use hfs_word_take::left_folder;

/// Writes a file, and returns the file next to it that an interrupted run left, if any. If the write fails, that one is reported
/// before the fault.
pub fn save<'a, C: Contents>(
    rt: &HostRuntime,
    file: &'a str,
    contents: &C,
) -> Result<Option<Leftover>, Fault<'a>> {
    written(rt, save_file(rt, file, contents))
}

/// Writes a file as [`save`] does, from contents that are read from the file `source` while they are written.
pub fn save_as_read<'a, C: ReadContents>(
    rt: &HostRuntime,
    file: &'a str,
    source: &'a str,
    contents: &mut C,
) -> Result<Option<Leftover>, Fault<'a>> {
    written(rt, save_read(rt, file, source, contents))
}

/// Makes a file as [`save_new`] does, from contents that are read from the file `source` while they are written.
pub fn save_as_new<'a, C: ReadContents>(
    rt: &HostRuntime,
    file: &'a str,
    source: &'a str,
    contents: &mut C,
) -> Result<Option<Leftover>, Fault<'a>> {
    written(rt, save_new(rt, file, source, contents))
}

/// The folder next to this one that an interrupted run left, if any.
pub fn left_beside(rt: &HostRuntime, folder: &str) -> Result<Option<Leftover>, Fault<'static>> {
    match left_folder(rt, folder) {
        Ok(Some(path)) => Ok(Some(Leftover { path })),
        Ok(None) => Ok(None),
        Err(_) => Err(Fault::NoMemory),
    }
}

/// Reports how writing a file went.
fn written<'a>(rt: &HostRuntime, saved: Saved<'a>) -> Result<Option<Leftover>, Fault<'a>> {
    match saved.written {
        Ok(()) => Ok(saved.leftover),
        Err(fault) => {
            tell(rt, &saved.leftover);
            Err(fault)
        }
    }
}

/// Reports on standard error a file or a folder that an interrupted run left. If nothing more can be written there, the program
/// goes on.
pub fn tell(rt: &HostRuntime, leftover: &Option<Leftover>) {
    if let Some(leftover) = leftover {
        let _printed = eprintln!(rt; "{leftover}");
    }
}

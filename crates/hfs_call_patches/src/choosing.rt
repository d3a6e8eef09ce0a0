//! What SetEof and WriteFork choose, for a file that has already been looked up. In each, the first code that applies is the
//! reply's.

ghost use Rattle.std.specs.Prelude.{◌≡◌, Ok, IfOk};
ghost use Rattle.hfs_call_patches.specs.Found as spec;

use crate::records::fork_of;
use hfs_btree_edits::RecordPlace;
use hfs_fields::{CatKey, FileRecord};
use hfs_model::{END_OF_FILE, Fork, PARAMETER};

/// The most bytes that a fork may have.
const MOST_BYTES: u32 = 2_147_483_647;

/// The most bytes that one WriteFork writes.
const MOST_WRITTEN: usize = 65_536;

/// A file of the catalog, and where its record is.
#[derive(Clone, Copy)]
pub struct FoundFile {
    /// The key of its record.
    pub key: CatKey,
    /// Its record.
    pub file: FileRecord,
    /// The place of its record in the catalog.
    pub place: RecordPlace,
}

/// What was found, unless the length is above 2,147,483,647: then -50.
fn if_short(length: u32, found: Result<FoundFile, i16>) -> Result<FoundFile, i16>
    ensures { result ≡ spec.if_short length found }
{
    if length > MOST_BYTES {
        return Err(PARAMETER);
    }
    found
}

/// The file, unless its fork ends before the offset: then -39.
fn unless_past(fork: Fork, offset: u32, found: FoundFile) -> Result<FoundFile, i16>
    ensures { result ≡ spec.unless_past fork offset found }
{
    if fork_of(fork, &found.file).length < offset {
        return Err(END_OF_FILE);
    }
    Ok(found)
}

/// What was found, unless there are too many bytes or they would end too far on: then -50. After that, -39.
fn if_writable(
    fork: Fork,
    offset: u32,
    bytes: &[u8],
    found: Result<FoundFile, i16>,
) -> Result<FoundFile, i16>
    ensures { result ≡ spec.if_writable fork offset bytes.now found }
{
    if bytes.len() > MOST_WRITTEN
        || u64::from(offset) + bytes.len() as u64 > u64::from(MOST_BYTES)
    {
        return Err(PARAMETER);
    }
    match found {
        Ok(file) => unless_past(fork, offset, file),
        Err(code) => Err(code),
    }
}

/// The file whose fork SetEof gives this length, or the code that refuses it. `found` is the folder's file of that name, which
/// isn't locked, in a volume that may be changed, or the code that refuses to write it: -44 or -46, -37, -120, -43 (also for a
/// folder), -45.
///
/// Errors: -50 if the length is above 2,147,483,647, even if the file wasn't found; otherwise the code of `found`.
pub fn to_set_eof(found: Result<FoundFile, i16>, length: u32) -> Result<FoundFile, i16>
    ensures chooses { spec.ChoosesSetEof found length result }
    ensures found { IfOk result (λ file. found ≡ Ok file) }
{
    if_short(length, found)
}

/// The file into whose fork WriteFork writes these bytes from an offset on, or the code that refuses it; `found` as for SetEof.
///
/// Errors: -50 for more than 65,536 bytes, and if the last one would be past 2,147,483,647 of them, even if the file wasn't
/// found; then the code of `found`; -39 if the fork ends before the offset.
pub fn to_write_fork(
    found: Result<FoundFile, i16>,
    fork: Fork,
    offset: u32,
    bytes: &[u8],
) -> Result<FoundFile, i16>
    ensures chooses { spec.ChoosesWriteFork found fork offset bytes.now result }
    ensures within { IfOk result (spec.IsWritable found fork offset bytes.now) }
{
    if_writable(fork, offset, bytes, found)
}

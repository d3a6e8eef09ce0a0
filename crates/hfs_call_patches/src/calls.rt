//! SetEof and WriteFork, for a file that has already been looked up.

ghost use Rattle.hfs_call_patches.specs.Calls.{IsForkVolumeIn, AreFoundIn, Gives, IsSetEofEdit, IsWriteForkEdit};

use crate::Change;
use crate::choosing::{FoundFile, to_set_eof, to_write_fork};
use crate::records::fork_of;
use crate::resizing::resize;
use crate::volume::{ForkRefusal, MountedBlocks, Resizing};
use hfs_blocks::Blocks;
use hfs_model::Fork;
use std::alloc::{AllocError, Global};

/// What WriteFork writes: these bytes, into a fork from an offset on.
#[derive(Clone, Copy)]
pub struct ForkWrite<'a> {
    pub fork: Fork,
    pub offset: u32,
    pub bytes: &'a [u8],
}

/// What SetEof makes of a volume, or what refuses it. It cuts the fork or adds zeros at its end, so that it has `length` bytes,
/// for the folder's file of that name, which isn't locked, in a volume that may be changed. `found` is that file, or the code
/// that refuses to write it.
///
/// The codes come first, in the order of `to_set_eof`; then too few blocks, then too few nodes of the extents tree. At a refusal
/// there is no change.
///
/// Errors: `AllocError` if memory was refused. Then there is no change either.
///
/// Source: Inside Macintosh: Files, chapter 2, 'Manipulating File Forks' and 'Extents overflow file'.
pub fn set_eof<B: Blocks>(
    alloc: Global,
    volume: &MountedBlocks<'_, B>,
    found: Result<FoundFile, i16>,
    fork: Fork,
    length: u32,
    now: u32,
) -> Result<Result<Change, ForkRefusal>, AllocError>
    requires volume { IsForkVolumeIn B.total B.blocks volume.now.blocks.now
        volume.now.mdb.now volume.now.extents.now volume.now.catalog.now }
    requires found { AreFoundIn (B.blocks volume.now.blocks.now) found }
    ensures { Gives result (IsSetEofEdit found fork length now)
        B.total B.blocks volume.now.blocks.now }
{
    let file = match to_set_eof(found, length) {
        Ok(file) => file,
        Err(code) => return Ok(Err(ForkRefusal::Code(code))),
    };
    let resizing = Resizing {
        found: &file,
        fork,
        length,
        from: fork_of(fork, &file.file).length,
        offset: 0,
        bytes: &[],
        moment: now,
    };
    match resize(alloc, volume, &resizing)? {
        Ok(change) => Ok(Ok(change)),
        Err(want) => Ok(Err(ForkRefusal::Want(want))),
    }
}

/// What WriteFork makes of a volume, or what refuses it: the fork gets the bytes, and grows if they go past its end. Otherwise as
/// for SetEof.
pub fn write_fork<B: Blocks>(
    alloc: Global,
    volume: &MountedBlocks<'_, B>,
    found: Result<FoundFile, i16>,
    write: &ForkWrite<'_>,
    now: u32,
) -> Result<Result<Change, ForkRefusal>, AllocError>
    requires volume { IsForkVolumeIn B.total B.blocks volume.now.blocks.now
        volume.now.mdb.now volume.now.extents.now volume.now.catalog.now }
    requires found { AreFoundIn (B.blocks volume.now.blocks.now) found }
    ensures { Gives result (IsWriteForkEdit found write.now.fork write.now.offset
        write.now.bytes.now now) B.total B.blocks volume.now.blocks.now }
{
    let file = match to_write_fork(found, write.fork, write.offset, write.bytes) {
        Ok(file) => file,
        Err(code) => return Ok(Err(ForkRefusal::Code(code))),
    };
    let end = write.offset + write.bytes.len() as u32;
    let length = fork_of(write.fork, &file.file).length.max(end);
    let resizing = Resizing {
        found: &file,
        fork: write.fork,
        length,
        from: length,
        offset: write.offset,
        bytes: write.bytes,
        moment: now,
    };
    match resize(alloc, volume, &resizing)? {
        Ok(change) => Ok(Ok(change)),
        Err(want) => Ok(Err(ForkRefusal::Want(want))),
    }
}

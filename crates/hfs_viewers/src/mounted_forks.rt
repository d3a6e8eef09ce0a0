//! The forks of a volume's files over the bytes as they were mounted.
ghost use Rattle.std.specs.Prelude.{◌≡◌, IfOk};
ghost use Rattle.hfs_blocks.specs.Blocks.{block_at};
ghost use Rattle.hfs_check.specs.Parts.{mdb_in};
ghost use Rattle.hfs_viewers.specs.Tables.{IsForkIn};
ghost use Rattle.hfs_viewers.specs.PieceEdits.{IsUntouched};
ghost use Rattle.hfs_volume.specs.Mounted.{fork_record, AreForksIn};
ghost use Rattle.hfs_viewers.specs.Changed.{TellsChanges};
ghost use Rattle.hfs_viewers.specs.MountedForks.{AreAllOf, OpensForks, ShowsFork};

use crate::changed::are_changed;
use crate::{Extents, ForkPieces, RowFork};
use hfs_fields::{CatKey, Extent, FileRecord};
use hfs_model::{Fork, SharedBytes};
use hfs_volume::{OpenFork, Opened, Volume};
use std::alloc::{AllocError, Global};

/// The most bytes that a piece of a fork has, as for a call.
const PIECE: u32 = 65_536;

/// All bytes that are left to read of an open fork, in pieces. Fails only when out of memory.
fn read_pieces(alloc: Global, source: &mut OpenFork<'_>) -> Result<ForkPieces, AllocError>
    ensures { IfOk result (AreAllOf source.old) }
{
    let mut pieces = ForkPieces::untouched(alloc, 0);
    let size = source.len();
    let mut offset = 0;
    while offset < size {
        let part = SharedBytes::from_vec(source.read(alloc, PIECE)?)?;
        pieces.write(alloc, offset, &part)?;
        offset += part.as_slice().len() as u32;
    }
    Ok(pieces)
}

/// The row of a fork that holds all its bytes itself, and none in the base. Fails only when out of memory.
fn whole_row(
    alloc: Global,
    volume: &Volume,
    key: &CatKey,
    file: &FileRecord,
    fork: Fork,
) -> Result<RowFork, AllocError>
    requires { OpensForks volume.now.current key.now file.now }
    ensures shows { IfOk result (ShowsFork volume.now fork file.now) }
    ensures lies { IfOk result (IsForkIn (mdb_in (block_at volume.now.current))) }
{
    let opened = volume.open_fork(alloc, key.parent, key.name.bytes(), fork)?;
    let Opened::Fork(mut source) = opened else {
        unreachable!()
    };
    let pieces = read_pieces(alloc, &mut source)?;
    Ok(RowFork {
        extents: Extents::new(Vec::new(alloc)),
        pieces,
    })
}

/// The row of one of a file's forks with these extents, which has its bytes in the base.
fn base_row(alloc: Global, extents: Vec<Extent>, file: &FileRecord, fork: Fork) -> RowFork
    ensures extents { result.extents ≡ extents.items }
    ensures pieces { IsUntouched (fork_record fork file.now).1.length result.pieces }
{
    let size = match fork {
        Fork::DataFork => file.data.length,
        Fork::ResFork => file.resource.length,
    };
    RowFork {
        extents: Extents::new(extents),
        pieces: ForkPieces::untouched(alloc, size),
    }
}

/// The row of one of a file's forks: with all its extents if none of their blocks has changed since the volume was mounted,
/// otherwise with its bytes. Fails only when out of memory.
pub fn fork_row(
    alloc: Global,
    volume: &Volume,
    changed: bool,
    key: &CatKey,
    file: &FileRecord,
    fork: Fork,
) -> Result<RowFork, AllocError>
    requires changed { TellsChanges volume.now changed }
    requires forks { AreForksIn (block_at volume.now.current) file.now }
    requires opens { OpensForks volume.now.current key.now file.now }
    ensures shows { IfOk result (ShowsFork volume.now fork file.now) }
    ensures lies { IfOk result (IsForkIn (mdb_in (block_at volume.now.current))) }
{
    let extents = volume.file_extents(alloc, file, fork)?;
    if are_changed(volume, changed, &extents) {
        return whole_row(alloc, volume, key, file, fork);
    }
    Ok(base_row(alloc, extents, file, fork))
}

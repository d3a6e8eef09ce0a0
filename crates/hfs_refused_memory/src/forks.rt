//! A fork that is opened and read piece by piece, while memory is refused once.

use anyhow::Result;
use hfs_fixtures::{fork_byte, one_file_image};
use hfs_model::Fork;
use hfs_volume::{OpenFork, Opened, Volume};
use hfs_volume_fixtures::refused::mounted;
use std::alloc::{AllocError, Global};

/// The data fork of `f`. None if the call is refused, or if memory is.
fn opened_once(alloc: Global, volume: &Volume) -> Option<OpenFork<'_>> {
    match volume.open_fork(alloc, 2, b"f", Fork::DataFork) {
        Ok(Opened::Fork(fork)) => Some(fork),
        Ok(Opened::Refused(_reply)) => None,
        Err(_refused) => None,
    }
}

/// The data fork of `f`, opened. None if the call is refused, or if memory is refused twice.
fn opened(alloc: Global, volume: &Volume) -> Option<OpenFork<'_>> {
    if let Some(fork) = opened_once(alloc, volume) {
        return Some(fork);
    }
    opened_once(alloc, volume)
}

/// The next bytes of a fork.
fn read(alloc: Global, fork: &mut OpenFork<'_>, count: u32) -> Result<Vec<u8>, AllocError> {
    fork.read(alloc, count)
}

/// The next bytes of a fork. If memory is refused, as many must be left as before, and they are read once more; None if they
/// aren't, or if memory is refused again.
fn next(alloc: Global, fork: &mut OpenFork<'_>, count: u32) -> Option<Vec<u8>> {
    let left = fork.len();
    if let Ok(bytes) = read(alloc, fork, count) {
        return Some(bytes);
    }
    if fork.len() != left {
        return None;
    }
    read(alloc, fork, count).ok()
}

/// Whether these are the bytes of `f` from a place on.
fn are_bytes_from(bytes: &[u8], from: usize) -> bool {
    let mut place = from;
    for byte in bytes {
        if *byte != fork_byte(place) {
            return false;
        }
        place = place.wrapping_add(1);
    }
    true
}

/// Whether the next 700 bytes of the fork are `count` bytes, from a place on.
fn reads(alloc: Global, fork: &mut OpenFork<'_>, from: usize, count: usize) -> bool {
    match next(alloc, fork, 700) {
        Some(bytes) => bytes.len() == count && are_bytes_from(&bytes, from),
        None => false,
    }
}

/// Whether the fork of `f`, which has 2,000 bytes in four extents, is read to its end with 700 bytes at a time.
fn reads_all(alloc: Global, fork: &mut OpenFork<'_>) -> bool {
    for (from, count) in [(0, 700), (700, 700), (1_400, 600), (2_000, 0)] {
        if !reads(alloc, fork, from, count) {
            return false;
        }
    }
    true
}

/// Whether the fork of `f` is opened on a volume, and read to its end.
fn opens_on(alloc: Global, volume: &Volume) -> bool {
    match opened(alloc, volume) {
        Some(mut fork) => reads_all(alloc, &mut fork),
        None => false,
    }
}

/// The volume with the file `f`.
fn volume_of_one_file(alloc: Global) -> Result<Volume> {
    mounted(alloc, one_file_image(alloc)?)
}

/// Whether the fork of `f` is opened, and read to its end.
pub fn opens(alloc: Global) -> Result<bool> {
    let volume = volume_of_one_file(alloc)?;
    Ok(opens_on(alloc, &volume))
}

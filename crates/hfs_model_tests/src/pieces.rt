//! Forks that are kept in pieces.
ghost use Rattle.std.specs.Prelude.{◌<◌, OnOk};
ghost use Rattle.hfs_viewers.specs.Pieces.{ArePieces, fork_length};

use hfs_model::SharedBytes;
use hfs_viewers::{ForkPieces, Stretch};
use std::alloc::Global;
use std::test::Fail;

/// A byte of a fork over a base's fork of `abcdefgh`; a dot for a zero.
fn byte_at(fork: &ForkPieces, place: u32) -> u8
    requires pieces { ArePieces fork.now }
    requires within { place < fork_length fork.now }
{
    match fork.stretch(place, 1) {
        Stretch::Base { from, .. } => b"abcdefgh".get(from as usize).copied().unwrap_or(b'?'),
        Stretch::Zeros { .. } => b'.',
        Stretch::Given { bytes } => bytes.first().copied().unwrap_or(b'?'),
    }
}

/// All bytes of it, one by one.
fn shown(alloc: Global, fork: &ForkPieces) -> Result<Vec<u8>, Fail>
    requires { ArePieces fork.now }
{
    let mut bytes = Vec::new(alloc);
    for place in 0..fork.len() {
        bytes.push(byte_at(fork, place))?;
    }
    Ok(bytes)
}

/// Writes bytes over a fork of fewer than 100.
fn put(alloc: Global, fork: &mut ForkPieces, offset: u32, bytes: &[u8]) -> Result<(), Fail>
    requires { ArePieces fork.old }
    ensures { OnOk result (ArePieces fork.new) }
{
    if offset > 100 || bytes.len() > 100 || offset > fork.len() {
        return Err(Fail::new("too many bytes"));
    }
    let bytes = SharedBytes::from_slice(alloc, bytes)?;
    fork.write(alloc, offset, &bytes)?;
    Ok(())
}

/// Bytes in the middle, within others that were written, and past the end.
#[test]
fn bytes_are_laid_over_pieces(rt: HostRuntime) -> Result<(), Fail> {
    let alloc = rt.alloc();
    let mut fork = ForkPieces::untouched(alloc, 8);
    put(alloc, &mut fork, 2, b"XYZ")?;
    put(alloc, &mut fork, 3, b"pq")?;
    assert!(rt; shown(alloc, &fork)?.as_slice() == b"abXpqfgh".as_slice());
    put(alloc, &mut fork, 7, b"12345")?;
    assert!(rt; shown(alloc, &fork)?.as_slice() == b"abXpqfg12345".as_slice());
    Ok(())
}

/// Ends that are set: no byte past an old end comes back.
#[test]
fn pieces_get_other_ends(rt: HostRuntime) -> Result<(), Fail> {
    let alloc = rt.alloc();
    let mut fork = ForkPieces::untouched(alloc, 8);
    fork.set_length(alloc, 4)?;
    fork.set_length(alloc, 6)?;
    put(alloc, &mut fork, 5, b"x")?;
    assert!(rt; shown(alloc, &fork)?.as_slice() == b"abcd.x".as_slice());
    fork.set_length(alloc, 0)?;
    fork.set_length(alloc, 2)?;
    assert!(rt; shown(alloc, &fork)?.as_slice() == b"..".as_slice());
    Ok(())
}

/// How many bytes of one source there are at a place, at most 9.
fn stretch_at(fork: &ForkPieces, place: u32) -> u32
    requires { ArePieces fork.now }
{
    if place >= fork.len() {
        return 0;
    }
    match fork.stretch(place, 9) {
        Stretch::Base { count, .. } => count,
        Stretch::Zeros { count } => count,
        Stretch::Given { bytes } => bytes.len().min(99) as u32,
    }
}

/// A piece is read whole, or from a place in it on; a copy has the same pieces.
#[test]
fn pieces_are_read_whole(rt: HostRuntime) -> Result<(), Fail> {
    let alloc = rt.alloc();
    let mut fork = ForkPieces::untouched(alloc, 8);
    put(alloc, &mut fork, 2, b"XYZ")?;
    let copy = fork.clone()?;
    let ends = [
        stretch_at(&copy, 0),
        stretch_at(&copy, 2),
        stretch_at(&copy, 3),
    ];
    assert!(rt; ends == [2, 3, 2]);
    assert!(rt; stretch_at(&copy, 5) == 3 && stretch_at(&copy, 8) == 0);
    Ok(())
}

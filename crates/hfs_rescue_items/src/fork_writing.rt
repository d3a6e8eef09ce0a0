//! Writing a fork while it is read.
ghost use Rattle.std.specs.Prelude.{◌≡◌, ◌<◌, false, true, Err, IfOk, OnErr, OnOk};
ghost use Rattle.hfs_remains_forks.specs.ForkBytes.{fork_bytes};
ghost use Rattle.hfs_texts.specs.Writing.{AppendsFront};
ghost use Rattle.hfs_source.specs.Images.{OfEach};
ghost use Rattle.hfs_bag.specs.Forks.{fork_rest};
ghost use Rattle.hfs_rescue_items.specs.Writing.{MovesPiece, WritesFrontOf, WritesOf};

use crate::fork_reading::begin_fork;
use hfs_bag::{ForkReading, SourceFault, read_fork};
use hfs_fields::Mdb;
use hfs_remains_forks::FoundFork;
use hfs_source::{BlockSource, CopyFault};
use hfs_texts::put;
use std::alloc::Global;
use std::io::Write;

/// The most bytes that are read at once.
const PIECE: usize = 65_536;

/// What a fault of reading means if some bytes were written, or none.
fn copy_fault(fault: SourceFault, is_begun: bool) -> CopyFault
    ensures none { result ≡ CopyFault.ReadFailed → is_begun ≡ false }
    ensures memory { result ≡ CopyFault.Memory → is_begun ≡ false }
{
    if is_begun {
        return CopyFault::BrokenOff;
    }
    match fault {
        SourceFault::ReadFailed => CopyFault::ReadFailed,
        SourceFault::Memory => CopyFault::Memory,
    }
}

/// Reads the next bytes of a fork and writes them, and returns whether there were any.
#[tactic(auto, using(crate::proofs::WritingLemmas::none_moved, crate::proofs::WritingLemmas::no_more, crate::proofs::WritingLemmas::piece_moved, crate::proofs::WritingLemmas::piece_fewer, crate::proofs::WritingLemmas::piece_front, crate::proofs::WritingLemmas::nothing_written))]
fn write_next<S: BlockSource, W: Write>(
    source: &mut S,
    reading: &mut ForkReading,
    piece: &mut Vec<u8>,
    is_begun: bool,
    writer: &mut W,
) -> Result<bool, CopyFault>
    ensures moved { IfOk result (λ more. OfEach (S.Holds source.new) (λ image. MovesPiece more
        (W.contents writer.old) (W.contents writer.new)
        (fork_rest true image reading.old) (fork_rest true image reading.new))) }
    ensures fewer { IfOk result (λ more. more ≡ true → reading.new.left < reading.old.left) }
    ensures part { OnErr result (WritesFrontOf (S.Holds source.new) (W.contents writer.old)
        (W.contents writer.new) (λ image. fork_rest true image reading.old)) }
    ensures none { result ≡ Err CopyFault.ReadFailed → writer.new ≡ writer.old }
    ensures none_begun { result ≡ Err CopyFault.ReadFailed → is_begun ≡ false }
    ensures memory { result ≡ Err CopyFault.Memory → writer.new ≡ writer.old }
    ensures memory_begun { result ≡ Err CopyFault.Memory → is_begun ≡ false }
    ensures narrows { OfEach (S.Holds source.new) (S.Holds source.old) }
{
    match read_fork(source, reading, piece) {
        Ok(()) => {}
        Err(fault) => return Err(copy_fault(fault, is_begun)),
    }
    if piece.is_empty() {
        return Ok(false);
    }
    match put(writer, piece) {
        Ok(()) => Ok(true),
        Err(_) => Err(CopyFault::WriteFailed),
    }
}

/// Writes the bytes of a fork that was found, at most 65,536 at a time, while they are read, so memory doesn't grow with them.
/// Errors: a read failed or memory was refused, before anything was written; either, after some bytes were written (`BrokenOff`),
/// or the writer failed: then only the beginning of the fork may have been written.
#[tactic(auto, using(crate::proofs::WritingLemmas::begun, crate::proofs::WritingLemmas::goes_on, crate::proofs::WritingLemmas::ended_front, crate::proofs::WritingLemmas::all_written, crate::proofs::WritingLemmas::nothing_written))]
pub fn write_fork<S: BlockSource, W: Write>(
    alloc: Global,
    source: &mut S,
    mdb: &Mdb,
    fork: &FoundFork,
    writer: &mut W,
) -> Result<(), CopyFault>
    ensures written { OnOk result (WritesOf (S.Holds source.new) (W.contents writer.old) (W.contents writer.new)
        (λ image. fork_bytes image mdb.now fork.now.length fork.now.places.items)) }
    ensures part { OnErr result (WritesFrontOf (S.Holds source.new) (W.contents writer.old) (W.contents writer.new)
        (λ image. fork_bytes image mdb.now fork.now.length fork.now.places.items)) }
    ensures none { result ≡ Err CopyFault.ReadFailed → writer.new ≡ writer.old }
    ensures memory { result ≡ Err CopyFault.Memory → writer.new ≡ writer.old }
    ensures narrows { OfEach (S.Holds source.new) (S.Holds source.old) }
{
    let mut reading = match begin_fork(alloc, mdb, fork) {
        Ok(reading) => reading,
        Err(fault) => return Err(copy_fault(fault, false)),
    };
    let Ok(mut piece) = Vec::with_capacity(alloc, PIECE) else {
        return Err(CopyFault::Memory);
    };
    let mut is_begun = false;
    while write_next(source, &mut reading, &mut piece, is_begun, writer)? {
        is_begun = true;
    }
    Ok(())
}

//! Writing the bytes of blocks while they are read.
ghost use Rattle.std.specs.Prelude.{◌≡◌, ◌≢◌, ◌-◌, ◌*◌, ◌+◌, ◌<◌, ◌≤◌, Err, IfOk, OnErr, OnOk, length};
ghost use Rattle.std.specs.List.{flat_map};
ghost use Rattle.hfs_blocks.specs.Blocks.{run_of, AreRunsWithin};
ghost use Rattle.hfs_source.specs.Images.{OfEach};
ghost use Rattle.hfs_source.specs.Seen.{EachKnown};
ghost use Rattle.hfs_source.specs.Writing.{WritesBlocks, WritesRuns, WritesSome, WritesSomeRuns};

use crate::source::BlockSource;
use hfs_blocks::Run;
use hfs_texts::put;
use std::alloc::{AllocError, Global};
use std::io::Write;

/// Why the bytes of blocks were not all written.
#[derive(Clone, Copy, Debug, PartialEq, Eq)]
pub enum CopyFault {
    /// Memory was refused, and nothing was written.
    Memory,
    /// A read failed, and nothing was written.
    ReadFailed,
    /// A read failed after some bytes were written.
    BrokenOff,
    /// The writer failed.
    WriteFailed,
}

/// The most blocks that are read at once.
const MOST_AT_ONCE: u32 = 128;

/// Writes as many of the first `left` bytes as are in the blocks of a piece of a run, and returns how many of them are left. At
/// first there were `all`.
fn copy_piece<S: BlockSource, W: Write>(
    source: &mut S,
    piece: Run,
    left: u32,
    all: u32,
    buffer: &mut [u8],
    writer: &mut W,
) -> Result<u32, CopyFault>
    requires room { 512 * piece.count ≤ length buffer.old }
    ensures left { IfOk result (λ after. after ≡ left - 512 * piece.count) }
    ensures written { OnOk result (WritesBlocks (S.image source.old) (W.contents writer.old)
        (W.contents writer.new) (run_of piece) left) }
    ensures part { OnErr result (WritesSome (S.image source.old) (W.contents writer.old)
        (W.contents writer.new) (run_of piece) left) }
    ensures none { result ≡ Err CopyFault.ReadFailed → writer.new ≡ writer.old }
    ensures begun { result ≡ Err CopyFault.ReadFailed → left ≡ all }
    ensures memory { result ≢ Err CopyFault.Memory }
    ensures room { length buffer.new ≡ length buffer.old }
    ensures image { S.image source.new ≡ S.image source.old }
    ensures each { OnOk result (EachKnown (S.Holds source.new) (λ known. WritesBlocks known
        (W.contents writer.old) (W.contents writer.new) (run_of piece) left)) }
    ensures each_part { OnErr result (EachKnown (S.Holds source.new) (λ known. WritesSome known
        (W.contents writer.old) (W.contents writer.new) (run_of piece) left)) }
    ensures narrows { OfEach (S.Holds source.new) (S.Holds source.old) }
{
    let len = piece.count as usize * 512;
    let bytes = &mut buffer[..len];
    let Ok(()) = source.read_blocks(piece.first, bytes) else {
        return Err(if left == all {
            CopyFault::ReadFailed
        } else {
            CopyFault::BrokenOff
        });
    };
    let most = len.min(left as usize);
    let Ok(()) = put(writer, &bytes[..most]) else {
        return Err(CopyFault::WriteFailed);
    };
    Ok(left - most as u32)
}

/// Writes as many of the first `left` bytes as are in the blocks of a run, piece by piece, and returns how many of them are left.
/// At first there were `all`.
fn copy_run<S: BlockSource, W: Write>(
    source: &mut S,
    run: &Run,
    left: u32,
    all: u32,
    buffer: &mut [u8],
    writer: &mut W,
) -> Result<u32, CopyFault>
    requires some { 0 < all }
    requires few { left ≤ all }
    requires numbers { run.now.first + run.now.count ≤ 4294967296 }
    requires room { 65536 ≤ length buffer.old }
    ensures left { IfOk result (λ after. after ≡ left - 512 * run.now.count) }
    ensures written { OnOk result (WritesBlocks (S.image source.old) (W.contents writer.old)
        (W.contents writer.new) (run_of run.now) left) }
    ensures still { IfOk result (λ after. after ≡ all → writer.new ≡ writer.old) }
    ensures part { OnErr result (WritesSome (S.image source.old) (W.contents writer.old)
        (W.contents writer.new) (run_of run.now) left) }
    ensures none { result ≡ Err CopyFault.ReadFailed → writer.new ≡ writer.old }
    ensures begun { result ≡ Err CopyFault.ReadFailed → left ≡ all }
    ensures memory { result ≢ Err CopyFault.Memory }
    ensures room { length buffer.new ≡ length buffer.old }
    ensures image { S.image source.new ≡ S.image source.old }
    ensures each { OnOk result (EachKnown (S.Holds source.new) (λ known. WritesBlocks known
        (W.contents writer.old) (W.contents writer.new) (run_of run.now) left)) }
    ensures each_part { OnErr result (EachKnown (S.Holds source.new) (λ known. WritesSome known
        (W.contents writer.old) (W.contents writer.new) (run_of run.now) left)) }
    ensures narrows { OfEach (S.Holds source.new) (S.Holds source.old) }
{
    let mut rest = left;
    let mut behind = run.count;
    while behind > 0 {
        let count = behind.min(MOST_AT_ONCE);
        let first = run.first + (run.count - behind);
        let piece = Run {
            first,
            count,
            before: 0,
        };
        rest = copy_piece(source, piece, rest, all, buffer, writer)?;
        behind -= count;
    }
    Ok(rest)
}

/// Room for `count` blocks.
fn buffer_of(alloc: Global, count: u32) -> Result<Vec<u8>, AllocError>
    ensures { IfOk result (λ buffer. length buffer.items ≡ 512 * count) }
{
    vec![in alloc; 0; count as usize * 512]
}

/// Writes the first `size` bytes of the blocks of these runs, or all that there are, at most 65,536 at a time, so memory doesn't
/// grow with them. At an error, only the beginning may have been written.
pub fn copy_runs<S: BlockSource, W: Write>(
    alloc: Global,
    source: &mut S,
    runs: &[Run],
    size: u32,
    writer: &mut W,
) -> Result<(), CopyFault>
    requires { AreRunsWithin runs.now 4294967296 }
    ensures written { OnOk result (WritesRuns (S.image source.old) (W.contents writer.old)
        (W.contents writer.new) runs.now size) }
    ensures part { OnErr result (WritesSomeRuns (S.image source.old) (W.contents writer.old)
        (W.contents writer.new) runs.now size) }
    ensures memory { result ≡ Err CopyFault.Memory → writer.new ≡ writer.old }
    ensures none { result ≡ Err CopyFault.ReadFailed → writer.new ≡ writer.old }
    ensures image { S.image source.new ≡ S.image source.old }
    ensures each { OnOk result (EachKnown (S.Holds source.new) (λ known. WritesRuns known
        (W.contents writer.old) (W.contents writer.new) runs.now size)) }
    ensures each_part { OnErr result (EachKnown (S.Holds source.new) (λ known. WritesSomeRuns known
        (W.contents writer.old) (W.contents writer.new) runs.now size)) }
    ensures narrows { OfEach (S.Holds source.new) (S.Holds source.old) }
{
    if size == 0 {
        return Ok(());
    }
    let Ok(mut buffer) = buffer_of(alloc, MOST_AT_ONCE) else {
        return Err(CopyFault::Memory);
    };
    let mut left = size;
    for run in runs {
        left = copy_run(source, run, left, size, &mut buffer, writer)?;
    }
    Ok(())
}

//! Forks that are read piece by piece.
ghost use Rattle.std.specs.Prelude.{◌≡◌, ◌*◌, ◌+◌, ◌≤◌, ℕ, Bool, List, [], length, replicate, IfErr, OnOk};
ghost use Rattle.hfs_source.specs.Images.{HasAt, OfEach};
ghost use Rattle.hfs_bag.specs.Forks.{BeginsIn, ReadsOn, fork_rest};

use crate::piece::Piece;
use crate::source::SourceFault;
use hfs_source::BlockSource;
use std::alloc::Global;

/// Where reading a fork stands: the first so many bytes of its pieces that were not read are left.
#[derive(Drop)]
pub struct ForkReading {
    /// All pieces of its bytes.
    pub pieces: Vec<Piece>,
    /// The place of the piece that is read next.
    pub next: usize,
    /// How many bytes are left.
    pub left: u32,
}

impl ForkReading {
    /// A fork of which the first so many bytes of these pieces are to be read.
    pub fn new(pieces: Vec<Piece>, len: u32) -> ForkReading
        ensures { result ≡ record { pieces = pieces; next = 0; left = len } }
    {
        ForkReading {
            pieces,
            next: 0,
            left: len,
        }
    }

    /// A fork without bytes.
    pub fn empty(alloc: Global) -> ForkReading
        ensures rest { (fills : Bool) (image : List ℕ) → fork_rest fills image result ≡ [] }
        ensures left { result.left ≡ 0 }
    {
        ForkReading::new(Vec::new(alloc), 0)
    }
}

/// Puts so many zeros in the place of a piece.
#[tactic(auto, using(crate::proofs::ForkLemmas::zeros_put))]
fn fill_zeros(piece: &mut Vec<u8>, len: usize) -> Result<(), SourceFault>
    ensures zeros { OnOk result (piece.new.items ≡ replicate (length piece.new.items) 0) }
    ensures len { OnOk result (length piece.new.items ≡ len) }
{
    piece.clear();
    match piece.resize(len, 0) {
        Ok(()) => Ok(()),
        Err(_) => Err(SourceFault::Memory),
    }
}

/// Reads so many bytes of the blocks from number `first` on in the place of a piece.
fn fill_whole<S: BlockSource>(
    source: &mut S,
    first: u32,
    len: usize,
    piece: &mut Vec<u8>,
) -> Result<(), SourceFault>
    ensures read { OnOk result (OfEach (S.Holds source.new)
        (HasAt (512 * first) piece.new.items)) }
    ensures len { OnOk result (length piece.new.items ≡ len) }
    ensures narrows { OfEach (S.Holds source.new) (S.Holds source.old) }
{
    let Ok(()) = piece.resize(len, 0) else {
        return Err(SourceFault::Memory);
    };
    match source.read_blocks(first, piece.as_mut_slice()) {
        Ok(()) => Ok(()),
        Err(_) => Err(SourceFault::ReadFailed),
    }
}

/// Reads so many bytes from the beginning of a logical block on in the place of a piece. Their blocks are read whole.
fn fill_blocks<S: BlockSource>(
    source: &mut S,
    first: u32,
    len: u32,
    piece: &mut Vec<u8>,
) -> Result<(), SourceFault>
    requires { len ≤ 65536 }
    ensures read { OnOk result (OfEach (S.Holds source.new) (HasAt (512 * first) piece.new.items)) }
    ensures len { OnOk result (length piece.new.items ≡ len) }
    ensures narrows { OfEach (S.Holds source.new) (S.Holds source.old) }
{
    let blocks = len.div_ceil(512) as usize;
    fill_whole(source, first, blocks * 512, piece)?;
    piece.truncate(len as usize);
    Ok(())
}

/// Reads the first so many bytes of a piece of a fork, which begins in this logical block: zeros where its blocks are missing.
fn fill_piece<S: BlockSource>(
    source: &mut S,
    first: Option<u32>,
    len: u32,
    piece: &mut Vec<u8>,
) -> Result<(), SourceFault>
    requires { len ≤ 65536 }
    ensures read { OnOk result (OfEach (S.Holds source.new) (BeginsIn first piece.new.items)) }
    ensures len { OnOk result (length piece.new.items ≡ len) }
    ensures narrows { OfEach (S.Holds source.new) (S.Holds source.old) }
{
    match first {
        Some(first) => fill_blocks(source, first, len, piece),
        None => fill_zeros(piece, len as usize),
    }
}

/// Reads the next bytes of a fork, at most 65,536, in the place of a piece, and none where none are left.
#[tactic(auto, using(crate::proofs::ForkLemmas::reads_none))]
pub fn read_fork<S: BlockSource>(
    source: &mut S,
    fork: &mut ForkReading,
    piece: &mut Vec<u8>,
) -> Result<(), SourceFault>
    ensures read { (fills : Bool) → OnOk result (OfEach (S.Holds source.new)
        (λ image. ReadsOn piece.new.items (fork_rest fills image fork.old) (fork_rest fills image fork.new))) }
    ensures fewer { OnOk result (fork.old.left ≡ length piece.new.items + fork.new.left) }
    ensures fault { IfErr result (λ _. 1 ≤ fork.old.left) }
    ensures narrows { OfEach (S.Holds source.new) (S.Holds source.old) }
{
    if fork.left == 0 {
        piece.clear();
        return Ok(());
    }
    let Some(next) = fork.pieces.get(fork.next) else {
        return Err(SourceFault::ReadFailed);
    };
    let len = next.len.min(fork.left);
    fill_piece(source, next.first, len, piece)?;
    fork.next += 1;
    fork.left -= len;
    Ok(())
}

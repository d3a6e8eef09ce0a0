//! The calls that put a file on a disk, in order, and the pieces in which its forks are written.
ghost use Rattle.std.specs.Prelude.{◌≡◌};
ghost use Rattle.hfs_put_plan.specs.Steps.{end_step, file_steps, fork_piece, lock_step};

use hfs_model::Fork;

/// A call that puts a file, except for those that write its forks.
#[derive(Clone, Copy)]
pub enum FileStep {
    /// Create.
    Make,
    /// SetEof of a fork, to this many bytes.
    SetEnd(Fork, u32),
    /// SetCatInfo.
    SetFacts,
    /// SetFLock.
    Lock,
}

/// A piece of a fork.
#[derive(Clone, Copy)]
pub struct ForkPiece {
    /// The byte where it begins, counted from 0.
    pub offset: u32,
    /// How many bytes it has.
    pub len: u32,
}

/// The most bytes that one call writes.
const PIECE: u64 = 65_536;

/// The end of a fork is set if it has bytes.
fn end_step(fork: Fork, len: u32) -> Option<FileStep>
    ensures { result ≡ end_step fork len }
{
    if len == 0 {
        None
    } else {
        Some(FileStep::SetEnd(fork, len))
    }
}

/// A file is locked last of all.
fn lock_step(locked: bool) -> Option<FileStep>
    ensures { result ≡ lock_step locked }
{
    if locked { Some(FileStep::Lock) } else { None }
}

/// The calls that put a file with forks of these lengths, in order. After the ends of both forks, their bytes are written.
pub fn file_steps(data_len: u32, resource_len: u32, locked: bool) -> [Option<FileStep>; 5]
    ensures { result ≡ file_steps data_len resource_len locked }
{
    [
        Some(FileStep::Make),
        end_step(Fork::DataFork, data_len),
        end_step(Fork::ResFork, resource_len),
        Some(FileStep::SetFacts),
        lock_step(locked),
    ]
}

/// The piece of a fork of `len` bytes that is written by the call after the first `before` bytes; None if all are written.
#[tactic(auto, unfolding(crate::specs::Steps::fork_piece))]
pub fn fork_piece(len: u32, before: u32) -> Option<ForkPiece>
    ensures { result ≡ fork_piece len before }
{
    let offset = u64::from(before) * PIECE;
    if offset >= u64::from(len) {
        return None;
    }
    let left = u64::from(len) - offset;
    Some(ForkPiece {
        offset: offset as u32,
        len: if left < PIECE { left as u32 } else { 65_536 },
    })
}

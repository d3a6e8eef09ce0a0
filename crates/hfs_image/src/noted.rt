//! Blocks with a note whether a read failed.
ghost use Rattle.std.proofs.lemmas.Option.{none-some};
ghost use Rattle.std.specs.Prelude.{◌≡◌, ◌⊎◌, ℕ, ⊤, true, None};
ghost use Rattle.hfs_source.specs.Images.{FailsWhere};
ghost use Rattle.hfs_image.specs.Failing.{SomeFailsWithin};

use hfs_source::{BlockSource, CopyFault, PlacedBlocks, SeenBlocks, SparseFault};
use std::io;
use std::marker::{Brand, Model, PhantomData};

/// Reads that may fail, and a number of bytes, both picked for proofs only: those of a source before anything is read of it.
pub trait PickedFailures {
    ghost fails: { ℕ → ℕ → Type 0 };

    ghost len: { ℕ };
}

impl PickedFailures for Brand {
    ghost fails = { λ _ _. ⊤ };

    ghost len = { 0 };
}

/// Blocks that are read from a source, with a note whether a read within its length failed. So code that reads them needn't say
/// why it failed: the note distinguishes a failed read from refused memory.
#[derive(Drop)]
pub struct NotedBlocks<S: PlacedBlocks, K: PickedFailures> {
    blocks: S,
    /// How many bytes there are.
    len: u64,
    /// Whether a read of some of them failed.
    failed: bool,
    of: PhantomData<K>,
}

impl<S: PlacedBlocks, K: PickedFailures> Model for NotedBlocks<S, K> {
    ghost use Rattle.hfs_image.specs.Failing.{AreNoted};

    ghost Value = { S };

    ghost view = { λ o. o.blocks };

    ghost invariant = { λ o. AreNoted (S.Fails o.blocks) K.fails o.len K.len o.failed };
}

impl<S: PlacedBlocks, K: PickedFailures> NotedBlocks<S, K> {
    /// The blocks of a source of `len` bytes, before any read of it failed.
    pub fn new(source: SeenBlocks<S>, len: u64) -> NotedBlocks<S, K>
        requires fails { FailsWhere (S.Fails source.blocks) K.fails }
        requires len { len ≡ K.len }
        ensures { result ≡ source.blocks }
    {
        NotedBlocks {
            blocks: source.blocks,
            len,
            failed: false,
            of: PhantomData,
        }
    }

    /// The source, and whether a read within its length failed.
    pub fn into_source(self) -> (SeenBlocks<S>, bool)
        ensures source { result.0.blocks ≡ self }
        ensures failed { result.1 ≡ true → SomeFailsWithin K.len K.fails }
        ensures later { FailsWhere (S.Fails result.0.blocks) K.fails }
    {
        let NotedBlocks {
            blocks,
            len: _,
            failed,
            of: _,
        } = self;
        (SeenBlocks { blocks }, failed)
    }
}

impl<S: PlacedBlocks, K: PickedFailures> BlockSource for NotedBlocks<S, K> {
    ghost image = { λ _. None };

    ghost Holds = { λ noted. S.Holds noted };

    fn read_blocks(&mut self, first: u32, into: &mut [u8]) -> io::Result<()> {
        let place = u64::from(first) * 512;
        let count = into.len() as u64;
        match self.blocks.read_blocks(first, into) {
            Ok(()) => Ok(()),
            Err(error) => {
                if place <= self.len && count <= self.len - place {
                    self.failed = true;
                }
                Err(error)
            }
        }
    }

    ghost known_holds = { λ noted bytes e. absurd (none-some bytes e) };
}

/// The fault of reading blocks, given whether a read failed: if none did, memory was refused.
pub fn noted_fault(fault: SparseFault, failed: bool) -> SparseFault
    ensures { result ≡ SparseFault.ReadFailed → failed ≡ true }
{
    if failed { fault } else { SparseFault::Memory }
}

/// The fault of writing what is read, where it is known whether a read failed: if none did, memory was refused or, where bytes were written,
/// the writer failed.
pub(crate) fn noted_copy(fault: CopyFault, failed: bool) -> CopyFault
    ensures read { result ≡ CopyFault.ReadFailed → failed ≡ true }
    ensures broken { result ≡ CopyFault.BrokenOff → failed ≡ true }
    ensures unread { result ≡ CopyFault.ReadFailed → fault ≡ CopyFault.ReadFailed }
    ensures unwritten { result ≡ CopyFault.Memory
        → (fault ≡ CopyFault.Memory) ⊎ (fault ≡ CopyFault.ReadFailed) }
{
    match fault {
        CopyFault::Memory => CopyFault::Memory,
        CopyFault::ReadFailed => {
            if failed {
                CopyFault::ReadFailed
            } else {
                CopyFault::Memory
            }
        }
        CopyFault::BrokenOff => {
            if failed {
                CopyFault::BrokenOff
            } else {
                CopyFault::WriteFailed
            }
        }
        CopyFault::WriteFailed => CopyFault::WriteFailed,
    }
}

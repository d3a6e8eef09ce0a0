//! Blocks of which it is noted whether a read failed, of an image whose bytes may be known.
ghost use Rattle.std.specs.Prelude.{◌≡◌, ◌*◌, ℕ, true, OnErr, OnOk, length};
ghost use Rattle.hfs_source.specs.Images.{FailsWhere, HasAt, OfEach};
ghost use Rattle.hfs_source.specs.Sparse.{HoldsFrom};
ghost use Rattle.hfs_image.specs.Failing.{SomeFailsWithin};

use hfs_image::PickedFailures;
use hfs_source::BlockSource;
use std::io;
use std::marker::{Model, PhantomData};

/// Blocks of which it is said where a read may fail.
pub trait FailingBlocks: BlockSource {
    /// Where a read may fail: from a byte on, of so many bytes.
    ghost Fails: { Self → ℕ → ℕ → Type 0 };

    /// Reads blocks as [`BlockSource::read_blocks`] does. Error: the read failed, or the image ends before the room is full.
    fn read_told(&mut self, first: u32, into: &mut [u8]) -> io::Result<()>
        ensures read { OnOk result (HoldsFrom (Self.image self.old) (512 * first) into.new) }
        ensures image { Self.image self.new ≡ Self.image self.old }
        ensures seen { OnOk result (OfEach (Self.Holds self.new) (HasAt (512 * first) into.new)) }
        ensures narrows { OfEach (Self.Holds self.new) (Self.Holds self.old) }
        ensures fails { OnErr result (Fails self.old (512 * first) (length into.old)) }
        ensures later { FailsWhere (Fails self.new) (Fails self.old) };
}

/// Blocks that are read from a source, with a note whether a read of bytes that it has failed.
#[derive(Drop)]
pub(crate) struct NotedSource<S: FailingBlocks, K: PickedFailures> {
    blocks: S,
    /// How many bytes there are.
    len: u64,
    /// Whether a read of some of them failed.
    failed: bool,
    of: PhantomData<K>,
}

impl<S: FailingBlocks, K: PickedFailures> Model for NotedSource<S, K> {
    ghost use Rattle.hfs_image.specs.Failing.{AreNoted};

    ghost Value = { S };

    ghost view = { λ o. o.blocks };

    ghost invariant = { λ o. AreNoted (S.Fails o.blocks) K.fails o.len K.len o.failed };
}

impl<S: FailingBlocks, K: PickedFailures> NotedSource<S, K> {
    /// The blocks of a source that has so many bytes, no read of which failed yet.
    pub(crate) fn new(source: S, len: u64) -> NotedSource<S, K>
        requires fails { FailsWhere (S.Fails source) K.fails }
        requires len { len ≡ K.len }
        ensures { result ≡ source }
    {
        NotedSource {
            blocks: source,
            len,
            failed: false,
            of: PhantomData,
        }
    }

    /// The source, and whether a read of bytes that it has failed.
    pub(crate) fn into_source(self) -> (S, bool)
        ensures source { result.0 ≡ self }
        ensures failed { result.1 ≡ true → SomeFailsWithin K.len K.fails }
    {
        let NotedSource {
            blocks,
            len: _,
            failed,
            of: _,
        } = self;
        (blocks, failed)
    }
}

impl<S: FailingBlocks, K: PickedFailures> BlockSource for NotedSource<S, K> {
    ghost image = { λ noted. S.image noted };

    ghost Holds = { λ noted. S.Holds noted };

    fn read_blocks(&mut self, first: u32, into: &mut [u8]) -> io::Result<()> {
        let place = u64::from(first) * 512;
        let count = into.len() as u64;
        match self.blocks.read_told(first, into) {
            Ok(()) => Ok(()),
            Err(error) => {
                if place <= self.len && count <= self.len - place {
                    self.failed = true;
                }
                Err(error)
            }
        }
    }

    ghost known_holds = { λ noted bytes e. S.known_holds noted bytes e };
}

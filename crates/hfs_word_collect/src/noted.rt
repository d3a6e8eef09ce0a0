//! Reads with a note whether one failed.
ghost use Rattle.std.specs.Prelude.{◌≡◌, true, IfErr, IfOk};
ghost use Rattle.hfs_bag.specs.Failing.{SomeFail};
ghost use Rattle.hfs_image.specs.Failing.{SomeFailsWithin};
ghost use Rattle.hfs_source.specs.Images.{FailsWhere, HasLength, OfEach};
ghost use Rattle.hfs_source.specs.Ranges.{bytes_in};
ghost use Rattle.hfs_source.specs.Raw.{layout_of};
ghost use Rattle.hfs_source.specs.Sectors.{other_count};
ghost use Rattle.hfs_source.specs.Sums.{sum_told};
ghost use Rattle.hfs_word_collect.specs.Looking.{others_by};

use hfs_image::{PickedFailures, noted_fault};
use hfs_source::{FoundRange, Layout, PlacedBytes, SparseFault, count_others, layout_in, sum_told};
use std::io;
use std::marker::{Brand, Model, PhantomData};

/// Bytes that are read from a source, with a note whether a read within its length failed. So code that reads them needn't say
/// why it failed: the note distinguishes a failed read from anything else.
#[derive(Drop)]
pub struct NotedBytes<S: PlacedBytes, P: PickedFailures> {
    bytes: S,
    /// How many bytes there are.
    len: u64,
    /// Whether a read of some of them failed.
    failed: bool,
    of: PhantomData<P>,
}

impl<S: PlacedBytes, P: PickedFailures> Model for NotedBytes<S, P> {
    ghost use Rattle.hfs_image.specs.Failing.{AreNoted};

    ghost Value = { S };

    ghost view = { λ o. o.bytes };

    ghost invariant = { λ o. AreNoted (S.Fails o.bytes) P.fails o.len P.len o.failed };
}

impl<S: PlacedBytes, P: PickedFailures> NotedBytes<S, P> {
    /// The bytes of a source of `len` bytes, before any read of it failed.
    fn new(source: S, len: u64) -> NotedBytes<S, P>
        requires fails { FailsWhere (S.Fails source) P.fails }
        requires len { len ≡ P.len }
        ensures { result ≡ source }
    {
        NotedBytes {
            bytes: source,
            len,
            failed: false,
            of: PhantomData,
        }
    }

    /// The source, and whether a read within its length failed.
    fn into_source(self) -> (S, bool)
        ensures source { result.0 ≡ self }
        ensures failed { result.1 ≡ true → SomeFailsWithin P.len P.fails }
        ensures later { FailsWhere (S.Fails result.0) P.fails }
    {
        let NotedBytes {
            bytes,
            len: _,
            failed,
            of: _,
        } = self;
        (bytes, failed)
    }
}

impl<S: PlacedBytes, P: PickedFailures> PlacedBytes for NotedBytes<S, P> {
    ghost Holds = { λ noted. S.Holds noted };

    ghost Fails = { λ noted. S.Fails noted };

    fn len(&self) -> u64 {
        self.bytes.len()
    }

    fn read_at(&mut self, place: u64, into: &mut [u8]) -> io::Result<()> {
        let count = into.len() as u64;
        match self.bytes.read_at(place, into) {
            Ok(()) => Ok(()),
            Err(error) => {
                if place <= self.len && count <= self.len - place {
                    self.failed = true;
                }
                Err(error)
            }
        }
    }
}

/// How the bytes of an image are laid out, and how many of its raw sectors have no user data.
#[derive(Clone, Copy, Debug, PartialEq, Eq)]
pub(crate) struct Sectors {
    pub(crate) layout: Layout,
    pub(crate) others: u64,
}

/// The source, and how its bytes are laid out, where the reads that may fail are picked.
fn layout_noted<P: PickedFailures, S: PlacedBytes>(
    source: S,
    len: u64,
) -> (S, Result<Layout, SparseFault>)
    requires fails { FailsWhere (S.Fails source) P.fails }
    requires long { OfEach (S.Holds source) (HasLength len) }
    requires len { len ≡ P.len }
    ensures layout { IfOk result.1 (λ layout. OfEach (S.Holds result.0)
        (λ file. layout ≡ layout_of file)) }
    ensures held { OfEach (S.Holds result.0) (S.Holds source) }
    ensures failed { IfErr result.1 (λ fault. fault ≡ SparseFault.ReadFailed
        → SomeFail (S.Holds result.0) P.fails) }
    ensures later { FailsWhere (S.Fails result.0) P.fails }
{
    let mut noted = NotedBytes::<S, P>::new(source, len);
    let told = layout_in(&mut noted);
    let (source, failed) = noted.into_source();
    match told {
        Ok(layout) => (source, Ok(layout)),
        Err(_) => (source, Err(noted_fault(SparseFault::ReadFailed, failed))),
    }
}

/// The source, and how its bytes are laid out.
fn layout_of<S: PlacedBytes>(source: S) -> (S, Result<Layout, SparseFault>)
    ensures layout { IfOk result.1 (λ layout. OfEach (S.Holds result.0)
        (λ file. layout ≡ layout_of file)) }
    ensures held { OfEach (S.Holds result.0) (S.Holds source) }
    ensures failed { IfErr result.1 (λ fault. fault ≡ SparseFault.ReadFailed
        → SomeFail (S.Holds result.0) (S.Fails source)) }
    ensures later { FailsWhere (S.Fails result.0) (S.Fails source) }
{
    let len = source.len();
    layout_noted::<Brand, S>(source, len)
}

/// The source, and how many of its raw sectors have no user data, where the reads that may fail are picked.
fn others_noted<P: PickedFailures, S: PlacedBytes>(
    source: S,
    len: u64,
) -> (S, Result<u64, SparseFault>)
    requires fails { FailsWhere (S.Fails source) P.fails }
    requires long { OfEach (S.Holds source) (HasLength len) }
    requires len { len ≡ P.len }
    ensures others { IfOk result.1 (λ others. OfEach (S.Holds result.0)
        (λ file. others ≡ other_count file)) }
    ensures held { OfEach (S.Holds result.0) (S.Holds source) }
    ensures failed { IfErr result.1 (λ fault. fault ≡ SparseFault.ReadFailed
        → SomeFail (S.Holds result.0) P.fails) }
    ensures later { FailsWhere (S.Fails result.0) P.fails }
{
    let mut noted = NotedBytes::<S, P>::new(source, len);
    let counted = count_others(&mut noted);
    let (source, failed) = noted.into_source();
    match counted {
        Ok(others) => (source, Ok(others)),
        Err(_) => (source, Err(noted_fault(SparseFault::ReadFailed, failed))),
    }
}

/// The source, and how many of its raw sectors have no user data; each is looked at.
fn others_of<S: PlacedBytes>(source: S) -> (S, Result<u64, SparseFault>)
    ensures others { IfOk result.1 (λ others. OfEach (S.Holds result.0)
        (λ file. others ≡ other_count file)) }
    ensures held { OfEach (S.Holds result.0) (S.Holds source) }
    ensures failed { IfErr result.1 (λ fault. fault ≡ SparseFault.ReadFailed
        → SomeFail (S.Holds result.0) (S.Fails source)) }
    ensures later { FailsWhere (S.Fails result.0) (S.Fails source) }
{
    let len = source.len();
    others_noted::<Brand, S>(source, len)
}

/// The source, and how many of its sectors have no user data, if they are raw.
fn others_in<S: PlacedBytes>(source: S, layout: Layout) -> (S, Result<u64, SparseFault>)
    ensures others { IfOk result.1 (λ others. OfEach (S.Holds result.0)
        (λ file. others ≡ others_by layout file)) }
    ensures held { OfEach (S.Holds result.0) (S.Holds source) }
    ensures failed { IfErr result.1 (λ fault. fault ≡ SparseFault.ReadFailed
        → SomeFail (S.Holds result.0) (S.Fails source)) }
    ensures later { FailsWhere (S.Fails result.0) (S.Fails source) }
{
    match layout {
        Layout::Plain => (source, Ok(0)),
        Layout::Raw => others_of(source),
    }
}

/// The source, how its bytes are laid out, and how many of its raw sectors have no user data. Errors: a read of bytes that it has
/// failed, memory was refused.
#[tactic(auto, using(crate::proofs::FailingReads::read_before, crate::proofs::FailingReads::read_held))]
pub(crate) fn sectors_of<S: PlacedBytes>(source: S) -> (S, Result<Sectors, SparseFault>)
    ensures layout { IfOk result.1 (λ found. OfEach (S.Holds result.0)
        (λ file. found.layout ≡ layout_of file)) }
    ensures others { IfOk result.1 (λ found. OfEach (S.Holds result.0)
        (λ file. found.others ≡ others_by found.layout file)) }
    ensures held { OfEach (S.Holds result.0) (S.Holds source) }
    ensures failed { IfErr result.1 (λ fault. fault ≡ SparseFault.ReadFailed
        → SomeFail (S.Holds result.0) (S.Fails source)) }
    ensures later { FailsWhere (S.Fails result.0) (S.Fails source) }
{
    let (source, told) = layout_of(source);
    match told {
        Ok(layout) => {
            let (source, counted) = others_in(source, layout);
            match counted {
                Ok(others) => (source, Ok(Sectors { layout, others })),
                Err(fault) => (source, Err(fault)),
            }
        }
        Err(fault) => (source, Err(fault)),
    }
}

/// The source, and whether the sum of a range in it is right, where the reads that may fail are picked.
fn sum_noted<P: PickedFailures, S: PlacedBytes>(
    source: S,
    len: u64,
    found: &FoundRange,
) -> (S, Result<Option<bool>, SparseFault>)
    requires fails { FailsWhere (S.Fails source) P.fails }
    requires long { OfEach (S.Holds source) (HasLength len) }
    requires len { len ≡ P.len }
    ensures told { IfOk result.1 (λ sum. OfEach (S.Holds result.0)
        (λ file. sum ≡ sum_told found.now.container (bytes_in found.now.range file))) }
    ensures held { OfEach (S.Holds result.0) (S.Holds source) }
    ensures failed { IfErr result.1 (λ fault. fault ≡ SparseFault.ReadFailed
        → SomeFail (S.Holds result.0) P.fails) }
    ensures later { FailsWhere (S.Fails result.0) P.fails }
{
    let mut noted = NotedBytes::<S, P>::new(source, len);
    let told = sum_told(&mut noted, found);
    let (source, failed) = noted.into_source();
    match told {
        Ok(sum) => (source, Ok(sum)),
        Err(fault) => (source, Err(noted_fault(fault, failed))),
    }
}

/// The source, and whether the sum in a disk copy's header is that of its data, as [`sum_told`] says. Errors: a read of bytes
/// that the source has failed, memory was refused.
pub(crate) fn sum_of<S: PlacedBytes>(
    source: S,
    found: &FoundRange,
) -> (S, Result<Option<bool>, SparseFault>)
    ensures told { IfOk result.1 (λ sum. OfEach (S.Holds result.0)
        (λ file. sum ≡ sum_told found.now.container (bytes_in found.now.range file))) }
    ensures held { OfEach (S.Holds result.0) (S.Holds source) }
    ensures failed { IfErr result.1 (λ fault. fault ≡ SparseFault.ReadFailed
        → SomeFail (S.Holds result.0) (S.Fails source)) }
    ensures later { FailsWhere (S.Fails result.0) (S.Fails source) }
{
    let len = source.len();
    sum_noted::<Brand, S>(source, len, found)
}

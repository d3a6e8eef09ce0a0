//! The first bytes of an image, as if they were the image.
ghost use Rattle.std.specs.Prelude.{◌≡◌, ◌+◌, ◌<◌, ◌≤◌, min, IfErr, IfOk, length};
ghost use Rattle.hfs_source.specs.Images.{FailsWhere, HasAt, OfEach};
ghost use Rattle.hfs_bag.specs.Heads.{HasSmallHeader, IsHeadOf, with_zeros};

use hfs_fields::u16_at;
use hfs_source::{MemoryBytes, PlacedBytes, SparseFault};
use std::alloc::Global;
use std::io;

/// How many bytes are read: what says where volumes lie is within them.
const HEAD: u64 = 131_072;

/// The first bytes of an image of `len` bytes. Contracts see zeros after them, which can't be read.
#[derive(Drop)]
pub(crate) struct HeadBytes<'a> {
    pub(crate) bytes: &'a [u8],
    pub(crate) len: u64,
    ghost few: { length bytes.now ≤ len },
}

impl PlacedBytes for HeadBytes<'_> {
    ghost Holds = { λ head image. image ≡ with_zeros head.len head.bytes.now };

    ghost Fails = { λ head place count. length head.bytes.now < place + count };

    #[tactic(auto, using(crate::proofs::HeadLemmas::head_long))]
    fn len(&self) -> u64 {
        self.len
    }

    #[tactic(auto, using(crate::proofs::HeadLemmas::head_read))]
    fn read_at(&mut self, place: u64, into: &mut [u8]) -> io::Result<()> {
        let bytes = self.bytes;
        MemoryBytes { bytes }.read_at(place, into)
    }
}

/// The first `len` bytes of an image. Errors: the read failed or the image has fewer, memory was refused.
fn first_bytes<S: PlacedBytes>(
    alloc: Global,
    source: &mut S,
    len: u64,
) -> Result<Vec<u8>, SparseFault>
    ensures size { IfOk result (λ bytes. length bytes.items ≡ len) }
    ensures bytes { IfOk result (λ bytes. OfEach (S.Holds source.new) (HasAt 0 bytes.items)) }
    ensures held { OfEach (S.Holds source.new) (S.Holds source.old) }
    ensures failed { IfErr result (λ fault. fault ≡ SparseFault.ReadFailed
        → S.Fails source.old 0 len) }
    ensures later { FailsWhere (S.Fails source.new) (S.Fails source.old) }
{
    let Ok(mut bytes) = vec![in alloc; 0u8; len as usize] else {
        return Err(SparseFault::Memory);
    };
    match source.read_at(0, &mut bytes) {
        Ok(()) => Ok(bytes),
        Err(_) => Err(SparseFault::ReadFailed),
    }
}

/// The first bytes of an image of `all` bytes, in which volumes are looked for. Errors: the read failed, memory was refused.
pub(crate) fn head_of<S: PlacedBytes>(
    alloc: Global,
    source: &mut S,
    all: u64,
) -> Result<Vec<u8>, SparseFault>
    ensures few { IfOk result (λ head. length head.items ≤ all) }
    ensures head { IfOk result (λ head. OfEach (S.Holds source.new)
        (λ file. length file ≡ all → IsHeadOf head.items file)) }
    ensures held { OfEach (S.Holds source.new) (S.Holds source.old) }
    ensures failed { IfErr result (λ fault. fault ≡ SparseFault.ReadFailed
        → S.Fails source.old 0 (min all 131072)) }
    ensures later { FailsWhere (S.Fails source.new) (S.Fails source.old) }
{
    let len = all.min(HEAD);
    let head = first_bytes(alloc, source, len)?;
    Ok(head)
}

/// How many bytes the second header has of a MacBinary file that begins with these bytes; 0 if they are too few.
#[tactic(auto, using(crate::proofs::HeadLemmas::short_header, crate::proofs::HeadLemmas::small_header))]
pub(crate) fn second_header(head: &[u8]) -> u16
    ensures { HasSmallHeader head.now }
{
    if head.len() < 128 {
        return 0;
    }
    u16_at(&head[..128], 120)
}

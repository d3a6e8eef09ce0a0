//! MacBinary files, up to their data fork. Source: MacBinary II Standard Proposal (1987).
ghost use Rattle.std.specs.Prelude.{◌≡◌, ◌+◌, ◌^◌, ◌<◌, IfOk, IfSome};
ghost use Rattle.hfs_source.specs.MacBinary.{data_fork_in, data_fork_of, filled, found_in_fork, is_macbinary_head, macbinary_in};
ghost use Rattle.hfs_source.specs.Images.{FailsWhere, OfEach};

use crate::disk_copy::disk_copy_in;
use crate::pieces::piece_at;
use crate::ranges::{ByteRange, Container, FoundRange};
use crate::volumes::volume_as;
use crate::{PlacedBytes, SparseFault};
use hfs_fields::{u16_at, u32_at};

/// How many bytes the header has.
const HEAD: u64 = 128;

#[tactic(auto, unfolding(crate::specs::MacBinary::is_macbinary_head))]
fn is_macbinary_head(head: &[u8; 128]) -> bool
    ensures { result ≡ is_macbinary_head head.now }
{
    head[0] == 0 && head[1] >= 1 && head[1] <= 63 && head[74] == 0 && head[82] == 0
}

/// This many bytes, padded to a multiple of 128.
fn filled(len: u16) -> u64
    ensures filled { result ≡ filled len }
    ensures small { result < 2 ^ 17 }
{
    (u64::from(len) + 127) / 128 * 128
}

/// The data fork of a file of `len` bytes with this header: after it, and after a second header whose length it gives.
#[tactic(auto, unfolding(crate::specs::MacBinary::data_fork_of))]
fn data_fork_of(len: u64, head: &[u8; 128]) -> Option<ByteRange>
    ensures fork { result ≡ data_fork_of len head.now }
    ensures small { IfSome result (λ fork. fork.start < 2 ^ 18) }
{
    let start = HEAD + filled(u16_at(head, 120));
    let bytes = u64::from(u32_at(head, 83));
    if is_macbinary_head(head) && start + bytes <= len {
        Some(ByteRange { start, len: bytes })
    } else {
        None
    }
}

/// The data fork of a MacBinary file of `len` bytes.
fn data_fork_in<S: PlacedBytes>(source: &mut S, len: u64) -> Result<Option<ByteRange>, SparseFault>
    ensures fork { IfOk result (λ fork. OfEach (S.Holds source.new)
        (λ file. fork ≡ data_fork_in len file)) }
    ensures small { IfOk result (λ fork. IfSome fork (λ fork. fork.start < 2 ^ 18)) }
    ensures held { OfEach (S.Holds source.new) (S.Holds source.old) }
    ensures later { FailsWhere (S.Fails source.new) (S.Fails source.old) }
{
    if len < HEAD {
        return Ok(None);
    }
    let head = piece_at(source, 0)?;
    Ok(data_fork_of(len, &head))
}

/// The disk copy in a data fork, or else the volume.
fn found_in_fork<S: PlacedBytes>(
    source: &mut S,
    fork: ByteRange,
) -> Result<Option<FoundRange>, SparseFault>
    requires { fork.start < 2 ^ 18 }
    ensures found { IfOk result (λ found. OfEach (S.Holds source.new)
        (λ file. found ≡ found_in_fork fork file)) }
    ensures held { OfEach (S.Holds source.new) (S.Holds source.old) }
    ensures later { FailsWhere (S.Fails source.new) (S.Fails source.old) }
{
    match disk_copy_in(source, fork)? {
        Some(found) => Ok(Some(found)),
        None => volume_as(source, Container::MacBinary, fork),
    }
}

/// What lies in the data fork of a MacBinary file of `len` bytes.
pub fn macbinary_in<S: PlacedBytes>(
    source: &mut S,
    len: u64,
) -> Result<Option<FoundRange>, SparseFault>
    ensures found { IfOk result (λ found. OfEach (S.Holds source.new)
        (λ file. found ≡ macbinary_in len file)) }
    ensures held { OfEach (S.Holds source.new) (S.Holds source.old) }
    ensures later { FailsWhere (S.Fails source.new) (S.Fails source.old) }
{
    match data_fork_in(source, len)? {
        Some(fork) => found_in_fork(source, fork),
        None => Ok(None),
    }
}

//! The sum of Disk Copy 4.2.
ghost use Rattle.std.specs.Prelude.{◌≡◌, ◌≤◌, ◌+◌, ◌*◌, ◌/◌, ◌%◌, ◌^◌, IfOk};
ghost use Rattle.hfs_fields.specs.Mdb.{bytes_at};
ghost use Rattle.hfs_source.specs.Ranges.{bytes_in};
ghost use Rattle.hfs_source.specs.Sums.{sum_from, sum_of, sum_told, turned, with_word};
ghost use Rattle.hfs_source.specs.Images.{FailsWhere, OfEach};

use crate::ranges::{ByteRange, Container, FoundRange};
use crate::{PlacedBytes, SparseFault};

/// How many bytes are read at once.
const PIECE: u64 = 16_384;

/// The number rotated right by one bit.
fn turned(sum: u32) -> u32
    ensures { result ≡ turned sum }
{
    sum / 2 + sum % 2 * 0x8000_0000
}

/// The sum with one more word.
#[tactic(auto, unfolding(crate::specs::Sums::with_word))]
fn with_word(sum: u32, high: u8, low: u8) -> u32
    ensures { result ≡ with_word sum (high * 256 + low) }
{
    turned(sum.wrapping_add(u32::from(high) * 256 + u32::from(low)))
}

/// The sum continued over these bytes.
pub fn sum_from(start: u32, bytes: &[u8]) -> u32
    ensures { result ≡ sum_from start bytes.now }
{
    let mut sum = start;
    for n in 0..bytes.len() / 2 {
        sum = with_word(sum, bytes[2 * n], bytes[2 * n + 1]);
    }
    sum
}

/// The sum continued over `count` bytes from `place` on.
fn sum_over<S: PlacedBytes>(
    source: &mut S,
    place: u64,
    count: u64,
    sum: u32,
) -> Result<u32, SparseFault>
    requires { count ≤ 16384 }
    ensures sum { IfOk result (λ after. OfEach (S.Holds source.new)
        (λ file. after ≡ sum_from sum (bytes_at place count file))) }
    ensures held { OfEach (S.Holds source.new) (S.Holds source.old) }
    ensures later { FailsWhere (S.Fails source.new) (S.Fails source.old) }
{
    let mut piece = [0; PIECE as usize];
    let bytes = &mut piece[..count as usize];
    match source.read_at(place, bytes) {
        Ok(()) => Ok(sum_from(sum, bytes)),
        Err(_) => Err(SparseFault::ReadFailed),
    }
}

/// The sum of a range's bytes, which are read once, in pieces. Error: the read failed, or the file ends before the range.
pub fn range_sum<S: PlacedBytes>(source: &mut S, range: ByteRange) -> Result<u32, SparseFault>
    ensures sum { IfOk result (λ sum. OfEach (S.Holds source.new)
        (λ file. sum ≡ sum_of (bytes_in range file))) }
    ensures held { OfEach (S.Holds source.new) (S.Holds source.old) }
    ensures later { FailsWhere (S.Fails source.new) (S.Fails source.old) }
{
    let mut sum = 0;
    let mut done = 0;
    while done < range.len {
        let count = (range.len - done).min(PIECE);
        let Some(place) = range.start.checked_add(done) else {
            return Err(SparseFault::ReadFailed);
        };
        sum = sum_over(source, place, count, sum)?;
        done += count;
    }
    Ok(sum)
}

/// Whether the sum in a disk copy's header is that of its data, which is read; None if there is no such header. Errors: the read
/// failed, or the file ends before the range does.
pub fn sum_told<S: PlacedBytes>(
    source: &mut S,
    found: &FoundRange,
) -> Result<Option<bool>, SparseFault>
    ensures told { IfOk result (λ sum. OfEach (S.Holds source.new)
        (λ file. sum ≡ sum_told found.now.container (bytes_in found.now.range file))) }
    ensures held { OfEach (S.Holds source.new) (S.Holds source.old) }
    ensures later { FailsWhere (S.Fails source.new) (S.Fails source.old) }
{
    match found.container {
        Container::DiskCopy { sum } => {
            let own = range_sum(source, found.range)?;
            Ok(Some(own == sum))
        }
        Container::Bare | Container::MacBinary | Container::Partition => Ok(None),
        Container::RawBare | Container::RawPartition => Ok(None),
    }
}

//! The size of a new volume, as it is typed.
ghost use Rattle.std.specs.Prelude.{◌≡◌, ◌≤◌, MatchResult};
ghost use Rattle.hfs_format.specs.TypedSizes.{IsNumberOf, IsSizeOf, IsBadSize, digits_in, unit_in};

use crate::make_fault::MakeFault;
use crate::volume_size::VolumeSize;
use std::str::from_utf8;

/// The digits of a size, and how many bytes one of the units has that they count.
#[tactic(auto, unfolding(crate::specs::TypedSizes::digits_in, crate::specs::TypedSizes::unit_in))]
fn parted(text: &[u8]) -> (&[u8], u64)
    ensures digits { result.0.now ≡ digits_in text.now }
    ensures unit { result.1 ≡ unit_in text.now }
    ensures some { 1 ≤ result.1 }
    ensures few { result.1 ≤ 1073741824 }
{
    match text {
        [digits @ .., b'K'] => (digits, 1_024),
        [digits @ .., b'M'] => (digits, 1_048_576),
        [digits @ .., b'G'] => (digits, 1_073_741_824),
        digits => (digits, 1),
    }
}

/// The number in these digits; None if they are none, or if it is above 18,446,744,073,709,551,615.
fn number_of(digits: &[u8]) -> Option<u64>
    ensures { IsNumberOf digits.now result }
{
    match from_utf8(digits) {
        Ok(digits) => match digits.parse::<u64>() {
            Ok(number) => Some(number),
            Err(_) => None,
        },
        Err(_) => None,
    }
}

/// The size in a text: bytes, or, with `K`, `M` or `G` at the end, units of 1,024, 1,048,576 or 1,073,741,824 bytes. Error:
/// `BadSize` exactly when it is none, or one that isn't whole blocks of 512 bytes from 64 KB to 2 GB.
pub fn read_size(text: &str) -> Result<VolumeSize, MakeFault>
    ensures { MatchResult result (IsSizeOf text.now) (IsBadSize text.now) }
{
    let (digits, unit) = parted(text.as_bytes());
    let Some(number) = number_of(digits) else {
        return Err(MakeFault::BadSize);
    };
    if number > 2_147_483_648 {
        return Err(MakeFault::BadSize);
    }
    let bytes = number * unit;
    if bytes % 512 != 0 || bytes < 65_536 || bytes > 2_147_483_648 {
        return Err(MakeFault::BadSize);
    }
    Ok(VolumeSize {
        blocks: (bytes / 512) as u32,
    })
}

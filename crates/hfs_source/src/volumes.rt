//! Whether a range holds a volume.
ghost use Rattle.std.specs.Prelude.{◌≡◌, IfOk};
ghost use Rattle.hfs_source.specs.Ranges.{signed_name, volume_as, volume_name_in};
ghost use Rattle.hfs_source.specs.Images.{FailsWhere, OfEach};

use crate::pieces::piece_at;
use crate::ranges::{ByteRange, Container, FoundRange};
use crate::{PlacedBytes, SparseFault};
use hfs_fields::u16_at;

/// The signature of an HFS volume, in drSigWord.
const SIGNATURE: u16 = 0x4244;

/// The fewest bytes of a volume: its boot blocks and its master directory block.
const SHORTEST: u64 = 1_536;

/// The byte of a volume where its master directory block begins.
const BLOCK_PLACE: u64 = 1_024;

/// The name field of a master directory block, if it has the signature.
#[tactic(auto, unfolding(crate::specs::Ranges::signed_name))]
fn signed_name(block: &[u8; 64]) -> Option<[u8; 28]>
    ensures { result ≡ signed_name block.now }
{
    if u16_at(block, 0) != SIGNATURE {
        return None;
    }
    let mut name = [0; 28];
    name.copy_from_slice(&block[36..64]);
    Some(name)
}

/// The name field (drVN, a length byte and 27 characters) of the volume that a range holds. None exactly when it has fewer than
/// 1,536 bytes or another signature. Errors: the read failed, or the file ends before the range does.
pub fn volume_name<S: PlacedBytes>(
    source: &mut S,
    range: ByteRange,
) -> Result<Option<[u8; 28]>, SparseFault>
    ensures name { IfOk result (λ name. OfEach (S.Holds source.new)
        (λ file. name ≡ volume_name_in range file)) }
    ensures held { OfEach (S.Holds source.new) (S.Holds source.old) }
    ensures later { FailsWhere (S.Fails source.new) (S.Fails source.old) }
{
    if range.len < SHORTEST {
        return Ok(None);
    }
    let Some(place) = range.start.checked_add(BLOCK_PLACE) else {
        return Err(SparseFault::ReadFailed);
    };
    let block = piece_at(source, place)?;
    Ok(signed_name(&block))
}

/// The range, if it holds a volume.
pub fn volume_as<S: PlacedBytes>(
    source: &mut S,
    container: Container,
    range: ByteRange,
) -> Result<Option<FoundRange>, SparseFault>
    ensures found { IfOk result (λ found. OfEach (S.Holds source.new)
        (λ file. found ≡ volume_as container range file)) }
    ensures held { OfEach (S.Holds source.new) (S.Holds source.old) }
    ensures later { FailsWhere (S.Fails source.new) (S.Fails source.old) }
{
    match volume_name(source, range)? {
        Some(_) => Ok(Some(FoundRange { container, range })),
        None => Ok(None),
    }
}

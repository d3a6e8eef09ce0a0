//! Disk Copy 4.2. Source: Apple's File Type Note $E0/0005.
ghost use Rattle.std.specs.Prelude.{◌≡◌, ◌+◌, ◌^◌, ◌<◌, IfOk};
ghost use Rattle.hfs_source.specs.DiskCopy.{disk_copy_in, disk_copy_of, is_data_length, is_disk_copy_head};
ghost use Rattle.hfs_source.specs.Images.{FailsWhere, OfEach};

use crate::pieces::piece_at;
use crate::ranges::{ByteRange, Container, FoundRange};
use crate::{PlacedBytes, SparseFault};
use hfs_fields::{u16_at, u32_at};

/// How many bytes the header has.
const HEAD: u64 = 84;

/// The fewest bytes of data that are looked for.
const SHORTEST: u64 = 1_536;

/// The number of the format.
const FORMAT: u16 = 0x0100;

#[tactic(auto, unfolding(crate::specs::DiskCopy::is_disk_copy_head))]
fn is_disk_copy_head(head: &[u8; 84]) -> bool
    ensures { result ≡ is_disk_copy_head head.now }
{
    head[0] >= 1 && head[0] <= 63 && u16_at(head, 82) == FORMAT
}

/// Whether this many bytes of data, after the header, lie within `room` bytes.
#[tactic(auto, unfolding(crate::specs::DiskCopy::is_data_length))]
fn is_data_length(room: u64, len: u32) -> bool
    ensures { result ≡ is_data_length room len }
{
    let len = u64::from(len);
    len % 2 == 0 && len >= SHORTEST && HEAD + len <= room
}

/// The data of the disk copy with this header, which begins a range.
#[tactic(auto, unfolding(crate::specs::DiskCopy::disk_copy_of))]
fn disk_copy_of(range: ByteRange, head: &[u8; 84]) -> Option<FoundRange>
    requires { range.start + 84 < 2 ^ 64 }
    ensures { result ≡ disk_copy_of range head.now }
{
    let len = u32_at(head, 64);
    if !(is_disk_copy_head(head) && is_data_length(range.len, len)) {
        return None;
    }
    Some(FoundRange {
        container: Container::DiskCopy {
            sum: u32_at(head, 72),
        },
        range: ByteRange {
            start: range.start + HEAD,
            len: u64::from(len),
        },
    })
}

/// The data of the disk copy in a range, if the range is one.
pub fn disk_copy_in<S: PlacedBytes>(
    source: &mut S,
    range: ByteRange,
) -> Result<Option<FoundRange>, SparseFault>
    requires { range.start + 84 < 2 ^ 64 }
    ensures found { IfOk result (λ found. OfEach (S.Holds source.new)
        (λ file. found ≡ disk_copy_in range file)) }
    ensures held { OfEach (S.Holds source.new) (S.Holds source.old) }
    ensures later { FailsWhere (S.Fails source.new) (S.Fails source.old) }
{
    if range.len < HEAD {
        return Ok(None);
    }
    let head = piece_at(source, range.start)?;
    Ok(disk_copy_of(range, &head))
}

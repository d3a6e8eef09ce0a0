//! One raw sector. Sources: ECMA-130 (pattern, address, mode 1), CD-ROM XA (mode 2, whose subheader gives the form).
ghost use Rattle.std.specs.Prelude.{◌≡◌, ◌+◌, ◌≤◌, IfSome, length};
ghost use Rattle.hfs_fields.specs.Mdb.{bytes_at};
ghost use Rattle.hfs_source.specs.Sectors.{data_start, has_pattern, is_mode_2_form_1, sector_data, start_by_mode};

use hfs_fields::u32_at;

/// How many bytes a sector has.
pub(crate) const SECTOR: u64 = 2_352;

/// How many bytes of user data a sector has.
pub(crate) const DATA: u64 = 2_048;

/// The first bytes of a sector, which say where its user data begins.
pub(crate) const HEAD: usize = 24;

#[tactic(auto, unfolding(crate::specs::Sectors::has_pattern))]
fn has_pattern(head: &[u8; 24]) -> bool
    ensures { result ≡ has_pattern head.now }
{
    u32_at(head, 0) == 0x00FF_FFFF
        && u32_at(head, 4) == 0xFFFF_FFFF
        && u32_at(head, 8) == 0xFFFF_FF00
}

#[tactic(auto, unfolding(crate::specs::Sectors::is_mode_2_form_1))]
fn is_mode_2_form_1(head: &[u8; 24]) -> bool
    ensures { result ≡ is_mode_2_form_1 head.now }
{
    head[15] == 2 && head[18] / 32 % 2 == 0
}

/// Where the user data begins in a sector of this mode.
#[tactic(auto, unfolding(crate::specs::Sectors::start_by_mode))]
fn start_by_mode(head: &[u8; 24]) -> Option<usize>
    ensures start { result ≡ start_by_mode head.now }
    ensures small { IfSome result (λ start. start ≤ 24) }
{
    if head[15] == 1 {
        return Some(16);
    }
    if is_mode_2_form_1(head) {
        return Some(24);
    }
    None
}

/// Where the user data begins in a sector with these first bytes. None for a sector of another mode, and for one without the
/// pattern.
#[tactic(auto, unfolding(crate::specs::Sectors::data_start))]
pub fn data_start(head: &[u8; 24]) -> Option<usize>
    ensures start { result ≡ data_start head.now }
    ensures small { IfSome result (λ start. start ≤ 24) }
{
    if !has_pattern(head) {
        return None;
    }
    start_by_mode(head)
}

/// Where the user data begins in a sector.
fn start_in(sector: &[u8; 2352]) -> Option<usize>
    ensures start { result ≡ data_start (bytes_at 0 24 sector.now) }
    ensures small { IfSome result (λ start. start ≤ 24) }
{
    let mut head = [0; HEAD];
    head.copy_from_slice(&sector[..24]);
    data_start(&head)
}

/// Copies a part of a sector's user data, from byte `from` on.
pub fn put_data(sector: &[u8; 2352], from: usize, part: &mut [u8])
    requires { from + length part.old ≤ 2048 }
    ensures { part.new ≡ bytes_at from (length part.old) (sector_data sector.now) }
{
    let count = part.len();
    match start_in(sector) {
        Some(start) => part.copy_from_slice(&sector[start + from..start + from + count]),
        None => part.fill(0),
    }
}

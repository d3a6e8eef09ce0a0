//! AppleDouble files, version 2, with their parts in any order. Source: AppleSingle/AppleDouble Formats for Foreign Files (Apple, 1990).
ghost use Rattle.std.specs.Prelude.{◌≡◌, ◌+◌, ◌*◌, ◌-◌, ◌≤◌, ◌++◌, IfOk, IfSome, IsTrue, OnErr, Some, length, replicate};
ghost use Rattle.std.specs.Option.{option_or};
ghost use Rattle.hfs_fields.specs.Numbers.{number_at};
ghost use Rattle.hfs_source.specs.Images.{FailsWhere, HasLength, OfEach};
ghost use Rattle.hfs_encodings.specs.IncomingAppleDouble.{PartLies, PartsLie, apple_double_in, dates_in, dates_of, entry_place, finder_in, fork_of, is_apple_double_head, lies_within, no_parts, parts_in, parts_with, with_entries, with_entry};
ghost use Rattle.hfs_encodings.specs.Dates.{mac_date};
ghost use Rattle.hfs_encodings.specs.Failing.{SomeFail};

use crate::forks::ForkPlace;
use crate::pieces::read_piece;
use hfs_fields::{FieldRow, u16_at, u32_at};
use hfs_source::PlacedBytes;
use std::io;

/// The dates of a file, in seconds since midnight, 1 January 1904; 0 for a date that isn't set.
#[derive(Clone, Copy)]
pub struct FileDates {
    /// When it was made.
    pub created: u32,
    /// When it was last changed.
    pub modified: u32,
    /// When it was last backed up.
    pub backup: u32,
}

/// What an AppleDouble file holds about the item that it belongs to.
#[derive(Clone, Copy)]
pub struct AppleDoubleFile {
    /// What the Finder keeps about it; zeros if the file doesn't say.
    pub finder: [u8; 32],
    /// Its dates, if the file has them.
    pub dates: Option<FileDates>,
    /// Where its resource fork lies; empty if there is none.
    pub resource_fork: ForkPlace,
}

/// Where the parts that are used lie.
#[derive(Clone, Copy)]
pub struct FoundParts {
    /// What the Finder keeps.
    pub finder: Option<ForkPlace>,
    /// The resource fork.
    pub resource: Option<ForkPlace>,
    /// The dates.
    pub dates: Option<ForkPlace>,
}

/// A date from seconds since 2000, in 32 bits of which the highest is the sign.
#[tactic(auto, unfolding(crate::specs::Dates::mac_date))]
fn mac_date(seconds: u32) -> u32
    ensures { result ≡ mac_date seconds }
{
    if seconds == 0x8000_0000 {
        0
    } else if seconds < 1_265_437_696 {
        seconds + 3_029_529_600
    } else if seconds < 0x8000_0000 {
        u32::MAX
    } else {
        seconds - 1_265_437_696
    }
}

/// Where the part of an entry lies.
fn entry_place(entry: &[u8; 12]) -> ForkPlace
    ensures { result ≡ entry_place entry.now }
{
    ForkPlace {
        start: u64::from(u32_at(entry, 4)),
        len: u32_at(entry, 8),
    }
}

/// Whether a part lies in a file of `len` bytes.
fn lies_within(len: u64, place: ForkPlace) -> bool
    ensures { result ≡ lies_within len place }
{
    place.start <= len && u64::from(place.len) <= len - place.start
}

/// The part's place if it has one, or else this one.
fn first_of(part: Option<ForkPlace>, place: ForkPlace) -> Option<ForkPlace>
    ensures { result ≡ option_or part (Some place) }
{
    match part {
        Some(found) => Some(found),
        None => Some(place),
    }
}

/// The parts with one more entry; of two entries for the same part, the first counts.
#[tactic(auto, unfolding(crate::specs::IncomingAppleDouble::with_entry))]
fn with_entry(entry: &[u8; 12], parts: FoundParts) -> FoundParts
    ensures { result ≡ with_entry entry.now parts }
{
    let place = entry_place(entry);
    let what = u32_at(entry, 0);
    if what == 9 {
        FoundParts {
            finder: first_of(parts.finder, place),
            resource: parts.resource,
            dates: parts.dates,
        }
    } else if what == 2 {
        FoundParts {
            finder: parts.finder,
            resource: first_of(parts.resource, place),
            dates: parts.dates,
        }
    } else if what == 8 {
        FoundParts {
            finder: parts.finder,
            resource: parts.resource,
            dates: first_of(parts.dates, place),
        }
    } else {
        parts
    }
}

/// Whether a file of `len` bytes begins with a head of AppleDouble, version 2, and has room for as many entries as it says.
#[tactic(auto, unfolding(crate::specs::IncomingAppleDouble::is_apple_double_head))]
fn is_apple_double_head(len: u64, head: &[u8; 26]) -> bool
    ensures head { result ≡ is_apple_double_head len head.now }
    ensures room { IsTrue result → 26 + 12 * number_at 24 2 head.now ≤ len }
{
    u32_at(head, 0) == 0x0005_1607
        && u32_at(head, 4) == 0x0002_0000
        && 26 + 12 * u64::from(u16_at(head, 24)) <= len
}

/// The parts of this many entries, each of which lies in the file; None if one doesn't.
#[tactic(auto, using(crate::proofs::Entries::some_fail_later))]
fn read_entries<S: PlacedBytes>(
    source: &mut S,
    len: u64,
    count: u16,
) -> io::Result<Option<FoundParts>>
    requires room { 26 + 12 * count ≤ len }
    requires long { OfEach (S.Holds source.old) (HasLength len) }
    ensures found { IfOk result (λ found. OfEach (S.Holds source.new)
        (λ file. found ≡ with_entries count 26 len no_parts file)) }
    ensures lie { IfOk result (λ found. IfSome found (PartsLie len)) }
    ensures held { OfEach (S.Holds source.new) (S.Holds source.old) }
    ensures fails { OnErr result (SomeFail (S.Holds source.new) (S.Fails source.old)) }
    ensures later { FailsWhere (S.Fails source.new) (S.Fails source.old) }
{
    let mut parts = FoundParts {
        finder: None,
        resource: None,
        dates: None,
    };
    let mut left = count;
    let mut place = 26;
    while left > 0 {
        let mut entry = [0; 12];
        read_piece(source, len, place, &mut entry)?;
        if !lies_within(len, entry_place(&entry)) {
            return Ok(None);
        }
        parts = with_entry(&entry, parts);
        left -= 1;
        place += 12;
    }
    Ok(Some(parts))
}

/// The parts of a file of `len` bytes.
#[tactic(auto, unfolding(crate::specs::IncomingAppleDouble::parts_in, crate::specs::IncomingAppleDouble::parts_with), using(crate::proofs::Entries::some_fail_later))]
fn read_parts<S: PlacedBytes>(source: &mut S, len: u64) -> io::Result<Option<FoundParts>>
    requires { OfEach (S.Holds source.old) (HasLength len) }
    ensures found { IfOk result (λ found. OfEach (S.Holds source.new)
        (λ file. found ≡ parts_in len file)) }
    ensures lie { IfOk result (λ found. IfSome found (PartsLie len)) }
    ensures held { OfEach (S.Holds source.new) (S.Holds source.old) }
    ensures fails { OnErr result (SomeFail (S.Holds source.new) (S.Fails source.old)) }
    ensures later { FailsWhere (S.Fails source.new) (S.Fails source.old) }
{
    if len < 26 {
        return Ok(None);
    }
    let mut head = [0; 26];
    read_piece(source, len, 0, &mut head)?;
    if !is_apple_double_head(len, &head) {
        return Ok(None);
    }
    read_entries(source, len, u16_at(&head, 24))
}

/// These bytes, followed by zeros: 32 in all.
fn with_zeros(bytes: &[u8]) -> [u8; 32]
    requires { length bytes.now ≤ 32 }
    ensures { result ≡ bytes.now ++ replicate (32 - length bytes.now) 0 }
{
    let mut row = FieldRow::new();
    row.push(bytes);
    row.push_zeros(32 - bytes.len());
    let mut whole = [0; 32];
    row.copy_to(&mut whole);
    whole
}

/// The first 32 bytes of what the Finder keeps, followed by zeros if there are fewer.
#[tactic(auto, unfolding(crate::specs::IncomingAppleDouble::finder_in), using(crate::proofs::Entries::finder_read))]
fn read_finder<S: PlacedBytes>(
    source: &mut S,
    len: u64,
    part: Option<ForkPlace>,
) -> io::Result<[u8; 32]>
    requires long { OfEach (S.Holds source.old) (HasLength len) }
    requires lies { PartLies len part }
    ensures finder { IfOk result (λ finder. OfEach (S.Holds source.new)
        (λ file. finder ≡ finder_in part file)) }
    ensures held { OfEach (S.Holds source.new) (S.Holds source.old) }
    ensures fails { OnErr result (SomeFail (S.Holds source.new) (S.Fails source.old)) }
    ensures later { FailsWhere (S.Fails source.new) (S.Fails source.old) }
{
    let Some(place) = part else {
        return Ok([0; 32]);
    };
    let mut finder = [0; 32];
    let bytes = &mut finder[..place.len.min(32) as usize];
    read_piece(source, len, place.start, bytes)?;
    Ok(with_zeros(bytes))
}

/// Created, modified and backup.
fn dates_of(bytes: &[u8; 16]) -> FileDates
    ensures { result ≡ dates_of bytes.now }
{
    FileDates {
        created: mac_date(u32_at(bytes, 0)),
        modified: mac_date(u32_at(bytes, 4)),
        backup: mac_date(u32_at(bytes, 8)),
    }
}

/// The dates, if their part has all four.
#[tactic(auto, unfolding(crate::specs::IncomingAppleDouble::dates_in))]
fn read_dates<S: PlacedBytes>(
    source: &mut S,
    len: u64,
    part: Option<ForkPlace>,
) -> io::Result<Option<FileDates>>
    requires long { OfEach (S.Holds source.old) (HasLength len) }
    requires lies { PartLies len part }
    ensures dates { IfOk result (λ dates. OfEach (S.Holds source.new)
        (λ file. dates ≡ dates_in part file)) }
    ensures held { OfEach (S.Holds source.new) (S.Holds source.old) }
    ensures fails { OnErr result (SomeFail (S.Holds source.new) (S.Fails source.old)) }
    ensures later { FailsWhere (S.Fails source.new) (S.Fails source.old) }
{
    let Some(place) = part else {
        return Ok(None);
    };
    if place.len < 16 {
        return Ok(None);
    }
    let mut bytes = [0; 16];
    read_piece(source, len, place.start, &mut bytes)?;
    Ok(Some(dates_of(&bytes)))
}

/// The fork at this place, or an empty one.
fn fork_of(part: Option<ForkPlace>) -> ForkPlace
    ensures { result ≡ fork_of part }
{
    match part {
        Some(place) => place,
        None => ForkPlace { start: 0, len: 0 },
    }
}

/// What an AppleDouble file, version 2, holds. Its parts may come in any order, each inside the file. None exactly when it isn't
/// such a file. Error: a read failed. See [`crate::apple_double_read_back`].
#[tactic(auto, using(crate::proofs::Entries::some_fail_later, crate::proofs::Entries::apple_double_none, crate::proofs::Entries::apple_double_some))]
pub fn read_apple_double<S: PlacedBytes>(source: &mut S) -> io::Result<Option<AppleDoubleFile>>
    ensures found { IfOk result (λ found. OfEach (S.Holds source.new)
        (λ file. found ≡ apple_double_in file)) }
    ensures held { OfEach (S.Holds source.new) (S.Holds source.old) }
    ensures fails { OnErr result (SomeFail (S.Holds source.new) (S.Fails source.old)) }
    ensures later { FailsWhere (S.Fails source.new) (S.Fails source.old) }
{
    let len = source.len();
    let Some(parts) = read_parts(source, len)? else {
        return Ok(None);
    };
    let finder = read_finder(source, len, parts.finder)?;
    let dates = read_dates(source, len, parts.dates)?;
    Ok(Some(AppleDoubleFile {
        finder,
        dates,
        resource_fork: fork_of(parts.resource),
    }))
}

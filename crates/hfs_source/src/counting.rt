//! Whether a file consists of raw sectors, and how many of these have no user data.
ghost use Rattle.std.specs.Prelude.{◌≡◌, ◌+◌, ◌*◌, ◌≤◌, ◌<◌, ◌^◌, IfOk, OnErr, length};
ghost use Rattle.std.specs.Option.{is_some};
ghost use Rattle.hfs_fields.specs.Mdb.{bytes_at};
ghost use Rattle.hfs_source.specs.Sectors.{are_whole_sectors, count_without, data_start, is_raw, other_count};
ghost use Rattle.hfs_source.specs.Images.{FailsWhere, OfEach};

use crate::PlacedBytes;
use crate::sector::{HEAD, SECTOR, data_start};
use std::io;

/// Where the user data begins in the sector that begins at a place.
fn start_at<S: PlacedBytes>(bytes: &mut S, place: u64) -> io::Result<Option<usize>>
    ensures start { IfOk result (λ start. OfEach (S.Holds bytes.new)
        (λ file. start ≡ data_start (bytes_at place 24 file))) }
    ensures held { OfEach (S.Holds bytes.new) (S.Holds bytes.old) }
    ensures fails { OnErr result (S.Fails bytes.old place 24) }
    ensures later { FailsWhere (S.Fails bytes.new) (S.Fails bytes.old) }
{
    let mut head = [0; HEAD];
    bytes.read_at(place, &mut head)?;
    Ok(data_start(&head))
}

/// Whether this many bytes are whole sectors, at least one.
#[tactic(auto, unfolding(crate::specs::Sectors::are_whole_sectors))]
pub fn are_whole_sectors(len: u64) -> bool
    ensures { result ≡ are_whole_sectors len }
{
    len >= SECTOR && len % SECTOR == 0
}

/// Whether a file consists of raw sectors: its length is a multiple of 2,352, and its first sector has user data. With another
/// length, nothing is read.
#[tactic(auto, unfolding(crate::specs::Sectors::is_raw))]
pub fn is_raw<S: PlacedBytes>(bytes: &mut S) -> io::Result<bool>
    ensures is { IfOk result (λ is. OfEach (S.Holds bytes.new) (λ file. is ≡ is_raw file)) }
    ensures held { OfEach (S.Holds bytes.new) (S.Holds bytes.old) }
    ensures fails { OnErr result (S.Fails bytes.old 0 24) }
    ensures later { FailsWhere (S.Fails bytes.new) (S.Fails bytes.old) }
{
    if !are_whole_sectors(bytes.len()) {
        return Ok(false);
    }
    let start = start_at(bytes, 0)?;
    Ok(start.is_some())
}

/// 1 if sector `n` has no user data, else 0.
fn count_at<S: PlacedBytes>(bytes: &mut S, n: u64) -> io::Result<u64>
    requires { n * 2352 < 2 ^ 64 }
    ensures count { IfOk result (λ count. OfEach (S.Holds bytes.new)
        (λ file. count ≡ count_without (data_start (bytes_at (n * 2352) 24 file)))) }
    ensures small { IfOk result (λ count. count ≤ 1) }
    ensures held { OfEach (S.Holds bytes.new) (S.Holds bytes.old) }
    ensures later { FailsWhere (S.Fails bytes.new) (S.Fails bytes.old) }
{
    match start_at(bytes, n * SECTOR)? {
        Some(_) => Ok(0),
        None => Ok(1),
    }
}

/// How many sectors have no user data; 24 bytes of each are read. Error: a read failed.
pub fn count_others<S: PlacedBytes>(bytes: &mut S) -> io::Result<u64>
    ensures count { IfOk result (λ count. OfEach (S.Holds bytes.new) (λ file. count ≡ other_count file)) }
    ensures held { OfEach (S.Holds bytes.new) (S.Holds bytes.old) }
    ensures later { FailsWhere (S.Fails bytes.new) (S.Fails bytes.old) }
{
    let sectors = bytes.len() / SECTOR;
    let mut others = 0;
    for n in 0..sectors {
        others += count_at(bytes, n)?;
    }
    Ok(others)
}

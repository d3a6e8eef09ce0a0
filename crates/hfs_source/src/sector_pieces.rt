//! Pieces of user data, sector by sector.
ghost use Rattle.std.specs.Prelude.{◌+◌, ◌*◌, ◌<◌, ◌^◌, IfOk, OnErr, OnOk, length};
ghost use Rattle.hfs_source.specs.Reading.{FailsInSector, IsDataOfOne};
ghost use Rattle.hfs_source.specs.Images.{FailsWhere, HasAt, OfEach};

use crate::PlacedBytes;
use crate::sector::{DATA, SECTOR, put_data};
use std::io;

/// The bytes of sector `n`, counted from 0.
fn sector_at<S: PlacedBytes>(bytes: &mut S, n: u64) -> io::Result<[u8; 2352]>
    requires { n * 2352 < 2 ^ 64 }
    ensures read { IfOk result (λ sector. OfEach (S.Holds bytes.new) (HasAt (n * 2352) sector)) }
    ensures held { OfEach (S.Holds bytes.new) (S.Holds bytes.old) }
    ensures fails { OnErr result (S.Fails bytes.old (n * 2352) 2352) }
    ensures later { FailsWhere (S.Fails bytes.new) (S.Fails bytes.old) }
{
    let mut sector = [0; SECTOR as usize];
    bytes.read_at(n * SECTOR, &mut sector)?;
    Ok(sector)
}

/// Reads user data from byte `place` on, as much as there is room for, with one read of each sector that has some of it.
pub fn read_data<S: PlacedBytes>(bytes: &mut S, place: u64, into: &mut [u8]) -> io::Result<()>
    requires { (place + length into.old) * 2352 < 2 ^ 64 * 2048 }
    ensures read { OnOk result (OfEach (IsDataOfOne (S.Holds bytes.new)) (HasAt place into.new)) }
    ensures held { OfEach (S.Holds bytes.new) (S.Holds bytes.old) }
    ensures fails { OnErr result (FailsInSector (S.Fails bytes.old) place (length into.old)) }
    ensures later { FailsWhere (S.Fails bytes.new) (S.Fails bytes.old) }
{
    let mut done = 0;
    while done < into.len() {
        let at = place + done as u64;
        let from = (at % DATA) as usize;
        let count = (into.len() - done).min(2_048 - from);
        let sector = sector_at(bytes, at / DATA)?;
        put_data(&sector, from, &mut into[done..done + count]);
        done += count;
    }
    Ok(())
}

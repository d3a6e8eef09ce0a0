//! The user data of raw sectors, as if it were the file.
ghost use Rattle.std.specs.Prelude.{◌≡◌, ◌*◌, ◌<◌, ◌^◌};
ghost use Rattle.hfs_source.specs.Reading.{FailsInData, IsDataOfOne};
ghost use Rattle.hfs_source.specs.Sectors.{sector_count};
ghost use Rattle.hfs_source.specs.Images.{OfEach};

use crate::PlacedBytes;
use crate::sector::{DATA, SECTOR};
use crate::sector_pieces::read_data;
use std::io;
use std::io::ErrorKind;

/// The user data of raw sectors: 2,048 bytes of each, one after the other, and zeros for a sector that has none. What is read
/// from it holds for every file consistent with the bytes read.
#[derive(Drop)]
pub struct UserData<S> {
    /// The bytes of the sectors.
    pub bytes: S,
    /// How many sectors there are. A read past them fails.
    pub sectors: u64,
    ghost few: { sectors * 2352 < 2 ^ 64 },
}

impl<S: PlacedBytes> UserData<S> {
    /// The user data of all sectors of these bytes. A sector that isn't whole doesn't count.
    pub fn new(bytes: S) -> UserData<S>
        ensures bytes { result.bytes ≡ bytes }
        ensures sectors { OfEach (S.Holds bytes) (λ file. result.sectors ≡ sector_count file) }
    {
        let sectors = bytes.len() / SECTOR;
        UserData { bytes, sectors }
    }
}

impl<S: PlacedBytes> PlacedBytes for UserData<S> {
    ghost Holds = { λ s. IsDataOfOne (S.Holds s.bytes) };

    ghost Fails = { λ s. FailsInData (S.Fails s.bytes) s.sectors };

    fn len(&self) -> u64 {
        self.bytes.len() / SECTOR * DATA
    }

    fn read_at(&mut self, place: u64, into: &mut [u8]) -> io::Result<()> {
        if into.is_empty() {
            return Ok(());
        }
        let len = self.sectors * DATA;
        if len < place || len - place < into.len() as u64 {
            return Err(io::Error::from(ErrorKind::UnexpectedEof));
        }
        read_data(&mut self.bytes, place, into)
    }
}

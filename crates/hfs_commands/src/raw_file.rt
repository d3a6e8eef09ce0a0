//! A file of raw CD sectors.
ghost use Rattle.std.specs.Prelude.{◌≡◌};
ghost use Rattle.hfs_commands.specs.OpenedFiles.{AreRaw, stored_failures, stored_images};
ghost use Rattle.hfs_source.specs.Images.{OfEach};

use crate::opened_file::StoredFile;
use hfs_source::{PlacedBytes, UserData};
use std::io;
use std::io::{Read, Seek};

/// A file that is known to be of raw CD sectors, and stays so whatever is read of it: each file consistent with the bytes read
/// is of raw sectors.
#[derive(Drop)]
pub(crate) struct RawFile<F: Read + Seek> {
    file: StoredFile<F>,
    ghost raw: { AreRaw (stored_images file) },
}

impl<F: Read + Seek> PlacedBytes for RawFile<F> {
    ghost Holds = { λ raw. stored_images raw.file };

    ghost Fails = { λ raw. stored_failures raw.file };

    fn len(&self) -> u64 {
        self.file.len()
    }

    fn read_at(&mut self, place: u64, into: &mut [u8]) -> io::Result<()> {
        self.file.read_at(place, into)
    }
}

/// The user data of a file that is known to be of raw sectors.
pub(crate) fn raw_data<F: Read + Seek>(user: UserData<StoredFile<F>>) -> UserData<RawFile<F>>
    requires { AreRaw (stored_images user.bytes) }
    ensures file { result.bytes.file ≡ user.bytes }
    ensures sectors { result.sectors ≡ user.sectors }
{
    let UserData {
        bytes: file,
        sectors,
    } = user;
    let bytes = RawFile { file };
    UserData { bytes, sectors }
}

/// The same user data, of the file as any.
pub(crate) fn stored_data<F: Read + Seek>(user: UserData<RawFile<F>>) -> UserData<StoredFile<F>>
    ensures file { result.bytes ≡ user.bytes.file }
    ensures sectors { result.sectors ≡ user.sectors }
    ensures raw { AreRaw (stored_images result.bytes) }
{
    let UserData {
        bytes: RawFile { file },
        sectors,
    } = user;
    UserData {
        bytes: file,
        sectors,
    }
}

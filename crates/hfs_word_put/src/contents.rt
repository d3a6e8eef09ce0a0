//! A file with what is put on its volume; it is looked at again, with everything that it is read from.
ghost use Rattle.std.specs.Prelude.{◌≡◌, OnOk};
ghost use Rattle.hfs_source.specs.Images.{OfEach};
ghost use Rattle.hfs_put.specs.Failures.{FailsLaid};
ghost use Rattle.hfs_put.specs.Images.{laid_images};
ghost use Rattle.hfs_word_put.specs.Contents.{IsSettled};

use hfs_bag::Watch;
use hfs_commands::WatchedBytes;
use hfs_put::{LaidForks, PlacedFiles};
use hfs_put_sources::HostFault;
use hfs_source::PlacedBytes;
use std::io;
use std::io::ErrorKind;

/// The bytes of a file with the forks of the sources in their places, provided that the file and the sources are as they were.
/// Each read is reported to a watch.
#[derive(Drop)]
pub struct LaidFile<'a, S, H, W> {
    pub forks: LaidForks<S, H>,
    pub watch: &'a W,
}

impl<S: PlacedBytes + Drop, H: PlacedFiles + Drop, W: Watch> PlacedBytes for LaidFile<'_, S, H, W> {
    ghost Holds = { λ file. laid_images S.Holds H.Holds file.forks };

    ghost Fails = { λ file. FailsLaid (S.Fails file.forks.bytes) file.forks.start file.forks.runs.items };

    fn len(&self) -> u64 {
        self.forks.len()
    }

    fn read_at(&mut self, place: u64, into: &mut [u8]) -> io::Result<()> {
        self.forks.read_at(place, into)?;
        self.watch.bytes_came(into.len() as u64);
        Ok(())
    }
}

impl<S: WatchedBytes + Drop, H: PlacedFiles + Drop, W: Watch> LaidFile<'_, S, H, W> {
    /// Why the sources couldn't be read, or were found changed, the first time.
    pub fn into_fault(self) -> Option<HostFault>
        ensures { result ≡ self.entry.forks.fault }
    {
        let LaidFile {
            mut forks,
            watch: _,
        } = self;
        forks.take_fault()
    }
}

/// Looks again at all files that are put, and then at the file into which they are laid. A change that was found is kept.
fn look_again<S: WatchedBytes + Drop, H: PlacedFiles + Drop>(
    forks: &mut LaidForks<S, H>,
) -> io::Result<()>
    ensures settled { OnOk result (IsSettled S.settled H.Holds forks.new) }
    ensures narrows { OfEach (laid_images S.Holds H.Holds forks.new)
        (laid_images S.Holds H.Holds forks.old) }
{
    match forks.look_again() {
        Ok(()) => forks.bytes.look_again(),
        Err(fault) => {
            if forks.fault.is_none() {
                forks.fault = Some(fault);
            }
            Err(io::Error::from(ErrorKind::InvalidData))
        }
    }
}

impl<S: WatchedBytes + Drop, H: PlacedFiles + Drop, W: Watch> WatchedBytes
    for LaidFile<'_, S, H, W> {
    ghost settled = { λ file. IsSettled S.settled H.Holds file.forks };

    fn look_again(&mut self) -> io::Result<()> {
        look_again(&mut self.forks)
    }
}

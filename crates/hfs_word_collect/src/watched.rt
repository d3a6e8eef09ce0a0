//! A file that is read while a watch is notified.
ghost use Rattle.hfs_commands.specs.OpenedFiles.{stored_failures, stored_images};

use hfs_bag::Watch;
use hfs_commands::StoredFile;
use hfs_source::PlacedBytes;
use std::io;
use std::io::{Read, Seek};

/// A file whose reads are reported to a watch.
#[derive(Drop)]
pub struct WatchedFile<'a, F: Read + Seek, W: Watch> {
    pub(crate) file: StoredFile<F>,
    pub(crate) watch: &'a W,
}

impl<F: Read + Seek, W: Watch> PlacedBytes for WatchedFile<'_, F, W> {
    ghost Holds = { λ watched. stored_images watched.file };

    ghost Fails = { λ watched. stored_failures watched.file };

    fn len(&self) -> u64 {
        self.file.len()
    }

    fn read_at(&mut self, place: u64, into: &mut [u8]) -> io::Result<()> {
        PlacedBytes::read_at(&mut self.file, place, into)?;
        self.watch.bytes_came(into.len() as u64);
        Ok(())
    }
}

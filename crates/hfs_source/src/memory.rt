//! Bytes in memory.
ghost use Rattle.std.specs.Prelude.{◌≡◌, ◌+◌, ◌<◌, length};

use crate::placed::PlacedBytes;
use std::io;
use std::io::ErrorKind;

/// An image whose bytes are in memory. Only a read past its end fails.
#[derive(Drop)]
pub struct MemoryBytes<'a> {
    /// The image's bytes.
    pub bytes: &'a [u8],
}

impl PlacedBytes for MemoryBytes<'_> {
    ghost Holds = { λ memory image. image ≡ memory.bytes.now };

    ghost Fails = { λ memory place count. length memory.bytes.now < place + count };

    fn len(&self) -> u64 {
        self.bytes.len() as u64
    }

    fn read_at(&mut self, place: u64, into: &mut [u8]) -> io::Result<()> {
        if into.is_empty() {
            return Ok(());
        }
        let len = self.bytes.len() as u64;
        if len < place || len - place < into.len() as u64 {
            return Err(io::Error::from(ErrorKind::UnexpectedEof));
        }
        let from = place as usize;
        into.copy_from_slice(&self.bytes[from..from + into.len()]);
        Ok(())
    }
}

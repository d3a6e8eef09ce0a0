//! Blocks of bytes in memory.
ghost use Rattle.std.specs.Prelude.{◌≡◌, Some};

use crate::source::BlockSource;
use std::io;
use std::io::ErrorKind;

/// A whole image as bytes, whose blocks are copied. A block that ends past the last byte can't be read.
#[derive(Drop)]
pub struct ByteSource<'a> {
    /// The image's bytes.
    pub bytes: &'a [u8],
}

impl BlockSource for ByteSource<'_> {
    ghost image = { λ s. Some s.bytes.now };

    ghost Holds = { λ s image. Some s.bytes.now ≡ Some image };

    fn read_blocks(&mut self, first: u32, into: &mut [u8]) -> io::Result<()> {
        let from = first as usize * 512;
        if self.bytes.len() < from || self.bytes.len() - from < into.len() {
            return Err(io::Error::from(ErrorKind::UnexpectedEof));
        }
        into.copy_from_slice(&self.bytes[from..from + into.len()]);
        Ok(())
    }

    ghost known_holds = { λ s bytes e. e };
}

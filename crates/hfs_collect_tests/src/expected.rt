//! A writer that takes only one text.

use std::cell::Cell;
use std::io;
use std::io::Write;

/// A writer that takes the bytes of a text, and fails at any others.
#[derive(Drop)]
pub struct Expected<'a> {
    pub text: &'a [u8],
    /// How many bytes came.
    pub taken: &'a Cell<usize>,
}

impl Write for Expected<'_> {
    fn write(&mut self, bytes: &[u8]) -> io::Result<usize> {
        let from = self.taken.get();
        if from > self.text.len() || bytes.len() > self.text.len() - from {
            return Err(io::Error::from(io::ErrorKind::Other));
        }
        let end = from + bytes.len();
        if &self.text[from..end] != bytes {
            return Err(io::Error::from(io::ErrorKind::Other));
        }
        self.taken.set(end);
        Ok(bytes.len())
    }

    fn flush(&mut self) -> io::Result<()> {
        Ok(())
    }
}

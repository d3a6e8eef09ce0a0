//! A writer that fails after some bytes.
use std::alloc::Global;
use std::io;
use std::io::Write;

/// Takes a byte at a time, and fails after some.
#[derive(Drop)]
pub struct LimitedWriter {
    pub taken: Vec<u8>,
    left: usize,
}

impl LimitedWriter {
    /// A writer that takes `left` bytes.
    pub fn new(alloc: Global, left: usize) -> LimitedWriter {
        LimitedWriter {
            taken: Vec::new(alloc),
            left,
        }
    }
}

impl Write for LimitedWriter {
    fn write(&mut self, bytes: &[u8]) -> io::Result<usize> {
        if self.left == 0 {
            return Err(io::Error::from(io::ErrorKind::Other));
        }
        match bytes.first() {
            None => Ok(0),
            Some(byte) => {
                if self.taken.push(*byte).is_err() {
                    return Err(io::Error::from(io::ErrorKind::OutOfMemory));
                }
                self.left -= 1;
                Ok(1)
            }
        }
    }

    fn flush(&mut self) -> io::Result<()> {
        Ok(())
    }
}

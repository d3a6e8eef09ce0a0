//! The input, and parts of its lines.
use anyhow::{Result, bail};
use hfs_texts::{LoadFault, load};
use std::alloc::Global;
use std::io::Read;

/// Everything that a reader gives.
pub fn input<R: Read>(alloc: Global, reader: &mut R) -> Result<Vec<u8>> {
    match load(alloc, reader) {
        Ok(bytes) => Ok(bytes),
        Err(LoadFault::Memory) => bail!("out of memory"),
        Err(LoadFault::ReadFailed | LoadFault::TooLarge) => bail!("the input was not read"),
    }
}

/// The text before the first such byte, and the text after it.
pub fn split_at(text: &[u8], byte: u8) -> (&[u8], &[u8]) {
    match text.iter().position(|b| *b == byte) {
        Some(end) => (&text[..end], &text[end + 1..]),
        None => (text, &[]),
    }
}

//! A small volume, mounted, and its bytes, which are laid by hand and compared without memory.

use anyhow::{Result, bail};
use hfs_fixtures::{FixtureFault, lay, tiny_image};
use hfs_volume::{Volume, mount};
use std::alloc::Global;
use std::io;
use std::io::Write;

/// Other bytes in a block of an image, from byte `at` on.
#[derive(Clone, Copy)]
pub struct Edit<'a> {
    pub block: usize,
    pub at: usize,
    pub bytes: &'a [u8],
}

/// The image of the volume with the folder `d`, and in it the file `f`, with these bytes in place of its own.
pub fn image_with(alloc: Global, edits: &[Edit<'_>]) -> Result<Vec<u8>, FixtureFault> {
    let mut image = tiny_image(alloc)?;
    for edit in edits {
        lay(&mut image, edit.block, edit.at, edit.bytes)?;
    }
    Ok(image)
}

/// The volume of an image, which is sound. If memory is refused, it is mounted once more.
pub fn mounted(alloc: Global, image: Vec<u8>) -> Result<Volume> {
    match mount(alloc, image) {
        Ok(volume) => Ok(volume),
        Err(refused) => match mount(alloc, refused.image) {
            Ok(volume) => Ok(volume),
            Err(_refused) => bail!("the volume is refused"),
        },
    }
}

/// A writer that compares what it takes with bytes that it knows.
#[derive(Drop)]
struct Comparison<'a> {
    left: &'a [u8],
    is_same: bool,
}

impl Write for Comparison<'_> {
    fn write(&mut self, bytes: &[u8]) -> io::Result<usize> {
        match self.left.strip_prefix(bytes) {
            Some(left) => self.left = left,
            None => self.is_same = false,
        }
        Ok(bytes.len())
    }

    fn flush(&mut self) -> io::Result<()> {
        Ok(())
    }
}

/// Whether a volume's image has these bytes. Takes no memory.
pub fn has_bytes(volume: &Volume, bytes: &[u8]) -> bool {
    let mut comparison = Comparison {
        left: bytes,
        is_same: true,
    };
    let end = volume.save(&mut comparison);
    end.is_ok() && comparison.is_same && comparison.left.is_empty()
}

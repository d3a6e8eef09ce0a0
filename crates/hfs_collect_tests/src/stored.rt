//! Images in memory, as the programs' files are opened.
ghost use Rattle.std.specs.Prelude.{◌+◌, ◌<◌, length};

use hfs_source::{MemoryBytes, SparseFault};
use hfs_word_collect::{ImageFacts, ImageRows, NotedFile, Reopen};
use std::alloc::Global;
use std::marker::Brand;

/// An image in memory that can be opened any number of times.
#[derive(Clone, Copy)]
pub struct Stored<'a> {
    bytes: &'a [u8],
}

impl<'a> Reopen<MemoryBytes<'a>> for Stored<'a> {
    ghost Fails = { λ stored place count. length stored.bytes.now < place + count };

    fn reopen(&mut self) -> Result<MemoryBytes<'a>, SparseFault> {
        Ok(MemoryBytes { bytes: self.bytes })
    }
}

/// The rows of an image in memory.
pub type StoredRows<'a> = ImageRows<
    'a,
    MemoryBytes<'a>,
    Brand,
    NotedFile<MemoryBytes<'a>, Brand, Stored<'a>>,
>;

/// What is known of an image besides its bytes.
pub fn facts_of(path: &str) -> ImageFacts<'_> {
    ImageFacts {
        path,
        program: "a test",
        takes_digests: true,
    }
}

/// The rows of the image of these bytes.
pub fn rows_of<'a>(alloc: Global, facts: &'a ImageFacts<'a>, bytes: &'a [u8]) -> StoredRows<'a> {
    ImageRows::new(alloc, NotedFile::new(Stored { bytes }), facts)
}

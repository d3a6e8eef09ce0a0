//! A writer that keeps only the digest of what it is given.
ghost use Rattle.std.specs.Prelude.{◌≡◌, ◌++◌, [], Some};
ghost use Rattle.sha2.specs.Sha256.{sha256};

use crate::written::{Written, WrittenPiece};
use sha2::{Digest, Sha256};
use std::io;
use std::io::Write;
use std::marker::Model;

/// A writer that takes the SHA-256 digest of everything that it is given. It never fails. Contracts see the bytes.
#[derive(Drop)]
pub struct DigestWriter {
    digest: Sha256,
    /// What it was given.
    written: Written,
}

impl Model for DigestWriter {
    ghost use Rattle.std.specs.Prelude.{ℕ, List};
    ghost use Rattle.sha2.specs.Hashers.{Holds256};

    ghost Value = { List ℕ };

    ghost view = { λ w. w.written.bytes };

    ghost invariant = { λ w. Holds256 w.digest w.written.bytes };
}

impl DigestWriter {
    /// A writer that was given nothing.
    pub fn new() -> DigestWriter
        ensures { result ≡ [] }
    {
        DigestWriter {
            digest: Sha256::new(),
            written: Written::new(),
        }
    }

    /// Takes these bytes, after those that it was given before.
    pub fn add(&mut self, bytes: &[u8])
        ensures { self.new ≡ self.old ++ bytes.now }
    {
        self.digest.update(bytes);
        self.written = self.written.then(&WrittenPiece { bytes });
    }

    /// The digest of everything that it was given.
    pub fn finish(self) -> [u8; 32]
        ensures { result ≡ sha256 self }
    {
        let DigestWriter { digest, .. } = self;
        digest.finalize()
    }
}

impl Write for DigestWriter {
    ghost contents = { Some };

    fn write(&mut self, bytes: &[u8]) -> io::Result<usize> {
        self.add(bytes);
        Ok(bytes.len())
    }

    fn flush(&mut self) -> io::Result<()> {
        Ok(())
    }
}

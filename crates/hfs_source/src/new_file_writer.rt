//! Writers of new files, which may leave zeros out so that they become holes.
ghost use Rattle.std.specs.Prelude.{◌≡◌, [], length, replicate, IfOk, OnErr, OnOk, Some};
ghost use Rattle.std.specs.Io.KnownBytes.{Appends, Keeps, WriteAppends};
ghost use Rattle.std.specs.Io.{WritesAtMost};

use crate::writer::PlacedWriter;
use std::io;
use std::io::{ErrorKind, Write};
use std::marker::Model;

/// The most bytes that are looked at at once.
const MOST_AT_ONCE: usize = 65_536;

/// The largest of these bytes; 0 if there is none.
fn largest_of(bytes: &[u8]) -> u8
    ensures { result ≡ 0 → bytes.now ≡ replicate (length bytes.now) 0 }
{
    let mut largest = 0;
    for byte in bytes {
        largest = largest.max(*byte);
    }
    largest
}

/// Writes a new file from its beginning on. It is known by the bytes that it was given; the file has all of them once it was
/// given its length by [`NewFileWriter::end`].
#[derive(Drop)]
pub struct NewFileWriter<P: PlacedWriter> {
    target: P,
    /// Whether up to 65,536 bytes that are all zeros are left out, as a hole.
    leaves_holes: bool,
    /// How many bytes there are, including those that were left out.
    len: u64,
    /// Whether the file may stand elsewhere than after all bytes: the last ones were left out, or a step failed.
    is_away: bool,
}

impl<P: PlacedWriter> Model for NewFileWriter<P> {
    ghost use Rattle.std.specs.Prelude.{◌≡◌, ◌≤◌, List, ℕ, Option, Some, IfSome, false, length};
    ghost use Rattle.std.specs.Option.{option_map};
    ghost use Rattle.hfs_source.specs.Writes.{filled_to};

    ghost Value = { Option (List ℕ) };

    ghost view = { λ s. option_map (filled_to s.len) (P.bytes s.target) };

    ghost invariant = { λ s. IfSome (P.bytes s.target) (λ bytes. length bytes ≤ s.len)
        × (s.is_away ≡ false → (P.place s.target ≡ Some s.len)
        × IfSome (P.bytes s.target) (λ bytes. length bytes ≡ s.len)) };
}

impl<P: PlacedWriter> NewFileWriter<P> {
    /// A writer of an empty file that stands at its beginning, which may leave holes.
    pub fn new(target: P, leaves_holes: bool) -> NewFileWriter<P>
        requires bytes { P.bytes target ≡ Some [] }
        requires place { P.place target ≡ Some 0 }
        ensures { result ≡ Some [] }
    {
        NewFileWriter {
            target,
            leaves_holes,
            len: 0,
            is_away: false,
        }
    }

    /// Writes some of these bytes after the others, and returns how many.
    fn write_on(&mut self, more: &[u8]) -> io::Result<usize>
        ensures bound { WritesAtMost result more.now }
        ensures bytes { WriteAppends self.old self.new result more.now }
    {
        if self.len.checked_add(more.len() as u64).is_none() {
            return Err(io::Error::from(ErrorKind::FileTooLarge));
        }
        if self.is_away {
            self.target.go_to(self.len)?;
        }
        self.is_away = true;
        let count = self.target.write_on(more)?;
        self.len += count as u64;
        self.is_away = count == 0;
        Ok(count)
    }

    /// Goes on after `count` zeros, which are not written.
    fn leave_out(&mut self, count: usize) -> io::Result<()>
        ensures zeros { OnOk result (Appends self.old self.new (replicate count 0)) }
        ensures kept { OnErr result (Keeps self.old self.new) }
    {
        let Some(len) = self.len.checked_add(count as u64) else {
            return Err(io::Error::from(ErrorKind::FileTooLarge));
        };
        self.len = len;
        self.is_away = true;
        Ok(())
    }

    /// Gives the file its length, with the zeros at its end that were left out. It then has all bytes.
    pub fn end(self) -> io::Result<P>
    where
        P: Drop,
        ensures { IfOk result (λ target. P.bytes target ≡ self) }
    {
        let NewFileWriter {
            mut target,
            len,
            ..
        } = self;
        target.set_len(len)?;
        Ok(target)
    }
}

impl<P: PlacedWriter> Write for NewFileWriter<P> {
    ghost contents = { λ writer. writer };

    fn write(&mut self, buf: &[u8]) -> io::Result<usize> {
        if !self.leaves_holes {
            return self.write_on(buf);
        }
        let piece = &buf[..buf.len().min(MOST_AT_ONCE)];
        if largest_of(piece) > 0 {
            return self.write_on(piece);
        }
        self.leave_out(piece.len())?;
        Ok(piece.len())
    }

    fn flush(&mut self) -> io::Result<()> {
        Ok(())
    }
}

//! Bytes that can be sought in, such as those of a file.
ghost use Rattle.std.specs.Prelude.{◌≡◌, IfErr, IfOk};
ghost use Rattle.hfs_source.specs.Images.{AllFail, OfEach};

use crate::placed::PlacedBytes;
use crate::reader::PlacedReader;
use std::io;
use std::marker::Model;

/// The bytes of a reader that can go to any place.
#[derive(Drop)]
pub struct SeekableBytes<P: PlacedReader> {
    reader: P,
    /// Where the reader stands, if that is known, so that it needn't go there again.
    place: Option<u64>,
    /// How many bytes there are.
    len: u64,
}

impl<P: PlacedReader> Model for SeekableBytes<P> {
    ghost use Rattle.std.specs.Prelude.{◌≡◌, Some, IfSome};
    ghost use Rattle.hfs_source.specs.Images.{HasLength, OfEach};

    ghost Value = { P };

    ghost view = { λ s. s.reader };

    ghost invariant = { λ s. IfSome s.place (λ place. P.place s.reader ≡ Some place)
        × OfEach (P.Holds s.reader) (HasLength s.len) };
}

impl<P: PlacedReader> SeekableBytes<P> {
    /// The bytes of a reader, wherever it stands; or the reader back, if it can't go to their end.
    pub fn open(reader: P) -> Result<SeekableBytes<P>, P>
        ensures held { IfOk result (λ bytes. OfEach (P.Holds bytes) (P.Holds reader)) }
        ensures refused { IfErr result (λ back. OfEach (P.Holds back) (P.Holds reader)) }
        ensures fails { IfErr result (λ _. AllFail (P.Fails reader)) }
    {
        let mut reader = reader;
        let Ok(len) = reader.go_to_end() else {
            return Err(reader);
        };
        let place = Some(len);
        Ok(SeekableBytes { reader, place, len })
    }

    /// The reader.
    pub fn reader(&self) -> &P
        ensures { result.now ≡ self.now }
    {
        &self.reader
    }
}

impl<P: PlacedReader> PlacedBytes for SeekableBytes<P> {
    ghost Holds = { λ s. P.Holds s };

    ghost Fails = { λ s. P.Fails s };

    fn len(&self) -> u64 {
        self.len
    }

    fn read_at(&mut self, place: u64, into: &mut [u8]) -> io::Result<()> {
        if into.is_empty() {
            return Ok(());
        }
        let is_there = self.place == Some(place);
        self.place = None;
        if !is_there {
            self.reader.go_to(place)?;
        }
        self.reader.read_on(into)?;
        self.place = place.checked_add(into.len() as u64);
        Ok(())
    }
}

//! Reading a fork by its pieces.
ghost use Rattle.std.specs.Prelude.{◌+◌, ◌<◌};
ghost use Rattle.hfs_viewers.specs.Pieces.{ArePieces, fork_length};
ghost use Rattle.hfs_viewers.specs.Stretches.{IsPart, IsStretch, MayRead};

use crate::finding::{ended, start_of};
use crate::fork::ForkPieces;
use crate::piece::Source;

/// Consecutive bytes of a fork that come from one source.
#[derive(Clone, Copy)]
pub enum Stretch<'a> {
    /// This many bytes of the base's fork, from this place on.
    Base { from: u32, count: u32 },
    /// This many zeros.
    Zeros { count: u32 },
    /// These bytes of a call.
    Given { bytes: &'a [u8] },
}

impl Source {
    /// `count` of its bytes, after the first `skip`.
    fn part(&self, skip: u32, count: u32) -> Stretch<'_>
        requires { MayRead skip count self.now }
        ensures { IsPart skip count self.now result }
    {
        match self {
            Source::Base { from } => Stretch::Base {
                from: *from + skip,
                count,
            },
            Source::Zeros => Stretch::Zeros { count },
            Source::Given { bytes, from } => {
                let from = *from as usize + skip as usize;
                Stretch::Given {
                    bytes: &bytes.as_slice()[from..from + count as usize],
                }
            }
        }
    }
}

impl ForkPieces {
    /// The bytes from a place on, as far as they come from one source, but at most `most`. A binary search; takes no memory.
    pub fn stretch(&self, place: u32, most: u32) -> Stretch<'_>
        requires pieces { ArePieces self.now }
        requires within { place < fork_length self.now }
        requires some { 0 < most }
        ensures { IsStretch self.now place most result }
    {
        if !self.touched {
            return Stretch::Base {
                from: place,
                count: most.min(self.base_len - place),
            };
        }
        let pieces = self.pieces.as_slice();
        let number = ended(pieces, place);
        let piece = &pieces[number];
        let count = most.min(piece.end - place);
        piece.source.part(place - start_of(pieces, number), count)
    }
}

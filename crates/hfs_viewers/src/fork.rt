//! A file's fork in pieces.
ghost use Rattle.std.specs.Prelude.{◌≡◌, ◌+◌, ◌<◌, ◌≤◌, ◌^◌, true, take, length, OnOk, OnErr};
ghost use Rattle.hfs_model.specs.Forks.{resized, written};
ghost use Rattle.hfs_viewers.specs.Pieces.{ArePieces, fork_length};
ghost use Rattle.hfs_viewers.specs.PieceEdits.{IsUntouched, IsTouched, Keeps, Makes};

use crate::coming::{coming, push_front};
use crate::finding::{ended, start_of};
use crate::piece::{Piece, Source};
use crate::piece_list::PieceList;
use hfs_model::SharedBytes;
use std::alloc::{AllocError, Global};

/// The bytes of a file's fork, over those that it has in the base. No byte of either is copied.
#[derive(Clone, Drop)]
pub struct ForkPieces {
    /// How many bytes the fork has in the base.
    pub base_len: u32,
    /// Whether the fork consists of the pieces; otherwise it is the base's fork.
    pub touched: bool,
    pub pieces: PieceList,
}

impl ForkPieces {
    /// The fork as it is in the base, where it has this many bytes. Takes no memory.
    pub fn untouched(alloc: Global, base_len: u32) -> ForkPieces
        ensures { IsUntouched base_len result }
    {
        ForkPieces {
            base_len,
            touched: false,
            pieces: PieceList::new(alloc),
        }
    }

    /// How many bytes the fork has.
    pub fn len(&self) -> u32
        requires { ArePieces self.now }
        ensures { result ≡ fork_length self.now }
    {
        if !self.touched {
            return self.base_len;
        }
        let pieces = self.pieces.as_slice();
        start_of(pieces, pieces.len())
    }

    /// Makes a piece of the base's fork, if the fork has no pieces yet. When out of memory, nothing has changed.
    fn touch(&mut self) -> Result<(), AllocError>
        requires { ArePieces self.old }
        ensures ok { OnOk result (IsTouched self.old self.new) }
        ensures err { OnErr result (self.new ≡ self.old) }
    {
        if self.touched {
            return Ok(());
        }
        self.pieces.push(Piece {
            end: self.base_len,
            source: Source::Base { from: 0 },
        })?;
        self.touched = true;
        Ok(())
    }

    /// Cuts a fork that has pieces at a place.
    fn cut(&mut self, alloc: Global, place: u32) -> Result<(), AllocError>
        requires pieces { ArePieces self.old }
        requires touched { self.old.touched ≡ true }
        requires within { place ≤ fork_length self.old }
        ensures ok { OnOk result (Makes (λ bytes. take place bytes) self.old self.new) }
        ensures err { OnErr result (self.new ≡ self.old) }
    {
        let pieces = self.pieces.as_slice();
        let count = pieces.len();
        let number = ended(pieces, place);
        let front = push_front(Vec::new(alloc), pieces, number, place)?;
        self.pieces.replace(number, count, front)
    }

    /// Makes the fork `count` bytes long, by cutting it or adding zeros at its end. Takes no memory for zeros. When out of
    /// memory, the fork has the bytes that it had.
    pub fn set_length(&mut self, alloc: Global, count: u32) -> Result<(), AllocError>
        requires { ArePieces self.old }
        ensures ok { OnOk result (Makes (resized count) self.old self.new) }
        ensures err { OnErr result (Keeps self.old self.new) }
    {
        self.touch()?;
        if count <= self.len() {
            return self.cut(alloc, count);
        }
        self.pieces.push(Piece {
            end: count,
            source: Source::Zeros,
        })
    }

    /// Puts a call's bytes in place of those from `offset` on, which may be past the end. They are shared from then on. When out
    /// of memory, the fork has the bytes that it had.
    pub fn write(
        &mut self,
        alloc: Global,
        offset: u32,
        bytes: &SharedBytes,
    ) -> Result<(), AllocError>
        requires pieces { ArePieces self.old }
        requires within { offset ≤ fork_length self.old }
        requires small { offset + length bytes.now < 2 ^ 32 }
        ensures ok { OnOk result (Makes (written offset bytes.now) self.old self.new) }
        ensures err { OnErr result (Keeps self.old self.new) }
    {
        self.touch()?;
        let stop = offset + bytes.as_slice().len() as u32;
        let pieces = self.pieces.as_slice();
        let first = ended(pieces, offset);
        let last = ended(pieces, stop);
        let to = pieces.len().min(last + 1);
        let come = coming(alloc, pieces, first, last, offset, bytes, stop)?;
        self.pieces.replace(first, to, come)
    }
}

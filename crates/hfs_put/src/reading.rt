//! Reading a file with the forks of a host's files laid into it.
ghost use Rattle.std.specs.Prelude.{◌≡◌, ◌<◌, IsOk, OnErr, OnOk, Some, length};
ghost use Rattle.std.specs.Option.{option_or};
ghost use Rattle.hfs_source.specs.Images.{FailsWhere, HasAt, OfEach};
ghost use Rattle.hfs_put_sources.specs.Trees.{OfEachTree};
ghost use Rattle.hfs_put.specs.Again.{AreUnchanged};
ghost use Rattle.hfs_put.specs.Failures.{FailsLaid, FailsTold};
ghost use Rattle.hfs_put.specs.Images.{laid_images};
ghost use Rattle.hfs_put.specs.Pieces.{IsInRun, IsPieceAt, piece_len};

use crate::files::PlacedFiles;
use crate::fork::read_run;
use crate::laid::LaidForks;
use crate::piece::{Piece, piece_at};
use hfs_put_sources::HostFault;
use hfs_source::PlacedBytes;
use std::io;
use std::io::ErrorKind;

impl<B: PlacedBytes + Drop, H: PlacedFiles + Drop> LaidForks<B, H> {
    /// Looks again at the files of all items, after the last read. Faults: as for [`look_again`](crate::look_again).
    pub fn look_again(&mut self) -> Result<(), HostFault>
        ensures same { OnOk result (OfEachTree (H.Holds self.new.files)
            (AreUnchanged self.new.items.items)) }
        ensures rest { self.new ≡ record self.old { files = self.new.files } }
        ensures held { OfEach (laid_images B.Holds H.Holds self.new)
            (laid_images B.Holds H.Holds self.old) }
    {
        self.files.look_again(self.alloc, &self.items)
    }

    /// Keeps a fault of the tree, if none is kept yet, and returns a fault of a read.
    fn noted(&mut self, fault: HostFault) -> io::Error
        ensures { self.new ≡ record self.old { fault = option_or self.old.fault (Some fault) } }
    {
        if self.fault.is_none() {
            self.fault = Some(fault);
        }
        io::Error::from(ErrorKind::InvalidData)
    }

    /// Reads a piece of the bytes from byte `at` on.
    fn read_piece(&mut self, at: u64, piece: &Piece, into: &mut [u8]) -> io::Result<()>
        requires piece { IsPieceAt self.old.start self.old.runs.items at piece.now }
        requires inside { IsInRun self.old.start self.old.runs.items at piece.now }
        requires room { length into.old ≡ piece_len piece.now }
        requires some { 0 < length into.old }
        ensures read { OnOk result (OfEach (laid_images B.Holds H.Holds self.new) (HasAt at into.new)) }
        ensures held { OfEach (laid_images B.Holds H.Holds self.new)
            (laid_images B.Holds H.Holds self.old) }
        ensures fails { OnErr result (FailsLaid (B.Fails self.old.bytes)
            self.old.start self.old.runs.items at (length into.old)) }
        ensures later { FailsWhere (FailsLaid (B.Fails self.new.bytes) self.new.start self.new.runs.items)
            (FailsLaid (B.Fails self.old.bytes) self.old.start self.old.runs.items) }
        ensures told { OnErr result (FailsTold self.new.fault (B.Fails self.old.bytes) at (length into.old)) }
        ensures own { FailsWhere (B.Fails self.new.bytes) (B.Fails self.old.bytes) }
    {
        match piece {
            Piece::Own(_) => self.bytes.read_at(at, into),
            Piece::OfRun(run, from, _) => {
                let files = &mut self.files;
                match read_run(self.alloc, files, &self.items, run, *from, into) {
                    Ok(()) => Ok(()),
                    Err(fault) => Err(self.noted(fault)),
                }
            }
        }
    }
}

impl<B: PlacedBytes + Drop, H: PlacedFiles + Drop> PlacedBytes for LaidForks<B, H> {
    ghost Holds = { λ laid. laid_images B.Holds H.Holds laid };

    ghost Fails = { λ laid. FailsLaid (B.Fails laid.bytes) laid.start laid.runs.items };

    fn len(&self) -> u64 {
        self.bytes.len()
    }

    fn read_at(&mut self, place: u64, into: &mut [u8]) -> io::Result<()>
        ensures read { OnOk result (OfEach (laid_images B.Holds H.Holds self.new) (HasAt place into.new)) }
        ensures held { OfEach (laid_images B.Holds H.Holds self.new)
            (laid_images B.Holds H.Holds self.old) }
        ensures fails { OnErr result (FailsLaid (B.Fails self.old.bytes)
            self.old.start self.old.runs.items place (length into.old)) }
        ensures later { FailsWhere (FailsLaid (B.Fails self.new.bytes) self.new.start self.new.runs.items)
            (FailsLaid (B.Fails self.old.bytes) self.old.start self.old.runs.items) }
        ensures nothing { length into.old ≡ 0 → IsOk result }
        ensures told { OnErr result (FailsTold self.new.fault (B.Fails self.old.bytes) place (length into.old)) }
    {
        let Some(_) = place.checked_add(into.len() as u64) else {
            return Err(io::Error::from(ErrorKind::UnexpectedEof));
        };
        let mut done = 0;
        while done < into.len() {
            let at = place + done as u64;
            let piece = piece_at(&self.runs, self.start, at, into.len() - done);
            let count = piece.len();
            self.read_piece(at, &piece, &mut into[done..done + count])?;
            done += count;
        }
        Ok(())
    }
}

//! Readers that stand at a place.
ghost use Rattle.std.specs.Prelude.{◌≡◌, ◌+◌, ◌<◌, List, ℕ, Option, Some, IfSome, IfOk, OnErr, OnOk, length};
ghost use Rattle.std.specs.Option.{option_map};
ghost use Rattle.std.specs.Io.Cursor.{cursor_inner, cursor_position};
ghost use Rattle.hfs_source.specs.Images.{AllFail, FailsWhere, HasAt, HasLength, OfEach};

use std::io;
use std::io::{Cursor, ErrorKind};

/// A reader that stands at a place in an image's bytes, and can go to any other.
pub trait PlacedReader {
    /// The images consistent with the bytes read so far.
    ghost Holds: { Self → List ℕ → Type 0 };

    /// Where a read may fail: from which place on, and for how many bytes.
    ghost Fails: { Self → ℕ → ℕ → Type 0 };

    /// Where the next read begins, if that is known.
    ghost place: { Self → Option ℕ };

    /// Goes to a place, counted from 0.
    fn go_to(&mut self, target: u64) -> io::Result<()>
        ensures place { OnOk result (place self.new ≡ Some target) }
        ensures held { OfEach (Holds self.new) (Holds self.old) }
        ensures fails { OnErr result (AllFail (Fails self.old)) }
        ensures later { FailsWhere (Fails self.new) (Fails self.old) };

    /// Goes to the end of the bytes, and returns where that is: how many bytes there are.
    fn go_to_end(&mut self) -> io::Result<u64>
        ensures end { IfOk result (λ end. OfEach (Holds self.new) (HasLength end)) }
        ensures place { IfOk result (λ end. place self.new ≡ Some end) }
        ensures held { OfEach (Holds self.new) (Holds self.old) }
        ensures fails { OnErr result (AllFail (Fails self.old)) }
        ensures later { FailsWhere (Fails self.new) (Fails self.old) };

    /// Reads as many bytes as `into` has room for, and stands right after them. Error: the read failed, or the bytes end before
    /// the room is full; what `into` holds then, and where the reader stands, isn't specified.
    fn read_on(&mut self, into: &mut [u8]) -> io::Result<()>
        ensures read { OnOk result (IfSome (place self.old)
            (λ from. OfEach (Holds self.new) (HasAt from into.new))) }
        ensures place { OnOk result (place self.new
            ≡ option_map (λ from. from + length into.new) (place self.old)) }
        ensures held { OfEach (Holds self.new) (Holds self.old) }
        ensures fails { OnErr result (IfSome (place self.old)
            (λ from. Fails self.old from (length into.old))) }
        ensures later { FailsWhere (Fails self.new) (Fails self.old) };
}

impl PlacedReader for Cursor<&[u8]> {
    ghost Holds = { λ c image. image ≡ (cursor_inner c).now };

    ghost Fails = { λ c place count. length (cursor_inner c).now < place + count };

    ghost place = { λ c. Some (cursor_position c) };

    fn go_to(&mut self, target: u64) -> io::Result<()> {
        self.set_position(target);
        Ok(())
    }

    fn go_to_end(&mut self) -> io::Result<u64> {
        let end = self.get_ref().len() as u64;
        self.set_position(end);
        Ok(end)
    }

    fn read_on(&mut self, into: &mut [u8]) -> io::Result<()> {
        let place = self.position();
        let bytes = *self.get_ref();
        let len = bytes.len() as u64;
        if len < place || len - place < into.len() as u64 {
            return Err(io::Error::from(ErrorKind::UnexpectedEof));
        }
        let from = place as usize;
        let to = from + into.len();
        into.copy_from_slice(&bytes[from..to]);
        self.set_position(to as u64);
        Ok(())
    }
}

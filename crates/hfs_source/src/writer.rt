//! Writers that stand at a place.
ghost use Rattle.std.specs.Prelude.{◌≡◌, ◌+◌, List, ℕ, Option, Some, IfOk, MatchResult, OnOk, take};
ghost use Rattle.std.specs.Io.{WritesAtMost};
ghost use Rattle.std.specs.Option.{option_map};
ghost use Rattle.hfs_source.specs.Writes.{laid, sized_to};

use std::io;

/// A file that is written at places. Its bytes are known by what was done with it.
pub trait PlacedWriter {
    /// Its bytes, if they are known.
    ghost bytes: { Self → Option (List ℕ) };

    /// Where the next write begins, if that is known.
    ghost place: { Self → Option ℕ };

    /// Goes to a place, counted from 0, which may be past the end.
    fn go_to(&mut self, target: u64) -> io::Result<()>
        ensures place { OnOk result (place self.new ≡ Some target) }
        ensures bytes { bytes self.new ≡ bytes self.old };

    /// Writes some of these bytes at its place, returns how many, and stands right after them. At an error none is written.
    fn write_on(&mut self, more: &[u8]) -> io::Result<usize>
        ensures bound { WritesAtMost result more.now }
        ensures bytes { MatchResult result
            (λ n. bytes self.new ≡ laid (place self.old) (take n more.now) (bytes self.old))
            (λ _. bytes self.new ≡ bytes self.old) }
        ensures place { IfOk result
            (λ n. place self.new ≡ option_map (λ from. from + n) (place self.old)) };

    /// Gives it this length, by cutting it or adding zeros at its end.
    fn set_len(&mut self, len: u64) -> io::Result<()>
        ensures bytes { OnOk result (bytes self.new ≡ option_map (sized_to len) (bytes self.old)) };
}

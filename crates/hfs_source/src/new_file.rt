//! A new file, with what was done with it.
ghost use Rattle.std.specs.Prelude.{◌≡◌, ◌+◌, [], ◌∷◌, Some, IfOk, MatchResult, OnErr, OnOk, take};
ghost use Rattle.std.specs.Io.{WritesAtMost};
ghost use Rattle.std.specs.Io.KnownBytes.{WriteAppends};
ghost use Rattle.std.specs.Io.Seek.{MovesTo};
ghost use Rattle.std.specs.Option.{option_map};
ghost use Rattle.hfs_source.specs.Writes.{bytes_after, laid, place_after, sized, sized_to, spoiled, strayed, went, wrote};

use crate::write_log::{WriteLog, WriteNote};
use crate::writer::PlacedWriter;
use std::fs::OpenFile;
use std::io;
use std::io::{Seek, SeekFrom, Write};

/// A file that was just made, with the list of what was done with it. Each step does one thing and notes it. Only this is
/// trusted: that the system goes where it is told to, writes there what it says it has written, has zeros where nothing was
/// written, and gives a file the length that is asked for.
#[derive(Drop)]
pub struct TrustedNewFile<F> {
    file: F,
    log: WriteLog,
}

impl<F> TrustedNewFile<F> {
    /// A file that was just made: it is empty, and stands at its beginning.
    pub fn new(file: F) -> TrustedNewFile<F>
        ensures new { result.log.steps ≡ [] }
        ensures file { result.file ≡ file }
    {
        let log = WriteLog::new();
        TrustedNewFile { file, log }
    }

    /// The file, to ask the system for things that change none of its bytes.
    pub fn file(&self) -> &F
        ensures { result.now ≡ self.now.file }
    {
        &self.file
    }
}

impl<F: Write + Seek + OpenFile> PlacedWriter for TrustedNewFile<F> {
    ghost bytes = { λ made. bytes_after made.log.steps };

    ghost place = { λ made. place_after made.log.steps };

    fn go_to(&mut self, target: u64) -> io::Result<()>
        ensures place { OnOk result (place_after self.new.log.steps ≡ Some target) }
        ensures bytes { bytes_after self.new.log.steps ≡ bytes_after self.old.log.steps }
        ensures moves { MovesTo (F.stream_position self.old.file)
            (F.stream_position self.new.file) target result }
        ensures noted { OnOk result (self.new.log.steps ≡ went target ∷ self.old.log.steps) }
        ensures lost { OnErr result (self.new.log.steps ≡ strayed ∷ self.old.log.steps) }
    {
        match self.file.seek(SeekFrom::Start(target)) {
            Ok(_) => {
                self.log = self.log.then(&WriteNote::Went(target));
                Ok(())
            }
            Err(error) => {
                self.log = self.log.then(&WriteNote::Strayed);
                Err(error)
            }
        }
    }

    fn write_on(&mut self, more: &[u8]) -> io::Result<usize>
        ensures bound { WritesAtMost result more.now }
        ensures bytes { MatchResult result
            (λ n. bytes_after self.new.log.steps ≡ laid (place_after self.old.log.steps)
            (take n more.now) (bytes_after self.old.log.steps))
            (λ _. bytes_after self.new.log.steps ≡ bytes_after self.old.log.steps) }
        ensures place { IfOk result (λ n. place_after self.new.log.steps
            ≡ option_map (λ from. from + n) (place_after self.old.log.steps)) }
        ensures given { WriteAppends (F.contents self.old.file) (F.contents self.new.file) result more.now }
        ensures noted { IfOk result (λ n. self.new.log.steps ≡ wrote (take n more.now) ∷ self.old.log.steps) }
        ensures lost { OnErr result (self.new.log.steps ≡ strayed ∷ self.old.log.steps) }
    {
        match self.file.write(more) {
            Ok(count) => {
                self.log = self.log.then(&WriteNote::Wrote(&more[..count]));
                Ok(count)
            }
            Err(error) => {
                self.log = self.log.then(&WriteNote::Strayed);
                Err(error)
            }
        }
    }

    fn set_len(&mut self, len: u64) -> io::Result<()>
        ensures bytes { OnOk result (bytes_after self.new.log.steps
            ≡ option_map (sized_to len) (bytes_after self.old.log.steps)) }
        ensures noted { OnOk result (self.new.log.steps ≡ sized len ∷ self.old.log.steps) }
        ensures lost { OnErr result (self.new.log.steps ≡ spoiled ∷ self.old.log.steps) }
    {
        match self.file.set_len(len) {
            Ok(()) => {
                self.log = self.log.then(&WriteNote::Sized(len));
                Ok(())
            }
            Err(error) => {
                self.log = self.log.then(&WriteNote::Spoiled);
                Err(error)
            }
        }
    }
}

//! A file that is read by position.
ghost use Rattle.std.specs.Prelude.{◌≡◌, ◌+◌, ⊤, [], ◌∷◌, length, pos, Some, IfOk, IfSome, OnErr, OnOk};
ghost use Rattle.std.specs.Option.{option_map};
ghost use Rattle.std.specs.Io.KnownBytes.{Consumes};
ghost use Rattle.std.specs.Io.Seek.{MovesTo, SeekMoves};
ghost use Rattle.std.specs.declared.io.traits.SeekFrom.TheVariants.{End};
ghost use Rattle.hfs_source.specs.Images.{HasAt, HasLength, OfEach};
ghost use Rattle.hfs_source.specs.Steps.{IsReadFrom, place_after, came, ended, lost, went};

use crate::log::{ReadLog, Step};
use crate::reader::PlacedReader;
use std::io;
use std::io::{Read, Seek, SeekFrom};

/// Something that can be read and sought in, such as a file, with the list of what was done with it. Each step does one thing and
/// notes it. Only this is trusted: that the system goes where it is told to, says where the end is, and returns the bytes from
/// there on. For a reader whose model has its position and its bytes, each step is proved.
#[derive(Drop)]
pub struct TrustedFile<F> {
    file: F,
    log: ReadLog,
}

impl<F> TrustedFile<F> {
    /// A file, wherever it stands.
    pub fn new(file: F) -> TrustedFile<F>
        ensures { result.log.steps ≡ [] }
    {
        let log = ReadLog::new();
        TrustedFile { file, log }
    }

    /// What was done with the file.
    pub fn log(&self) -> &ReadLog
        ensures { result.now.steps ≡ self.now.log.steps }
    {
        &self.log
    }

    /// The file, wherever it stands.
    pub fn into_file(self) -> F
        ensures { result ≡ self.file }
    {
        self.file
    }
}

impl<F: Read + Seek> PlacedReader for TrustedFile<F> {
    ghost Holds = { λ reader. IsReadFrom reader.log.steps };

    ghost Fails = { λ _ _ _. ⊤ };

    ghost place = { λ reader. place_after reader.log.steps };

    fn go_to(&mut self, target: u64) -> io::Result<()>
        ensures place { OnOk result (place_after self.new.log.steps ≡ Some target) }
        ensures held { OfEach (IsReadFrom self.new.log.steps) (IsReadFrom self.old.log.steps) }
        ensures moves { MovesTo (F.stream_position self.old.file)
            (F.stream_position self.new.file) target result }
        ensures noted { OnOk result (self.new.log.steps ≡ went target ∷ self.old.log.steps) }
        ensures lost { OnErr result (self.new.log.steps ≡ lost ∷ self.old.log.steps) }
    {
        match self.file.seek(SeekFrom::Start(target)) {
            Ok(_) => {
                self.log = self.log.then(&Step::Went(target));
                Ok(())
            }
            Err(error) => {
                self.log = self.log.then(&Step::Lost);
                Err(error)
            }
        }
    }

    fn go_to_end(&mut self) -> io::Result<u64>
        ensures end { IfOk result (λ end. OfEach (IsReadFrom self.new.log.steps) (HasLength end)) }
        ensures place { IfOk result (λ end. place_after self.new.log.steps ≡ Some end) }
        ensures held { OfEach (IsReadFrom self.new.log.steps) (IsReadFrom self.old.log.steps) }
        ensures moves { SeekMoves (F.stream_position self.old.file)
            (F.stream_position self.new.file) (F.stream_bytes self.old.file) (End (pos 0)) result }
        ensures noted { IfOk result (λ end. self.new.log.steps ≡ ended end ∷ self.old.log.steps) }
        ensures lost { OnErr result (self.new.log.steps ≡ lost ∷ self.old.log.steps) }
    {
        match self.file.seek(SeekFrom::End(0)) {
            Ok(end) => {
                self.log = self.log.then(&Step::Ended(end));
                Ok(end)
            }
            Err(error) => {
                self.log = self.log.then(&Step::Lost);
                Err(error)
            }
        }
    }

    fn read_on(&mut self, into: &mut [u8]) -> io::Result<()>
        ensures read { OnOk result (IfSome (place_after self.old.log.steps)
            (λ from. OfEach (IsReadFrom self.new.log.steps) (HasAt from into.new))) }
        ensures place { OnOk result (place_after self.new.log.steps
            ≡ option_map (λ from. from + length into.new) (place_after self.old.log.steps)) }
        ensures held { OfEach (IsReadFrom self.new.log.steps) (IsReadFrom self.old.log.steps) }
        ensures given { OnOk result (Consumes (F.remaining self.old.file)
            (F.remaining self.new.file) into.new) }
        ensures noted { OnOk result (self.new.log.steps ≡ came into.new ∷ self.old.log.steps) }
        ensures lost { OnErr result (self.new.log.steps ≡ lost ∷ self.old.log.steps) }
    {
        match self.file.read_exact(into) {
            Ok(()) => {
                self.log = self.log.then(&Step::Came(into));
                Ok(())
            }
            Err(error) => {
                self.log = self.log.then(&Step::Lost);
                Err(error)
            }
        }
    }
}

//! An input that can't be sought in.
ghost use Rattle.std.specs.Prelude.{◌≡◌, ◌≤◌, ◌+◌, ◌∷◌, [], IfOk, IfSome, IsErrOf, length};
ghost use Rattle.hfs_source.specs.Steps.{went};
ghost use Rattle.hfs_texts.specs.Reading.{GaveSo};

use hfs_source::{ReadLog, Step};
use hfs_texts::{IMAGE_LIMIT, LoadFault, load};
use std::alloc::Global;
use std::io::Read;

/// An input that is read to its end, such as a pipe, with the list of what was done with it. Only this is trusted: that it stands
/// where the list says. For a reader whose model has its bytes, that is proved.
#[derive(Drop)]
pub struct TrustedInput<F> {
    file: F,
    log: ReadLog,
}

impl<F: Read> TrustedInput<F> {
    /// An input of which nothing was read.
    pub(crate) fn new(file: F) -> TrustedInput<F>
        ensures file { result.file ≡ file }
        ensures log { result.log.steps ≡ [] }
    {
        let log = ReadLog::new();
        TrustedInput { file, log }
    }

    /// All its bytes up to its end, at most 2,147,483,648. If there are more, one more is read. Errors: as for [`load`].
    #[tactic(auto, using(crate::proofs::WholeReads::whole_read))]
    pub(crate) fn load(&mut self, alloc: Global) -> Result<Vec<u8>, LoadFault>
        ensures whole { IfOk result (λ bytes. IfSome (F.remaining self.old.file)
            (λ all. bytes.items ≡ all)) }
        ensures limit { IfOk result (λ bytes. length bytes.items ≤ IMAGE_LIMIT) }
        ensures given { IsErrOf result LoadFault.TooLarge → GaveSo (F.remaining self.old.file)
            (F.remaining self.new.file) (IMAGE_LIMIT + 1) }
        ensures end { IfOk result (λ bytes. self.new.log.steps
            ≡ went (length bytes.items) ∷ self.old.log.steps) }
        ensures past { IsErrOf result LoadFault.TooLarge
            → self.new.log.steps ≡ went (IMAGE_LIMIT + 1) ∷ self.old.log.steps }
    {
        match load(alloc, &mut self.file) {
            Ok(bytes) => {
                self.log = self.log.then(&Step::Went(bytes.len() as u64));
                Ok(bytes)
            }
            Err(LoadFault::TooLarge) => {
                self.log = self.log.then(&Step::Went(IMAGE_LIMIT as u64 + 1));
                Err(LoadFault::TooLarge)
            }
            Err(fault) => {
                self.log = self.log.then(&Step::Lost);
                Err(fault)
            }
        }
    }
}

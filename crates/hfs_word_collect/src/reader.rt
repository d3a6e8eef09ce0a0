//! A file whose openings are noted.
ghost use Rattle.std.specs.Prelude.{◌≡◌, ◌<◌, [], ℕ, false, true, length, IfErr, IfOk};
ghost use Rattle.hfs_source.specs.Images.{AllFail, FailsWhere};
ghost use Rattle.hfs_word_collect.specs.Openings.{HaveRead};

use crate::source::{ImageFile, OpenedPart};
use arrayvec::ArrayVec;
use hfs_bag::PickedImage;
use hfs_source::{PlacedBytes, SparseFault};
use std::snapshot::Snapshot;

/// How many notes there may be: each volume in it takes at most two openings, of which the beginning and the end are noted.
const MOST: usize = 512;

/// Something that can be opened any number of times, each time to be read from its beginning.
pub trait Reopen<S: PlacedBytes> {
    /// Where a read of an opening may fail: from which place on, and for how many bytes. If it can't be opened, any may.
    ghost Fails: { Self → ℕ → ℕ → Type 0 };

    /// Opens it. Errors: it can't be opened, memory was refused.
    fn reopen(&mut self) -> Result<S, SparseFault>
        ensures fails { IfOk result (λ source. FailsWhere (S.Fails source) (Fails self.old)) }
        ensures failed { IfErr result (λ fault. fault ≡ SparseFault.ReadFailed
            → AllFail (Fails self.old)) }
        ensures later { FailsWhere (Fails self.new) (Fails self.old) };
}

/// A file with what was read by its openings, for proofs only.
#[derive(Drop)]
pub struct NotedFile<S: PlacedBytes, K: PickedImage, F> {
    file: F,
    sources: ArrayVec<Option<Snapshot<S>>, MOST>,
    volumes: ArrayVec<Option<Snapshot<OpenedPart<S, K>>>, MOST>,
    is_unread: bool,
}

impl<S: PlacedBytes, K: PickedImage, F> NotedFile<S, K, F> {
    /// A file that hasn't been opened yet.
    pub fn new(file: F) -> NotedFile<S, K, F>
        ensures file { result.file ≡ file }
        ensures sources { result.sources.items ≡ [] }
        ensures volumes { result.volumes.items ≡ [] }
        ensures unread { result.is_unread ≡ false }
    {
        NotedFile {
            file,
            sources: ArrayVec::new(),
            volumes: ArrayVec::new(),
            is_unread: false,
        }
    }
}

impl<S: PlacedBytes, K: PickedImage, F: Reopen<S>> ImageFile<S, K> for NotedFile<S, K, F> {
    ghost Holds = { λ noted image. HaveRead (λ seen. S.Holds seen.value) noted.sources.items image
        × HaveRead (λ seen. S.Holds seen.value.bytes.source) noted.volumes.items image };

    ghost IsUnread = { λ noted. noted.is_unread ≡ true };

    ghost HasRoom = { λ noted. (length noted.sources.items < 512) × (length noted.volumes.items < 512) };

    ghost Fails = { λ noted. F.Fails noted.file };

    #[tactic(auto, using(crate::proofs::Noting::noted, crate::proofs::Noting::held_before))]
    fn open(&mut self) -> Result<S, SparseFault> {
        if self.sources.len() >= MOST - 1 || self.volumes.is_full() {
            return Err(SparseFault::Memory);
        }
        let source = self.file.reopen()?;
        self.sources.push(Some(Snapshot::of(&source)));
        Ok(source)
    }

    #[tactic(auto, using(crate::proofs::Noting::noted, crate::proofs::Noting::held_before))]
    fn note(&mut self, source: &S) {
        self.sources.push(Some(Snapshot::of(source)));
    }

    #[tactic(auto, using(crate::proofs::Noting::noted, crate::proofs::Noting::held_before))]
    fn note_volume(&mut self, image: &OpenedPart<S, K>) {
        self.volumes.push(Some(Snapshot::of(image)));
    }

    fn give_up(&mut self) {
        self.is_unread = true;
    }
}

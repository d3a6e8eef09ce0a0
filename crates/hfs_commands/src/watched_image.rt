//! An image that was opened to be changed.
ghost use Rattle.std.specs.Prelude.{◌≡◌, IfErr, IfOk, None, Some};
ghost use Rattle.hfs_source.specs.Images.{HasLength, OfEach};
ghost use Rattle.hfs_commands.specs.OpenedFiles.{ArePlain, IsWholeRange, stored_images};
ghost use Rattle.hfs_commands.specs.Unopened.{HasRawSectors, TellsWhy, WasNotRead};
ghost use Rattle.hfs_commands.specs.WatchedImages.{watched_bytes, watched_images};

use crate::fault::Fault;
use crate::files::regular_len;
use crate::opened_file::{OpenedFile, StoredFile, content_of};
use crate::unopened::{LeftFile, UnopenedFile};
use crate::volume_files::{loaded, opened};
use crate::watched_range::WatchedBytes;
use hfs_copy::FailingBlocks;
use hfs_source::{
    BlockSource, MemoryBytes, PlacedBytes, TrustedLooks, Watched, Window, look_again,
};
use std::fs::{File, OpenFile};
use std::io;
use std::io::{ErrorKind, Read, Seek};
use std::rt::Files;
use std::sync::Arc;

/// An image that was opened to be changed: what was opened, with its first look unless all bytes are held.
#[derive(Drop)]
pub struct WatchedImage<F: Read + Seek> {
    pub(crate) file: StoredFile<F>,
    pub(crate) looks: Option<TrustedLooks<F, StoredFile<F>>>,
}

impl<F: Read + Seek + Drop> WatchedImage<F> {
    /// How many bytes it has.
    pub fn len(&self) -> u64
        ensures { OfEach (watched_images self.now) (HasLength result) }
    {
        self.file.len()
    }

    /// Its bytes, if all are held and nobody else holds them; or the image back.
    pub fn into_held(self) -> Result<Vec<u8>, WatchedImage<F>>
        ensures held { IfOk result (λ bytes. watched_bytes self ≡ Some bytes.items) }
        ensures back { IfErr result (λ image. image ≡ self) }
    {
        let WatchedImage { file, looks } = self;
        match file {
            StoredFile::Whole(all) => match Arc::try_unwrap(all) {
                Ok(bytes) => Ok(bytes),
                Err(all) => Err(WatchedImage {
                    file: StoredFile::Whole(all),
                    looks,
                }),
            },
            StoredFile::Seekable(bytes) => Err(WatchedImage {
                file: StoredFile::Seekable(bytes),
                looks,
            }),
        }
    }
}

impl<F: Read + Seek + OpenFile> BlockSource for WatchedImage<F> {
    ghost use Rattle.std.specs.Prelude.{◌≡◌, Some, unwrap_or};
    ghost use Rattle.std.proofs.Common.{ap, sym};
    ghost use Rattle.std.proofs.lemmas.Option.{none-some};
    ghost use Rattle.std.specs.Arc.{arc_value};
    ghost use Rattle.hfs_commands.specs.OpenedFiles.{stored_bytes, stored_images};
    ghost use Rattle.hfs_commands.specs.declared.opened_file.StoredFile.TheVariants as stored;
    ghost use Rattle.hfs_commands.specs.WatchedImages.{watched_bytes, watched_images};

    ghost image = { λ image. watched_bytes image };

    ghost Holds = { λ image. watched_images image };

    fn read_blocks(&mut self, first: u32, into: &mut [u8]) -> io::Result<()> {
        self.read_told(first, into)
    }

    ghost known_holds = { λ image bytes e.
        elim image.file as (λ file. stored_bytes file ≡ Some bytes → stored_images file bytes) [
          | stored.Seekable file ↦ λ none. absurd (none-some bytes none)
          | stored.Whole all ↦ λ same. sym (ap (λ known. unwrap_or known (arc_value all).items) same)
        ] e };
}

impl<F: Read + Seek + OpenFile> FailingBlocks for WatchedImage<F> {
    ghost use Rattle.hfs_commands.specs.OpenedFiles.{stored_failures};

    ghost Fails = { λ image. stored_failures image.file };

    fn read_told(&mut self, first: u32, into: &mut [u8]) -> io::Result<()> {
        let place = u64::from(first) * 512;
        match &mut self.file {
            StoredFile::Seekable(bytes) => bytes.read_at(place, into),
            StoredFile::Whole(all) => {
                let bytes = all.as_slice();
                MemoryBytes { bytes }.read_at(place, into)
            }
        }
    }
}

impl<F: Read + Seek + OpenFile> Watched for WatchedImage<F> {
    ghost use Rattle.hfs_commands.specs.WatchedImages.{IsWatchedSettled};

    ghost settled = { λ image. IsWatchedSettled image };

    fn look_again(&mut self) -> io::Result<()> {
        match &mut self.looks {
            Some(looks) => look_again(looks, &self.file),
            None => match &self.file {
                StoredFile::Whole(_) => Ok(()),
                StoredFile::Seekable(_) => Err(io::Error::from(ErrorKind::InvalidData)),
            },
        }
    }
}

impl<F: Read + Seek> PlacedBytes for WatchedImage<F> {
    ghost use Rattle.hfs_commands.specs.OpenedFiles.{stored_failures, stored_images};

    ghost Holds = { λ image. stored_images image.file };

    ghost Fails = { λ image. stored_failures image.file };

    fn len(&self) -> u64 {
        PlacedBytes::len(&self.file)
    }

    fn read_at(&mut self, place: u64, into: &mut [u8]) -> io::Result<()> {
        PlacedBytes::read_at(&mut self.file, place, into)
    }
}

impl<F: Read + Seek + OpenFile> WatchedBytes for WatchedImage<F> {
    ghost use Rattle.hfs_commands.specs.WatchedImages.{IsWatchedSettled};

    ghost settled = { λ image. IsWatchedSettled image };

    fn look_again(&mut self) -> io::Result<()> {
        Watched::look_again(self)
    }
}

/// What was opened to be changed, with its first look. Faults: `NotWritten`, with the file, for raw sectors; a read failed.
#[tactic(auto, using(crate::proofs::UnopenedLemmas::raw_sectors))]
fn watched<'a, F: Read + Seek + Drop>(
    stored: Window<StoredFile<F>>,
    looks: Option<TrustedLooks<F, StoredFile<F>>>,
    path: &'a str,
) -> Result<WatchedImage<F>, UnopenedFile<'a, F>>
    ensures plain { IfOk result (λ image. ArePlain (watched_images image)) }
    ensures told { IfErr result (TellsWhy path.entry HasRawSectors WasNotRead) }
{
    let content = content_of(stored, path)?;
    match content.source {
        OpenedFile::Plain(file) => Ok(WatchedImage { file, looks }),
        OpenedFile::Raw(user) => Err(UnopenedFile {
            fault: Fault::NotWritten,
            left: LeftFile::Content(OpenedFile::Raw(user)),
        }),
    }
}

/// A file that was opened to be changed, with its first look unless all bytes are held.
#[derive(Drop)]
pub(crate) struct LookedFile<F: Read + Seek> {
    pub(crate) bytes: Window<StoredFile<F>>,
    pub(crate) looks: Option<TrustedLooks<F, StoredFile<F>>>,
}

/// Opens a file by its path, to be written again with changes. A regular file is looked at, and read on demand later; of anything
/// else all bytes are held. Faults: as for [`open_file`](crate::open_file).
pub(crate) fn open_looked<'a, R: Files + AllocGlobal>(
    rt: &R,
    path: &'a str,
) -> Result<LookedFile<R::File>, UnopenedFile<'a, R::File>>
    ensures all { IfOk result (λ looked. IsWholeRange (stored_images looked.bytes.source)
        looked.bytes.range) }
    ensures told { IfErr result (TellsWhy path.entry WasNotRead WasNotRead) }
{
    let Ok(file) = File::open(rt, path) else {
        return Err(UnopenedFile::from(Fault::CannotRead(path)));
    };
    if regular_len(&file).is_none() {
        let bytes = loaded(rt.alloc(), file, path)?;
        return Ok(LookedFile { bytes, looks: None });
    }
    let Ok(looks) = TrustedLooks::open(&file) else {
        return Err(UnopenedFile::from(Fault::CannotRead(path)));
    };
    let bytes = opened(rt.alloc(), file, path)?;
    Ok(LookedFile {
        bytes,
        looks: Some(looks),
    })
}

/// Opens an image by its path, to be written again with changes. A regular file is looked at, and read on demand later; of
/// anything else all bytes are held. Faults, with what was read: as for [`open_file`](crate::open_file); `NotWritten` if it has
/// raw CD sectors.
#[tactic(auto, using(crate::proofs::UnopenedLemmas::told_of_file))]
pub fn open_watched<'a, R: Files + AllocGlobal>(
    rt: &R,
    path: &'a str,
) -> Result<WatchedImage<R::File>, UnopenedFile<'a, R::File>>
    ensures plain { IfOk result (λ image. ArePlain (watched_images image)) }
    ensures told { IfErr result (TellsWhy path.entry HasRawSectors WasNotRead) }
{
    let LookedFile { bytes, looks } = open_looked(rt, path)?;
    watched(bytes, looks, path)
}

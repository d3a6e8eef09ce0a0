//! An image in a range of a file that was opened to be changed, and that file with the image's changes.
ghost use Rattle.std.specs.Prelude.{◌≡◌, ◌≤◌, ◌/◌, List, ℕ, None, OnOk};
ghost use Rattle.std.proofs.lemmas.Option.{none-some};
ghost use Rattle.hfs_source.specs.Images.{FailsInRange, IsRangeOf, OfEach};
ghost use Rattle.hfs_blocks.specs.Layers.{changes, AreWithin};
ghost use Rattle.hfs_source.specs.Ranges.{range_of};
ghost use Rattle.hfs_commands.specs.Images.{IsFileWith};

use crate::contents::{ReadContents, UnwrittenFault};
use crate::patched_image::PatchedImage;
use hfs_copy::FailingBlocks;
use hfs_source::{BlockSource, ByteRange, PlacedBytes, RangeBytes, Watched};
use hfs_space::ChangedBlocks;
use hfs_volume::{ImagePlace, write_file_with};
use std::alloc::Global;
use std::io;
use std::io::Write;

/// A file that is read by position, and can be looked at again.
pub trait WatchedBytes: PlacedBytes {
    /// The last thing that was done with it is a look, which found what its first look found.
    ghost settled: { Self → Type 0 };

    /// Checks that it is as it was when it was opened. Error: it isn't, or that can't be checked.
    fn look_again(&mut self) -> io::Result<()>
        ensures settled { OnOk result (settled self.new) }
        ensures narrows { OfEach (Self.Holds self.new) (Self.Holds self.old) };
}

/// The blocks of an image that lies in a range of a file.
#[derive(Drop)]
pub struct WatchedRange<S> {
    /// The range.
    pub bytes: RangeBytes<S>,
}

impl<S: PlacedBytes> BlockSource for WatchedRange<S> {
    ghost image = { λ _. None };

    ghost Holds = { λ range. IsRangeOf (S.Holds range.bytes.bytes) range.bytes.start range.bytes.len };

    fn read_blocks(&mut self, first: u32, into: &mut [u8]) -> io::Result<()> {
        self.read_told(first, into)
    }

    ghost known_holds = { λ range bytes e. absurd (none-some bytes e) };
}

impl<S: PlacedBytes> FailingBlocks for WatchedRange<S> {
    ghost Fails = { λ range. FailsInRange (S.Fails range.bytes.bytes) range.bytes.start range.bytes.len };

    fn read_told(&mut self, first: u32, into: &mut [u8]) -> io::Result<()> {
        self.bytes.read_at(u64::from(first) * 512, into)
    }
}

impl<S: WatchedBytes> Watched for WatchedRange<S> {
    ghost settled = { λ range. S.settled range.bytes.bytes };

    fn look_again(&mut self) -> io::Result<()> {
        self.bytes.bytes.look_again()
    }
}

/// The bytes of a file that is read while they are written, with changed blocks in place of those of an image in it, and with
/// that image's sum recomputed.
#[derive(Drop)]
pub struct ImageInFile<S> {
    pub alloc: Global,
    /// The file.
    pub file: S,
    /// Where the image lies in the file. It has at most 2,147,483,648 bytes.
    pub place: ImagePlace,
    /// The changed blocks of the image.
    pub patch: ChangedBlocks,
    ghost small: { place.range.len ≤ 2147483648 },
    ghost within: { AreWithin (changes patch) (place.range.len / 512) },
}

impl<S> ImageInFile<S> {
    /// The file in which this image is a range, with the image's changed blocks in place of its own, and with its sum recomputed
    /// if the file has one.
    pub fn of(image: PatchedImage<WatchedRange<S>>, sum_at: Option<u64>) -> ImageInFile<S>
        ensures file { result.file ≡ image.source.bytes.bytes }
        ensures range { result.place.range ≡ range_of image.source.bytes.start image.len }
        ensures sum_at { result.place.sum_at ≡ sum_at }
        ensures patch { result.patch ≡ image.patch }
    {
        let PatchedImage {
            alloc,
            source,
            len,
            patch,
        } = image;
        let WatchedRange { bytes } = source;
        let RangeBytes {
            bytes: file,
            start,
            ..
        } = bytes;
        let range = ByteRange { start, len };
        ImageInFile {
            alloc,
            file,
            place: ImagePlace { range, sum_at },
            patch,
        }
    }
}

impl<S: WatchedBytes> ReadContents for ImageInFile<S> {
    ghost use Rattle.hfs_blocks.specs.Layers.{Numbered};
    ghost use Rattle.hfs_volume.specs.declared.in_file.ImagePlace.{ImagePlace};

    ghost Holds = { λ contents. IsFileWith (S.Holds contents.file) contents.place contents.patch };

    ghost settled = { λ contents. S.settled contents.file };

    ghost Kept = { ImagePlace × Numbered };

    ghost kept = { λ contents. (contents.place, contents.patch) };

    fn write_to<W: Write>(&mut self, writer: &mut W) -> Result<(), UnwrittenFault> {
        write_file_with(self.alloc, &mut self.file, &self.place, &self.patch, writer)?;
        match self.file.look_again() {
            Ok(()) => Ok(()),
            Err(_) => Err(UnwrittenFault::ReadFailed),
        }
    }

    fn leaves_holes(&self) -> bool {
        true
    }
}

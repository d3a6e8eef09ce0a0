//! An image of which something remains.
ghost use Rattle.std.proofs.Props.{props};
ghost use Rattle.std.specs.Prelude.{◌≡◌, ◌≤◌, IfErr, IfOk, Some};
ghost use Rattle.hfs_commands.specs.Checks.{HasCheckLines, IsCheckFault};
ghost use Rattle.hfs_remains_forks.specs.Finds.{IsFoundIn};
ghost use Rattle.hfs_image.specs.Failing.{SomeReadFails};
ghost use Rattle.hfs_image.specs.Kept.{IsSameRange, range_failures, range_images};
ghost use Rattle.hfs_image.specs.Known.{OfKnown};
ghost use Rattle.hfs_source.specs.Images.{HasLength, OfEach};
ghost use Rattle.hfs_source.specs.Seen.{EachKnown};
ghost use Rattle.hfs_word_rescue.specs.Faults.{IsUnheld};

use crate::looking::{fault_of, look_range, rescued_image};
use hfs_check::MountFault;
use hfs_commands::CheckAnswer;
use hfs_remains_forks::{Finds, Unlooked};
use hfs_source::{PlacedBlocks, PlacedBytes, RangeBlocks, SeenBlocks};
use std::alloc::Global;

/// Why nothing is found of an image.
#[derive(Drop)]
pub enum HoldFault {
    /// No directory is found in it; this is the fault of its check.
    NoDirectory(Option<MountFault>),
    /// A read failed.
    ReadFailed,
    /// Memory was refused.
    NoMemory,
}

/// An image in which a directory is found: what its blocks are read from, what its check says, and what is found of it by its
/// directory. All this holds for every image consistent with the bytes read.
#[derive(Drop)]
pub struct RescuedImage<S: PlacedBlocks> {
    pub(crate) source: SeenBlocks<S>,
    /// How many bytes it has.
    pub(crate) len: u64,
    /// Where the volume lies in its file, if it was looked for there: its line in the bag.
    pub(crate) line: Option<String>,
    pub(crate) check: CheckAnswer,
    pub(crate) finds: Finds,
    ghost long: { OfEach (S.Holds source.blocks) (HasLength len) } by { Prim.hlevel props },
    ghost fault_is: { EachKnown (S.Holds source.blocks) (λ known. OfKnown known len (IsCheckFault check.fault)) } by { Prim.hlevel props },
    ghost lines_are: { EachKnown (S.Holds source.blocks) (λ known. OfKnown known len (HasCheckLines check.lines)) } by { Prim.hlevel props },
    ghost finds_are: { EachKnown (S.Holds source.blocks) (λ known. OfKnown known len (λ image. IsFoundIn image (Some finds))) } by { Prim.hlevel props },
    ghost few: { len ≤ 2147483648 },
}

/// Why nothing is found of an image, and what it was read from.
#[derive(Drop)]
pub struct Unfound<S: PlacedBlocks> {
    pub fault: HoldFault,
    pub source: SeenBlocks<S>,
}

impl<S: PlacedBytes + Drop> RescuedImage<RangeBlocks<S>> {
    /// Checks an image that is a range of a file, and finds what there is of it, in the blocks that are needed for that. Faults,
    /// with the range handed back, of which they hold: no directory is found in it; a read failed, of bytes that every image
    /// consistent with those read has; memory was refused.
    pub fn open(
        alloc: Global,
        source: SeenBlocks<RangeBlocks<S>>,
        line: Option<String>,
    ) -> Result<RescuedImage<RangeBlocks<S>>, Unfound<RangeBlocks<S>>>
        ensures line { IfOk result (λ image. image.line ≡ line) }
        ensures same { IfOk result (λ image.
            IsSameRange S.Holds source.blocks.bytes image.source.blocks.bytes) }
        ensures none { IfErr result (λ back. IsUnheld
            (range_images S.Holds back.source.blocks.bytes)
            (SomeReadFails (range_images S.Holds source.blocks.bytes)
            (range_failures S.Fails source.blocks.bytes)) back.fault) }
        ensures back { IfErr result (λ back.
            IsSameRange S.Holds source.blocks.bytes back.source.blocks.bytes) }
    {
        match look_range(alloc, source) {
            Ok(image) => rescued_image(alloc, image, line),
            Err(Unlooked { fault, source }) => {
                let fault = fault_of(fault);
                Err(Unfound { fault, source })
            }
        }
    }
}

impl<S: PlacedBlocks + Drop> RescuedImage<S> {
    /// What it was read from.
    pub(crate) fn into_source(self) -> SeenBlocks<S>
        ensures { result ≡ self.source }
    {
        let RescuedImage {
            source,
            len: _,
            line: _,
            check: _,
            finds: _,
        } = self;
        source
    }
}

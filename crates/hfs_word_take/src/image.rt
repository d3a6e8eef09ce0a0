//! An image whose volume is to be taken.
ghost use Rattle.std.proofs.Props.{props};
ghost use Rattle.std.specs.Prelude.{◌≡◌, IfErr, IfOk};
ghost use Rattle.hfs_check.specs.Report.{report_of};
ghost use Rattle.hfs_image.specs.Failing.{SomeReadFails};
ghost use Rattle.hfs_image.specs.Kept.{IsSameRange, range_failures, range_images};
ghost use Rattle.hfs_image.specs.declared.opening.NeededFault.TheVariants.{ReadFailed};
ghost use Rattle.hfs_image.specs.Seen.{HasNoFault, IsRefusedBy};
ghost use Rattle.hfs_source.specs.Images.{HasLength, OfEach};

use hfs_check::Report;
use hfs_image::{SeenImage, Unopened, open_range_reported};
use hfs_source::{PlacedBlocks, PlacedBytes, RangeBlocks, SeenBlocks};
use std::alloc::Global;

/// A sound image that was opened, and what is known of it before its forks are read.
#[derive(Drop)]
pub struct TakenImage<S: PlacedBlocks> {
    pub opened: SeenImage<S>,
    /// The same image, to be read at the same time, if it was opened a second time.
    pub beside: Option<SeenBlocks<S>>,
    /// How many bytes it has.
    pub len: u64,
    /// The report of its check.
    pub report: Report,
    /// Where it lies in its file, if it was looked for there: its line in the bag.
    pub volume: Option<String>,
    ghost len_is: { OfEach (S.Holds opened) (HasLength len) } by { Prim.hlevel props },
    ghost report_is: { OfEach (S.Holds opened) (λ image. report ≡ report_of image) } by { Prim.hlevel props },
}

impl<S: PlacedBytes + Drop> TakenImage<RangeBlocks<S>> {
    /// Reads the needed blocks of an image that is a range of a file, and makes all checks once. Errors, with the source handed
    /// back: a read failed, memory was refused, or the image is refused.
    pub fn open(
        alloc: Global,
        source: SeenBlocks<RangeBlocks<S>>,
        beside: Option<SeenBlocks<RangeBlocks<S>>>,
        volume: Option<String>,
    ) -> Result<TakenImage<RangeBlocks<S>>, Unopened<RangeBlocks<S>>>
        ensures same { IfOk result (λ image. IsSameRange S.Holds source.blocks.bytes
            image.opened.bytes) }
        ensures beside { IfOk result (λ image. image.beside ≡ beside) }
        ensures volume { IfOk result (λ image. image.volume ≡ volume) }
        ensures sound { IfOk result (λ image. OfEach (range_images S.Holds image.opened.bytes)
            HasNoFault) }
        ensures refused { IfErr result (λ back. OfEach
            (range_images S.Holds back.source.blocks.bytes) (IsRefusedBy back.fault)) }
        ensures failed { IfErr result (λ back. back.fault ≡ ReadFailed
            → SomeReadFails (range_images S.Holds source.blocks.bytes)
            (range_failures S.Fails source.blocks.bytes)) }
        ensures back { IfErr result (λ back. IsSameRange S.Holds source.blocks.bytes
            back.source.blocks.bytes) }
    {
        let len = source.blocks.len();
        match open_range_reported(alloc, source) {
            Ok((opened, report)) => Ok(TakenImage {
                opened,
                beside,
                len,
                report,
                volume,
            }),
            Err(back) => Err(back),
        }
    }
}

impl<S: PlacedBlocks + Drop> TakenImage<S> {
    /// The opened image alone.
    pub(crate) fn into_opened(self) -> SeenImage<S>
        ensures { result ≡ self.opened }
    {
        let TakenImage {
            opened,
            beside: _,
            len: _,
            report: _,
            volume: _,
        } = self;
        opened
    }
}

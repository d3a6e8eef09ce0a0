//! An opened image that is a range of a file.
ghost use Rattle.std.specs.Prelude.{◌≡◌, IfErr, IfOk};
ghost use Rattle.hfs_check.specs.Report.{report_of};
ghost use Rattle.hfs_image.specs.Failing.{SomeReadFails};
ghost use Rattle.hfs_image.specs.Kept.{IsKept, IsSameRange, range_failures, range_images};
ghost use Rattle.hfs_image.specs.Seen.{HasNoFault, IsRefusedBy};
ghost use Rattle.hfs_source.specs.Images.{OfEach};

use super::{SeenImage, Unopened};
use crate::kept::{KeptRange, PickedRange};
use crate::opening::NeededFault;
use hfs_check::Report;
use hfs_source::{BlocksOf, PlacedBytes, RangeBlocks, SeenBlocks};
use std::alloc::Global;
use std::marker::Brand;

impl<S: PlacedBytes, K: PickedRange> SeenImage<BlocksOf<KeptRange<S, K>>> {
    /// The same image, read from the range itself, which is still the one that was picked.
    fn into_range(self) -> SeenImage<RangeBlocks<S>>
        ensures range { result.bytes ≡ self.bytes }
        ensures kept { IsKept S.Holds K.start K.len K.Holds result.bytes }
    {
        let SeenImage {
            source,
            len,
            volume,
        } = self;
        SeenImage {
            source: KeptRange::<S, K>::into_blocks(source),
            len,
            volume,
        }
    }
}

/// Opens a range as [`open_range`] does, with that range already picked.
fn open_picked<K: PickedRange, S: PlacedBytes>(
    alloc: Global,
    source: SeenBlocks<RangeBlocks<S>>,
) -> Result<SeenImage<RangeBlocks<S>>, Unopened<RangeBlocks<S>>>
    requires { IsKept S.Holds K.start K.len K.Holds source.blocks.bytes }
    ensures sound { IfOk result (λ image. OfEach (range_images S.Holds image.bytes) HasNoFault) }
    ensures kept { IfOk result (λ image. IsKept S.Holds K.start K.len K.Holds image.bytes) }
    ensures refused { IfErr result (λ back.
        OfEach (range_images S.Holds back.source.blocks.bytes) (IsRefusedBy back.fault)) }
    ensures failed { IfErr result (λ back. back.fault ≡ NeededFault.ReadFailed
        → SomeReadFails (range_images S.Holds source.blocks.bytes)
        (range_failures S.Fails source.blocks.bytes)) }
    ensures back { IfErr result (λ back.
        IsKept S.Holds K.start K.len K.Holds back.source.blocks.bytes) }
{
    match SeenImage::open(alloc, KeptRange::<S, K>::blocks(source)) {
        Ok(image) => Ok(image.into_range()),
        Err(Unopened { fault, source }) => {
            let source = KeptRange::<S, K>::into_blocks(source);
            Err(Unopened { fault, source })
        }
    }
}

/// Opens a range as [`open_range_reported`] does, with that range already picked.
fn report_picked<K: PickedRange, S: PlacedBytes>(
    alloc: Global,
    source: SeenBlocks<RangeBlocks<S>>,
) -> Result<(SeenImage<RangeBlocks<S>>, Report), Unopened<RangeBlocks<S>>>
    requires { IsKept S.Holds K.start K.len K.Holds source.blocks.bytes }
    ensures sound { IfOk result (λ told. OfEach (range_images S.Holds told.0.bytes) HasNoFault) }
    ensures report { IfOk result (λ told. OfEach (range_images S.Holds told.0.bytes)
        (λ image. told.1 ≡ report_of image)) }
    ensures kept { IfOk result (λ told. IsKept S.Holds K.start K.len K.Holds told.0.bytes) }
    ensures refused { IfErr result (λ back.
        OfEach (range_images S.Holds back.source.blocks.bytes) (IsRefusedBy back.fault)) }
    ensures failed { IfErr result (λ back. back.fault ≡ NeededFault.ReadFailed
        → SomeReadFails (range_images S.Holds source.blocks.bytes)
        (range_failures S.Fails source.blocks.bytes)) }
    ensures back { IfErr result (λ back.
        IsKept S.Holds K.start K.len K.Holds back.source.blocks.bytes) }
{
    match SeenImage::open_reported(alloc, KeptRange::<S, K>::blocks(source)) {
        Ok((image, report)) => Ok((image.into_range(), report)),
        Err(Unopened { fault, source }) => {
            let source = KeptRange::<S, K>::into_blocks(source);
            Err(Unopened { fault, source })
        }
    }
}

/// As [`SeenImage::open`], of an image that is a range of a file: what is opened, or handed back, is that range.
pub fn open_range<S: PlacedBytes>(
    alloc: Global,
    source: SeenBlocks<RangeBlocks<S>>,
) -> Result<SeenImage<RangeBlocks<S>>, Unopened<RangeBlocks<S>>>
    ensures sound { IfOk result (λ image. OfEach (range_images S.Holds image.bytes) HasNoFault) }
    ensures same { IfOk result (λ image. IsSameRange S.Holds source.blocks.bytes image.bytes) }
    ensures refused { IfErr result (λ back.
        OfEach (range_images S.Holds back.source.blocks.bytes) (IsRefusedBy back.fault)) }
    ensures failed { IfErr result (λ back. back.fault ≡ NeededFault.ReadFailed
        → SomeReadFails (range_images S.Holds source.blocks.bytes)
        (range_failures S.Fails source.blocks.bytes)) }
    ensures back { IfErr result (λ back.
        IsSameRange S.Holds source.blocks.bytes back.source.blocks.bytes) }
{
    open_picked::<Brand, S>(alloc, source)
}

/// As [`SeenImage::open_reported`], of an image that is a range of a file: what is opened, or handed back, is that range.
pub fn open_range_reported<S: PlacedBytes>(
    alloc: Global,
    source: SeenBlocks<RangeBlocks<S>>,
) -> Result<(SeenImage<RangeBlocks<S>>, Report), Unopened<RangeBlocks<S>>>
    ensures sound { IfOk result (λ told. OfEach (range_images S.Holds told.0.bytes) HasNoFault) }
    ensures report { IfOk result (λ told. OfEach (range_images S.Holds told.0.bytes)
        (λ image. told.1 ≡ report_of image)) }
    ensures same { IfOk result (λ told. IsSameRange S.Holds source.blocks.bytes told.0.bytes) }
    ensures refused { IfErr result (λ back.
        OfEach (range_images S.Holds back.source.blocks.bytes) (IsRefusedBy back.fault)) }
    ensures failed { IfErr result (λ back. back.fault ≡ NeededFault.ReadFailed
        → SomeReadFails (range_images S.Holds source.blocks.bytes)
        (range_failures S.Fails source.blocks.bytes)) }
    ensures back { IfErr result (λ back.
        IsSameRange S.Holds source.blocks.bytes back.source.blocks.bytes) }
{
    report_picked::<Brand, S>(alloc, source)
}

//! What is rescued of an image that was looked at.
ghost use Rattle.std.specs.Prelude.{◌≡◌, ◌≤◌, IfErr, IfOk, IfSome};
ghost use Rattle.hfs_image.specs.Failing.{SomeReadFails};
ghost use Rattle.hfs_image.specs.Kept.{IsKept, IsSameRange, range_failures, range_images};
ghost use Rattle.hfs_remains_forks.specs.Looks.{IsLookedAt};
ghost use Rattle.hfs_word_rescue.specs.Faults.{IsUnheld, unread_fault};

use crate::image::{HoldFault, RescuedImage, Unfound};
use hfs_commands::report_answer;
use hfs_image::{KeptRange, PickedRange};
use hfs_remains_forks::{LookedImage, Unlooked, look_and_find};
use hfs_source::{PlacedBlocks, PlacedBytes, RangeBlocks, SeenBlocks, SparseFault};
use std::alloc::Global;
use std::marker::Brand;

/// The fault for blocks that weren't read.
pub(crate) fn fault_of(fault: SparseFault) -> HoldFault
    ensures { result ≡ unread_fault fault }
{
    match fault {
        SparseFault::ReadFailed => HoldFault::ReadFailed,
        SparseFault::Memory => HoldFault::NoMemory,
    }
}

/// An image that was looked at, with what its check says. Faults, with the source handed back: it has no directory, memory was
/// refused; nothing is read here, so no read fails.
pub(crate) fn rescued_image<S: PlacedBlocks + Drop>(
    alloc: Global,
    image: LookedImage<S>,
    line: Option<String>,
) -> Result<RescuedImage<S>, Unfound<S>>
    requires looked { IsLookedAt (S.Holds image.source.blocks) image.len image.report image.found }
    requires few { IfSome image.found (λ _. image.len ≤ 2147483648) }
    ensures line { IfOk result (λ rescued. rescued.line ≡ line) }
    ensures source { IfOk result (λ rescued. rescued.source ≡ image.source) }
    ensures none { IfErr result (λ back. IsUnheld (S.Holds back.source.blocks) ⊥ back.fault) }
    ensures back { IfErr result (λ back. back.source ≡ image.source) }
{
    let LookedImage {
        source,
        len,
        report,
        found,
    } = image;
    let Ok(check) = report_answer(alloc, &report) else {
        let fault = HoldFault::NoMemory;
        return Err(Unfound { fault, source });
    };
    match found {
        Some(finds) => Ok(RescuedImage {
            source,
            len,
            line,
            check,
            finds,
        }),
        None => Err(Unfound {
            fault: HoldFault::NoDirectory(check.fault),
            source,
        }),
    }
}

/// Looks at a range as [`look_range`] does, with that range already picked.
fn look_picked<K: PickedRange, S: PlacedBytes + Drop>(
    alloc: Global,
    source: SeenBlocks<RangeBlocks<S>>,
) -> Result<LookedImage<RangeBlocks<S>>, Unlooked<RangeBlocks<S>>>
    requires { IsKept S.Holds K.start K.len K.Holds source.blocks.bytes }
    ensures looked { IfOk result (λ image. IsLookedAt
        (range_images S.Holds image.source.blocks.bytes) image.len image.report image.found) }
    ensures few { IfOk result (λ image. IfSome image.found (λ _. image.len ≤ 2147483648)) }
    ensures kept { IfOk result (λ image.
        IsKept S.Holds K.start K.len K.Holds image.source.blocks.bytes) }
    ensures failed { IfErr result (λ back. back.fault ≡ SparseFault.ReadFailed
        → SomeReadFails (range_images S.Holds source.blocks.bytes)
        (range_failures S.Fails source.blocks.bytes)) }
    ensures back { IfErr result (λ back.
        IsKept S.Holds K.start K.len K.Holds back.source.blocks.bytes) }
{
    match look_and_find(alloc, KeptRange::<S, K>::blocks(source)) {
        Ok(
            LookedImage {
                source,
                len,
                report,
                found,
            },
        ) => {
            let source = KeptRange::<S, K>::into_blocks(source);
            Ok(LookedImage {
                source,
                len,
                report,
                found,
            })
        }
        Err(Unlooked { fault, source }) => {
            let source = KeptRange::<S, K>::into_blocks(source);
            Err(Unlooked { fault, source })
        }
    }
}

/// Looks at an image that is a range of a file, as [`look_and_find`] does: what was looked at, or is handed back, is that range.
pub(crate) fn look_range<S: PlacedBytes + Drop>(
    alloc: Global,
    source: SeenBlocks<RangeBlocks<S>>,
) -> Result<LookedImage<RangeBlocks<S>>, Unlooked<RangeBlocks<S>>>
    ensures looked { IfOk result (λ image. IsLookedAt
        (range_images S.Holds image.source.blocks.bytes) image.len image.report image.found) }
    ensures few { IfOk result (λ image. IfSome image.found (λ _. image.len ≤ 2147483648)) }
    ensures same { IfOk result (λ image.
        IsSameRange S.Holds source.blocks.bytes image.source.blocks.bytes) }
    ensures failed { IfErr result (λ back. back.fault ≡ SparseFault.ReadFailed
        → SomeReadFails (range_images S.Holds source.blocks.bytes)
        (range_failures S.Fails source.blocks.bytes)) }
    ensures back { IfErr result (λ back.
        IsSameRange S.Holds source.blocks.bytes back.source.blocks.bytes) }
{
    look_picked::<Brand, S>(alloc, source)
}

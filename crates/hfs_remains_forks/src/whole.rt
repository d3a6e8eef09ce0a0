//! An image that was looked at, sound or refused, and what is found of it.
ghost use Rattle.std.specs.Prelude.{◌≡◌, ◌≤◌, IfErr, IfOk, IfSome};
ghost use Rattle.hfs_check.specs.Report.{report_of};
ghost use Rattle.hfs_remains_forks.specs.Looks.{IsLookedAt, IsRefusedAs};
ghost use Rattle.hfs_image.specs.Failing.{SomeFailsWithin, SomeReadFails};
ghost use Rattle.hfs_image.specs.Seen.{HasNoFault};
ghost use Rattle.hfs_source.specs.Images.{HasLength, OfEach};

use crate::again::{SeenFinds, find_seen};
use crate::finds::Finds;
use crate::looking::{Unlooked, look_reported};
use crate::refused::RefusedImage;
use crate::volume::finds_of_volume;
use hfs_check::{Report, refused_report};
use hfs_image::SeenImage;
use hfs_source::{PlacedBlocks, SeenBlocks, SparseFault};
use std::alloc::Global;

/// An image that was looked at, with the report of its check and what is found of it.
#[derive(Drop)]
pub struct LookedImage<S: PlacedBlocks> {
    /// What its blocks are read from.
    pub source: SeenBlocks<S>,
    /// How many bytes it has.
    pub len: u64,
    /// Its report, which says why it is refused, if it is.
    pub report: Report,
    /// What is found of it; None if it has no directory.
    pub found: Option<Finds>,
}

/// What is found in the usual way of a sound image of `len` bytes, whose blocks are read once more.
fn find_again<S: PlacedBlocks + Drop>(
    alloc: Global,
    source: SeenBlocks<S>,
    len: u64,
    report: Report,
) -> Result<LookedImage<S>, Unlooked<S>>
    requires report { OfEach (S.Holds source.blocks) (λ bytes. report ≡ report_of bytes) }
    requires long { OfEach (S.Holds source.blocks) (HasLength len) }
    ensures looked { IfOk result (λ image. IsLookedAt (S.Holds image.source.blocks) image.len
        image.report image.found) }
    ensures few { IfOk result (λ image. IfSome image.found (λ _. image.len ≤ 2147483648)) }
    ensures narrows { IfOk result (λ image. OfEach (S.Holds image.source.blocks)
        (S.Holds source.blocks)) }
    ensures failed { IfErr result (λ back. back.fault ≡ SparseFault.ReadFailed
        → SomeFailsWithin len (S.Fails source.blocks)) }
    ensures back { IfErr result (λ back. OfEach (S.Holds back.source.blocks)
        (S.Holds source.blocks)) }
{
    let SeenFinds { source, found } = find_seen(alloc, source, len)?;
    Ok(LookedImage {
        source,
        len,
        report,
        found,
    })
}

/// What is found of a sound image of `len` bytes, from what opening read of it; or in the usual way, if its directory may be
/// found elsewhere.
fn find_sound<S: PlacedBlocks + Drop>(
    alloc: Global,
    image: SeenImage<S>,
    len: u64,
    report: Report,
) -> Result<LookedImage<S>, Unlooked<S>>
    requires sound { OfEach (S.Holds image) HasNoFault }
    requires report { OfEach (S.Holds image) (λ bytes. report ≡ report_of bytes) }
    requires long { OfEach (S.Holds image) (HasLength len) }
    ensures looked { IfOk result (λ found. IsLookedAt (S.Holds found.source.blocks) found.len
        found.report found.found) }
    ensures few { IfOk result (λ found. IfSome found.found (λ _. found.len ≤ 2147483648)) }
    ensures narrows { IfOk result (λ found. OfEach (S.Holds found.source.blocks) (S.Holds image)) }
    ensures failed { IfErr result (λ back. back.fault ≡ SparseFault.ReadFailed
        → SomeFailsWithin len (S.Fails image)) }
    ensures back { IfErr result (λ back. OfEach (S.Holds back.source.blocks) (S.Holds image)) }
{
    let made = finds_of_volume(alloc, image.volume());
    let source = image.into_source();
    if len > 2_147_483_648 {
        return find_again(alloc, source, len, report);
    }
    match made {
        Ok(Some(finds)) => Ok(LookedImage {
            source,
            len,
            report,
            found: Some(finds),
        }),
        Ok(None) => find_again(alloc, source, len, report),
        Err(_) => Err(Unlooked {
            fault: SparseFault::Memory,
            source,
        }),
    }
}

/// What was found of a refused image, with its report.
fn refused_looked<S: PlacedBlocks>(image: RefusedImage<S>) -> LookedImage<S>
    requires { IsRefusedAs (S.Holds image.source.blocks) image.len image.why image.found }
    ensures looked { IsLookedAt (S.Holds result.source.blocks) result.len result.report result.found }
    ensures few { IfSome result.found (λ _. result.len ≤ 2147483648) }
    ensures source { result.source ≡ image.source }
{
    let RefusedImage {
        source,
        len,
        why,
        found,
    } = image;
    let report = refused_report(why);
    LookedImage {
        source,
        len,
        report,
        found,
    }
}

/// Looks at an image as [`look_reported`] does, and returns what there is of it even if it is sound: then from what its checks
/// read, without reading anything again. Errors, with the source handed back: a read failed, memory was refused.
pub fn look_and_find<S: PlacedBlocks + Drop>(
    alloc: Global,
    source: SeenBlocks<S>,
) -> Result<LookedImage<S>, Unlooked<S>>
    ensures looked { IfOk result (λ image. IsLookedAt (S.Holds image.source.blocks) image.len
        image.report image.found) }
    ensures few { IfOk result (λ image. IfSome image.found (λ _. image.len ≤ 2147483648)) }
    ensures narrows { IfOk result (λ image. OfEach (S.Holds image.source.blocks)
        (S.Holds source.blocks)) }
    ensures failed { IfErr result (λ back. back.fault ≡ SparseFault.ReadFailed
        → SomeReadFails (S.Holds source.blocks) (S.Fails source.blocks)) }
    ensures back { IfErr result (λ back. OfEach (S.Holds back.source.blocks)
        (S.Holds source.blocks)) }
{
    let len = source.blocks.len();
    let looked = look_reported(alloc, source)?;
    match looked {
        Ok((image, report)) => find_sound(alloc, image, len, report),
        Err(image) => Ok(refused_looked(image)),
    }
}

//! Opening an image, where a failed read is told from refused memory.
ghost use Rattle.std.specs.Prelude.{◌≡◌, IfErr, IfOk};
ghost use Rattle.hfs_check.specs.Report.{report_of};
ghost use Rattle.hfs_source.specs.Images.{FailsWhere, HasLength, OfEach};
ghost use Rattle.hfs_image.specs.Failing.{SomeReadFails};
ghost use Rattle.hfs_image.specs.Seen.{HasNoFault, IsRefusedBy};

use super::{SeenImage, Unopened};
use crate::noted::{NotedBlocks, PickedFailures};
use crate::opening::{NeededFault, open_needed};
use crate::reporting::{ReportedVolume, open_reported};
use hfs_check::Report;
use hfs_source::{PlacedBlocks, SeenBlocks};
use std::alloc::Global;
use std::marker::Brand;

impl<S: PlacedBlocks> SeenImage<S> {
    /// Reads the needed blocks of an image, and makes all checks. Errors, with the source handed back: a read failed, memory was
    /// refused, or the image is refused.
    pub fn open(alloc: Global, source: SeenBlocks<S>) -> Result<SeenImage<S>, Unopened<S>>
        ensures sound { IfOk result (λ image. OfEach (S.Holds image) HasNoFault) }
        ensures narrows { IfOk result (λ image. OfEach (S.Holds image) (S.Holds source.blocks)) }
        ensures later { IfOk result (λ image. FailsWhere (S.Fails image) (S.Fails source.blocks)) }
        ensures refused { IfErr result (λ back. OfEach (S.Holds back.source.blocks)
            (IsRefusedBy back.fault)) }
        ensures failed { IfErr result (λ back. back.fault ≡ NeededFault.ReadFailed
            → SomeReadFails (S.Holds source.blocks) (S.Fails source.blocks)) }
        ensures back { IfErr result (λ back. OfEach (S.Holds back.source.blocks)
            (S.Holds source.blocks)) }
        ensures back_later { IfErr result (λ back. FailsWhere (S.Fails back.source.blocks)
            (S.Fails source.blocks)) }
    {
        let len = source.blocks.len();
        open_noted::<Brand, S>(alloc, source, len)
    }

    /// As [`SeenImage::open`], but also returns the report on the image, which is that of a sound volume; all checks are made
    /// only once.
    pub fn open_reported(
        alloc: Global,
        source: SeenBlocks<S>,
    ) -> Result<(SeenImage<S>, Report), Unopened<S>>
        ensures sound { IfOk result (λ told. OfEach (S.Holds told.0) HasNoFault) }
        ensures report { IfOk result (λ told. OfEach (S.Holds told.0)
            (λ image. told.1 ≡ report_of image)) }
        ensures narrows { IfOk result (λ told. OfEach (S.Holds told.0) (S.Holds source.blocks)) }
        ensures later { IfOk result (λ told. FailsWhere (S.Fails told.0) (S.Fails source.blocks)) }
        ensures refused { IfErr result (λ back. OfEach (S.Holds back.source.blocks)
            (IsRefusedBy back.fault)) }
        ensures failed { IfErr result (λ back. back.fault ≡ NeededFault.ReadFailed
            → SomeReadFails (S.Holds source.blocks) (S.Fails source.blocks)) }
        ensures back { IfErr result (λ back. OfEach (S.Holds back.source.blocks)
            (S.Holds source.blocks)) }
        ensures back_later { IfErr result (λ back. FailsWhere (S.Fails back.source.blocks)
            (S.Fails source.blocks)) }
    {
        let len = source.blocks.len();
        report_noted::<Brand, S>(alloc, source, len)
    }
}

/// Opens an image of `len` bytes as [`SeenImage::open`] does, with the reads that may fail already picked.
fn open_noted<K: PickedFailures, S: PlacedBlocks>(
    alloc: Global,
    source: SeenBlocks<S>,
    len: u64,
) -> Result<SeenImage<S>, Unopened<S>>
    requires fails { FailsWhere (S.Fails source.blocks) K.fails }
    requires long { OfEach (S.Holds source.blocks) (HasLength len) }
    requires len { len ≡ K.len }
    ensures sound { IfOk result (λ image. OfEach (S.Holds image) HasNoFault) }
    ensures narrows { IfOk result (λ image. OfEach (S.Holds image) (S.Holds source.blocks)) }
    ensures later { IfOk result (λ image. FailsWhere (S.Fails image) K.fails) }
    ensures refused { IfErr result (λ back. OfEach (S.Holds back.source.blocks)
        (IsRefusedBy back.fault)) }
    ensures failed { IfErr result (λ back. back.fault ≡ NeededFault.ReadFailed
        → SomeReadFails (S.Holds source.blocks) K.fails) }
    ensures back { IfErr result (λ back. OfEach (S.Holds back.source.blocks) (S.Holds source.blocks)) }
    ensures back_later { IfErr result (λ back. FailsWhere (S.Fails back.source.blocks) K.fails) }
{
    let mut noted = NotedBlocks::<S, K>::new(source, len);
    let opened = open_needed(alloc, &mut noted, len);
    let (source, failed) = noted.into_source();
    match opened {
        Ok(volume) => Ok(SeenImage {
            source,
            len,
            volume,
        }),
        Err(why) => {
            let fault = why.noted(failed);
            Err(Unopened { fault, source })
        }
    }
}

/// Opens an image of `len` bytes as [`SeenImage::open_reported`] does, with the reads that may fail already picked.
fn report_noted<K: PickedFailures, S: PlacedBlocks>(
    alloc: Global,
    source: SeenBlocks<S>,
    len: u64,
) -> Result<(SeenImage<S>, Report), Unopened<S>>
    requires fails { FailsWhere (S.Fails source.blocks) K.fails }
    requires long { OfEach (S.Holds source.blocks) (HasLength len) }
    requires len { len ≡ K.len }
    ensures sound { IfOk result (λ told. OfEach (S.Holds told.0) HasNoFault) }
    ensures report { IfOk result (λ told. OfEach (S.Holds told.0)
        (λ image. told.1 ≡ report_of image)) }
    ensures narrows { IfOk result (λ told. OfEach (S.Holds told.0) (S.Holds source.blocks)) }
    ensures later { IfOk result (λ told. FailsWhere (S.Fails told.0) K.fails) }
    ensures refused { IfErr result (λ back. OfEach (S.Holds back.source.blocks)
        (IsRefusedBy back.fault)) }
    ensures failed { IfErr result (λ back. back.fault ≡ NeededFault.ReadFailed
        → SomeReadFails (S.Holds source.blocks) K.fails) }
    ensures back { IfErr result (λ back. OfEach (S.Holds back.source.blocks) (S.Holds source.blocks)) }
    ensures back_later { IfErr result (λ back. FailsWhere (S.Fails back.source.blocks) K.fails) }
{
    let mut noted = NotedBlocks::<S, K>::new(source, len);
    let opened = open_reported(alloc, &mut noted, len);
    let (source, failed) = noted.into_source();
    match opened {
        Ok(ReportedVolume { volume, report }) => {
            let image = SeenImage {
                source,
                len,
                volume,
            };
            Ok((image, report))
        }
        Err(why) => {
            let fault = why.noted(failed);
            Err(Unopened { fault, source })
        }
    }
}

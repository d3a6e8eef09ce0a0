//! The report on an image whose blocks are known by what was read of them.
ghost use Rattle.std.specs.Prelude.{◌≡◌, IfErr, IfOk};
ghost use Rattle.hfs_check.specs.Report.{report_of};
ghost use Rattle.hfs_source.specs.Images.{FailsWhere, HasLength, OfEach};
ghost use Rattle.hfs_image.specs.Failing.{SomeReadFails};

use crate::noted::{NotedBlocks, PickedFailures, noted_fault};
use crate::reporting::needed_report;
use hfs_check::Report;
use hfs_source::{PlacedBlocks, SeenBlocks, SparseFault};
use std::alloc::Global;
use std::marker::Brand;

/// Reports on an image of `len` bytes as [`seen_report`] does, with the reads that may fail already picked.
fn report_picked<K: PickedFailures, S: PlacedBlocks + Drop>(
    alloc: Global,
    source: SeenBlocks<S>,
    len: u64,
) -> Result<(SeenBlocks<S>, Report), SparseFault>
    requires fails { FailsWhere (S.Fails source.blocks) K.fails }
    requires long { OfEach (S.Holds source.blocks) (HasLength len) }
    requires len { len ≡ K.len }
    ensures report { IfOk result (λ told. OfEach (S.Holds told.0.blocks)
        (λ image. told.1 ≡ report_of image)) }
    ensures narrows { IfOk result (λ told. OfEach (S.Holds told.0.blocks) (S.Holds source.blocks)) }
    ensures later { IfOk result (λ told. FailsWhere (S.Fails told.0.blocks) K.fails) }
    ensures failed { IfErr result (λ fault. fault ≡ SparseFault.ReadFailed
        → SomeReadFails (S.Holds source.blocks) K.fails) }
{
    let mut noted = NotedBlocks::<S, K>::new(source, len);
    let told = needed_report(alloc, &mut noted, len);
    let (source, failed) = noted.into_source();
    match told {
        Ok(report) => Ok((source, report)),
        Err(why) => Err(noted_fault(why, failed)),
    }
}

/// Reports on an image, and hands the source back; only the blocks that its checks need are read. The result is the report on
/// every image consistent with the bytes read. Errors: a read failed, memory was refused.
pub fn seen_report<S: PlacedBlocks + Drop>(
    alloc: Global,
    source: SeenBlocks<S>,
) -> Result<(SeenBlocks<S>, Report), SparseFault>
    ensures report { IfOk result (λ told. OfEach (S.Holds told.0.blocks)
        (λ image. told.1 ≡ report_of image)) }
    ensures narrows { IfOk result (λ told. OfEach (S.Holds told.0.blocks) (S.Holds source.blocks)) }
    ensures later { IfOk result (λ told. FailsWhere (S.Fails told.0.blocks) (S.Fails source.blocks)) }
    ensures failed { IfErr result (λ fault. fault ≡ SparseFault.ReadFailed
        → SomeReadFails (S.Holds source.blocks) (S.Fails source.blocks)) }
{
    let len = source.blocks.len();
    report_picked::<Brand, S>(alloc, source, len)
}

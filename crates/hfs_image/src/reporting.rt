//! The report on an image of which only the needed blocks are read.
ghost use Rattle.std.specs.Prelude.{◌≡◌, ◌≤◌, ◌/◌, IfErr, IfOk};
ghost use Rattle.hfs_check.specs.Parts.{mdb_in};
ghost use Rattle.hfs_check.specs.Sound.{AreBlocksSound};
ghost use Rattle.hfs_check.specs.Trees.{HasTrees};
ghost use Rattle.hfs_image.specs.Known.{IsReportIn, IsReportOf};
ghost use Rattle.hfs_image.specs.Opened.{AreRefusedFor, IsOpenedOf, IsRefusedFor, IsSoundOf};
ghost use Rattle.hfs_source.specs.Images.{OfEach};
ghost use Rattle.hfs_source.specs.Seen.{EachKnown, IsSeen};
ghost use Rattle.hfs_source.specs.Sparse.{sparse};

use crate::gathering::gather_needed;
use crate::opening::{NeededFault, NeededVolume};
use crate::sound_trees::sound_trees;
use hfs_check::{MountFault, Report, SoundVolume, read_mdb, refused_report, report_blocks};
use hfs_source::{BlockSource, SparseBlocks, SparseFault};
use std::alloc::{AllocError, Global};

/// The report on the blocks of an image of `count` blocks, whose length is right.
fn gathered_report<S: BlockSource>(
    alloc: Global,
    source: &mut S,
    count: u32,
) -> Result<Report, SparseFault>
    requires { 3 ≤ count }
    ensures report { IfOk result (IsReportIn (S.image source.old) count) }
    ensures image { S.image source.new ≡ S.image source.old }
    ensures each { IfOk result (λ report. EachKnown (S.Holds source.new)
        (λ known. IsReportIn known count report)) }
    ensures narrows { OfEach (S.Holds source.new) (S.Holds source.old) }
{
    let read = gather_needed(alloc, source, count)?;
    match report_blocks(alloc, &read.volume(count)) {
        Ok(report) => Ok(report),
        Err(_) => Err(SparseFault::Memory),
    }
}

/// Reports on an image of `len` bytes; only the blocks that its checks need are read. The result is the report on the whole
/// image. Errors: a read failed, memory was refused.
pub(crate) fn needed_report<S: BlockSource>(
    alloc: Global,
    source: &mut S,
    len: u64,
) -> Result<Report, SparseFault>
    ensures report { IfOk result (IsReportOf (S.image source.old) len) }
    ensures image { S.image source.new ≡ S.image source.old }
    ensures each { IfOk result (λ report. EachKnown (S.Holds source.new)
        (λ known. IsReportOf known len report)) }
    ensures narrows { OfEach (S.Holds source.new) (S.Holds source.old) }
{
    if len > 2_147_483_648 {
        return Ok(refused_report(MountFault::TooLarge));
    }
    if len < 1_536 {
        return Ok(refused_report(MountFault::Short));
    }
    gathered_report(alloc, source, (len / 512) as u32)
}

/// A sound volume whose needed blocks were read, and its report.
#[derive(Drop)]
pub(crate) struct ReportedVolume {
    pub(crate) volume: NeededVolume,
    pub(crate) report: Report,
}

/// What opening keeps of a sound volume, given the blocks that were read.
fn sound_volume(alloc: Global, read: SparseBlocks, count: u32) -> Result<NeededVolume, AllocError>
    requires some { 3 ≤ count }
    requires sound { AreBlocksSound count (sparse read) }
    ensures read { IfOk result (λ volume. volume.read ≡ read) }
    ensures count { IfOk result (λ volume. volume.count ≡ count) }
    ensures directory { IfOk result (λ volume. volume.sound.mdb ≡ mdb_in (sparse read)) }
    ensures trees { IfOk result (λ volume. HasTrees count (sparse read) volume.sound.trees) }
{
    let mdb = read_mdb(&read.volume(count));
    let trees = sound_trees(alloc, &read, count, &mdb)?;
    Ok(NeededVolume {
        read,
        count,
        sound: SoundVolume { mdb, trees },
    })
}

/// Reads the needed blocks of an image of `count` blocks, whose length is right, and reports on them.
fn report_opened<S: BlockSource>(
    alloc: Global,
    source: &mut S,
    count: u32,
) -> Result<ReportedVolume, NeededFault>
    requires { 3 ≤ count }
    ensures opened { IfOk result (λ found. IsOpenedOf (S.image source.old) count found.volume) }
    ensures report { IfOk result (λ found. IsReportIn (S.image source.old) count found.report) }
    ensures refused { IfErr result (λ fault. AreRefusedFor (S.image source.old) count fault) }
    ensures image { S.image source.new ≡ S.image source.old }
    ensures seen { IfOk result (λ found. IsSeen (S.Holds source.new) found.volume.read) }
    ensures each_report { IfOk result (λ found. EachKnown (S.Holds source.new)
        (λ known. IsReportIn known count found.report)) }
    ensures each_refused { IfErr result (λ fault. EachKnown (S.Holds source.new)
        (λ known. AreRefusedFor known count fault)) }
    ensures narrows { OfEach (S.Holds source.new) (S.Holds source.old) }
{
    let read = match gather_needed(alloc, source, count) {
        Ok(read) => read,
        Err(fault) => return Err(NeededFault::of_sparse(fault)),
    };
    let Ok(report) = report_blocks(alloc, &read.volume(count)) else {
        return Err(NeededFault::Memory);
    };
    match report.fault {
        Some(why) => Err(NeededFault::Refused(why)),
        None => match sound_volume(alloc, read, count) {
            Ok(volume) => Ok(ReportedVolume { volume, report }),
            Err(_) => Err(NeededFault::Memory),
        },
    }
}

/// Reads the needed blocks of an image of `len` bytes, and reports on them; all checks are made only once. Errors: a read failed,
/// memory was refused, or the image is refused.
pub(crate) fn open_reported<S: BlockSource>(
    alloc: Global,
    source: &mut S,
    len: u64,
) -> Result<ReportedVolume, NeededFault>
    ensures opened { IfOk result (λ found. IsOpenedOf (S.image source.old) (len / 512) found.volume) }
    ensures report { IfOk result (λ found. IsReportOf (S.image source.old) len found.report) }
    ensures sound { IfOk result (λ found. IsSoundOf (S.image source.old) len) }
    ensures refused { IfErr result (λ fault. IsRefusedFor (S.image source.old) len fault) }
    ensures image { S.image source.new ≡ S.image source.old }
    ensures seen { IfOk result (λ found. IsSeen (S.Holds source.new) found.volume.read) }
    ensures each_report { IfOk result (λ found. EachKnown (S.Holds source.new)
        (λ known. IsReportOf known len found.report)) }
    ensures each_refused { IfErr result (λ fault. EachKnown (S.Holds source.new)
        (λ known. IsRefusedFor known len fault)) }
    ensures narrows { OfEach (S.Holds source.new) (S.Holds source.old) }
    ensures each_sound { IfOk result (λ found. EachKnown (S.Holds source.new)
        (λ known. IsSoundOf known len)) }
{
    if len > 2_147_483_648 {
        return Err(NeededFault::Refused(MountFault::TooLarge));
    }
    if len < 1_536 {
        return Err(NeededFault::Refused(MountFault::Short));
    }
    report_opened(alloc, source, (len / 512) as u32)
}

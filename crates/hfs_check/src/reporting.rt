//! Reports on images.
ghost use Rattle.std.specs.Prelude.{◌≡◌, ◌≤◌, IfOk};
ghost use Rattle.hfs_check.specs.Parts.{mdb_in};
ghost use Rattle.hfs_check.specs.Report as spec;
ghost use Rattle.hfs_check.specs.Sound.{AreBlocksSound};
ghost use Rattle.hfs_check.specs.Answers.{AreAllOwned};

use crate::checking::{CheckedVolume, checked_blocks, checked_image};
use crate::mount_fault::MountFault;
use crate::reported::{Alternate, Report, alternate_in};
use hfs_blocks::{Blocks, ImageBytes};
use hfs_space::stray_count;
use std::alloc::{AllocError, Global};

/// The report on a sound volume.
fn sound_report<B: Blocks>(
    alloc: Global,
    blocks: &B,
    checked: &CheckedVolume,
) -> Result<Report, AllocError>
    requires some { 3 ≤ B.total blocks.now }
    requires sound { AreBlocksSound (B.total blocks.now) (B.blocks blocks.now) }
    requires mdb { checked.now.volume.mdb ≡ mdb_in (B.blocks blocks.now) }
    requires owned { AreAllOwned (B.blocks blocks.now) checked.now.owned.items }
    ensures { IfOk result (spec.IsSoundReport (B.total blocks.now) (B.blocks blocks.now)) }
{
    let mdb = &checked.volume.mdb;
    let unowned = stray_count(alloc, blocks, mdb, &checked.owned)?;
    Ok(Report {
        fault: None,
        files: mdb.files,
        folders: mdb.folders,
        free: u32::from(mdb.free_blocks),
        alternate: alternate_in(blocks, mdb),
        unowned,
    })
}

/// The report on an image that is refused.
pub fn refused_report(fault: MountFault) -> Report
    ensures { result ≡ spec.refused_report fault }
{
    Report {
        fault: Some(fault),
        files: 0,
        folders: 0,
        free: 0,
        alternate: Alternate::Missing,
        unowned: 0,
    }
}

/// Reports on the blocks of an image, whose length is right: the first fault of its blocks, or the counts of a sound volume, as
/// `Report` says. Fails only when out of memory.
#[tactic(auto, unfolding(crate::specs::Report::report_in))]
pub fn report_blocks<B: Blocks>(alloc: Global, blocks: &B) -> Result<Report, AllocError>
    requires { 3 ≤ B.total blocks.now }
    ensures { IfOk result (spec.IsReportOn (B.total blocks.now) (B.blocks blocks.now)) }
{
    match checked_blocks(alloc, blocks) {
        Ok(checked) => sound_report(alloc, blocks, &checked),
        Err(MountFault::Memory) => Err(AllocError),
        Err(fault) => Ok(refused_report(fault)),
    }
}

/// Reports on an image: the fault that mounting gives, or the counts of a sound volume, as `Report` says. Fails only when out of
/// memory.
///
/// Source: Inside Macintosh: Files, chapter 2, 'Data Organization on Volumes'; docs/CHECKS.md has the checks.
#[tactic(auto, unfolding(crate::specs::Report::report_of))]
pub fn report(alloc: Global, image: &[u8]) -> Result<Report, AllocError>
    ensures { IfOk result (λ report. report ≡ spec.report_of image.now) }
{
    match checked_image(alloc, image) {
        Ok(checked) => {
            let blocks = ImageBytes { bytes: image };
            sound_report(alloc, &blocks, &checked)
        }
        Err(MountFault::Memory) => Err(AllocError),
        Err(fault) => Ok(refused_report(fault)),
    }
}

//! What is printed about an image.
ghost use Rattle.std.specs.Prelude.{◌≡◌, ◌++◌, IfErr, IfOk, OnOk, string_bytes};
ghost use Rattle.hfs_commands.specs.Checks.{HasCheckLines, IsCheckFault, IsCheckStatus, alternate_text, check_lines, check_status, refused_line, sound_lines};
ghost use Rattle.hfs_image.specs.Failing.{SomeReadFails};
ghost use Rattle.hfs_source.specs.Images.{OfEach};

use crate::fault::Status;
use hfs_check::{Alternate, MountFault, Refusal, Report};
use hfs_image::seen_report;
use hfs_source::{PlacedBlocks, SeenBlocks, SparseFault};
use hfs_texts::{Show, push_line};
use std::alloc::{AllocError, Global};

/// The copy of the master directory block compared with the block itself, as its line shows it.
#[derive(Drop)]
struct ShownAlternate(Alternate);

impl Show for ShownAlternate {
    ghost shown = { λ shown. alternate_text shown.0 };

    fn push_to(&self, text: &mut String) -> Result<(), AllocError> {
        match self.0 {
            Alternate::Same => text.push_str("same"),
            Alternate::Differs => text.push_str("differs"),
            Alternate::Missing => text.push_str("missing"),
        }
    }
}

/// The lines of a sound image.
#[tactic(auto, unfolding(crate::specs::Checks::sound_lines))]
fn sound_text(alloc: Global, report: &Report) -> Result<String, AllocError>
    ensures { IfOk result (λ text. string_bytes text ≡ sound_lines report.now) }
{
    let mut text = String::new(alloc);
    text.push_str("sound\n")?;
    push_line(&mut text, "files", report.files)?;
    push_line(&mut text, "folders", report.folders)?;
    push_line(&mut text, "free", report.free)?;
    push_line(&mut text, "alternate", ShownAlternate(report.alternate))?;
    push_line(&mut text, "unowned", report.unowned)?;
    Ok(text)
}

/// The exit status and the line of an image that is refused.
#[tactic(auto, unfolding(crate::specs::Checks::refused_line))]
pub fn refused_text(alloc: Global, why: MountFault) -> Result<(u8, String), AllocError>
    ensures status { IfOk result (λ told. told.0 ≡ 2) }
    ensures lines { IfOk result (λ told. string_bytes told.1 ≡ refused_line why) }
{
    let mut text = String::new(alloc);
    push_line(&mut text, "refused", Refusal(why))?;
    Ok((Status::ImageRefused.number(), text))
}

/// The exit status and the lines of a report.
fn report_text(alloc: Global, report: &Report) -> Result<(u8, String), AllocError>
    ensures status { IfOk result (λ told. told.0 ≡ check_status report.now) }
    ensures lines { IfOk result (λ told. string_bytes told.1 ≡ check_lines report.now) }
{
    match report.fault {
        None => Ok((Status::Done.number(), sound_text(alloc, report)?)),
        Some(why) => refused_text(alloc, why),
    }
}

/// The result of checking an image.
#[derive(Drop)]
pub struct CheckAnswer {
    /// The first fault, in the order of docs/CHECKS.md, if any.
    pub fault: Option<MountFault>,
    /// The exit status: 0, or 2 if there is a fault.
    pub status: u8,
    /// The lines: the counts of a sound volume, or `refused TEXT`.
    pub lines: String,
}

/// What is printed for a report.
pub fn report_answer(alloc: Global, report: &Report) -> Result<CheckAnswer, AllocError>
    ensures fault { IfOk result (λ told. told.fault ≡ report.now.fault) }
    ensures status { IfOk result (λ told. told.status ≡ check_status report.now) }
    ensures lines { IfOk result (λ told. string_bytes told.lines ≡ check_lines report.now) }
{
    let (status, lines) = report_text(alloc, report)?;
    Ok(CheckAnswer {
        fault: report.fault,
        status,
        lines,
    })
}

/// Checks an image, and hands its source back. The answer is that of the report on every image consistent with the bytes read.
/// Only the blocks that the checks need are read. Errors: `ReadFailed` if a read of one of these blocks failed; `Memory` if
/// memory was refused. A fault of the image is no error: the answer has it.
pub fn needed_check_answer<S: PlacedBlocks + Drop>(
    alloc: Global,
    source: SeenBlocks<S>,
) -> Result<(CheckAnswer, SeenBlocks<S>), SparseFault>
    ensures fault { IfOk result (λ t. OfEach (S.Holds t.1.blocks) (IsCheckFault t.0.fault)) }
    ensures status { IfOk result (λ t. OfEach (S.Holds t.1.blocks) (IsCheckStatus t.0.status)) }
    ensures lines { IfOk result (λ t. OfEach (S.Holds t.1.blocks) (HasCheckLines t.0.lines)) }
    ensures narrows { IfOk result (λ t. OfEach (S.Holds t.1.blocks) (S.Holds source.blocks)) }
    ensures failed { IfErr result (λ fault. fault ≡ SparseFault.ReadFailed
        → SomeReadFails (S.Holds source.blocks) (S.Fails source.blocks)) }
{
    let (source, report) = seen_report(alloc, source)?;
    match report_answer(alloc, &report) {
        Ok(told) => Ok((told, source)),
        Err(_) => Err(SparseFault::Memory),
    }
}

//! What is printed about a repair.
ghost use Rattle.std.specs.Prelude.{◌≡◌, IfOk, OnOk, length, string_bytes};
ghost use Rattle.hfs_source.specs.Images.{OfEach};
ghost use Rattle.hfs_texts.specs.Texts.{Gains};
ghost use Rattle.hfs_commands.specs.Repairs.{place_text, fix_text, fixed_line, fixed_lines, repaired_lines, source_of, IsMendedText, TellsRepair};

use crate::checking::refused_text;
use crate::fault::Status;
use crate::patched_image::PatchedImage;
use hfs_check::MountFault;
use hfs_copy::{Mended, mend_needed};
use hfs_source::{BlockSource, SparseFault};
use hfs_space::ChangedBlocks;
use hfs_texts::{Show, push_line};
use hfs_volume::{Fix, FixPlace};
use std::alloc::{AllocError, Global};

/// Appends the name of a number and, for a valence, its folder.
#[tactic(auto, unfolding(crate::specs::Repairs::place_text))]
fn push_place(text: &mut String, place: FixPlace) -> Result<(), AllocError>
    ensures { OnOk result (Gains text.old text.new (place_text place)) }
{
    match place {
        FixPlace::RootFiles => text.push_str("drNmFls"),
        FixPlace::FreeBlocks => text.push_str("drFreeBks"),
        FixPlace::RootFolders => text.push_str("drNmRtDirs"),
        FixPlace::Files => text.push_str("drFilCnt"),
        FixPlace::Folders => text.push_str("drDirCnt"),
        FixPlace::ExtentsRecords => text.push_str("extents bthNRecs"),
        FixPlace::ExtentsFree => text.push_str("extents bthFree"),
        FixPlace::CatalogRecords => text.push_str("catalog bthNRecs"),
        FixPlace::CatalogFree => text.push_str("catalog bthFree"),
        FixPlace::Valence(id) => {
            text.push_str("valence ")?;
            id.push_to(text)
        }
    }
}

/// A number that was mended, as its line shows it.
#[derive(Drop)]
struct ShownFix(Fix);

impl Show for ShownFix {
    ghost shown = { λ shown. fix_text shown.0 };

    #[tactic(auto, unfolding(crate::specs::Repairs::fix_text))]
    fn push_to(&self, text: &mut String) -> Result<(), AllocError> {
        push_place(text, self.0.place)?;
        text.push(' ')?;
        self.0.was.push_to(text)?;
        text.push(' ')?;
        self.0.now.push_to(text)
    }
}

/// Appends the line of a number that was mended.
#[tactic(auto, unfolding(crate::specs::Repairs::fixed_line))]
fn push_fix(text: &mut String, fix: Fix) -> Result<(), AllocError>
    ensures { OnOk result (Gains text.old text.new (fixed_line fix)) }
{
    push_line(text, "fixed", ShownFix(fix))
}

/// Appends a line for each number that was mended.
#[tactic(auto, unfolding(crate::specs::Repairs::fixed_lines))]
fn push_fixes(text: &mut String, fixes: &[Fix]) -> Result<(), AllocError>
    ensures { OnOk result (Gains text.old text.new (fixed_lines fixes.now)) }
{
    for fix in fixes {
        push_fix(text, *fix)?;
    }
    Ok(())
}

/// The lines of a repaired image.
#[tactic(auto, unfolding(crate::specs::Repairs::repaired_lines))]
fn repaired_text(alloc: Global, fixes: &[Fix]) -> Result<String, AllocError>
    ensures { IfOk result (λ text. string_bytes text ≡ repaired_lines fixes.now) }
{
    let mut text = String::new(alloc);
    push_fixes(&mut text, fixes)?;
    text.push_str("sound\n")?;
    Ok(text)
}

/// The status and the lines of a mended image: those of its numbers, or of its fault.
fn mended_text(
    alloc: Global,
    fixes: &[Fix],
    fault: Option<MountFault>,
) -> Result<(u8, String), AllocError>
    ensures { IfOk result (IsMendedText fixes.now fault) }
{
    match fault {
        None => Ok((Status::Done.number(), repaired_text(alloc, fixes)?)),
        Some(why) => refused_text(alloc, why),
    }
}

/// The result of repairing an image that is read on demand, and what is printed about it.
#[derive(Drop)]
pub struct RepairAnswer<S> {
    /// The repaired image, as the contents of a file; or what it was read from, if it is refused.
    pub image: Result<PatchedImage<S>, S>,
    /// The first fault of the repaired image, if any.
    pub fault: Option<MountFault>,
    /// The exit status: 0, or 2 if the image is refused.
    pub status: u8,
    /// The lines: `fixed PLACE WAS NOW` for each number that was wrong and then `sound`, or `refused TEXT`.
    pub lines: String,
}

/// Mends the counts of an image of `len` bytes, of which only the needed blocks are read. The answer holds for every image
/// consistent with the bytes read. The image is read once more when the repaired one is written. Errors: `ReadFailed` if a read
/// of one of these blocks failed, or the source ends before one of them does; `Memory` if memory was refused. A fault of the
/// image is no error: the answer has it.
pub fn repair_answer<S: BlockSource + Drop>(
    alloc: Global,
    source: S,
    len: u64,
) -> Result<RepairAnswer<S>, SparseFault>
    ensures told { IfOk result (λ answer. OfEach (S.Holds (source_of answer.image))
        (λ image. length image ≡ len → TellsRepair image answer.image
        answer.fault answer.status (string_bytes answer.lines))) }
    ensures narrows { IfOk result (λ answer. OfEach (S.Holds (source_of answer.image))
        (S.Holds source)) }
    ensures image { IfOk result (λ answer. S.image (source_of answer.image) ≡ S.image source) }
{
    let mut source = source;
    let Mended {
        patch,
        fixes,
        fault,
    } = mend_needed(alloc, &mut source, len)?;
    let Ok((status, lines)) = mended_text(alloc, &fixes, fault) else {
        return Err(SparseFault::Memory);
    };
    match fault {
        None => {
            let image = PatchedImage {
                alloc,
                source,
                len,
                patch: ChangedBlocks::of_patch(alloc, patch),
            };
            Ok(RepairAnswer {
                image: Ok(image),
                fault: None,
                status,
                lines,
            })
        }
        Some(why) => Ok(RepairAnswer {
            image: Err(source),
            fault: Some(why),
            status,
            lines,
        }),
    }
}

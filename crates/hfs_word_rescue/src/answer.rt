//! What is printed about an image of which something remains.
ghost use Rattle.std.specs.Prelude.{◌≡◌, ◌++◌, ℕ, List, Some, IfOk, OnOk, string_bytes};
ghost use Rattle.hfs_commands.specs.Checks.{IsCheckFault};
ghost use Rattle.hfs_remains_forks.specs.Finds.{IsFoundIn};
ghost use Rattle.hfs_rescue_items.specs.Sums.{AreSums};
ghost use Rattle.hfs_texts.specs.Texts.{Gains};
ghost use Rattle.hfs_word_rescue.specs.Answers.{IsAnswerBy, answer_status, answer_text, check_line, directory_line, found_sums, sums_lines};

use hfs_check::MountFault;
use hfs_commands::{CheckAnswer, Refusal, Status};
use hfs_remains_forks::Finds;
use hfs_rescue_items::{Found, FoundSums, sums_of};
use hfs_texts::push_line;
use std::alloc::{AllocError, Global};

/// What is printed about an image of which something remains.
#[derive(Drop)]
pub struct RescueAnswer {
    /// The exit status: 0 if all files are whole and the catalog is right, else 3.
    pub status: u8,
    /// The image's fault, its directory, and how much remains.
    pub lines: String,
}

/// What was taken or listed of an image.
#[derive(Drop)]
pub struct Rescued {
    pub answer: RescueAnswer,
    /// If it lies in a disk copy, whether that one's sum is right.
    pub sum: Option<bool>,
}

/// Appends the first line of an image's check.
fn push_check(text: &mut String, fault: &Option<MountFault>) -> Result<(), AllocError>
    ensures { OnOk result (Gains text.old text.new (check_line fault.now)) }
{
    match fault {
        None => text.push_str("sound\n"),
        Some(why) => push_line(text, "refused", Refusal(*why)),
    }
}

/// Appends the line of the directory.
fn push_directory(text: &mut String, directory: u32, is_unsure: bool) -> Result<(), AllocError>
    ensures { OnOk result (Gains text.old text.new (directory_line (Some directory) is_unsure)) }
{
    text.push_str("directory ")?;
    write!(text, "{}", directory)?;
    if is_unsure {
        text.push_str(" unsure\n")
    } else {
        text.push_str("\n")
    }
}

/// Appends how much remains.
#[tactic(auto, unfolding(crate::specs::Answers::sums_lines))]
fn push_sums(text: &mut String, sums: &FoundSums) -> Result<(), AllocError>
    ensures { OnOk result (Gains text.old text.new (sums_lines sums.now)) }
{
    push_line(text, "files", sums.files)?;
    push_line(text, "folders", sums.folders)?;
    push_line(text, "bytes", sums.bytes)?;
    push_line(text, "whole", sums.whole)?;
    push_line(text, "damaged", sums.files.saturating_sub(sums.whole))
}

/// The lines of an image of which this much remains.
#[tactic(auto, unfolding(crate::specs::Answers::answer_text))]
fn lines_of(
    alloc: Global,
    check: &CheckAnswer,
    finds: &Finds,
    sums: &FoundSums,
) -> Result<String, AllocError>
    ensures { IfOk result (λ text. string_bytes text ≡ answer_text check.now.fault
        (Some finds.now.directory) finds.now.is_unsure sums.now) }
{
    let mut text = String::new(alloc);
    push_check(&mut text, &check.fault)?;
    push_directory(&mut text, finds.directory, finds.is_unsure)?;
    push_sums(&mut text, sums)?;
    Ok(text)
}

/// The exit status for what remains, given whether the catalog is right.
fn status_of(sums: &FoundSums, is_right: bool) -> u8
    ensures { result ≡ answer_status is_right sums.now }
{
    if sums.whole == sums.files && is_right {
        Status::Done.number()
    } else {
        Status::CallRefused.number()
    }
}

impl RescueAnswer {
    /// What is printed about an image of which this was found. Fails only when out of memory.
    pub(crate) fn of(
        alloc: Global,
        check: &CheckAnswer,
        finds: &Finds,
        found: &Found<'_>,
    ) -> Result<RescueAnswer, AllocError>
        requires { found.now.mdb.now ≡ finds.now.mdb }
        ensures { (image : List ℕ) → IsCheckFault check.now.fault image
            → IsFoundIn image (Some finds.now)
            → IfOk result (λ answer. IsAnswerBy image answer found.now) }
    {
        let sums = sums_of(alloc, found)?;
        let lines = lines_of(alloc, check, finds, &sums)?;
        Ok(RescueAnswer {
            status: status_of(&sums, finds.is_catalog_right),
            lines,
        })
    }
}

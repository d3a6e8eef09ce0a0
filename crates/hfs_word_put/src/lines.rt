//! The lines that are printed about what is put, and about what can't be.
ghost use Rattle.std.specs.Prelude.{◌≡◌, ◌≤◌, ◌+◌, ◌-◌, IfOk, OnOk, length, string_bytes, take, unwrap_or};
ghost use Rattle.hfs_texts.specs.Texts.{Gains};
ghost use Rattle.hfs_word_put.specs.Lines.{item_line, line_at, line_of, lines_of, more_line, put_lines, refusal_line, refused_lines, told_path};

use crate::reason::PutReason;
use hfs_commands::ShownPath;
use hfs_put::RefusedItem;
use hfs_put_sources::SourceItem;
use hfs_texts::{Show, push_line};
use std::alloc::{AllocError, Global};

/// How many items that can't be put have a line of their own.
const MOST_TOLD: usize = 100;

/// How much was put on a volume.
#[derive(Clone, Copy, Debug, PartialEq, Eq)]
pub struct PutSums {
    /// The files that were put.
    pub files: u64,
    /// The folders that were made.
    pub folders: u64,
    /// The bytes of all forks that were put.
    pub bytes: u64,
    /// The allocation blocks that are free afterwards.
    pub free: u32,
}

/// Appends the line of something that has this path and can't be put.
#[tactic(auto, unfolding(crate::specs::Lines::refusal_line))]
fn push_refusal(text: &mut String, path: &str, reason: PutReason) -> Result<(), AllocError>
    ensures { OnOk result (Gains text.old text.new (refusal_line path.now reason)) }
{
    text.push_str("cannot put ")?;
    write!(text, "{}", ShownPath(path))?;
    text.push_str(": ")?;
    reason.push_to(text)?;
    text.push('\n')
}

/// The path of the AppleDouble file that belongs to an item by its name, or else the item's own.
fn double_or_own(item: &SourceItem) -> &str
    ensures { result.now ≡ unwrap_or item.now.double item.now.path }
{
    match item.double() {
        Some(double) => double,
        None => item.path(),
    }
}

/// The path by which an item is reported.
fn told_path(item: &SourceItem, reason: PutReason) -> &str
    ensures { result.now ≡ told_path item.now reason }
{
    match reason {
        PutReason::NotAppleDouble => double_or_own(item),
        PutReason::NotAFile
        | PutReason::TooLarge
        | PutReason::NoName
        | PutReason::TwoOfOneName
        | PutReason::Code(_)
        | PutReason::Digest
        | PutReason::Room { .. }
        | PutReason::Full { .. }
        | PutReason::NameNotText => item.path(),
    }
}

/// Appends the line of an item.
#[tactic(auto, unfolding(crate::specs::Lines::item_line))]
fn push_item(text: &mut String, item: &SourceItem, reason: PutReason) -> Result<(), AllocError>
    ensures { OnOk result (Gains text.old text.new (item_line item.now reason)) }
{
    push_refusal(text, told_path(item, reason), reason)
}

/// Appends the line of the item at a place.
fn push_at(
    text: &mut String,
    items: &[SourceItem],
    place: usize,
    reason: PutReason,
) -> Result<(), AllocError>
    ensures { OnOk result (Gains text.old text.new (line_at items.now place reason)) }
{
    match items.get(place) {
        Some(item) => push_item(text, item, reason),
        None => Ok(()),
    }
}

/// Appends the line of an item that can't be put.
#[tactic(auto, unfolding(crate::specs::Lines::line_of))]
fn push_refused(
    text: &mut String,
    items: &[SourceItem],
    refused: &RefusedItem,
) -> Result<(), AllocError>
    ensures { OnOk result (Gains text.old text.new (line_of items.now refused.now)) }
{
    push_at(text, items, refused.place, PutReason::of(refused.why))
}

/// Appends the lines of items that can't be put.
#[tactic(auto, unfolding(crate::specs::Lines::lines_of))]
fn push_all(
    text: &mut String,
    items: &[SourceItem],
    refused: &[RefusedItem],
) -> Result<(), AllocError>
    ensures { OnOk result (Gains text.old text.new (lines_of items.now refused.now)) }
{
    for one in refused {
        push_refused(text, items, one)?;
    }
    Ok(())
}

/// Appends how many more there are, if any.
#[tactic(auto, unfolding(crate::specs::Lines::more_line))]
fn push_more(text: &mut String, more: usize) -> Result<(), AllocError>
    ensures { OnOk result (Gains text.old text.new (more_line more)) }
{
    if more == 0 {
        return Ok(());
    }
    text.push_str("and ")?;
    write!(text, "{}", more)?;
    text.push_str(" more\n")
}

/// Those of the items that have a line of their own.
fn first_told(refused: &[RefusedItem]) -> &[RefusedItem]
    ensures { result.now ≡ take 100 refused.now }
{
    if refused.len() <= MOST_TOLD {
        refused
    } else {
        &refused[..MOST_TOLD]
    }
}

/// The lines of the items that can't be put: one for each of the first 100, and then how many more there are. Fails only when out
/// of memory.
#[tactic(auto, unfolding(crate::specs::Lines::refused_lines))]
pub fn refused_lines(
    alloc: Global,
    items: &[SourceItem],
    refused: &[RefusedItem],
) -> Result<String, AllocError>
    ensures { IfOk result (λ text. string_bytes text ≡ refused_lines items.now refused.now) }
{
    let mut text = String::new(alloc);
    push_all(&mut text, items, first_told(refused))?;
    push_more(&mut text, refused.len().saturating_sub(MOST_TOLD))?;
    Ok(text)
}

/// The line of the item at a place of a list, which can't be put; empty if there is no such item. Fails only when out of memory.
pub fn line_at(
    alloc: Global,
    items: &[SourceItem],
    place: usize,
    reason: PutReason,
) -> Result<String, AllocError>
    ensures { IfOk result (λ text. string_bytes text ≡ line_at items.now place reason) }
{
    let mut text = String::new(alloc);
    push_at(&mut text, items, place, reason)?;
    Ok(text)
}

/// The line of something that has this path and can't be put. Fails only when out of memory.
pub fn refusal_line(alloc: Global, path: &str, reason: PutReason) -> Result<String, AllocError>
    ensures { IfOk result (λ text. string_bytes text ≡ refusal_line path.now reason) }
{
    let mut text = String::new(alloc);
    push_refusal(&mut text, path, reason)?;
    Ok(text)
}

/// The lines about what was put. Fails only when out of memory.
#[tactic(auto, unfolding(crate::specs::Lines::put_lines))]
pub fn put_lines(alloc: Global, sums: &PutSums) -> Result<String, AllocError>
    ensures { IfOk result (λ text. string_bytes text ≡ put_lines sums.now) }
{
    let mut text = String::new(alloc);
    text.push_str("put\n")?;
    push_line(&mut text, "files", sums.files)?;
    push_line(&mut text, "folders", sums.folders)?;
    push_line(&mut text, "bytes", sums.bytes)?;
    push_line(&mut text, "free", sums.free)?;
    Ok(text)
}

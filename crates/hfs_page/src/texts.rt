//! Texts and numbers of a page.
ghost use Rattle.std.specs.Prelude.{◌≡◌, ◌++◌, OnOk, codes, drop, take};
ghost use Rattle.std.specs.Fmt.{decimal};
ghost use Rattle.hfs_page.specs.Escapes.{escaped};
ghost use Rattle.hfs_page.specs.Pieces.{Gains};
ghost use Rattle.hfs_page.specs.Texts.{date_text, shown, told_date, told_number, told_text};

use crate::escaping::push_escaped;
use crate::pieces::push_bytes;
use hfs_texts::{push_moment, push_plain_text};
use std::alloc::{AllocError, Global};

/// Appends bytes of a volume as text: plain text, escaped.
pub fn push_shown(alloc: Global, page: &mut Vec<u8>, bytes: &[u8]) -> Result<(), AllocError>
    ensures { OnOk result (Gains page.old page.new (shown bytes.now)) }
{
    let mut text = String::new(alloc);
    push_plain_text(&mut text, bytes)?;
    push_escaped(page, text.as_bytes())
}

/// The day of a moment.
fn day_of(moment: &[u8]) -> &[u8]
    ensures { result.now ≡ take 10 moment.now }
{
    &moment[..moment.len().min(10)]
}

/// The time of a moment.
fn time_of(moment: &[u8]) -> &[u8]
    ensures { result.now ≡ drop 11 moment.now }
{
    &moment[moment.len().min(11)..]
}

/// Appends the day of a moment, a blank, and the time.
fn push_day_and_time(page: &mut Vec<u8>, moment: &[u8]) -> Result<(), AllocError>
    ensures { OnOk result (Gains page.old page.new
        (escaped (take 10 moment.now) ++ codes " " ++ escaped (drop 11 moment.now))) }
{
    push_escaped(page, day_of(moment))?;
    push_bytes(page, b" ")?;
    push_escaped(page, time_of(moment))
}

/// Appends a date as YYYY-MM-DD hh:mm:ss; nothing if there is none.
#[tactic(auto, unfolding(crate::specs::Texts::date_text))]
pub fn push_date(alloc: Global, page: &mut Vec<u8>, date: u32) -> Result<(), AllocError>
    ensures { OnOk result (Gains page.old page.new (date_text date)) }
{
    if date == 0 {
        return Ok(());
    }
    let mut text = String::new(alloc);
    push_moment(&mut text, date)?;
    push_day_and_time(page, text.as_bytes())
}

/// Appends a number.
pub(crate) fn push_number(alloc: Global, page: &mut Vec<u8>, number: u64) -> Result<(), AllocError>
    ensures { OnOk result (Gains page.old page.new (decimal number)) }
{
    let mut text = String::new(alloc);
    write!(text, "{number}")?;
    push_bytes(page, text.as_bytes())
}

/// Appends a count or a place.
pub(crate) fn push_count(alloc: Global, page: &mut Vec<u8>, count: usize) -> Result<(), AllocError>
    ensures { OnOk result (Gains page.old page.new (decimal count)) }
{
    let mut text = String::new(alloc);
    write!(text, "{count}")?;
    push_bytes(page, text.as_bytes())
}

/// Appends a text, preceded by what it is.
#[tactic(auto, unfolding(crate::specs::Texts::told_text))]
pub(crate) fn push_told_text(
    alloc: Global,
    page: &mut Vec<u8>,
    label: &[u8],
    bytes: &[u8],
) -> Result<(), AllocError>
    ensures { OnOk result (Gains page.old page.new (told_text label.now bytes.now)) }
{
    push_bytes(page, label)?;
    push_shown(alloc, page, bytes)
}

/// Appends a date, preceded by what it is.
#[tactic(auto, unfolding(crate::specs::Texts::told_date))]
pub(crate) fn push_told_date(
    alloc: Global,
    page: &mut Vec<u8>,
    label: &[u8],
    date: u32,
) -> Result<(), AllocError>
    ensures { OnOk result (Gains page.old page.new (told_date label.now date)) }
{
    push_bytes(page, label)?;
    push_date(alloc, page, date)
}

/// Appends a number, preceded by what it is.
#[tactic(auto, unfolding(crate::specs::Texts::told_number))]
pub fn push_told_number(
    alloc: Global,
    page: &mut Vec<u8>,
    label: &[u8],
    number: u64,
) -> Result<(), AllocError>
    ensures { OnOk result (Gains page.old page.new (told_number label.now number)) }
{
    push_bytes(page, label)?;
    push_number(alloc, page, number)
}

/// Appends a count or a place, preceded by what it is.
#[tactic(auto, unfolding(crate::specs::Texts::told_number))]
pub fn push_told_count(
    alloc: Global,
    page: &mut Vec<u8>,
    label: &[u8],
    count: usize,
) -> Result<(), AllocError>
    ensures { OnOk result (Gains page.old page.new (told_number label.now count)) }
{
    push_bytes(page, label)?;
    push_count(alloc, page, count)
}

//! The verdicts on forks.
ghost use Rattle.std.specs.Prelude.{◌≡◌, IfOk, OnOk, string_bytes};
ghost use Rattle.hfs_page.specs.Escapes.{escaped};
ghost use Rattle.hfs_page.specs.Pieces.{Gains};
ghost use Rattle.hfs_remains_places.specs.Verdicts.{verdict_text};
ghost use Rattle.hfs_remains_forks.specs.Verdicts.{verdicts_at};
ghost use Rattle.hfs_remains_page.specs.Verdicts as spec;

use hfs_page::{push_bytes, push_escaped};
use hfs_remains_places::{Verdict, push_verdict};
use hfs_rescue_items::Found;
use std::alloc::{AllocError, Global};

/// The verdicts on both forks of an item; None for a folder, and if there is no such item.
pub(crate) fn verdicts_of(
    alloc: Global,
    found: &Found<'_>,
    i: usize,
) -> Result<Option<(Verdict, Verdict)>, AllocError>
    ensures { IfOk result (λ verdicts. verdicts ≡ verdicts_at found.now.salvage.now i) }
{
    if i >= found.salvage.len() {
        return Ok(None);
    }
    found.salvage.verdicts(alloc, i)
}

/// Appends the verdict on a fork, escaped.
fn push_said(alloc: Global, page: &mut Vec<u8>, verdict: &Verdict) -> Result<(), AllocError>
    ensures { OnOk result (Gains page.old page.new (escaped (verdict_text verdict.now))) }
{
    let mut text = String::new(alloc);
    push_verdict(alloc, &mut text, verdict)?;
    push_escaped(page, text.as_bytes())
}

/// Appends the verdicts on both forks, at least one of which isn't whole.
#[tactic(auto, unfolding(crate::specs::Verdicts::damaged_text))]
fn push_damaged(
    alloc: Global,
    page: &mut Vec<u8>,
    forks: &(Verdict, Verdict),
) -> Result<(), AllocError>
    ensures { OnOk result (Gains page.old page.new (spec.damaged_text forks.now)) }
{
    push_bytes(page, b"<em class=\"damaged\">data fork ")?;
    push_said(alloc, page, &forks.0)?;
    push_bytes(page, b"; resource fork ")?;
    push_said(alloc, page, &forks.1)?;
    push_bytes(page, b"</em>")
}

/// Appends the verdicts on both forks of a file; nothing for what has none.
pub(crate) fn push_forks(
    alloc: Global,
    page: &mut Vec<u8>,
    forks: &Option<(Verdict, Verdict)>,
) -> Result<(), AllocError>
    ensures { OnOk result (Gains page.old page.new (spec.forks_text forks.now)) }
{
    let Some(forks) = forks else {
        return Ok(());
    };
    if forks.0.is_whole() && forks.1.is_whole() {
        push_bytes(page, b"<em>both forks whole</em>")
    } else {
        push_damaged(alloc, page, forks)
    }
}

/// The URL of a bag, if the data fork with this verdict has a file in it.
pub(crate) fn base_of<'a>(
    base: Option<&'a [u8]>,
    forks: &Option<(Verdict, Verdict)>,
) -> Option<&'a [u8]>
    ensures { result ≡ spec.base_of base.entry forks.now }
{
    match forks {
        None => None,
        Some(forks) => match forks.0 {
            Verdict::Left => None,
            Verdict::Taken(_) => base,
        },
    }
}

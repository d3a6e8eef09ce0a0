//! Verdicts in words.
ghost use Rattle.std.specs.Prelude.{◌≡◌, ◌++◌, map, string_bytes, IfOk, OnOk};
ghost use Rattle.hfs_texts.specs.Gains.{Gains};
ghost use Rattle.hfs_remains_places.specs.Verdicts as spec;

use crate::verdict::{Finding, Verdict};
use std::alloc::{AllocError, Global};

/// Adds that a fork is cut, if it is.
fn push_cut(alloc: Global, words: &mut Vec<String>, cut: Option<u32>) -> Result<(), AllocError>
    ensures { OnOk result (map string_bytes words.new.items ≡ map string_bytes words.old.items
        ++ spec.cut_words cut) }
{
    if let Some(bytes) = cut {
        words.push(format!(in alloc; "cut {bytes}")?)?;
    }
    Ok(())
}

/// Adds how many bytes are missing, if there are any.
fn push_missing(alloc: Global, words: &mut Vec<String>, missing: u32) -> Result<(), AllocError>
    ensures { OnOk result (map string_bytes words.new.items ≡ map string_bytes words.old.items
        ++ spec.missing_words missing) }
{
    if missing != 0 {
        words.push(format!(in alloc; "missing {missing}")?)?;
    }
    Ok(())
}

/// Adds that blocks are shared, if any is.
fn push_shared(alloc: Global, words: &mut Vec<String>, shared: bool) -> Result<(), AllocError>
    ensures { OnOk result (map string_bytes words.new.items ≡ map string_bytes words.old.items
        ++ spec.shared_words shared) }
{
    if shared {
        words.push(String::from_str(alloc, "shared")?)?;
    }
    Ok(())
}

/// The findings on a fork, in a word each.
fn words_of(alloc: Global, finding: &Finding) -> Result<Vec<String>, AllocError>
    ensures { IfOk result (λ words. map string_bytes words.items ≡ spec.words_of finding.now) }
{
    let mut words = Vec::new(alloc);
    push_cut(alloc, &mut words, finding.cut)?;
    push_missing(alloc, &mut words, finding.missing)?;
    push_shared(alloc, &mut words, finding.shared)?;
    Ok(words)
}

/// Words separated by commas, or `whole` if there are none.
fn joined(alloc: Global, words: &[String]) -> Result<String, AllocError>
    ensures { IfOk result (λ text. string_bytes text ≡ spec.text_of_words (map string_bytes
        words.now)) }
{
    if words.is_empty() {
        let whole = String::from_str(alloc, "whole")?;
        return Ok(whole);
    }
    let text = words.join(alloc, ",")?;
    Ok(text)
}

/// Appends the verdict on a fork: `left`; or those of `cut N`, `missing N` and `shared` that hold, separated by commas; or
/// `whole`. Fails only when out of memory; a part of it may have been appended then.
pub fn push_verdict(alloc: Global, text: &mut String, verdict: &Verdict) -> Result<(), AllocError>
    ensures { OnOk result (Gains text.old text.new (spec.verdict_text verdict.now)) }
{
    match verdict {
        Verdict::Left => text.push_str("left"),
        Verdict::Taken(finding) => {
            let words = words_of(alloc, finding)?;
            let said = joined(alloc, &words)?;
            text.push_str(said.as_str())
        }
    }
}

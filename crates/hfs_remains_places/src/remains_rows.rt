//! The table of what remains: a line for each item.
ghost use Rattle.std.specs.Prelude.{OnOk};
ghost use Rattle.hfs_texts.specs.Gains.{Gains};
ghost use Rattle.hfs_remains_places.specs.Verdicts as spec;

use crate::verdict::Verdict;
use crate::words::push_verdict;
use std::alloc::{AllocError, Global};

/// Appends the verdicts on the two forks, data before resources; dashes for a folder, which has none.
fn push_forks(
    alloc: Global,
    text: &mut String,
    forks: &Option<(Verdict, Verdict)>,
) -> Result<(), AllocError>
    ensures { OnOk result (Gains text.old text.new (spec.forks_text forks.now)) }
{
    let Some((data, resource)) = forks else {
        return text.push_str("-\t-");
    };
    push_verdict(alloc, text, data)?;
    text.push('\t')?;
    push_verdict(alloc, text, resource)
}

/// Appends an item's line: its path below the payload, its number, its ID, and the verdicts on its two forks, data before
/// resources (None for a folder), separated by tabs. Fails only when out of memory; a part of the line may have been appended
/// then.
pub fn push_row(
    alloc: Global,
    text: &mut String,
    path: &str,
    number: usize,
    id: u32,
    forks: &Option<(Verdict, Verdict)>,
) -> Result<(), AllocError>
    ensures { OnOk result (Gains text.old text.new (spec.row_text path.now number id forks.now)) }
{
    text.push_str(format!(in alloc; "{path}\t{number}\t{id}\t")?.as_str())?;
    push_forks(alloc, text, forks)?;
    text.push('\n')
}

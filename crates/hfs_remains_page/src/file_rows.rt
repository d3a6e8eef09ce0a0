//! The rows of files.
ghost use Rattle.std.specs.Prelude.{◌≡◌, ◌++◌, IfOk, OnOk, codes};
ghost use Rattle.hfs_page.specs.Pieces.{Gains};
ghost use Rattle.hfs_remains_page.specs.Rows as spec;

use crate::linked_items::LinkedItems;
use crate::row_parts::{push_start, push_when};
use crate::verdicts::{base_of, push_forks, verdicts_of};
use hfs_model::Info;
use hfs_page::{push_bytes, push_link_end, push_link_start, push_shown, push_sizes, push_type};
use hfs_remains_places::Verdict;
use std::alloc::{AllocError, Global};

/// Where a fork lies in a bag, if its item has this path below the payload.
fn bag_path(alloc: Global, path: &[u8]) -> Result<Vec<u8>, AllocError>
    ensures { IfOk result (λ text. text.items ≡ codes "data/" ++ path.now) }
{
    let mut text = Vec::new(alloc);
    push_bytes(&mut text, b"data/")?;
    push_bytes(&mut text, path)?;
    Ok(text)
}

/// Appends a file's name, as a link to its data fork if the URL of a bag that has it is known.
#[tactic(auto, unfolding(crate::specs::Rows::file_name))]
fn push_file_name(
    alloc: Global,
    page: &mut Vec<u8>,
    base: Option<&[u8]>,
    path: &[u8],
    info: &Info,
) -> Result<(), AllocError>
    ensures { OnOk result (Gains page.old page.new (spec.file_name base.entry path.now info.now)) }
{
    let at = bag_path(alloc, path)?;
    push_bytes(page, b"<b>")?;
    push_link_start(alloc, page, base, &at)?;
    push_shown(alloc, page, info.name.bytes())?;
    push_link_end(page, base)?;
    push_bytes(page, b"</b>")
}

/// Appends what is known of a file, and the verdicts on its forks.
#[tactic(auto, unfolding(crate::specs::Rows::file_told))]
fn push_file(
    alloc: Global,
    page: &mut Vec<u8>,
    base: Option<&[u8]>,
    path: &[u8],
    forks: &Option<(Verdict, Verdict)>,
    info: &Info,
) -> Result<(), AllocError>
    ensures { OnOk result (Gains page.old page.new
        (spec.file_told base.entry path.now forks.now info.now)) }
{
    push_file_name(alloc, page, base_of(base, forks), path, info)?;
    push_sizes(alloc, page, info)?;
    push_type(alloc, page, info)?;
    push_when(alloc, page, info.modified)?;
    push_forks(alloc, page, forks)
}

/// Appends the row of item `i`, which is a file with these facts.
#[tactic(auto, unfolding(crate::specs::Rows::file_row))]
pub(crate) fn push_file_row(
    alloc: Global,
    page: &mut Vec<u8>,
    items: &LinkedItems<'_>,
    i: usize,
    info: &Info,
) -> Result<(), AllocError>
    ensures { OnOk result (Gains page.old page.new
        (spec.file_row items.now.base items.now.found.now i info.now)) }
{
    let path = items.found.path(alloc, i)?;
    let forks = verdicts_of(alloc, items.found, i)?;
    push_start(alloc, page, i)?;
    push_file(alloc, page, items.base, path.as_bytes(), &forks, info)?;
    push_bytes(page, b"</li>\n")
}

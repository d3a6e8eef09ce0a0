//! The rows of folders, as trees that open and close.
ghost use Rattle.std.specs.Prelude.{◌≡◌, OnOk};
ghost use Rattle.hfs_page.specs.Items.{items_word, open_by, opening};
ghost use Rattle.hfs_page.specs.Pieces.{Gains};
ghost use Rattle.hfs_remains_page.specs.Rows as spec;

use crate::row_parts::push_when;
use hfs_model::ItemKind;
use hfs_page::{push_bytes, push_shown, push_told_count};
use std::alloc::{AllocError, Global};

/// How many folders are nested at most; what is deeper is listed flat in the last of them.
const MOST_OPEN: usize = 100;

/// How many items something that is in no folder may have if it is open from the start.
const MOST_SHOWN: usize = 1_000;

/// A folder as its row shows it.
#[derive(Clone, Copy)]
pub(crate) struct FolderRow<'a> {
    pub(crate) name: &'a [u8],
    /// How many items were found in it.
    pub(crate) inside: usize,
    /// When it was modified; 0 if it has no date.
    pub(crate) date: u32,
    /// A note on it, as HTML.
    pub(crate) note: &'a [u8],
}

/// Appends the word after a number of items.
fn push_items_word(page: &mut Vec<u8>, count: usize) -> Result<(), AllocError>
    ensures { OnOk result (Gains page.old page.new (items_word count)) }
{
    if count == 1 {
        push_bytes(page, b" item</span>")
    } else {
        push_bytes(page, b" items</span>")
    }
}

/// Appends a folder's name, and how many items were found in it.
#[tactic(auto, unfolding(crate::specs::Rows::folder_name))]
fn push_folder_name(
    alloc: Global,
    page: &mut Vec<u8>,
    name: &[u8],
    inside: usize,
) -> Result<(), AllocError>
    ensures { OnOk result (Gains page.old page.new (spec.folder_name name.now inside)) }
{
    push_bytes(page, b"<b>")?;
    push_shown(alloc, page, name)?;
    push_bytes(page, b"</b>")?;
    push_told_count(alloc, page, b"<span>", inside)?;
    push_items_word(page, inside)
}

/// Appends what is known of a folder, and a note on it.
#[tactic(auto, unfolding(crate::specs::Rows::folder_told))]
fn push_folder(alloc: Global, page: &mut Vec<u8>, row: &FolderRow<'_>) -> Result<(), AllocError>
    ensures { OnOk result (Gains page.old page.new
        (spec.folder_told row.now.name.now row.now.inside row.now.date row.now.note.now)) }
{
    push_folder_name(alloc, page, row.name, row.inside)?;
    push_bytes(page, b"<span>folder</span>")?;
    push_when(alloc, page, row.date)?;
    push_bytes(page, row.note)
}

/// Appends the beginning of a folder that opens and closes. A folder that is in none is open, unless it has so many items that a
/// browser would take seconds to lay them out.
fn push_opening(page: &mut Vec<u8>, depth: usize, inside: usize) -> Result<(), AllocError>
    ensures { OnOk result (Gains page.old page.new (opening depth inside)) }
{
    if depth == 0 && inside <= MOST_SHOWN {
        push_bytes(page, b"<details open><summary>")
    } else {
        push_bytes(page, b"<details><summary>")
    }
}

/// Appends a folder that opens and closes, up to the place of its items.
#[tactic(auto, unfolding(crate::specs::Rows::nested_row))]
fn push_nested(
    alloc: Global,
    page: &mut Vec<u8>,
    start: &[u8],
    depth: usize,
    row: &FolderRow<'_>,
) -> Result<(), AllocError>
    ensures { OnOk result (Gains page.old page.new
        (spec.nested_row start.now depth row.now.name.now row.now.inside row.now.date
        row.now.note.now)) }
{
    push_bytes(page, start)?;
    push_opening(page, depth, row.inside)?;
    push_folder(alloc, page, row)?;
    push_bytes(page, b"</summary><ul>\n")
}

/// Appends a folder that is listed flat, since too many are open above it.
#[tactic(auto, unfolding(crate::specs::Rows::flat_row))]
fn push_flat(
    alloc: Global,
    page: &mut Vec<u8>,
    start: &[u8],
    row: &FolderRow<'_>,
) -> Result<(), AllocError>
    ensures { OnOk result (Gains page.old page.new
        (spec.flat_row start.now row.now.name.now row.now.inside row.now.date
        row.now.note.now)) }
{
    push_bytes(page, start)?;
    push_folder(alloc, page, row)?;
    push_bytes(page, b"</li>\n")
}

/// Appends the row of a folder that is in this many, after the beginning of its element.
pub(crate) fn push_folder_row(
    alloc: Global,
    page: &mut Vec<u8>,
    start: &[u8],
    depth: usize,
    row: &FolderRow<'_>,
) -> Result<(), AllocError>
    ensures { OnOk result (Gains page.old page.new
        (spec.folder_row start.now depth row.now.name.now row.now.inside row.now.date
        row.now.note.now)) }
{
    if depth < MOST_OPEN {
        push_nested(alloc, page, start, depth, row)
    } else {
        push_flat(alloc, page, start, row)
    }
}

/// How many folders are open after a node of this kind that is in this many open ones.
pub(crate) fn opened_by(kind: ItemKind, depth: usize) -> usize
    ensures { result ≡ open_by kind depth }
{
    match kind {
        ItemKind::Folder => { if depth < MOST_OPEN { depth + 1 } else { depth } }
        ItemKind::File => depth,
    }
}

//! The rows of what was found, as a tree that opens and closes.
ghost use Rattle.std.specs.Prelude.{◌≡◌, [], IfOk, OnOk};
ghost use Rattle.hfs_page.specs.Pieces.{Gains};
ghost use Rattle.hfs_rescue_items.specs.Found.{told_at};
ghost use Rattle.hfs_remains_page.specs.Rows as spec;

use crate::added_rows::push_added_row;
use crate::file_rows::push_file_row;
use crate::folder_rows::{FolderRow, opened_by, push_folder_row};
use crate::linked_items::LinkedItems;
use crate::row_parts::push_start;
use crate::steps::Step;
use hfs_model::{Info, ItemKind};
use hfs_page::push_closings;
use hfs_rescue_items::{Found, field_name, told_of};
use std::alloc::{AllocError, Global};

/// The beginning of the row of item `i`.
fn start_of(alloc: Global, i: usize) -> Result<Vec<u8>, AllocError>
    ensures { IfOk result (λ text. text.items ≡ spec.item_start i) }
{
    let mut text = Vec::new(alloc);
    push_start(alloc, &mut text, i)?;
    Ok(text)
}

/// Appends the row of a folder that is an item.
fn push_item_folder(
    alloc: Global,
    page: &mut Vec<u8>,
    depth: usize,
    step: Step,
    info: &Info,
) -> Result<(), AllocError>
    ensures { OnOk result (Gains page.old page.new (spec.folder_row (spec.item_start step.node)
        depth info.now.name step.inside info.now.modified [])) }
{
    let start = start_of(alloc, step.node)?;
    let row = FolderRow {
        name: info.name.bytes(),
        inside: step.inside,
        date: info.modified,
        note: b"",
    };
    push_folder_row(alloc, page, &start, depth, &row)
}

/// Appends the row of an item with these facts.
fn push_info_row(
    alloc: Global,
    page: &mut Vec<u8>,
    items: &LinkedItems<'_>,
    depth: usize,
    step: Step,
    info: &Info,
) -> Result<(), AllocError>
    ensures { OnOk result (Gains page.old page.new
        (spec.info_row info.now.kind items.now.base items.now.found.now depth step info.now)) }
{
    match info.kind {
        ItemKind::Folder => push_item_folder(alloc, page, depth, step, info),
        ItemKind::File => push_file_row(alloc, page, items, step.node, info),
    }
}

/// What an item says about itself; None if there is no such item.
fn told_at(found: &Found<'_>, i: usize) -> Option<Info>
    ensures { result ≡ told_at found.now.items.now i }
{
    match found.items.get(i) {
        Some(item) => told_of(item),
        None => None,
    }
}

/// Appends the row of an item.
fn push_item_row(
    alloc: Global,
    page: &mut Vec<u8>,
    items: &LinkedItems<'_>,
    depth: usize,
    step: Step,
) -> Result<(), AllocError>
    ensures { OnOk result (Gains page.old page.new (spec.item_row items.now.base items.now.found.now
        depth step (told_at items.now.found.now.items.now step.node))) }
{
    match told_at(items.found, step.node) {
        Some(info) => push_info_row(alloc, page, items, depth, step, &info),
        None => Ok(()),
    }
}

/// Appends the row of a node that is in this many open folders.
#[tactic(auto, unfolding(crate::specs::Rows::node_row))]
fn push_node(
    alloc: Global,
    page: &mut Vec<u8>,
    items: &LinkedItems<'_>,
    depth: usize,
    step: Step,
) -> Result<(), AllocError>
    ensures { OnOk result (Gains page.old page.new
        (spec.node_row items.now.base items.now.found.now depth step)) }
{
    let found = items.found;
    if step.node < found.items.len() {
        return push_item_row(alloc, page, items, depth, step);
    }
    let volume = field_name(&found.mdb.volume_name);
    push_added_row(alloc, page, found.places.things(), depth, volume, step)
}

/// Whether something may be in what a node is.
#[tactic(auto, unfolding(crate::specs::Rows::node_kind))]
fn node_kind(found: &Found<'_>, step: Step) -> ItemKind
    ensures { result ≡ spec.node_kind found.now step }
{
    if step.node >= found.items.len() {
        return ItemKind::Folder;
    }
    match told_at(found, step.node) {
        Some(info) => info.kind,
        None => ItemKind::File,
    }
}

/// How many of the open folders a node is in.
fn depth_at(opened: usize, step: Step) -> usize
    ensures { result ≡ spec.depth_at opened step }
{
    opened.min(step.depth)
}

/// How many folders are open after a node, given how many are before it.
pub(crate) fn open_behind(found: &Found<'_>, opened: usize, step: Step) -> usize
    ensures { result ≡ spec.open_behind found.now opened step }
{
    opened_by(node_kind(found, step), depth_at(opened, step))
}

/// Appends the row of a node when this many folders are open: the ends of those that it isn't in, and then itself.
#[tactic(auto, unfolding(crate::specs::Rows::row_text))]
pub(crate) fn push_row(
    alloc: Global,
    page: &mut Vec<u8>,
    items: &LinkedItems<'_>,
    opened: usize,
    step: Step,
) -> Result<(), AllocError>
    ensures { OnOk result (Gains page.old page.new
        (spec.row_text items.now.base items.now.found.now opened step)) }
{
    let depth = depth_at(opened, step);
    push_closings(page, opened.saturating_sub(depth))?;
    push_node(alloc, page, items, depth, step)
}

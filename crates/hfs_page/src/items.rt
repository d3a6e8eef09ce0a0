//! The items of a page, as a tree that opens and closes.
ghost use Rattle.std.specs.Prelude.{◌≡◌, ◌+◌, OnOk, codes};
ghost use Rattle.hfs_page.specs.Pieces.{Gains};
ghost use Rattle.hfs_page.specs.Sizes.{told_size};
ghost use Rattle.hfs_page.specs.Texts.{told_number};
ghost use Rattle.hfs_page.specs.Items.{closings, depth_in, file_name, file_text, flat_text, folder_text, item_text, items_word, leaf_text, modified_text, name_tagged, nested_text, open_behind, opening, row_start, row_text, sizes_text, type_text};

use crate::links::{push_bag_link, push_link_end};
use crate::pieces::push_bytes;
use crate::sizes::push_told_size;
use crate::texts::{push_shown, push_told_date, push_told_number, push_told_text};
use hfs_fields::Name;
use hfs_model::{Info, ItemKind};
use std::alloc::{AllocError, Global};

/// How many folders are nested at most; what is deeper is listed flat in the last of them.
const MOST_OPEN: usize = 100;

/// How many items the root may have if it is open from the start.
const MOST_SHOWN: u32 = 1_000;

/// Appends an item's name.
#[tactic(auto, unfolding(crate::specs::Items::name_tagged))]
fn push_name(alloc: Global, page: &mut Vec<u8>, info: &Info) -> Result<(), AllocError>
    ensures { OnOk result (Gains page.old page.new (name_tagged info.now)) }
{
    push_bytes(page, b"<b>")?;
    push_shown(alloc, page, info.name.bytes())?;
    push_bytes(page, b"</b>")
}

/// Appends when an item was modified, if it has a date.
fn push_modified(alloc: Global, page: &mut Vec<u8>, date: u32) -> Result<(), AllocError>
    ensures { OnOk result (Gains page.old page.new (modified_text date)) }
{
    if date == 0 {
        return Ok(());
    }
    push_told_date(alloc, page, b"<span>", date)?;
    push_bytes(page, b"\n(modified)</span>")
}

/// Appends the word after a number of items.
pub fn push_items_word(page: &mut Vec<u8>, count: u32) -> Result<(), AllocError>
    ensures { OnOk result (Gains page.old page.new (items_word count)) }
{
    if count == 1 {
        push_bytes(page, b" item</span>")
    } else {
        push_bytes(page, b" items</span>")
    }
}

/// Appends what is known of a folder.
#[tactic(auto, unfolding(crate::specs::Items::folder_text))]
fn push_folder(alloc: Global, page: &mut Vec<u8>, info: &Info) -> Result<(), AllocError>
    ensures { OnOk result (Gains page.old page.new (folder_text info.now)) }
{
    push_name(alloc, page, info)?;
    push_told_number(alloc, page, b"<span>", u64::from(info.valence))?;
    push_items_word(page, info.valence)?;
    push_bytes(page, b"<span>folder</span>")?;
    push_modified(alloc, page, info.modified)
}

/// Appends how many bytes both forks of a file have together.
fn push_both(alloc: Global, page: &mut Vec<u8>, info: &Info) -> Result<(), AllocError>
    ensures { OnOk result (Gains page.old page.new
        (told_size (codes "<span>") (info.now.data_len + info.now.res_len))) }
{
    let bytes = u64::from(info.data_len) + u64::from(info.res_len);
    push_told_size(alloc, page, b"<span>", bytes)
}

/// Appends how many bytes a fork has, preceded by which fork it is.
fn push_fork(alloc: Global, page: &mut Vec<u8>, label: &[u8], bytes: u32) -> Result<(), AllocError>
    ensures { OnOk result (Gains page.old page.new (told_number label.now bytes)) }
{
    push_told_number(alloc, page, label, u64::from(bytes))
}

/// Appends how many bytes the forks of a file have, together and each.
pub fn push_sizes(alloc: Global, page: &mut Vec<u8>, info: &Info) -> Result<(), AllocError>
    ensures { OnOk result (Gains page.old page.new (sizes_text info.now)) }
{
    push_both(alloc, page, info)?;
    push_fork(alloc, page, b"\n(data fork ", info.data_len)?;
    push_fork(alloc, page, b" bytes, resource fork ", info.res_len)?;
    push_bytes(page, b" bytes)</span>")
}

/// Appends a file's type and creator.
#[tactic(auto, unfolding(crate::specs::Items::type_text))]
pub fn push_type(alloc: Global, page: &mut Vec<u8>, info: &Info) -> Result<(), AllocError>
    ensures { OnOk result (Gains page.old page.new (type_text info.now)) }
{
    push_told_text(alloc, page, b"<span>", &info.finder[..4])?;
    push_told_text(alloc, page, b" ", &info.finder[4..8])?;
    push_bytes(page, b"\n(type, creator)</span>")
}

/// Appends a file's name, as a link to the file if the URL of a bag is known.
#[tactic(auto, unfolding(crate::specs::Items::file_name))]
fn push_file_name(
    alloc: Global,
    page: &mut Vec<u8>,
    base: Option<&[u8]>,
    path: &[Name],
    info: &Info,
) -> Result<(), AllocError>
    ensures { OnOk result (Gains page.old page.new (file_name base.entry path.now info.now)) }
{
    push_bytes(page, b"<b>")?;
    push_bag_link(alloc, page, base, path)?;
    push_shown(alloc, page, info.name.bytes())?;
    push_link_end(page, base)?;
    push_bytes(page, b"</b>")
}

/// Appends what is known of a file.
#[tactic(auto, unfolding(crate::specs::Items::file_text))]
fn push_file(
    alloc: Global,
    page: &mut Vec<u8>,
    base: Option<&[u8]>,
    path: &[Name],
    info: &Info,
) -> Result<(), AllocError>
    ensures { OnOk result (Gains page.old page.new (file_text base.entry path.now info.now)) }
{
    push_file_name(alloc, page, base, path, info)?;
    push_sizes(alloc, page, info)?;
    push_type(alloc, page, info)?;
    push_modified(alloc, page, info.modified)
}

/// Appends the ends of `count` folders.
#[tactic(auto, unfolding(crate::specs::Items::closings))]
pub fn push_closings(page: &mut Vec<u8>, count: usize) -> Result<(), AllocError>
    ensures { OnOk result (Gains page.old page.new (closings count)) }
{
    let mut left = count;
    while left > 0 {
        push_bytes(page, b"</ul></details></li>\n")?;
        left -= 1;
    }
    Ok(())
}

/// Appends the beginning of an item's element, with the item's ID.
#[tactic(auto, unfolding(crate::specs::Items::row_start))]
fn push_row_start(alloc: Global, page: &mut Vec<u8>, info: &Info) -> Result<(), AllocError>
    ensures { OnOk result (Gains page.old page.new (row_start info.now)) }
{
    push_told_number(alloc, page, b"<li id=\"i", u64::from(info.id))?;
    push_bytes(page, b"\">")
}

/// Appends the beginning of a folder of `valence` items that opens and closes. The root, which is in no folder, is open, unless
/// it has so many that a browser would take seconds to lay them out.
pub fn push_opening(page: &mut Vec<u8>, depth: usize, valence: u32) -> Result<(), AllocError>
    ensures { OnOk result (Gains page.old page.new (opening depth valence)) }
{
    if depth == 0 && valence <= MOST_SHOWN {
        push_bytes(page, b"<details open><summary>")
    } else {
        push_bytes(page, b"<details><summary>")
    }
}

/// Appends a folder that opens and closes, up to the place of its children.
#[tactic(auto, unfolding(crate::specs::Items::nested_text))]
fn push_nested(
    alloc: Global,
    page: &mut Vec<u8>,
    depth: usize,
    info: &Info,
) -> Result<(), AllocError>
    ensures { OnOk result (Gains page.old page.new (nested_text depth info.now)) }
{
    push_row_start(alloc, page, info)?;
    push_opening(page, depth, info.valence)?;
    push_folder(alloc, page, info)?;
    push_bytes(page, b"</summary><ul>\n")
}

/// Appends a folder that is listed flat, since too many are open above it.
#[tactic(auto, unfolding(crate::specs::Items::flat_text))]
fn push_flat(alloc: Global, page: &mut Vec<u8>, info: &Info) -> Result<(), AllocError>
    ensures { OnOk result (Gains page.old page.new (flat_text info.now)) }
{
    push_row_start(alloc, page, info)?;
    push_folder(alloc, page, info)?;
    push_bytes(page, b"</li>\n")
}

/// Appends a file.
#[tactic(auto, unfolding(crate::specs::Items::leaf_text))]
fn push_leaf(
    alloc: Global,
    page: &mut Vec<u8>,
    base: Option<&[u8]>,
    path: &[Name],
    info: &Info,
) -> Result<(), AllocError>
    ensures { OnOk result (Gains page.old page.new (leaf_text base.entry path.now info.now)) }
{
    push_row_start(alloc, page, info)?;
    push_file(alloc, page, base, path, info)?;
    push_bytes(page, b"</li>\n")
}

/// Appends an item that is in this many folders: all of a file, and of a folder what comes before its children.
#[tactic(auto, unfolding(crate::specs::Items::item_text))]
fn push_item(
    alloc: Global,
    page: &mut Vec<u8>,
    base: Option<&[u8]>,
    path: &[Name],
    depth: usize,
    info: &Info,
) -> Result<(), AllocError>
    ensures { OnOk result (Gains page.old page.new (item_text base.entry path.now depth info.now)) }
{
    match info.kind {
        ItemKind::Folder => {
            if depth < MOST_OPEN {
                push_nested(alloc, page, depth, info)
            } else {
                push_flat(alloc, page, info)
            }
        }
        ItemKind::File => push_leaf(alloc, page, base, path, info),
    }
}

/// How many folders are open after an item that is in this many open ones.
pub(crate) fn open_behind(depth: usize, info: &Info) -> usize
    ensures { result ≡ open_behind depth info.now }
{
    match info.kind {
        ItemKind::Folder => { if depth < MOST_OPEN { depth + 1 } else { depth } }
        ItemKind::File => depth,
    }
}

/// How many of the open folders the item is in that these names lead to.
pub(crate) fn depth_in(opened: usize, path: &[Name]) -> usize
    ensures { result ≡ depth_in opened path.now }
{
    opened.min(path.len().saturating_sub(1))
}

/// Appends the row of the item that these names lead to, when this many folders are open: the ends of those that it isn't in, and
/// then the item.
#[tactic(auto, unfolding(crate::specs::Items::row_text))]
pub(crate) fn push_row(
    alloc: Global,
    page: &mut Vec<u8>,
    base: Option<&[u8]>,
    opened: usize,
    path: &[Name],
    info: &Info,
) -> Result<(), AllocError>
    ensures { OnOk result (Gains page.old page.new (row_text base.entry opened path.now info.now)) }
{
    let depth = depth_in(opened, path);
    push_closings(page, opened.saturating_sub(depth))?;
    push_item(alloc, page, base, path, depth, info)
}

//! The fields of a row.
ghost use Rattle.std.specs.Prelude.{◌≡◌, OnOk, List, ℕ};
ghost use Rattle.std.specs.Fmt.{decimal};
ghost use Rattle.hfs_texts.specs.Gains.{Gains};
ghost use Rattle.hfs_table.specs.Cells.{cell_text, characters, flag, number};
ghost use Rattle.hfs_table.specs.Columns.{cell, kind_word, of_file, of_folder};
ghost use Rattle.hfs_table.specs.Lines.{field_text};

use crate::column::Column;
use hfs_fields::Name;
use hfs_model::{Info, ItemKind};
use hfs_texts::{push_hex, push_mac_path, push_moment, push_plain_text};
use itoa::Buffer;
use std::alloc::AllocError;

/// How many bytes most rows take, so that a row's text grows once.
pub(crate) const USUAL: usize = 512;

/// The kind of an item, in a word.
pub(crate) fn kind_word(kind: ItemKind) -> &'static str
    ensures { result.now ≡ kind_word kind }
{
    match kind {
        ItemKind::Folder => "folder",
        ItemKind::File => "file",
    }
}

fn push_number(text: &mut String, number: u32) -> Result<(), AllocError>
    ensures { OnOk result (Gains text.old text.new (decimal number)) }
{
    let mut buffer = Buffer::new();
    text.push_str(buffer.format(number))
}

/// Appends the characters of bytes, for a file only.
fn push_of_file(text: &mut String, kind: ItemKind, bytes: &[u8]) -> Result<(), AllocError>
    ensures { OnOk result (Gains text.old text.new (cell_text (of_file kind (characters bytes.now)))) }
{
    match kind {
        ItemKind::Folder => Ok(()),
        ItemKind::File => push_plain_text(text, bytes),
    }
}

/// Appends a flag in a word, for a file only.
fn push_flag(text: &mut String, kind: ItemKind, is_set: bool) -> Result<(), AllocError>
    ensures { OnOk result (Gains text.old text.new (cell_text (of_file kind (flag is_set)))) }
{
    match kind {
        ItemKind::Folder => Ok(()),
        ItemKind::File => text.push_str(if is_set { "yes" } else { "no" }),
    }
}

/// Appends a number, for a file only.
fn push_length(text: &mut String, kind: ItemKind, length: u32) -> Result<(), AllocError>
    ensures { OnOk result (Gains text.old text.new (cell_text (of_file kind (number length)))) }
{
    match kind {
        ItemKind::Folder => Ok(()),
        ItemKind::File => push_number(text, length),
    }
}

/// Appends a number, for a folder only.
fn push_valence(text: &mut String, kind: ItemKind, valence: u32) -> Result<(), AllocError>
    ensures { OnOk result (Gains text.old text.new (cell_text (of_folder kind (number valence)))) }
{
    match kind {
        ItemKind::Folder => push_number(text, valence),
        ItemKind::File => Ok(()),
    }
}

/// Appends the text of a column's field.
#[tactic(auto, using(crate::proofs::Dates::date_text))]
pub(crate) fn push_field(
    text: &mut String,
    column: Column,
    names: &[Name],
    info: &Info,
) -> Result<(), AllocError>
    ensures { OnOk result (Gains text.old text.new (field_text names.now info.now column)) }
{
    match column {
        Column::Path => push_mac_path(text, names),
        Column::Kind => text.push_str(kind_word(info.kind)),
        Column::Id => push_number(text, info.id),
        Column::Parent => push_number(text, info.parent),
        Column::Type => push_of_file(text, info.kind, &info.finder[..4]),
        Column::Creator => push_of_file(text, info.kind, &info.finder[4..8]),
        Column::Flags => push_hex(text, &info.finder[8..10]),
        Column::Locked => push_flag(text, info.kind, info.locked),
        Column::FileId => push_flag(text, info.kind, info.has_id),
        Column::Created => push_moment(text, info.created),
        Column::Modified => push_moment(text, info.modified),
        Column::Backup => push_moment(text, info.backup),
        Column::Items => push_valence(text, info.kind, info.valence),
        Column::DataBytes => push_length(text, info.kind, info.data_len),
        Column::ResourceBytes => push_length(text, info.kind, info.res_len),
        Column::Finder => push_hex(text, &info.finder),
    }
}

//! The values of an item's row.
ghost use Rattle.std.specs.Prelude.{◌≡◌, ◌++◌, [], ◌∷◌, OnOk, IfOk, string_bytes};
ghost use Rattle.hfs_database.specs.declared.value.RowValue.TheVariants.{Text};
ghost use Rattle.hfs_table.specs.Cells.{characters, flag, number, path, word};
ghost use Rattle.hfs_table.specs.Columns.{kind_word, of_file, of_folder};
ghost use Rattle.hfs_table.specs.Lines.{bag_path};
ghost use Rattle.hfs_word_collect.specs.Values.{cell_value};
ghost use Rattle.hfs_word_collect.specs.Items.{date_values, fork_values, fork_verdict, item_values, mark_values, place_values, size_values};

use crate::digests::ForkDigests;
use crate::values::{
    push_empty, push_hex_value, push_moment_value, push_number, push_plain_value, push_text,
    push_value, push_whole_text,
};
use hfs_database::RowValue;
use hfs_fields::Name;
use hfs_model::{Info, ItemKind};
use hfs_table::push_bag_path;
use hfs_texts::push_mac_path;
use std::alloc::{AllocError, Global};

/// Appends the Mac path by these names.
pub(crate) fn push_path(
    alloc: Global,
    values: &mut Vec<RowValue>,
    names: &[Name],
) -> Result<(), AllocError>
    ensures { OnOk result (values.new.items ≡ values.old.items
        ++ cell_value (path names.now) ∷ []) }
{
    let mut text = String::new(alloc);
    push_mac_path(&mut text, names)?;
    push_text(values, text)
}

/// Appends the path below the payload in a bag.
fn push_below_payload(
    alloc: Global,
    values: &mut Vec<RowValue>,
    names: &[Name],
) -> Result<(), AllocError>
    ensures { OnOk result (values.new.items ≡ values.old.items ++ Text (bag_path names.now) ∷ []) }
{
    let mut text = String::new(alloc);
    push_bag_path(&mut text, names)?;
    push_whole_text(values, text)
}

/// Appends the word for the kind of an item.
pub(crate) fn push_kind(
    alloc: Global,
    values: &mut Vec<RowValue>,
    kind: ItemKind,
) -> Result<(), AllocError>
    ensures { OnOk result (values.new.items ≡ values.old.items
        ++ cell_value (word (kind_word kind)) ∷ []) }
{
    let word = match kind {
        ItemKind::Folder => "folder",
        ItemKind::File => "file",
    };
    push_text(values, String::from_str(alloc, word)?)
}

/// Appends number, paths, kind, ID and parent.
#[tactic(auto, unfolding(crate::specs::Items::place_values))]
fn push_place(
    alloc: Global,
    values: &mut Vec<RowValue>,
    number: u64,
    names: &[Name],
    info: &Info,
) -> Result<(), AllocError>
    ensures { OnOk result (values.new.items ≡ values.old.items
        ++ place_values number names.now info.now) }
{
    push_number(values, number)?;
    push_path(alloc, values, names)?;
    push_below_payload(alloc, values, names)?;
    push_kind(alloc, values, info.kind)?;
    push_number(values, u64::from(info.id))?;
    push_number(values, u64::from(info.parent))
}

/// Appends characters, for a file only.
pub(crate) fn push_of_file(
    alloc: Global,
    values: &mut Vec<RowValue>,
    kind: ItemKind,
    bytes: &[u8],
) -> Result<(), AllocError>
    ensures { OnOk result (values.new.items ≡ values.old.items
        ++ cell_value (of_file kind (characters bytes.now)) ∷ []) }
{
    match kind {
        ItemKind::Folder => push_empty(values),
        ItemKind::File => push_plain_value(alloc, values, bytes),
    }
}

/// Appends a flag, for a file only.
pub(crate) fn push_flag(
    values: &mut Vec<RowValue>,
    kind: ItemKind,
    is_set: bool,
) -> Result<(), AllocError>
    ensures { OnOk result (values.new.items ≡ values.old.items
        ++ cell_value (of_file kind (flag is_set)) ∷ []) }
{
    match kind {
        ItemKind::Folder => push_empty(values),
        ItemKind::File => push_number(values, if is_set { 1 } else { 0 }),
    }
}

/// Appends a number, for a file only.
pub(crate) fn push_length(
    values: &mut Vec<RowValue>,
    kind: ItemKind,
    length: u32,
) -> Result<(), AllocError>
    ensures { OnOk result (values.new.items ≡ values.old.items
        ++ cell_value (of_file kind (number length)) ∷ []) }
{
    match kind {
        ItemKind::Folder => push_empty(values),
        ItemKind::File => push_number(values, u64::from(length)),
    }
}

/// Appends a number, for a folder only.
fn push_valence(values: &mut Vec<RowValue>, kind: ItemKind, valence: u32) -> Result<(), AllocError>
    ensures { OnOk result (values.new.items ≡ values.old.items
        ++ cell_value (of_folder kind (number valence)) ∷ []) }
{
    match kind {
        ItemKind::Folder => push_number(values, u64::from(valence)),
        ItemKind::File => push_empty(values),
    }
}

/// Appends type, creator, flags, locked and file ID.
#[tactic(auto, unfolding(crate::specs::Items::mark_values))]
fn push_marks(alloc: Global, values: &mut Vec<RowValue>, info: &Info) -> Result<(), AllocError>
    ensures { OnOk result (values.new.items ≡ values.old.items ++ mark_values info.now) }
{
    push_of_file(alloc, values, info.kind, &info.finder[..4])?;
    push_of_file(alloc, values, info.kind, &info.finder[4..8])?;
    push_hex_value(alloc, values, &info.finder[8..10])?;
    push_flag(values, info.kind, info.locked)?;
    push_flag(values, info.kind, info.has_id)
}

/// Appends the moments.
#[tactic(auto, unfolding(crate::specs::Items::date_values))]
pub(crate) fn push_dates(
    alloc: Global,
    values: &mut Vec<RowValue>,
    info: &Info,
) -> Result<(), AllocError>
    ensures { OnOk result (values.new.items ≡ values.old.items ++ date_values info.now) }
{
    push_moment_value(alloc, values, info.created)?;
    push_moment_value(alloc, values, info.modified)?;
    push_moment_value(alloc, values, info.backup)
}

/// Appends the number of items, the lengths of both forks, and the Finder's bytes.
#[tactic(auto, unfolding(crate::specs::Items::size_values))]
fn push_sizes(alloc: Global, values: &mut Vec<RowValue>, info: &Info) -> Result<(), AllocError>
    ensures { OnOk result (values.new.items ≡ values.old.items ++ size_values info.now) }
{
    push_valence(values, info.kind, info.valence)?;
    push_length(values, info.kind, info.data_len)?;
    push_length(values, info.kind, info.res_len)?;
    push_hex_value(alloc, values, &info.finder)
}

/// Appends the verdict on a fork, for a file only.
fn push_verdict(alloc: Global, values: &mut Vec<RowValue>, kind: ItemKind) -> Result<(), AllocError>
    ensures { OnOk result (values.new.items ≡ values.old.items ++ fork_verdict kind ∷ []) }
{
    match kind {
        ItemKind::Folder => push_empty(values),
        ItemKind::File => push_whole_text(values, String::from_str(alloc, "whole")?),
    }
}

/// Appends the digests of both forks, and the verdicts on them.
#[tactic(auto, unfolding(crate::specs::Items::fork_values))]
fn push_forks(
    alloc: Global,
    values: &mut Vec<RowValue>,
    kind: ItemKind,
    digests: ForkDigests,
) -> Result<(), AllocError>
    ensures { OnOk result (values.new.items ≡ values.old.items
        ++ fork_values kind digests.data_fork digests.resource_fork) }
{
    let ForkDigests {
        data_fork,
        resource_fork,
    } = digests;
    push_value(values, data_fork)?;
    push_value(values, resource_fork)?;
    push_verdict(alloc, values, kind)?;
    push_verdict(alloc, values, kind)
}

/// The values of the row of the item that these names lead to.
#[tactic(auto, unfolding(crate::specs::Items::item_values))]
pub(crate) fn item_values(
    alloc: Global,
    number: u64,
    names: &[Name],
    info: &Info,
    digests: ForkDigests,
) -> Result<Vec<RowValue>, AllocError>
    ensures { IfOk result (λ values. values.items
        ≡ item_values number names.now info.now digests.data_fork digests.resource_fork) }
{
    let mut values = Vec::new(alloc);
    push_place(alloc, &mut values, number, names, info)?;
    push_marks(alloc, &mut values, info)?;
    push_dates(alloc, &mut values, info)?;
    push_sizes(alloc, &mut values, info)?;
    push_forks(alloc, &mut values, info.kind, digests)?;
    Ok(values)
}

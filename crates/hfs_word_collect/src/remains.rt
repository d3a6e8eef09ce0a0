//! The values of the row of an item that remains of a refused volume.
ghost use Rattle.std.specs.Prelude.{◌≡◌, ◌++◌, IfOk, OnOk, string_bytes};
ghost use Rattle.hfs_word_collect.specs.Items.{date_values};
ghost use Rattle.hfs_word_collect.specs.Remains.{remains_forks, remains_marks, remains_place, remains_sizes, remains_values};

use crate::items::{push_dates, push_flag, push_kind, push_length, push_of_file, push_path};
use crate::values::{push_empty, push_hex_value, push_number, push_value, push_whole_text};
use hfs_database::RowValue;
use hfs_fields::Name;
use hfs_model::Info;
use std::alloc::{AllocError, Global};

/// What a row says about a fork.
#[derive(Drop)]
pub(crate) struct ForkTold {
    /// The digest of the bytes that are taken of it.
    pub(crate) digest: RowValue,
    /// The verdict on the fork.
    pub(crate) verdict: RowValue,
    /// Whether nothing is wrong with it.
    pub(crate) is_whole: bool,
}

/// Appends number, the Mac path by these names, the path below the payload, kind, ID and parent.
#[tactic(auto, unfolding(crate::specs::Remains::remains_place))]
fn push_place(
    alloc: Global,
    values: &mut Vec<RowValue>,
    number: u64,
    names: &[Name],
    path: String,
    info: &Info,
) -> Result<(), AllocError>
    ensures { OnOk result (values.new.items ≡ values.old.items
        ++ remains_place number names.now (string_bytes path) info.now) }
{
    push_number(values, number)?;
    push_path(alloc, values, names)?;
    push_whole_text(values, path)?;
    push_kind(alloc, values, info.kind)?;
    push_number(values, u64::from(info.id))?;
    push_number(values, u64::from(info.parent))
}

/// Appends type, creator, flags and locked; whether there is a file ID isn't looked for.
#[tactic(auto, unfolding(crate::specs::Remains::remains_marks))]
fn push_marks(alloc: Global, values: &mut Vec<RowValue>, info: &Info) -> Result<(), AllocError>
    ensures { OnOk result (values.new.items ≡ values.old.items ++ remains_marks info.now) }
{
    push_of_file(alloc, values, info.kind, &info.finder[..4])?;
    push_of_file(alloc, values, info.kind, &info.finder[4..8])?;
    push_hex_value(alloc, values, &info.finder[8..10])?;
    push_flag(values, info.kind, info.locked)?;
    push_empty(values)
}

/// Appends the lengths of both forks and the Finder's bytes; how many items a folder has isn't given.
#[tactic(auto, unfolding(crate::specs::Remains::remains_sizes))]
fn push_sizes(alloc: Global, values: &mut Vec<RowValue>, info: &Info) -> Result<(), AllocError>
    ensures { OnOk result (values.new.items ≡ values.old.items ++ remains_sizes info.now) }
{
    push_empty(values)?;
    push_length(values, info.kind, info.data_len)?;
    push_length(values, info.kind, info.res_len)?;
    push_hex_value(alloc, values, &info.finder)
}

/// Appends the digests of both forks, and the verdicts on them.
#[tactic(auto, unfolding(crate::specs::Remains::remains_forks))]
fn push_forks(
    values: &mut Vec<RowValue>,
    data_fork: ForkTold,
    resource_fork: ForkTold,
) -> Result<(), AllocError>
    ensures { OnOk result (values.new.items ≡ values.old.items
        ++ remains_forks data_fork resource_fork) }
{
    push_value(values, data_fork.digest)?;
    push_value(values, resource_fork.digest)?;
    push_value(values, data_fork.verdict)?;
    push_value(values, resource_fork.verdict)
}

/// The values of the row of an item that remains, with this number, the names that lead to it, and its path below the payload.
#[tactic(auto, unfolding(crate::specs::Remains::remains_values))]
pub(crate) fn remains_values(
    alloc: Global,
    number: u64,
    names: &[Name],
    path: String,
    info: &Info,
    data_fork: ForkTold,
    resource_fork: ForkTold,
) -> Result<Vec<RowValue>, AllocError>
    ensures { IfOk result (λ values. values.items
        ≡ remains_values number names.now (string_bytes path) info.now data_fork resource_fork) }
{
    let mut values = Vec::new(alloc);
    push_place(alloc, &mut values, number, names, path, info)?;
    push_marks(alloc, &mut values, info)?;
    push_dates(alloc, &mut values, info)?;
    push_sizes(alloc, &mut values, info)?;
    push_forks(&mut values, data_fork, resource_fork)?;
    Ok(values)
}

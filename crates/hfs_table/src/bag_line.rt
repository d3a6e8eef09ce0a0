//! A row in the table of a bag: in CSV, with the path below the payload as the last field.
ghost use Rattle.std.specs.Prelude.{◌≡◌, ◌++◌, OnOk};
ghost use Rattle.hfs_texts.specs.Gains.{Gains};
ghost use Rattle.hfs_table.specs.Lines.{bag_end, bag_head, bag_line, bag_path, csv_fields, own_bag_line, own_fields};

use crate::cells::USUAL;
use crate::csv_line::{push_csv_field, push_csv_fields, push_own_fields};
use hfs_fields::Name;
use hfs_model::Info;
use hfs_texts::push_host_path;
use std::alloc::{AllocError, Global};

/// Appends the head of a bag's table: the names of its columns. At an error, a part of it may have been appended.
#[tactic(auto, unfolding(crate::specs::Lines::bag_head, crate::specs::Columns::columns))]
pub fn push_bag_head(text: &mut Vec<u8>) -> Result<(), AllocError>
    ensures { OnOk result (text.new.items ≡ text.old.items ++ bag_head) }
{
    text.extend_from_slice(b"path,kind,id,parent,type,creator,flags,locked,file_id,")?;
    text.extend_from_slice(b"created,modified,backup,items,data_bytes,resource_bytes,finder")?;
    text.extend_from_slice(b",bag_path\r\n")
}

/// Appends the last field, the path below the payload, and the line's end.
#[tactic(auto, unfolding(crate::specs::Lines::bag_end))]
fn push_bag_end(text: &mut Vec<u8>, path: &str) -> Result<(), AllocError>
    ensures { OnOk result (text.new.items ≡ text.old.items ++ bag_end path.now) }
{
    text.extend_from_slice(b",")?;
    push_csv_field(text, path.as_bytes())?;
    text.extend_from_slice(b"\r\n")
}

/// Appends where an item lies in the bag of a sound volume, from the names that lead to it, starting with the root's.
pub fn push_bag_path(text: &mut String, names: &[Name]) -> Result<(), AllocError>
    ensures { OnOk result (Gains text.old text.new (bag_path names.now)) }
{
    match names {
        [] => push_host_path(text, names),
        [_, below @ ..] => push_host_path(text, below),
    }
}

/// Appends the row of an item of a sound volume, from the names that lead to it, starting with the root's. At an error, a part of
/// it may have been appended.
pub fn push_bag_row(
    alloc: Global,
    text: &mut Vec<u8>,
    names: &[Name],
    info: &Info,
) -> Result<(), AllocError>
    ensures { OnOk result (text.new.items ≡ text.old.items ++ bag_line names.now info.now) }
{
    let mut path = String::with_capacity(alloc, USUAL)?;
    push_bag_path(&mut path, names)?;
    push_csv_fields(alloc, text, names, info)?;
    push_bag_end(text, path.as_str())
}

/// Appends the row of an item of which only its own record is known, with this path below the payload. Whether it has a thread
/// and how many items are in it stay empty, and so does the Mac path if no names lead to it. At an error, a part of the row may
/// have been appended.
pub fn push_own_bag_row(
    alloc: Global,
    text: &mut Vec<u8>,
    names: &[Name],
    info: &Info,
    path: &str,
) -> Result<(), AllocError>
    ensures { OnOk result (text.new.items
        ≡ text.old.items ++ own_bag_line names.now info.now path.now) }
{
    push_own_fields(alloc, text, names, info)?;
    push_bag_end(text, path)
}

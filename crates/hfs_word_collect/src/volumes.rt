//! The values of a volume's row.
ghost use Rattle.std.specs.Prelude.{◌≡◌, ◌++◌, [], ◌∷◌, IfOk, OnOk, string_bytes};
ghost use Rattle.hfs_database.specs.declared.value.RowValue.TheVariants.{Text};
ghost use Rattle.hfs_commands.specs.Volumes.{container_text, name_text};
ghost use Rattle.hfs_texts.specs.Texts.{Gains};
ghost use Rattle.hfs_word_collect.specs.Values.{text_value};
ghost use Rattle.hfs_word_collect.specs.Volumes.{block_values, directory_values, name_values, no_directory, other_mode_text, others_text, place_text, range_values, verdict_text, volume_values, way_text};

use crate::places::{VolumePlace, Way};
use crate::values::{
    push_empty, push_moment_value, push_number, push_plain_value, push_whole_text,
};
use hfs_check::{MountFault, Refusal};
use hfs_database::RowValue;
use hfs_fields::Mdb;
use hfs_source::Container;
use hfs_texts::Show;
use std::alloc::{AllocError, Global};

/// How a range lies in its file, in a word.
fn container_word(container: Container) -> &'static str
    ensures { result.now ≡ container_text container }
{
    match container {
        Container::Bare => "bare",
        Container::MacBinary => "macbinary",
        Container::DiskCopy { .. } => "disk copy",
        Container::Partition => "partition",
        Container::RawBare => "raw 2352 bare",
        Container::RawPartition => "raw 2352 partition",
    }
}

/// How a volume lies in its file, in a word.
fn way_word(way: Way) -> &'static str
    ensures { result.now ≡ way_text way }
{
    match way {
        Way::Found(container) => container_word(container),
        Way::WrongSum => "disk copy, sum wrong",
        Way::Lost => "lost",
    }
}

/// Appends how many raw sectors have no user data.
fn push_other_mode(text: &mut String, others: u64) -> Result<(), AllocError>
    ensures { OnOk result (Gains text.old text.new (other_mode_text others)) }
{
    text.push_str(", other mode ")?;
    write!(text, "{}", others)
}

/// Appends how many raw sectors have no user data, if any.
#[tactic(auto, unfolding(crate::specs::Volumes::others_text))]
fn push_others(text: &mut String, others: u64) -> Result<(), AllocError>
    ensures { OnOk result (Gains text.old text.new (others_text others)) }
{
    if others == 0 {
        return Ok(());
    }
    push_other_mode(text, others)
}

/// How a volume lies in its file, and how many raw sectors have no user data.
fn place_text(alloc: Global, place: &VolumePlace) -> Result<String, AllocError>
    ensures { IfOk result (λ text. string_bytes text ≡ place_text place.now) }
{
    let mut text = String::from_str(alloc, way_word(place.way))?;
    push_others(&mut text, place.others)?;
    Ok(text)
}

/// Appends the number, how it lies in the file, first byte and length.
#[tactic(auto, unfolding(crate::specs::Volumes::range_values))]
fn push_range(
    alloc: Global,
    values: &mut Vec<RowValue>,
    place: &VolumePlace,
) -> Result<(), AllocError>
    ensures { OnOk result (values.new.items ≡ values.old.items ++ range_values place.now) }
{
    push_number(values, place.number)?;
    push_whole_text(values, place_text(alloc, place)?)?;
    push_number(values, place.range.start)?;
    push_number(values, place.range.len)
}

/// Appends the plain text of a name, from its field with a length byte and characters.
#[tactic(auto, unfolding(hfs_commands::specs::Volumes::name_text))]
fn push_name(alloc: Global, values: &mut Vec<RowValue>, name: &[u8]) -> Result<(), AllocError>
    ensures { OnOk result (values.new.items ≡ values.old.items
        ++ text_value (name_text name.now) ∷ []) }
{
    match name {
        [] => push_empty(values),
        [len, characters @ ..] => {
            let len = characters.len().min(usize::from(*len));
            push_plain_value(alloc, values, &characters[..len])
        }
    }
}

/// Appends name and moments.
#[tactic(auto, unfolding(crate::specs::Volumes::name_values))]
fn push_names(alloc: Global, values: &mut Vec<RowValue>, mdb: &Mdb) -> Result<(), AllocError>
    ensures { OnOk result (values.new.items ≡ values.old.items ++ name_values mdb.now) }
{
    push_name(alloc, values, &mdb.volume_name)?;
    push_moment_value(alloc, values, mdb.created)?;
    push_moment_value(alloc, values, mdb.modified)?;
    push_moment_value(alloc, values, mdb.backup)
}

/// Appends blocks, their bytes and the free ones.
#[tactic(auto, unfolding(crate::specs::Volumes::block_values))]
fn push_blocks(values: &mut Vec<RowValue>, mdb: &Mdb) -> Result<(), AllocError>
    ensures { OnOk result (values.new.items ≡ values.old.items ++ block_values mdb.now) }
{
    push_number(values, u64::from(mdb.allocation_blocks))?;
    push_number(values, u64::from(mdb.allocation_block_size))?;
    push_number(values, u64::from(mdb.free_blocks))
}

/// Appends that there is no directory to describe.
#[tactic(auto, unfolding(crate::specs::Volumes::no_directory))]
fn push_no_directory(values: &mut Vec<RowValue>) -> Result<(), AllocError>
    ensures { OnOk result (values.new.items ≡ values.old.items ++ no_directory) }
{
    push_empty(values)?;
    push_empty(values)?;
    push_empty(values)?;
    push_empty(values)?;
    push_empty(values)?;
    push_empty(values)?;
    push_empty(values)
}

/// Appends what the directory says.
fn push_directory(
    alloc: Global,
    values: &mut Vec<RowValue>,
    directory: &Option<Mdb>,
) -> Result<(), AllocError>
    ensures { OnOk result (values.new.items ≡ values.old.items
        ++ directory_values directory.now) }
{
    match directory {
        Some(mdb) => {
            push_names(alloc, values, mdb)?;
            push_blocks(values, mdb)
        }
        None => push_no_directory(values),
    }
}

/// The verdict.
fn verdict_text(alloc: Global, fault: Option<MountFault>) -> Result<String, AllocError>
    ensures { IfOk result (λ text. string_bytes text ≡ verdict_text fault) }
{
    match fault {
        None => String::from_str(alloc, "sound"),
        Some(why) => {
            let mut text = String::new(alloc);
            Refusal(why).push_to(&mut text)?;
            Ok(text)
        }
    }
}

/// The values of a volume's row, from its fault and its directory, if any.
#[tactic(auto, unfolding(crate::specs::Volumes::volume_values))]
pub(crate) fn volume_values(
    alloc: Global,
    place: &VolumePlace,
    fault: Option<MountFault>,
    directory: &Option<Mdb>,
) -> Result<Vec<RowValue>, AllocError>
    ensures { IfOk result (λ values. values.items
        ≡ volume_values place.now fault directory.now) }
{
    let mut values = Vec::new(alloc);
    push_range(alloc, &mut values, place)?;
    push_directory(alloc, &mut values, directory)?;
    push_whole_text(&mut values, verdict_text(alloc, fault)?)?;
    Ok(values)
}

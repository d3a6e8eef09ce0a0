//! What is printed about the volumes in a file.
ghost use Rattle.std.specs.Prelude.{◌≡◌, ◌++◌, IfOk, OnOk, string_bytes};
ghost use Rattle.std.specs.Option.{option_map};
ghost use Rattle.hfs_source.specs.Images.{FailsWhere, OfEach};
ghost use Rattle.hfs_texts.specs.Texts.{Gains};
ghost use Rattle.hfs_commands.specs.Volumes.{container_text, line_of, lines_from, missing_field, name_field, name_text, others_field, place_fields, sum_field, volume_line, volume_lines};

use hfs_source::{
    Container, FoundRange, Layout, PlacedBytes, SparseFault, find_in_layout, sum_told, volume_name,
};
use hfs_texts::push_plain_text;
use std::alloc::{AllocError, Global};

/// Appends how a range lies in its file.
fn push_container(text: &mut String, container: Container) -> Result<(), AllocError>
    ensures { OnOk result (Gains text.old text.new (container_text container)) }
{
    match container {
        Container::Bare => text.push_str("bare"),
        Container::MacBinary => text.push_str("macbinary"),
        Container::DiskCopy { .. } => text.push_str("disk copy"),
        Container::Partition => text.push_str("partition"),
        Container::RawBare => text.push_str("raw 2352 bare"),
        Container::RawPartition => text.push_str("raw 2352 partition"),
    }
}

/// Appends the plain text of a name, from its field with a length byte and characters.
#[tactic(auto, unfolding(crate::specs::Volumes::name_text))]
fn push_name(text: &mut String, name: &[u8]) -> Result<(), AllocError>
    ensures { OnOk result (Gains text.old text.new (name_text name.now)) }
{
    match name {
        [] => Ok(()),
        [len, characters @ ..] => {
            let len = characters.len().min(usize::from(*len));
            push_plain_text(text, &characters[..len])
        }
    }
}

/// Appends the name of a volume, if there is one.
fn push_name_field(text: &mut String, name: &Option<[u8; 28]>) -> Result<(), AllocError>
    ensures { OnOk result (Gains text.old text.new (name_field name.now)) }
{
    match name {
        Some(name) => push_name(text, name),
        None => Ok(()),
    }
}

/// Appends whether the sum is right, if there is one.
fn push_sum_field(text: &mut String, sum: Option<bool>) -> Result<(), AllocError>
    ensures { OnOk result (Gains text.old text.new (sum_field sum)) }
{
    match sum {
        Some(true) => text.push_str("\tsum right"),
        Some(false) => text.push_str("\tsum wrong"),
        None => Ok(()),
    }
}

/// Appends that there is no volume, if there is none.
fn push_missing_field(text: &mut String, name: &Option<[u8; 28]>) -> Result<(), AllocError>
    ensures { OnOk result (Gains text.old text.new (missing_field name.now)) }
{
    match name {
        Some(_) => Ok(()),
        None => text.push_str("\tno volume"),
    }
}

/// Appends how many raw sectors have no user data, if any.
#[tactic(auto, unfolding(crate::specs::Volumes::others_field))]
fn push_others_field(text: &mut String, others: u64) -> Result<(), AllocError>
    ensures { OnOk result (Gains text.old text.new (others_field others)) }
{
    if others == 0 {
        return Ok(());
    }
    text.push_str("\tother mode ")?;
    write!(text, "{}", others)
}

/// Appends a range's number, how it lies in the file, its first byte and how many bytes it has.
#[tactic(auto, unfolding(crate::specs::Volumes::place_fields))]
fn push_place(text: &mut String, number: u64, found: &FoundRange) -> Result<(), AllocError>
    ensures { OnOk result (Gains text.old text.new (place_fields number found.now)) }
{
    write!(text, "{}", number)?;
    text.push('\t')?;
    push_container(text, found.container)?;
    text.push('\t')?;
    write!(text, "{}", found.range.start)?;
    text.push('\t')?;
    write!(text, "{}", found.range.len)
}

/// Appends the line of a range, with the name of its volume, whether its sum is right, and how many raw sectors have no user
/// data.
#[tactic(auto, unfolding(crate::specs::Volumes::volume_line))]
fn push_volume_line(
    text: &mut String,
    number: u64,
    found: &FoundRange,
    name: &Option<[u8; 28]>,
    sum: Option<bool>,
    others: u64,
) -> Result<(), AllocError>
    ensures { OnOk result (Gains text.old text.new (volume_line number found.now name.now sum others)) }
{
    push_place(text, number, found)?;
    text.push('\t')?;
    push_name_field(text, name)?;
    push_sum_field(text, sum)?;
    push_missing_field(text, name)?;
    push_others_field(text, others)?;
    text.push('\n')
}

/// Appends the line of a range of a file.
fn push_line_of<S: PlacedBytes>(
    text: &mut String,
    source: &mut S,
    others: u64,
    number: u64,
    found: &FoundRange,
) -> Result<(), SparseFault>
    ensures line { OnOk result (OfEach (S.Holds source.new)
        (λ file. Gains text.old text.new (line_of others number found.now file))) }
    ensures held { OfEach (S.Holds source.new) (S.Holds source.old) }
    ensures later { FailsWhere (S.Fails source.new) (S.Fails source.old) }
{
    let name = volume_name(source, found.range)?;
    let sum = sum_told(source, found)?;
    match push_volume_line(text, number, found, &name, sum, others) {
        Ok(()) => Ok(()),
        Err(_) => Err(SparseFault::Memory),
    }
}

/// Appends the lines of these ranges, with numbers from 1 on.
fn push_lines<S: PlacedBytes>(
    text: &mut String,
    source: &mut S,
    others: u64,
    ranges: &[FoundRange],
) -> Result<(), SparseFault>
    ensures lines { OnOk result (OfEach (S.Holds source.new)
        (λ file. Gains text.old text.new (lines_from others 1 ranges.now file))) }
    ensures held { OfEach (S.Holds source.new) (S.Holds source.old) }
    ensures later { FailsWhere (S.Fails source.new) (S.Fails source.old) }
{
    for i in 0..ranges.len() {
        push_line_of(text, source, others, i as u64 + 1, &ranges[i])?;
    }
    Ok(())
}

/// The lines of the volumes in a file, or in its user data, counted from 1. Each has the number,
/// how the volume lies in the file, its first byte, its length in bytes and the plain text of its name, separated by tabs; then,
/// if they apply, whether a disk copy's sum is right, that there is no volume in the range, and how many raw sectors have no user
/// data. None if there is no line. Errors: a read failed, memory was refused.
pub fn volume_lines<S: PlacedBytes>(
    alloc: Global,
    source: &mut S,
    layout: Layout,
    others: u64,
) -> Result<Option<String>, SparseFault>
    ensures told { IfOk result (λ told. OfEach (S.Holds source.new)
        (λ file. option_map string_bytes told ≡ volume_lines layout others file)) }
    ensures held { OfEach (S.Holds source.new) (S.Holds source.old) }
    ensures later { FailsWhere (S.Fails source.new) (S.Fails source.old) }
{
    let ranges = find_in_layout(alloc, source, layout)?;
    if ranges.is_empty() {
        return Ok(None);
    }
    let mut text = String::new(alloc);
    push_lines(&mut text, source, others, &ranges)?;
    Ok(Some(text))
}

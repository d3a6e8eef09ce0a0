//! What a bag says about the image that it was taken from.
ghost use Rattle.std.specs.Prelude.{◌≡◌, ◌++◌, IfOk, MatchResult, OnOk, string_bytes};
ghost use Rattle.hfs_commands.specs.Volumes.{container_text, name_text};
ghost use Rattle.hfs_word_take.specs.SourceFaults.{WantsMemory};
ghost use Rattle.hfs_texts.specs.PlainTexts.{plain_text};
ghost use Rattle.hfs_texts.specs.Reading.{info_text};
ghost use Rattle.hfs_texts.specs.Texts.{Gains};
ghost use Rattle.hfs_word_take.specs.Facts.{image_name, told_missing, told_name, told_others, told_sum, volume_text};

use hfs_bag::SourceFault;
use hfs_commands::ShownPath;
use hfs_source::{Container, FoundRange};
use hfs_texts::{InfoFault, push_plain_text, run_info};
use std::alloc::{AllocError, Global};
use std::path::Path;

/// The last part of a path, as paths are printed.
pub fn image_name(alloc: Global, path: &str) -> Result<String, AllocError>
    ensures { IfOk result (λ text. string_bytes text ≡ image_name path.now) }
{
    let last = Path::new(path).file_name().unwrap_or(path);
    format!(in alloc; "{}", ShownPath(last))
}

/// Appends how a range lies in its file.
fn push_container(text: &mut String, container: Container) -> Result<(), AllocError>
    ensures { OnOk result (Gains text.old text.new (container_text container)) }
{
    match container {
        Container::Bare => text.push_str("bare"),
        Container::MacBinary => text.push_str("macbinary"),
        Container::DiskCopy { .. } => text.push_str("disk copy"),
        Container::Partition => text.push_str("partition"),
        Container::RawBare => text.push_str("raw 2352 bare"),
        Container::RawPartition => text.push_str("raw 2352 partition"),
    }
}

/// Appends the plain text of a name, from its field with a length byte and characters.
#[tactic(auto, unfolding(hfs_commands::specs::Volumes::name_text))]
fn push_name(text: &mut String, name: &[u8]) -> Result<(), AllocError>
    ensures { OnOk result (Gains text.old text.new (name_text name.now)) }
{
    match name {
        [] => Ok(()),
        [len, characters @ ..] => {
            let len = characters.len().min(usize::from(*len));
            push_plain_text(text, &characters[..len])
        }
    }
}

/// Appends the name of a volume, if there is one.
fn push_told_name(text: &mut String, name: &Option<[u8; 28]>) -> Result<(), AllocError>
    ensures { OnOk result (Gains text.old text.new (told_name name.now)) }
{
    match name {
        Some(name) => push_name(text, name),
        None => Ok(()),
    }
}

/// Appends whether the sum is right, if there is one.
fn push_told_sum(text: &mut String, sum: Option<bool>) -> Result<(), AllocError>
    ensures { OnOk result (Gains text.old text.new (told_sum sum)) }
{
    match sum {
        Some(true) => text.push_str(" sum right"),
        Some(false) => text.push_str(" sum wrong"),
        None => Ok(()),
    }
}

/// Appends that there is no volume, if there is none.
fn push_told_missing(text: &mut String, name: &Option<[u8; 28]>) -> Result<(), AllocError>
    ensures { OnOk result (Gains text.old text.new (told_missing name.now)) }
{
    match name {
        Some(_) => Ok(()),
        None => text.push_str(" no volume"),
    }
}

/// Appends how many raw sectors have no user data, if any.
#[tactic(auto, unfolding(crate::specs::Facts::told_others))]
fn push_told_others(text: &mut String, others: u64) -> Result<(), AllocError>
    ensures { OnOk result (Gains text.old text.new (told_others others)) }
{
    if others == 0 {
        return Ok(());
    }
    text.push_str(" other mode ")?;
    write!(text, "{}", others)
}

/// The line of a volume in its file: number, how it lies there, first byte, length in bytes, the plain text of its name, whether
/// its sum is right, and how many raw sectors have no user data, separated by spaces.
#[tactic(auto, unfolding(crate::specs::Facts::volume_text))]
pub(crate) fn volume_text(
    alloc: Global,
    number: u64,
    found: &FoundRange,
    name: &Option<[u8; 28]>,
    sum: Option<bool>,
    others: u64,
) -> Result<String, AllocError>
    ensures { IfOk result (λ text. string_bytes text
        ≡ volume_text number found.now name.now sum others) }
{
    let mut text = String::new(alloc);
    write!(text, "{}", number)?;
    text.push(' ')?;
    push_container(&mut text, found.container)?;
    text.push(' ')?;
    write!(text, "{}", found.range.start)?;
    text.push(' ')?;
    write!(text, "{}", found.range.len)?;
    text.push(' ')?;
    push_told_name(&mut text, name)?;
    push_told_sum(&mut text, sum)?;
    push_told_missing(&mut text, name)?;
    push_told_others(&mut text, others)?;
    Ok(text)
}

/// The plain text of a name.
pub fn plain_name(alloc: Global, name: &[u8]) -> Result<String, AllocError>
    ensures { IfOk result (λ text. string_bytes text ≡ plain_text name.now) }
{
    let mut text = String::new(alloc);
    push_plain_text(&mut text, name)?;
    Ok(text)
}

/// The lines of the master directory block in the first 1,536 bytes of a volume.
fn info_bytes(alloc: Global, head: &[u8; 1536]) -> Result<Vec<u8>, InfoFault>
    ensures { IfOk result (λ lines. lines.items ≡ info_text head.now) }
{
    let mut lines = Vec::new(alloc);
    run_info(alloc, &mut head.as_slice(), &mut lines)?;
    Ok(lines)
}

/// The lines of the master directory block in the first 1,536 bytes of a volume, and after them those of its check. The only
/// fault is running out of memory.
pub fn report_text(
    alloc: Global,
    head: &[u8; 1536],
    check_lines: &str,
) -> Result<String, SourceFault>
    ensures { MatchResult result (λ text. string_bytes text ≡ info_text head.now ++ check_lines.now)
        WantsMemory }
{
    let Ok(mut lines) = info_bytes(alloc, head) else {
        return Err(SourceFault::Memory);
    };
    let Ok(()) = lines.extend_from_slice(check_lines.as_bytes()) else {
        return Err(SourceFault::Memory);
    };
    match String::from_utf8(lines) {
        Ok(text) => Ok(text),
        Err(_) => Err(SourceFault::Memory),
    }
}

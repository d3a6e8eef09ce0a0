//! The lines of a plain volume: one of its own, and one for each item in the order of the IDs.

ghost use Rattle.std.specs.Prelude.{◌≡◌, OnOk};
ghost use Rattle.hex.specs.Hex.{encode_lower};
ghost use Rattle.hfs_plain.specs.Lines.{field, file_fields, flag_field, fork_fields, head_fields, item_line, item_lines, kind_fields, letter_field, lock_text, own_line, volume_text};
ghost use Rattle.hfs_texts.specs.Texts.{Gains};

use hfs_model::{Content, File, Item, Kind};
use hfs_store::PlainVolume;
use hfs_texts::Show;
use sha2::{Digest, Sha256};
use std::alloc::{AllocError, Global};

/// Appends a value and a tab.
#[tactic(auto, unfolding(crate::specs::Lines::field))]
fn push_field<S: Show + Drop>(value: S, text: &mut String) -> Result<(), AllocError>
    ensures { OnOk result (Gains text.old text.new (field (S.shown value))) }
{
    value.push_to(text)?;
    text.push('\t')
}

/// Appends bytes as hexadecimal digits, and a tab.
#[tactic(auto, unfolding(crate::specs::Lines::field))]
fn push_digits(alloc: Global, bytes: &[u8], text: &mut String) -> Result<(), AllocError>
    ensures { OnOk result (Gains text.old text.new (field (encode_lower bytes.now))) }
{
    text.push_str(hex::encode(alloc, bytes)?.as_str())?;
    text.push('\t')
}

#[tactic(auto, unfolding(crate::specs::Lines::flag_field))]
fn push_flag(flag: bool, text: &mut String) -> Result<(), AllocError>
    ensures { OnOk result (Gains text.old text.new (flag_field flag)) }
{
    if flag {
        text.push_str("yes\t")
    } else {
        text.push_str("no\t")
    }
}

/// Appends the length and the digest of a fork.
#[tactic(auto, unfolding(crate::specs::Lines::fork_fields))]
fn push_fork(alloc: Global, content: &Content, text: &mut String) -> Result<(), AllocError>
    ensures { OnOk result (Gains text.old text.new (fork_fields content.now)) }
{
    let bytes = content.as_slice();
    push_field(bytes.len() as u64, text)?;
    push_digits(alloc, &Sha256::digest(bytes), text)
}

#[tactic(auto, unfolding(crate::specs::Lines::file_fields))]
fn push_file(alloc: Global, file: &File, text: &mut String) -> Result<(), AllocError>
    ensures { OnOk result (Gains text.old text.new (file_fields file.now)) }
{
    push_digits(alloc, &file.kept, text)?;
    push_flag(file.locked, text)?;
    push_flag(file.has_thread, text)?;
    push_fork(alloc, &file.data, text)?;
    push_fork(alloc, &file.resource, text)
}

/// Appends what only a folder or only a file has.
#[tactic(auto, unfolding(crate::specs::Lines::kind_fields))]
fn push_kind(alloc: Global, kind: &Kind, text: &mut String) -> Result<(), AllocError>
    ensures { OnOk result (Gains text.old text.new (kind_fields kind.now)) }
{
    match kind {
        Kind::Folder { kept } => {
            push_digits(alloc, kept, text)?;
            text.push_str("-\t-\t-\t-\t-\t-\t")
        }
        Kind::File(file) => push_file(alloc, file, text),
    }
}

#[tactic(auto, unfolding(crate::specs::Lines::letter_field))]
fn push_letter(kind: &Kind, text: &mut String) -> Result<(), AllocError>
    ensures { OnOk result (Gains text.old text.new (letter_field kind.now)) }
{
    match kind {
        Kind::Folder { .. } => text.push_str("d\t"),
        Kind::File(_) => text.push_str("f\t"),
    }
}

/// Appends an item's numbers.
#[tactic(auto, unfolding(crate::specs::Lines::head_fields))]
fn push_head(entry: &(u32, Item), text: &mut String) -> Result<(), AllocError>
    ensures { OnOk result (Gains text.old text.new (head_fields entry.now)) }
{
    push_field(entry.0, text)?;
    push_field(entry.1.parent, text)?;
    push_letter(&entry.1.kind, text)?;
    push_field(entry.1.created, text)?;
    push_field(entry.1.modified, text)?;
    push_field(entry.1.backup, text)
}

/// Appends an item's line.
#[tactic(auto, unfolding(crate::specs::Lines::item_line))]
fn push_item(alloc: Global, entry: &(u32, Item), text: &mut String) -> Result<(), AllocError>
    ensures { OnOk result (Gains text.old text.new (item_line entry.now)) }
{
    push_head(entry, text)?;
    push_digits(alloc, &entry.1.finder, text)?;
    push_kind(alloc, &entry.1.kind, text)?;
    entry.1.name.push_to(text)?;
    text.push('\n')
}

/// Appends the lines of items.
#[tactic(auto, unfolding(crate::specs::Lines::item_lines))]
fn push_items(alloc: Global, items: &[(u32, Item)], text: &mut String) -> Result<(), AllocError>
    ensures { OnOk result (Gains text.old text.new (item_lines items.now)) }
{
    for entry in items {
        push_item(alloc, entry, text)?;
    }
    Ok(())
}

/// Appends the word of a lock, if it is set.
#[tactic(auto, unfolding(crate::specs::Lines::lock_text))]
fn push_lock(word: &str, is_set: bool, text: &mut String) -> Result<(), AllocError>
    ensures { OnOk result (Gains text.old text.new (lock_text word.now is_set)) }
{
    if is_set {
        text.push_str(word)
    } else {
        text.push('-')
    }
}

/// Appends the volume's own line.
#[tactic(auto, unfolding(crate::specs::Lines::own_line, crate::specs::Lines::field))]
fn push_own(plain: &PlainVolume, text: &mut String) -> Result<(), AllocError>
    ensures { OnOk result (Gains text.old text.new (own_line plain.now)) }
{
    text.push_str("volume\t")?;
    push_field(plain.next_id(), text)?;
    push_field(plain.changed(), text)?;
    push_lock("hardware", plain.is_hardware_locked(), text)?;
    text.push('\t')?;
    push_lock("software", plain.is_software_locked(), text)?;
    text.push('\n')
}

/// Appends all lines of a volume.
pub fn push_volume(alloc: Global, plain: &PlainVolume, text: &mut String) -> Result<(), AllocError>
    ensures { OnOk result (Gains text.old text.new (volume_text plain.now)) }
{
    push_own(plain, text)?;
    push_items(alloc, plain.entries(), text)
}

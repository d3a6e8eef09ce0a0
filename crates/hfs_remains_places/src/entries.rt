//! Entries: the name of a thing in its folder.
ghost use Rattle.std.specs.Prelude.{◌≡◌, ◌+◌, ◌<◌, ◌++◌, map, take, length, if◌then◌else◌, IfOk, OnOk, string_bytes};
ghost use Rattle.std.specs.Char as char;
ghost use Rattle.hfs_texts.specs.HostNames.{host_name};
ghost use Rattle.hfs_remains_places.specs.Folders.{thing_at};
ghost use Rattle.hfs_remains_places.specs.Entries as spec;

use crate::row_sets::Rows;
use crate::things::Thing;
use hfs_texts::host_name;
use std::alloc::{AllocError, Global};

/// Bytes in lower case.
fn lowered(alloc: Global, bytes: &[u8]) -> Result<Vec<u8>, AllocError>
    ensures { IfOk result (λ row. row.items ≡ map char.to_ascii_lowercase bytes.now) }
{
    let mut row = Vec::new(alloc);
    for byte in bytes {
        row.push(byte.to_ascii_lowercase())?;
    }
    Ok(row)
}

/// The number of a thing's parent and its host name, in lower case.
#[tactic(auto, unfolding(crate::specs::Entries::entry_row))]
fn entry_row(alloc: Global, thing: &Thing) -> Result<Vec<u8>, AllocError>
    ensures { IfOk result (λ row. row.items ≡ spec.entry_row thing.now) }
{
    let parent = thing.parent;
    let name = host_name(alloc, thing.name.bytes())?;
    let text = format!(in alloc; "{parent}/{name}")?;
    lowered(alloc, text.as_bytes())
}

/// Appends what distinguishes a thing at this place from one with the same name.
#[tactic(auto, unfolding(crate::specs::Entries::suffix))]
fn suffix(alloc: Global, place: usize, thing: &Thing) -> Result<String, AllocError>
    ensures { IfOk result (λ text. string_bytes text ≡ spec.suffix place thing.now) }
{
    if thing.named {
        let number = thing.folder.unwrap_or(0);
        format!(in alloc; "=t{number}")
    } else {
        format!(in alloc; "=r{place}")
    }
}

/// The entry of a thing at this place; `again` says whether an earlier thing has its row.
fn entry_text(alloc: Global, place: usize, thing: &Thing, again: bool) -> Result<String, AllocError>
    ensures { IfOk result (λ text. string_bytes text ≡ if again then host_name thing.now.name
        ++ spec.suffix place thing.now else host_name thing.now.name) }
{
    let mut text = host_name(alloc, thing.name.bytes())?;
    if again {
        let behind = suffix(alloc, place, thing)?;
        text.push_str(behind.as_str())?;
    }
    Ok(text)
}

/// The entry of the thing at a place. The rows are those of the things before it, to which its own is added.
fn next_entry(
    alloc: Global,
    things: &[Thing],
    place: usize,
    rows: &mut Rows,
) -> Result<String, AllocError>
    requires within { place < length things.now }
    requires known { spec.KnowsRows rows.old (take place things.now) }
    ensures entry { IfOk result (λ text. string_bytes text ≡ spec.entry_behind
        (take place things.now) (thing_at things.now place)) }
    ensures known { OnOk result (spec.KnowsRows rows.new (take (place + 1) things.now)) }
{
    let thing = &things[place];
    let row = entry_row(alloc, thing)?;
    let again = rows.has(&row);
    rows.add(row)?;
    let text = entry_text(alloc, place, thing, again)?;
    Ok(text)
}

/// The entries of things, in order. Fails only when out of memory.
#[tactic(auto, unfolding(crate::specs::Entries::entries_of))]
pub(crate) fn entries_of(alloc: Global, things: &[Thing]) -> Result<Vec<String>, AllocError>
    ensures entries { IfOk result (λ entries. map string_bytes entries.items ≡ spec.entries_of
        things.now) }
    ensures all { IfOk result (λ entries. length entries.items ≡ length things.now) }
{
    let mut rows = Rows::new(alloc);
    let mut entries = Vec::new(alloc);
    for place in 0..things.len() {
        let entry = next_entry(alloc, things, place, &mut rows)?;
        entries.push(entry)?;
    }
    Ok(entries)
}

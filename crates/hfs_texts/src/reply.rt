//! The text of an answer.
ghost use Rattle.std.specs.Prelude.{◌≡◌, ◌++◌, IfOk, OnOk, codes, length, string_bytes};
ghost use Rattle.std.specs.Fmt.{decimal};
ghost use Rattle.hfs_texts.specs.Answers.{bytes_text, flag_text, item_text, kind_text, listed_item, listed_items, place_text, reply_text, size_text, spaced, value_text};
ghost use Rattle.hfs_texts.specs.Lines.{item_name_character, item_name_text};
ghost use Rattle.hfs_texts.specs.Texts.{Gains};

use crate::text::{Hex, Show, push_hex_byte};
use hfs_fields::Name;
use hfs_model::{Info, ItemKind, Reply, Value};
use std::alloc::{AllocError, Global};

/// A flag, as 0 or 1.
#[derive(Drop)]
struct Flag(bool);

impl Show for Flag {
    ghost shown = { λ flag. flag_text flag.0 };

    fn push_to(&self, text: &mut String) -> Result<(), AllocError> {
        if self.0 {
            text.push('1')
        } else {
            text.push('0')
        }
    }
}

impl Show for ItemKind {
    ghost shown = { kind_text };

    fn push_to(&self, text: &mut String) -> Result<(), AllocError> {
        match self {
            ItemKind::Folder => text.push('d'),
            ItemKind::File => text.push('f'),
        }
    }
}

impl Show for Name {
    ghost shown = { item_name_text };

    #[tactic(auto, unfolding(crate::specs::Lines::item_name_text))]
    fn push_to(&self, text: &mut String) -> Result<(), AllocError> {
        push_name(text, self.bytes())
    }
}

#[tactic(auto, unfolding(crate::specs::Lines::item_name_text))]
fn push_name(text: &mut String, name: &[u8]) -> Result<(), AllocError>
    ensures { OnOk result (Gains text.old text.new (item_name_text name.now)) }
{
    for character in name {
        push_name_character(text, *character)?;
    }
    Ok(())
}

#[tactic(auto, unfolding(crate::specs::Lines::item_name_character))]
fn push_name_character(text: &mut String, character: u8) -> Result<(), AllocError>
    ensures { OnOk result (Gains text.old text.new (item_name_character character)) }
{
    if character < 0x20 || character > 0x7e {
        text.push('\\')?;
        return push_hex_byte(text, character);
    }
    text.push(char::from(character))
}

/// Appends a space and a value.
#[tactic(auto, unfolding(crate::specs::Answers::spaced))]
fn push_spaced<S: Show + Drop>(text: &mut String, value: S) -> Result<(), AllocError>
    ensures { OnOk result (Gains text.old text.new (spaced (S.shown value))) }
{
    text.push(' ')?;
    value.push_to(text)
}

#[tactic(auto, unfolding(crate::specs::Answers::place_text))]
fn push_place(text: &mut String, info: &Info) -> Result<(), AllocError>
    ensures { OnOk result (Gains text.old text.new (place_text info.now)) }
{
    push_spaced(text, info.id)?;
    push_spaced(text, info.parent)?;
    push_spaced(text, info.created)?;
    push_spaced(text, info.modified)?;
    push_spaced(text, info.backup)
}

#[tactic(auto, unfolding(crate::specs::Answers::size_text))]
fn push_size(text: &mut String, kind: ItemKind, info: &Info) -> Result<(), AllocError>
    ensures { OnOk result (Gains text.old text.new (size_text kind info.now)) }
{
    match kind {
        ItemKind::Folder => {
            push_spaced(text, info.valence)?;
            push_spaced(text, 0u32)
        }
        ItemKind::File => {
            push_spaced(text, info.data_len)?;
            push_spaced(text, info.res_len)
        }
    }
}

/// Appends an item's text.
#[tactic(auto, unfolding(crate::specs::Answers::item_text))]
fn push_item(text: &mut String, info: &Info) -> Result<(), AllocError>
    ensures { OnOk result (Gains text.old text.new (item_text info.now)) }
{
    info.kind.push_to(text)?;
    push_place(text, info)?;
    push_spaced(text, Flag(info.locked))?;
    push_spaced(text, Flag(info.has_id))?;
    push_size(text, info.kind, info)?;
    push_spaced(text, Hex(&info.finder))?;
    push_spaced(text, info.name)
}

/// An item as text.
#[derive(Drop)]
struct ShownItem<'a>(&'a Info);

impl Show for ShownItem<'_> {
    ghost shown = { λ item. item_text item.0.now };

    fn push_to(&self, text: &mut String) -> Result<(), AllocError> {
        push_item(text, self.0)
    }
}

#[tactic(auto, unfolding(crate::specs::Answers::listed_item))]
fn push_listed_item(text: &mut String, info: &Info) -> Result<(), AllocError>
    ensures { OnOk result (Gains text.old text.new (listed_item info.now)) }
{
    text.push_str("\n\t")?;
    push_item(text, info)
}

#[tactic(auto, unfolding(crate::specs::Answers::listed_items))]
fn push_listed_items(text: &mut String, items: &[Info]) -> Result<(), AllocError>
    ensures { OnOk result (Gains text.old text.new (listed_items items.now)) }
{
    for item in items {
        push_listed_item(text, item)?;
    }
    Ok(())
}

#[tactic(auto, unfolding(crate::specs::Answers::bytes_text))]
fn push_bytes(text: &mut String, bytes: &[u8]) -> Result<(), AllocError>
    ensures { OnOk result (Gains text.old text.new (bytes_text bytes.now)) }
{
    match bytes {
        [] => Ok(()),
        [_, ..] => push_spaced(text, Hex(bytes)),
    }
}

/// Appends a word and two numbers.
fn push_numbers(text: &mut String, word: &str, first: u32, second: u32) -> Result<(), AllocError>
    ensures { OnOk result (Gains text.old text.new
        (word.now ++ spaced (decimal first) ++ spaced (decimal second))) }
{
    text.push_str(word)?;
    push_spaced(text, first)?;
    push_spaced(text, second)
}

/// Appends a value, and after a list its items.
#[tactic(auto, unfolding(crate::specs::Answers::value_text))]
fn push_value(text: &mut String, value: &Value) -> Result<(), AllocError>
    ensures { OnOk result (Gains text.old text.new (value_text value.now)) }
{
    match value {
        Value::Nothing => text.push('-'),
        Value::Id(id) => {
            text.push_str("id")?;
            push_spaced(text, *id)
        }
        Value::One(info) => {
            text.push_str("info")?;
            push_spaced(text, ShownItem(info))
        }
        Value::Many(items) => {
            let items = items.as_slice();
            text.push_str("list")?;
            push_spaced(text, items.len() as u64)?;
            push_listed_items(text, items)
        }
        Value::Bytes(bytes) => {
            text.push_str("bytes")?;
            push_bytes(text, bytes.as_slice())
        }
        Value::Full { free, depth } => push_numbers(text, "full", *free, *depth),
        Value::Room { free, wanted } => push_numbers(text, "room", *free, *wanted),
        Value::ExtentNodes { free, depth } => push_numbers(text, "full", *free, *depth),
        Value::Place { dir, name } => {
            text.push_str("place")?;
            push_spaced(text, *dir)?;
            push_spaced(text, *name)
        }
    }
}

/// A text as it is.
#[derive(Drop)]
struct Plain<'a>(&'a str);

impl Show for Plain<'_> {
    ghost shown = { λ plain. plain.0.now };

    fn push_to(&self, text: &mut String) -> Result<(), AllocError> {
        text.push_str(self.0)
    }
}

/// Appends the lines of an answer, as `reply_text` has them. The caller is any value with a printed form.
#[tactic(auto, unfolding(crate::specs::Answers::reply_text))]
pub fn push_reply<S: Show + Drop>(
    text: &mut String,
    who: S,
    number: u64,
    reply: &Reply,
) -> Result<(), AllocError>
    ensures { OnOk result (Gains text.old text.new (reply_text (S.shown who) number reply.now)) }
{
    who.push_to(text)?;
    text.push('\t')?;
    number.push_to(text)?;
    text.push('\t')?;
    reply.code.push_to(text)?;
    text.push('\t')?;
    push_value(text, &reply.value)?;
    text.push('\n')
}

/// The lines of an answer: the worker (or `v` and the viewer), the number of the call among its own, the code and the value,
/// separated by tabs; after a list, a line for each item. Each line ends with a line feed.
pub fn reply_text(
    alloc: Global,
    who: &str,
    number: u64,
    reply: &Reply,
) -> Result<String, AllocError>
    ensures { IfOk result (λ text. string_bytes text ≡ reply_text who.now number reply.now) }
{
    let mut text = String::new(alloc);
    push_reply(&mut text, Plain(who), number, reply)?;
    Ok(text)
}

//! The lines of a folder's children.
ghost use Rattle.std.specs.Prelude.{◌≡◌, IfOk, OnOk, string_bytes};
ghost use Rattle.hfs_source.specs.Images.{OfEach};
ghost use Rattle.hfs_commands.specs.Listing.{HasFolderLines, IsFolderStatus, child_line, child_lines, code_line, list_lines, list_status, tabbed, tabbed_sizes};
ghost use Rattle.hfs_texts.specs.Texts.{Gains};

use crate::fault::Status;
use hfs_image::SeenImage;
use hfs_model::{Info, ItemKind, Reply, Value};
use hfs_source::PlacedBlocks;
use hfs_texts::{Show, push_line};
use std::alloc::{AllocError, Global};

/// Appends a tab and a value.
#[tactic(auto, unfolding(crate::specs::Listing::tabbed))]
fn push_tabbed<S: Show + Drop>(text: &mut String, value: S) -> Result<(), AllocError>
    ensures { OnOk result (Gains text.old text.new (tabbed (S.shown value))) }
{
    text.push('\t')?;
    value.push_to(text)
}

#[tactic(auto, unfolding(crate::specs::Listing::tabbed_sizes))]
fn push_sizes(text: &mut String, kind: ItemKind, info: &Info) -> Result<(), AllocError>
    ensures { OnOk result (Gains text.old text.new (tabbed_sizes kind info.now)) }
{
    match kind {
        ItemKind::Folder => {
            push_tabbed(text, info.valence)?;
            push_tabbed(text, 0u32)
        }
        ItemKind::File => {
            push_tabbed(text, info.data_len)?;
            push_tabbed(text, info.res_len)
        }
    }
}

/// Appends a child's line.
#[tactic(auto, unfolding(crate::specs::Listing::child_line))]
fn push_child(text: &mut String, info: &Info) -> Result<(), AllocError>
    ensures { OnOk result (Gains text.old text.new (child_line info.now)) }
{
    info.kind.push_to(text)?;
    push_tabbed(text, info.id)?;
    push_sizes(text, info.kind, info)?;
    push_tabbed(text, info.name)?;
    text.push('\n')
}

#[tactic(auto, unfolding(crate::specs::Listing::child_lines))]
fn push_children(text: &mut String, items: &[Info]) -> Result<(), AllocError>
    ensures { OnOk result (Gains text.old text.new (child_lines items.now)) }
{
    for item in items {
        push_child(text, item)?;
    }
    Ok(())
}

/// The line of a reply's code.
#[tactic(auto, unfolding(crate::specs::Listing::code_line))]
pub fn code_text(alloc: Global, reply: &Reply) -> Result<String, AllocError>
    ensures { IfOk result (λ text. string_bytes text ≡ code_line reply.now) }
{
    let mut text = String::new(alloc);
    push_line(&mut text, "code", reply.code)?;
    Ok(text)
}

/// The exit status and the lines for a reply to List: 0 and a line for each child in the reply's order, or 3 and the code. Fails
/// only when out of memory.
pub fn children_text(alloc: Global, reply: &Reply) -> Result<(u8, String), AllocError>
    ensures status { IfOk result (λ told. told.0 ≡ list_status reply.now) }
    ensures lines { IfOk result (λ told. string_bytes told.1 ≡ list_lines reply.now) }
{
    match &reply.value {
        Value::Many(items) => {
            let mut text = String::new(alloc);
            push_children(&mut text, items.as_slice())?;
            Ok((Status::Done.number(), text))
        }
        _ => Ok((Status::CallRefused.number(), code_text(alloc, reply)?)),
    }
}

/// Lists a folder by its ID, and returns the exit status and the lines: 0 and a line for each child in name order, or 3 and the
/// call's code. This holds for the volume of every image consistent with the bytes read from the opened one. Fails only when out
/// of memory.
pub fn seen_list_text<S: PlacedBlocks + Drop>(
    alloc: Global,
    image: &SeenImage<S>,
    dir: u32,
) -> Result<(u8, String), AllocError>
    ensures status { IfOk result (λ told. OfEach (S.Holds image.now) (IsFolderStatus dir told.0)) }
    ensures lines { IfOk result (λ told. OfEach (S.Holds image.now) (HasFolderLines dir told.1)) }
{
    let reply = image.list(alloc, dir)?;
    match children_text(alloc, &reply) {
        Ok(told) => Ok(told),
        Err(refused) => Err(refused),
    }
}

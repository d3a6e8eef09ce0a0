//! The items of a new volume, as far as its size depends on them.
ghost use Rattle.std.specs.Prelude.{◌≡◌, IfOk, map};
ghost use Rattle.hfs_put_sources.specs.Plans.{is_folder};
ghost use Rattle.hfs_word_make.specs.Items.{name_len, new_item, new_item_of};

use hfs_fields::Name;
use hfs_format::{NewFile, NewItem};
use hfs_put_plan::EntryKind;
use hfs_put_sources::{ItemPlan, Look, SourceItem};
use std::alloc::{AllocError, Global};

/// Whether it exists and is a folder.
fn is_folder(own: Option<Look>) -> bool
    ensures { result ≡ is_folder own }
{
    match own {
        None => false,
        Some(look) => match look.kind {
            EntryKind::File(_) => false,
            EntryKind::Folder => true,
            EntryKind::Other => false,
        },
    }
}

/// How many characters a name has; 0 if there is no name.
fn name_len(name: Option<Name>) -> u8
    ensures { result ≡ name_len name }
{
    match name {
        None => 0,
        Some(name) => name.bytes().len() as u8,
    }
}

/// An item of a host, as far as the volume's size depends on its plan.
fn new_item(plan: &ItemPlan) -> NewItem
    ensures { result ≡ new_item plan.now }
{
    let name_len = name_len(plan.name);
    if is_folder(plan.own) {
        NewItem::Folder(name_len)
    } else {
        NewItem::File(NewFile {
            name_len,
            data_len: plan.data_fork.len,
            resource_len: plan.resource_fork.len,
        })
    }
}

/// The items of a host's folders and files, one by one. Error: memory was refused.
pub fn new_items(alloc: Global, items: &[SourceItem]) -> Result<Vec<NewItem>, AllocError>
    ensures { IfOk result (λ new. new.items ≡ map new_item_of items.now) }
{
    let mut new = Vec::new(alloc);
    for item in items {
        new.push(new_item(&item.plan()))?;
    }
    Ok(new)
}

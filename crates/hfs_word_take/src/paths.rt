//! The host paths of items.
ghost use Rattle.std.specs.Prelude.{◌≡◌, IfOk, string_bytes};
ghost use Rattle.hfs_word_take.specs.Items.{folders_text, names_between};

use hfs_fields::Name;
use hfs_texts::push_host_name;
use std::alloc::{AllocError, Global};

/// The names between the root's and an item's own.
fn names_between(path: &[Name]) -> &[Name]
    ensures { result.now ≡ names_between path.now }
{
    let count = path.len();
    if count < 2 {
        return &[];
    }
    &path[1..count - 1]
}

/// The path of the folder that holds an item, from the one below the root down, with a slash after each name.
#[tactic(auto, unfolding(crate::specs::Items::folders_text))]
pub(crate) fn folders_text(alloc: Global, path: &[Name]) -> Result<String, AllocError>
    ensures { IfOk result (λ text. string_bytes text ≡ folders_text (names_between path.now)) }
{
    let mut text = String::new(alloc);
    for name in names_between(path) {
        push_host_name(&mut text, name.bytes())?;
        text.push('/')?;
    }
    Ok(text)
}

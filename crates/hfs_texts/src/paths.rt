//! Paths.
ghost use Rattle.std.specs.Prelude.{◌≡◌, OnOk};
ghost use Rattle.hfs_texts.specs.Gains.{Gains};
ghost use Rattle.hfs_texts.specs.MacPaths.{host_path, mac_path, mac_path_characters};

use crate::characters::push_characters;
use crate::hosts::push_host_name;
use crate::plain::push_plain_text;
use hfs_fields::Name;
use std::alloc::AllocError;

/// Appends the Mac path of an item, from the names that lead to it, starting with the root's: their plain texts, separated by
/// `:`.
#[tactic(auto, unfolding(crate::specs::MacPaths::mac_path))]
pub fn push_mac_path(text: &mut String, names: &[Name]) -> Result<(), AllocError>
    ensures { OnOk result (Gains text.old text.new (mac_path names.now)) }
{
    let [root, below @ ..] = names else {
        return Ok(());
    };
    push_plain_text(text, root.bytes())?;
    for name in below {
        text.push(':')?;
        push_plain_text(text, name.bytes())?;
    }
    Ok(())
}

/// Appends the same path with the characters themselves.
#[tactic(auto, unfolding(crate::specs::MacPaths::mac_path_characters))]
pub fn push_mac_path_characters(text: &mut String, names: &[Name]) -> Result<(), AllocError>
    ensures { OnOk result (Gains text.old text.new (mac_path_characters names.now)) }
{
    let [root, below @ ..] = names else {
        return Ok(());
    };
    push_characters(text, root.bytes())?;
    for name in below {
        text.push(':')?;
        push_characters(text, name.bytes())?;
    }
    Ok(())
}

/// Appends the host path of an item, from the names that lead to it, starting below the root: their host names, separated by `/`.
/// The root's is empty.
#[tactic(auto, unfolding(crate::specs::MacPaths::host_path))]
pub fn push_host_path(text: &mut String, names: &[Name]) -> Result<(), AllocError>
    ensures { OnOk result (Gains text.old text.new (host_path names.now)) }
{
    let [first, below @ ..] = names else {
        return Ok(());
    };
    push_host_name(text, first.bytes())?;
    for name in below {
        text.push('/')?;
        push_host_name(text, name.bytes())?;
    }
    Ok(())
}

//! What a refusal means, for someone at a terminal.

use hfs_check::MountFault;
use hfs_commands::{Hint, ShownPath};
use std::io::IsTerminal;

/// Prints on standard error what a refusal means and which word helps, if that is a terminal. If nothing can be written there,
/// the program goes on.
pub fn tell_hint(rt: &HostRuntime, why: MountFault) {
    if !rt.stderr().is_terminal() {
        return;
    }
    if let Some(hint) = Hint::of(why) {
        let _printed = eprintln!(rt; "{hint}");
    }
}

/// Prints on standard error that the sum of the disk copy in this file is wrong, if it is. If nothing can be written there, the
/// program goes on.
pub fn tell_sum(rt: &HostRuntime, path: &str, is_wrong: bool) {
    if is_wrong {
        let _printed = eprintln!(rt; "{}: the sum of the disk copy is wrong", ShownPath(path));
    }
}

//! Paths of the entries of a host's folder.
ghost use Rattle.std.specs.Prelude.{◌≡◌, IfOk, MatchOption, None, Some, string_bytes};
ghost use Rattle.hfs_put_sources.specs.Paths.{behind_mark, double_path, ends_in_slash, entry_path};

use std::alloc::{AllocError, Global};

/// Whether a path ends in a slash.
fn ends_in_slash(path: &str) -> bool
    ensures { result ≡ ends_in_slash path.now }
{
    let path = path.as_bytes();
    path.len() >= 1 && path[path.len() - 1] == b'/'
}

/// The path of the entry with this name in a folder, whose path may end in a slash.
#[tactic(auto, unfolding(crate::specs::Paths::entry_path))]
pub fn entry_path(alloc: Global, folder: &str, name: &str) -> Result<String, AllocError>
    ensures { IfOk result (λ path. string_bytes path ≡ entry_path folder.now name.now) }
{
    if ends_in_slash(folder) {
        format!(in alloc; "{folder}{name}")
    } else {
        format!(in alloc; "{folder}/{name}")
    }
}

/// The path of the file that belongs, by its name, to the entry with this name in a folder.
#[tactic(auto, unfolding(crate::specs::Paths::double_path))]
pub(crate) fn double_path(alloc: Global, folder: &str, name: &str) -> Result<String, AllocError>
    ensures { IfOk result (λ path. string_bytes path ≡ double_path folder.now name.now) }
{
    if ends_in_slash(folder) {
        format!(in alloc; "{folder}._{name}")
    } else {
        format!(in alloc; "{folder}/._{name}")
    }
}

/// What follows `._` in a name that begins with it.
pub(crate) fn behind_mark(name: &str) -> Option<&str>
    ensures { MatchOption result (behind_mark name.now ≡ None)
        (λ found. behind_mark name.now ≡ Some found.now) }
{
    name.strip_prefix("._")
}

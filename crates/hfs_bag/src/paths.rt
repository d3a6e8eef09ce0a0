//! The paths of what lies on a shelf of files.
ghost use Rattle.std.specs.Prelude.{◌≡◌, IfOk, string_bytes};
ghost use Rattle.hfs_bag.specs.ShelfPaths.{new_folder_path, path_within};

use std::alloc::{AllocError, Global};

/// The path of the folder in which a folder is written, with this number in its name.
#[tactic(auto, unfolding(crate::specs::ShelfPaths::new_folder_path))]
pub(crate) fn new_folder_path(alloc: Global, path: &str, number: u32) -> Result<String, AllocError>
    ensures { IfOk result (λ name. string_bytes name ≡ new_folder_path path.now number) }
{
    format!(in alloc; "{path}.{number}.new")
}

/// A path within a folder.
#[tactic(auto, unfolding(crate::specs::ShelfPaths::path_within))]
pub(crate) fn path_within(alloc: Global, folder: &str, path: &str) -> Result<String, AllocError>
    ensures { IfOk result (λ name. string_bytes name ≡ path_within folder.now path.now) }
{
    format!(in alloc; "{folder}/{path}")
}

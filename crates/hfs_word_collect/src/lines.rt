//! What is printed about images.
ghost use Rattle.std.specs.Prelude.{◌≡◌, IfOk, string_bytes};
ghost use Rattle.hfs_word_collect.specs.Lines.{comparison_line, image_line};

use crate::ImageCounts;
use hfs_commands::ShownPath;
use hfs_database::Comparison;
use std::alloc::{AllocError, Global};

/// The line of an image that was collected. Fails only when out of memory.
#[tactic(auto, unfolding(crate::specs::Lines::image_line))]
pub fn image_line(alloc: Global, path: &str, counts: &ImageCounts) -> Result<String, AllocError>
    ensures { IfOk result (λ line. string_bytes line ≡ image_line path.now counts.now) }
{
    let ImageCounts {
        volumes,
        refused,
        files,
        damaged,
        wrong_sums: _,
    } = *counts;
    let path = ShownPath(path);
    let line = format!(in alloc;
        "{path}\tvolumes {volumes}\trefused {refused}\tfiles {files}\tdamaged {damaged}\n"
    )?;
    Ok(line)
}

/// The line of an image that was compared. Fails only when out of memory.
#[tactic(auto, unfolding(crate::specs::Lines::comparison_line))]
pub fn comparison_line(alloc: Global, path: &str, found: Comparison) -> Result<String, AllocError>
    ensures { IfOk result (λ line. string_bytes line ≡ comparison_line path.now found) }
{
    let (word, path) = (found.word(), ShownPath(path));
    let line = format!(in alloc; "{word}\t{path}\n")?;
    Ok(line)
}

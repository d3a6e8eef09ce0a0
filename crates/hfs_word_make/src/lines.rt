//! The lines that are printed of what was made.
ghost use Rattle.std.specs.Prelude.{◌≡◌, IfOk, string_bytes};
ghost use Rattle.hfs_word_make.specs.Lines.{made_lines};

use hfs_texts::push_line;
use hfs_word_put::PutSums;
use std::alloc::{AllocError, Global};

/// The lines of what came into a new volume: as `put` has them, under another word. The only error is want of memory.
#[tactic(auto, unfolding(crate::specs::Lines::made_lines))]
pub fn made_lines(alloc: Global, sums: &PutSums) -> Result<String, AllocError>
    ensures { IfOk result (λ text. string_bytes text ≡ made_lines sums.now) }
{
    let mut text = String::new(alloc);
    text.push_str("made\n")?;
    push_line(&mut text, "files", sums.files)?;
    push_line(&mut text, "folders", sums.folders)?;
    push_line(&mut text, "bytes", sums.bytes)?;
    push_line(&mut text, "free", sums.free)?;
    Ok(text)
}

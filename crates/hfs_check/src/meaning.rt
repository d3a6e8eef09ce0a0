//! What a refusal means, for someone who only has a page to read.
ghost use Rattle.std.specs.Prelude.{OnOk};
ghost use Rattle.hfs_texts.specs.Texts.{Gains};
ghost use Rattle.hfs_check.specs.Hints.{meaning_text};

use crate::MountFault;
use crate::hint::Hint;
use hfs_texts::Show;
use std::alloc::AllocError;

/// Appends what a refusal means: its hint, or, if there is none, the lengths that a volume may have. At an error, a part of it
/// may have been appended.
pub fn push_meaning(text: &mut String, why: MountFault) -> Result<(), AllocError>
    ensures { OnOk result (Gains text.old text.new (meaning_text why)) }
{
    match Hint::of(why) {
        Some(hint) => hint.push_to(text),
        None => text.push_str("a volume has at least 1,536 bytes and at most 2,147,483,648"),
    }
}

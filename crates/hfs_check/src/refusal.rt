//! The text of an image's fault.
ghost use Rattle.std.specs.Prelude.{Some};
ghost use Rattle.hfs_check.specs.Refusals.{refusal_text};

use crate::MountFault;
use hfs_texts::Show;
use std::alloc::AllocError;
use std::fmt;

/// Why an image is refused, as text.
#[derive(Clone, Copy)]
pub struct Refusal(pub MountFault);

impl fmt::Display for Refusal {
    ghost output = { λ refusal. Some (refusal_text refusal.0) };

    #[tactic(auto, unfolding(crate::specs::Refusals::refusal_text))]
    fn fmt<W: fmt::Write>(&self, f: &mut fmt::Formatter<W>) -> fmt::Result {
        match self.0 {
            MountFault::TooLarge => write!(f, "image too large"),
            MountFault::Short => write!(f, "image too short"),
            MountFault::NoMacDisk => write!(f, "not an HFS volume (-57)"),
            MountFault::BadMdb(test) => write!(f, "bad master directory block M{test} (-60)"),
            MountFault::Check { number, place } => write!(f, "check C{number} at {place}"),
            MountFault::Memory => write!(f, "out of memory"),
        }
    }
}

impl Show for Refusal {
    ghost shown = { λ refusal. refusal_text refusal.0 };

    fn push_to(&self, text: &mut String) -> Result<(), AllocError> {
        write!(text, "{}", *self)
    }
}

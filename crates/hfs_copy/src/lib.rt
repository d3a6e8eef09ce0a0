//! The counts of an image that is read on demand: what a repair changes of it, what it reports, and what is then refused.
//!
//! The blocks that calls read and write, and what holds for an image of which only these were read.
//!
//! Which blocks of a changed volume go out: those that are other than they were, and those of zeros of some runs.
#![tactic(auto)]

mod finding;
mod gathering;
mod given_back;
mod keeping;
mod laws;
mod laying;
mod mending;
mod mounting;
mod noted;
mod opening;

pub use crate::keeping::{keep_changed, kept_blocks};
pub use crate::laws::{changes_carry_over, copies_answer, kept_forks_are_alike};
pub use crate::mending::{Mended, mend_needed};
pub use crate::mounting::mount_read;
pub use crate::noted::FailingBlocks;
pub use crate::opening::{WorkingVolume, open_source, open_working};

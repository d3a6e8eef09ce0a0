//! Volumes of any size for tests, mounted, calls on them from text, and where forks lie; a writer that fails; and in `refused`
//! what a program needs that runs while memory is refused. No function here promises anything, so that no test reads the
//! contracts of these calls again: a test compares what it finds with values that were written by hand.
#![tactic(auto)]

mod files;
pub mod refused;
mod volumes;
mod writers;

pub use crate::files::{changed_after, lies_after};
pub use crate::volumes::mounted;
pub use crate::writers::LimitedWriter;

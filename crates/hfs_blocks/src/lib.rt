//! Blocks of 512 bytes, runs of them, and patches that are laid over them.
#![tactic(auto)]

mod blocks;
mod image;
mod patch;
mod patched;
mod places;
mod run;
mod table;

pub use blocks::Blocks;
pub use image::ImageBytes;
pub use patch::Patch;
pub use patched::Patched;
pub use run::{Run, block_of, rest_of_run};

//! A mounted volume: its image as it was opened and as it is now, and the calls of the File Manager on it.
//!
//! An image in a file with changed blocks laid over it, written in one pass: it is read piece by piece, and is never whole in
//! memory. Or a whole file with such an image in it, and with the sum of the changed image if the file has one: then the image is
//! read twice.
#![tactic(auto)]

mod base;
mod extent_bytes;
mod fork;
mod image;
mod image_nodes;
mod in_file;
mod laying;
mod mounting;
mod open_fork;
mod range;
mod repairing;
mod replies;
mod saving;
mod span;
mod volume;
mod writing;
mod written;

pub use crate::in_file::{ImagePlace, sum_place, write_file_with};
pub use crate::writing::{PatchedFault, write_patched};
pub use base::{Base, BaseBlocks};
pub use hfs_check::{Alternate, MountFault, Report, report};
pub use hfs_format::{FormatFault, FormatPlan, format};
pub use hfs_repair::{Fix, FixPlace};
pub use image::{Image, ImageBlocks};
pub use mounting::{Refused, mount, mount_sound};
pub use open_fork::{OpenFork, Opened};
pub use repairing::mount_repaired;
pub use saving::SaveFault;
pub use volume::Volume;

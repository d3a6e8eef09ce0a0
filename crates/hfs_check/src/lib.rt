//! The checks of a volume, the volume that it holds, and the report on it.
//!
//! Why an image is refused and what that means, in words.
#![tactic(auto)]

mod catalog_files;
mod checking;
mod hint;
mod laws;
mod mdb_check;
mod meaning;
mod mount_fault;
mod number_checks;
mod record_checks;
mod refusal;
mod reported;
mod reporting;
mod tree_checks;
mod trees;

pub use crate::checking::{SoundVolume, check_blocks, check_image};
pub use crate::laws::{
    agreements_join, bytes_stay, bytes_stay_but, no_image_fault, sound_images_are_lawful,
};
pub use crate::mdb_check::{mdb_fault, read_mdb};
pub use crate::mount_fault::MountFault;
pub use crate::record_checks::check_catalog_records;
pub use crate::reported::{Alternate, Report};
pub use crate::reporting::{refused_report, report, report_blocks};
pub use crate::tree_checks::check_extents_tree;
pub use crate::trees::VolumeTrees;
pub use hint::Hint;
pub use meaning::push_meaning;
pub use refusal::Refusal;

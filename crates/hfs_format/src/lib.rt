//! New volumes: their plan, where their parts lie, and their image.
//!
//! How large a new volume and its trees are, from what is typed.
//!
//! The plan of a new volume for all its items: its name, its size, and its catalog.
#![tactic(auto)]

mod bit_row;
mod blocks;
mod catalog;
mod format_fault;
mod format_laws;
mod format_plan;
mod formatting;
mod items;
mod layout;
mod least;
mod made_blocks;
mod make_fault;
mod make_plan;
mod mdb_block;
mod name;
mod new_image;
mod new_volume;
mod node_block;
mod nodes;
#[cfg(test)]
mod plan_tests;
mod planned_image;
mod root_leaf;
mod size;
#[cfg(test)]
mod tests;
#[cfg(test)]
mod tests_of_faults;
#[cfg(test)]
mod tests_of_trees;
mod tree_header;
mod typed_size;
mod volume_name;
mod volume_size;
mod wanted;

pub use crate::blocks::blocks_of;
pub use crate::catalog::catalog_nodes;
pub use crate::format_fault::FormatFault;
pub use crate::format_laws::{new_images_are_sound, new_images_hold_new_volumes};
pub use crate::format_plan::FormatPlan;
pub use crate::formatting::format;
pub use crate::items::{NewFile, NewItem};
pub use crate::make_fault::MakeFault;
pub use crate::make_plan::plan_volume;
pub use crate::name::{NameSource, read_name};
pub use crate::new_image::NewImage;
pub use crate::new_volume::NewVolume;
pub use crate::nodes::chosen_nodes;
pub use crate::planned_image::PlannedImage;
pub use crate::size::chosen_blocks;
pub use crate::typed_size::read_size;
pub use crate::volume_name::VolumeName;
pub use crate::volume_size::VolumeSize;

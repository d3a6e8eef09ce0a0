//! The counts of a volume: those that are wrong in an image in which nothing else is, and the image with the right ones.
#![tactic(auto)]

mod byte_put;
mod catalog_tree;
mod exchanging;
mod extents_tree;
mod field_value;
mod fix_list;
mod fixed;
mod headed_nodes;
mod header_numbers;
mod mdb_numbers;
mod mendings;
mod repair_laws;
mod right_counts;
mod tree_file;
mod valences;
mod wrong;
mod wrong_number;

pub use byte_put::BytePut;
pub use catalog_tree::mendable_catalog_file;
pub use exchanging::{exchange, exchange_back};
pub use fixed::{Fix, FixPlace};
pub use mendings::Mending;
pub use repair_laws::{repair_keeps_others, repair_keeps_sound_images};

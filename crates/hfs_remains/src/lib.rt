//! What remains of a damaged volume: a directory, the blocks and nodes that exist, and the records in them.
#![tactic(auto)]

mod allocation;
mod catalog;
mod directory;
mod fork_extents;
mod in_use;
mod items;
mod laws;
mod leaf_records;
mod nodes;
mod overflow;
mod remains;
mod sets;
mod strays;
mod tree_file;

pub use allocation::{is_there, start_of};
pub use catalog::{
    FoundRecord, catalog_records, is_catalog_right, is_catalog_tree_right, looks_elsewhere,
};
pub use directory::{
    Beginning, beginning_of, directory_in, directory_of, read_mdb_at, tree_begins, usual_directory,
};
pub use fork_extents::catalog_extents;
pub use in_use::NodesInUse;
pub use items::items_of;
pub use laws::{
    blocks_have_few_items, directories_are_read, items_are_counted, items_are_few,
    records_are_read, sound_catalog_is_found, sound_directory_is_found, sound_items_are_found,
    sound_overflow_is_found,
};
pub use leaf_records::{LeafRecord, all_leaf_records};
pub use nodes::{FileNodes, FirstNodes};
pub use overflow::{OverflowRecord, is_extents_tree_right, overflow_records};
pub use remains::{Remains, find_remains};
pub use tree_file::file_blocks;

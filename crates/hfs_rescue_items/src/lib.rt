//! What remains of a damaged volume as the source of a bag: its items by their paths, the bytes of their forks, and its tables.
//!
//! What remains of a damaged volume, as the words that read show it: rows, paths and forks.
#![tactic(auto)]

mod came;
mod folders;
mod fork_reading;
mod fork_writing;
mod forks;
mod found;
mod items;
mod kinds;
mod laws;
mod lines;
mod looking;
mod numbered_folders;
mod paths;
mod pieces;
mod plan;
mod reading;
mod rows;
mod sums;
mod table_lines;
mod tables;
mod told;

pub use fork_writing::write_fork;
pub use forks::write_item_fork;
pub use found::Found;
pub use items::RescueItems;
pub use laws::{
    folders_come_first, only_things_are_made, payloads_have_their_sums, plans_count_items,
};
pub use lines::push_remains_line;
pub use looking::{field_name, names_at};
pub use numbered_folders::home_number;
pub use paths::{PathEnd, path_end};
pub use rows::Selection;
pub use sums::{FoundSums, sums_of};
pub use tables::{TableFault, write_rows};
pub use told::told_of;

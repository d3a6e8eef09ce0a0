//! What is to be put on a disk from folders of a host: which entries of a folder make an item, the item's name, what is kept of
//! it, why it can't be put, how it is placed, and by which calls.
//!
//! The calls of the File Manager that put files of a host on a disk.
#![tactic(auto)]

mod calls;
mod dates;
mod entries;
mod facts;
mod items;
mod laws;
mod names;
mod over;
mod reasons;
mod seen;
mod sorting;
mod steps;
mod twins;

pub use crate::calls::{ENDING_CALLS, MAKING_CALLS, ending_call, making_call};
pub use crate::dates::{date_before_1970, date_since_1970};
pub use crate::entries::{Entry, EntryKind, FolderItem, entry_order, folder_items};
pub use crate::facts::{ItemFacts, ToldFacts, double_facts, macbinary_facts};
pub use crate::items::PutItem;
pub use crate::laws::{
    calls_are_few, forks_are_theirs, laid_forks_are_zeros, new_items_are_named, put_is_laid,
};
pub use crate::names::{put_name, read_put_name};
pub use crate::over::{Placing, Standing, how_placed};
pub use crate::reasons::{Findings, Why, is_too_large, why_not};
pub use crate::sorting::sort_entries;
pub use crate::steps::{FileStep, ForkPiece, file_steps, fork_piece};
pub use crate::twins::later_twins;

//! What remains of files: records as things that have a place, forks, their blocks and bytes, and the verdicts on them.
//!
//! What is found of a damaged image: its items, by its directory, with their places and the bytes of their forks.
#![tactic(auto)]

mod again;
mod chains;
mod codes;
mod finding;
mod findings;
mod finds;
mod finds_laws;
mod forks;
mod found_forks;
mod gathering;
mod looking;
mod needed;
mod owners;
mod records;
mod refused;
mod remains_laws;
mod salvage;
mod shares;
mod trees;
mod volume;
mod whole;

pub use chains::Chains;
pub use finding::find_in;
pub use findings::FoundFork;
pub use finds::Finds;
pub use finds_laws::needed_find_same;
pub use forks::Fork;
pub use found_forks::salvage_of;
pub use looking::{Unlooked, finds_of, look, look_reported};
pub use needed::{NeededFinds, needed_finds};
pub use records::{namings, things_of};
pub use refused::RefusedImage;
pub use remains_laws::{
    forks_are_their_blocks, found_are_things, records_have_own_places, sound_are_things,
    sound_forks_are_taken, sound_forks_are_whole, sound_items_have_ways, sound_names_are_own,
    sound_paths_are_host_paths, sound_things_are_items,
};
pub use salvage::{Salvage, usual_limit};
pub use shares::{FileShares, Share};
pub use trees::Trees;
pub use whole::{LookedImage, look_and_find};

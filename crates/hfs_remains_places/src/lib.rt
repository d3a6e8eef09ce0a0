//! Where each item that remains is put: things with places, their entries, chains of parents, and paths.
//!
//! The verdicts on the forks of a damaged volume, and their table.
#![tactic(auto)]

mod chains;
mod entries;
mod laws;
mod names;
mod numbers;
mod paths;
mod places;
mod placing;
mod remains_rows;
mod row_sets;
mod things;
mod verdict;
mod words;

pub use chains::doubled;
pub use laws::{
    folders_are_things, names_lead_down, paths_are_host_paths, paths_are_short, paths_tell_names,
    places_differ,
};
pub use places::Places;
pub use remains_rows::push_row;
pub use things::Thing;
pub use verdict::{Finding, Verdict};
pub use words::push_verdict;

//! What a call that changes a volume chooses in its catalog, and the edit that the call is.
#![tactic(auto)]

mod calls;
mod choosing;
mod choosing_delete;
mod choosing_file_ids;
mod choosing_moving;
mod choosing_renaming;
mod creating;
mod deleting;
mod editing;
mod file_ids;
mod forks;
mod moving;
mod new_places;
mod placed;
mod renaming;
mod room;
mod setting;

pub use editing::{Editing, Refusal};

//! What a file that is deleted gives back: its records of the extents tree, and the bits of its allocation blocks.
//!
//! Edits of the catalog: items and threads that are added, removed, changed and moved.
//!
//! Adding and removing records of the extents tree: the very first one, one below all others, and those at a fork's end.
//!
//! The extents of a fork whose number of allocation blocks changes.
//!
//! What a call that writes a fork needs of a volume: allocation blocks, and nodes of the extents tree.
//!
//! What changes to its records make of a sound volume: it stays sound, and holds what the model's step makes.
#![tactic(auto)]

mod adding_extents;
mod adding_fork_extents;
mod beginning;
mod bodies;
mod changing;
mod cuts;
mod cutting;
mod deletion;
mod dropping_extents;
mod dropping_items;
mod edge;
mod editing;
mod forks;
mod growing;
mod keys;
mod laws;
mod lengthening;
mod lone_leaf;
mod need;
mod new_items;
mod one_record;
mod records;
mod rekeying;
mod releasing;
mod room;
mod settings;
mod settling;
mod shortening;
mod threads;
mod threes;

pub use adding_extents::add;
pub use changing::change;
pub use cuts::{cut_all, cut_extents, surplus};
pub use cutting::cut_fork;
pub use deletion::deletions_are_steps;
pub use dropping_extents::drop_overflow;
pub use dropping_items::drop_item;
pub use forks::file_extents;
pub use growing::{NodesWanted, lengthen_fork};
pub use keys::thread_key;
pub use laws::catalog_edits_are_steps;
pub use lengthening::lengthen;
pub use need::{additions_leave_enough, extents_need};
pub use new_items::{add_dir, add_file};
pub use records::cut_records;
pub use rekeying::rekey;
pub use releasing::release_extents;
pub use room::{
    Growth, Supply, blocks_wanted, fork_want, fork_wants_are_told, set_eof_wants_are_told,
    write_fork_wants_are_told,
};
pub use settings::{set_record, set_record_at, set_valence, set_valence_at};
pub use shortening::{ShortFork, shorten_fork};
pub use threads::{add_thread, drop_thread};

//! The volume bitmap, the forks of files in the allocation blocks of a volume, and the checks of both.
//!
//! Allocation blocks that are added to a fork: which free blocks these are, and their bits in the volume bitmap.
//!
//! Bytes and zeros that are written over the allocation blocks of a fork.
//!
//! The changed blocks of an image: blocks by their numbers, and below them blocks of zeros, each of which takes a flag and no
//! bytes.
#![tactic(auto)]

mod again;
mod bitmap;
mod bits;
mod changed;
mod checks;
mod choosing;
mod claiming;
mod clearing;
mod counting;
mod extents;
mod files;
mod flagged;
mod flags;
mod fork;
mod fork_checks;
mod fork_kind;
mod fork_place;
mod fork_runs;
mod forks;
mod free_bits;
mod free_run_lists;
mod laying;
mod log;
mod lowest;
mod overflow;
mod owned;
mod owners;
mod parts;
mod pieces;
mod putting;
mod rows;
mod runs;
mod space;
mod tree_file;
mod zero_runs;

pub use bitmap::Bitmap;
pub use changed::{ChangedBlocks, ChangedOver};
pub use checks::is_tree_file;
pub use choosing::{Room, blocks_that_come};
pub use claiming::{claim, claim_extents};
pub use clearing::{Cleared, clear_fork};
pub use extents::{are_within, fork_extents};
pub use files::CatalogFile;
pub use fork::{read_fork, read_on};
pub use fork_checks::fork_fault;
pub use fork_kind::ForkKind;
pub use fork_place::ForkPlace;
pub use forks::write_fork;
pub use free_run_lists::free_runs;
pub use log::{WrittenLog, WrittenRuns};
pub use owned::owned_extents;
pub use space::{space_fault, stray_count};
pub use tree_file::tree_runs;
pub use zero_runs::{ZeroRuns, Zeroed, runs_from};

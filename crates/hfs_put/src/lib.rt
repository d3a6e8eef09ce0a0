//! Files of a host are laid on a mounted volume, with all calls that put them except those that write forks.
//!
//! What putting a list of items makes of an image of which only the working blocks were read.
//!
//! Putting a list of items on a mounted copy of an image: what is written, and where the bytes of its forks go.
//!
//! Bytes of an image with the forks of a host's files laid into it, read when they are needed.
//!
//! What a file holds after a list of a host's files and folders was put on the volume of an image in it.
#![tactic(auto)]

mod again;
mod beside;
mod calls;
mod decisions;
mod extent_runs;
mod faults;
mod file_laws;
mod file_places;
mod files;
mod folders;
mod fork;
mod fork_places;
mod image_laws;
mod laid;
mod laid_laws;
mod laying;
mod order;
mod piece;
mod placing;
mod putting;
mod reading;

pub use crate::again::look_again;
pub use crate::faults::LayFault;
pub use crate::file_laws::{
    laid_forks_are_arrivals, put_files_have_directory, put_files_hold_put, whole_forks_come,
};
pub use crate::files::{HostFiles, PlacedFiles};
pub use crate::fork_places::fork_runs;
pub use crate::image_laws::{
    alike_volumes_are_put_alike, differences_carry_over, laid_forks_are_read, saved_is_put,
};
pub use crate::laid::LaidForks;
pub use crate::laid_laws::laid_forks_laws;
pub use crate::laying::lay_items;
pub use crate::placing::{PlacedSources, RefusedItem, lock_code, place_sources};
pub use crate::putting::{PutBlocks, put_items};

//! Runs of scripts: an image is mounted and shared, workers make their calls and viewers read at the same time, and each line
//! of the script is answered.
//!
//! Runs of scripts on images of which only the blocks are read that calls read and write, and the forks that a script may read
//! or write.
//!
//! What the word `run` does: a script is read and run on an image, and its answers are written.
#![tactic(auto)]

mod answer_text;
mod closing;
mod codes;
mod extents;
mod forks;
mod given_back;
mod jobs;
mod laws;
mod made_files;
mod made_forks;
mod naming;
mod needed_running;
mod numbering;
mod pieces;
mod replies;
mod run_faults;
mod run_image;
mod running;
mod script_fault;
mod starting;
mod telling;
mod viewing;
mod written_answers;

pub use crate::forks::fetch_named_forks;
pub use crate::laws::{
    journals_have_the_codes, journals_have_the_lines, named_forks_are_the_images, saved_is_made,
    workers_read_the_image,
};
pub use crate::needed_running::{NeededRan, run_needed_at};
pub use hfs_shared::Gate;
pub use numbering::Asked;
pub use pieces::{Answers, Piece};
pub use replies::Replies;
pub use run_faults::run_fault;
pub use run_image::{RanImage, RefusedRun, RunImage, script_lines};
pub use running::{
    Ran, RanInPieces, run_script, run_script_at, run_volume_at, run_volume_in_pieces,
};
pub use script_fault::ScriptFault;
pub use written_answers::write_answers;
